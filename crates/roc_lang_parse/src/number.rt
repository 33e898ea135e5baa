//! Integers, each with the tokens behind it.

ghost use Rattle.std.specs.Prelude.{◌≡◌, pos};
ghost use Rattle.std.specs.Option.{option_map};
ghost use Rattle.roc_lang_parse.specs.Stuck.{head_is};
ghost use Rattle.roc_lang_parse.specs.Inner.Views.{ReadsAs, kind_view, token_views};
ghost use Rattle.roc_lang_parse.specs.Parts.{has_integer, small_integer, integer_at, bounded_at, negated, negated_at, signed_at, shards_at};

use crate::refusal::{Refusal, limit_fault, or_refuse, token_fault};
use crate::terminal::{begins_mark, mark};
use crate::token::{GREATEST_INTEGER, Kind, Token};

/// Whether an integer comes first.
pub(crate) fn begins_integer(tokens: &[Token]) -> bool
    ensures { result ≡ head_is has_integer (token_views tokens.now) }
{
    match tokens.first() {
        Some(token) => match &token.kind {
            Kind::Word(_) => false,
            Kind::Integer(_) => true,
            Kind::Mark(_) => false,
        },
        None => false,
    }
}

/// An integer below 2 ^ 63: the one above stands behind a `-` alone.
fn small_integer(kind: &Kind) -> Option<i64>
    ensures { result ≡ option_map pos (small_integer (kind_view kind.now)) }
{
    match kind {
        Kind::Word(_) => None,
        Kind::Integer(value) => i64::try_from(*value).ok(),
        Kind::Mark(_) => None,
    }
}

#[tactic(auto, unfolding(crate::specs::Parts::first_at))]
pub(crate) fn integer_of(tokens: &[Token]) -> Result<(i64, &[Token]), Refusal<'_>>
    ensures { ReadsAs (λ x. (x.0, token_views x.1.now)) result (integer_at (token_views tokens.now)) }
{
    match tokens.split_first() {
        Some((token, rest)) => match small_integer(&token.kind) {
            Some(value) => Ok((value, rest)),
            None => Err(token_fault(tokens)),
        },
        None => Err(token_fault(tokens)),
    }
}

/// An integer with a `-` before it.
fn negated(kind: &Kind) -> Option<i64>
    ensures { result ≡ negated (kind_view kind.now) }
{
    match kind {
        Kind::Word(_) => None,
        Kind::Integer(value) => 0i64.checked_sub_unsigned(*value),
        Kind::Mark(_) => None,
    }
}

#[tactic(auto, unfolding(crate::specs::Parts::first_at))]
fn negated_of(tokens: &[Token]) -> Result<(i64, &[Token]), Refusal<'_>>
    ensures { ReadsAs (λ x. (x.0, token_views x.1.now)) result (negated_at (token_views tokens.now)) }
{
    match tokens.split_first() {
        Some((token, rest)) => match negated(&token.kind) {
            Some(value) => Ok((value, rest)),
            None => Err(token_fault(tokens)),
        },
        None => Err(token_fault(tokens)),
    }
}

/// An integer, or a `-` and an integer.
#[tactic(auto, unfolding(crate::specs::Parts::signed_at))]
pub(crate) fn signed_of(tokens: &[Token]) -> Result<(i64, &[Token]), Refusal<'_>>
    ensures { ReadsAs (λ x. (x.0, token_views x.1.now)) result (signed_at (token_views tokens.now)) }
{
    if begins_mark(tokens, b'-') {
        let rest = or_refuse!(mark(tokens, b'-'));
        return negated_of(rest);
    }
    integer_of(tokens)
}

/// An integer below 2 ^ 63, without a sign.
fn small_value(kind: &Kind) -> Option<u64>
    ensures { result ≡ small_integer (kind_view kind.now) }
{
    match kind {
        Kind::Word(_) => None,
        Kind::Integer(value) => {
            if *value < GREATEST_INTEGER {
                Some(*value)
            } else {
                None
            }
        }
        Kind::Mark(_) => None,
    }
}

/// An integer within bounds.
#[tactic(auto, unfolding(crate::specs::Parts::bounded_at))]
pub(crate) fn bounded_of(
    least: u64,
    most: u64,
    tokens: &[Token],
) -> Result<(u64, &[Token]), Refusal<'_>>
    ensures { ReadsAs (λ x. (x.0, token_views x.1.now)) result (bounded_at least most (token_views tokens.now)) }
{
    match tokens.split_first() {
        Some((token, rest)) => match small_value(&token.kind) {
            Some(value) => {
                if least <= value && value <= most {
                    Ok((value, rest))
                } else {
                    Err(limit_fault(tokens))
                }
            }
            None => Err(token_fault(tokens)),
        },
        None => Err(token_fault(tokens)),
    }
}

/// The number of shards, and its line.
#[tactic(auto, unfolding(crate::specs::Parts::first_at))]
pub(crate) fn shards_of(tokens: &[Token]) -> Result<((u64, u32), &[Token]), Refusal<'_>>
    ensures { ReadsAs (λ x. (x.0, token_views x.1.now)) result (shards_at (token_views tokens.now)) }
{
    match tokens.split_first() {
        Some((token, rest)) => match small_value(&token.kind) {
            Some(value) => Ok(((value, token.line), rest)),
            None => Err(token_fault(tokens)),
        },
        None => Err(token_fault(tokens)),
    }
}
