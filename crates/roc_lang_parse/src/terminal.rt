//! The single tokens of the grammar but integers, each with the tokens behind it.

ghost use Rattle.std.specs.Prelude.{◌≡◌, IfOk};
ghost use Rattle.std.specs.Option.{option_map};
ghost use Rattle.roc_lang.specs.Grammar.{is_reserved};
ghost use Rattle.roc_lang.specs.Tree.{name_tree};
ghost use Rattle.roc_lang_parse.specs.Stuck.{head_is};
ghost use Rattle.roc_lang_parse.specs.Inner.Views.{ReadsAs, kind_view, token_views};
ghost use Rattle.roc_lang_parse.specs.Parts.{has_word, has_mark, word_at, word_line_at, mark_at, mark_line_at, free_word, name_at, piece_class, class_at, sign_of, sign_at};
ghost use Rattle.roc_lang_parse.specs.Reading.{starts_statement, starts_piece, is_sign};

use crate::refusal::{Refusal, or_refuse, token_fault};
use crate::token::{Kind, Token};
use roc_lang::Name;
use std::alloc::Global;

fn has_word(kind: &Kind, word: &str) -> bool
    ensures { result ≡ has_word word.now (kind_view kind.now) }
{
    match kind {
        Kind::Word(letters) => letters.as_str() == word,
        Kind::Integer(_) => false,
        Kind::Mark(_) => false,
    }
}

fn has_mark(kind: &Kind, mark: u8) -> bool
    ensures { result ≡ has_mark mark (kind_view kind.now) }
{
    match kind {
        Kind::Word(_) => false,
        Kind::Integer(_) => false,
        Kind::Mark(byte) => *byte == mark,
    }
}

/// Whether this word comes first.
pub(crate) fn begins_word(tokens: &[Token], word: &str) -> bool
    ensures { result ≡ head_is (has_word word.now) (token_views tokens.now) }
{
    match tokens.first() {
        Some(token) => has_word(&token.kind, word),
        None => false,
    }
}

/// Whether this mark comes first.
pub(crate) fn begins_mark(tokens: &[Token], mark: u8) -> bool
    ensures { result ≡ head_is (has_mark mark) (token_views tokens.now) }
{
    match tokens.first() {
        Some(token) => has_mark(&token.kind, mark),
        None => false,
    }
}

/// Whether a statement begins here.
pub(crate) fn begins_statement(tokens: &[Token]) -> bool
    ensures { result ≡ head_is starts_statement (token_views tokens.now) }
{
    match tokens.first() {
        Some(token) => {
            has_word(&token.kind, "get")
                || has_word(&token.kind, "set")
                || has_word(&token.kind, "out")
        }
        None => false,
    }
}

/// Whether a piece begins here.
pub(crate) fn begins_piece(tokens: &[Token]) -> bool
    ensures { result ≡ head_is starts_piece (token_views tokens.now) }
{
    match tokens.first() {
        Some(token) => has_word(&token.kind, "now") || has_word(&token.kind, "later"),
        None => false,
    }
}

/// What follows a word of the grammar.
#[tactic(auto, unfolding(crate::specs::Parts::first_at))]
pub(crate) fn word<'a>(tokens: &'a [Token], word: &str) -> Result<&'a [Token], Refusal<'a>>
    ensures { ReadsAs (λ x. (tt, token_views x.now)) result (word_at word.now (token_views tokens.now)) }
{
    match tokens.split_first() {
        Some((token, rest)) => {
            if has_word(&token.kind, word) {
                Ok(rest)
            } else {
                Err(token_fault(tokens))
            }
        }
        None => Err(token_fault(tokens)),
    }
}

/// The line of a word of the grammar.
#[tactic(auto, unfolding(crate::specs::Parts::first_at))]
pub(crate) fn word_line<'a>(
    tokens: &'a [Token],
    word: &str,
) -> Result<(u32, &'a [Token]), Refusal<'a>>
    ensures { ReadsAs (λ x. (x.0, token_views x.1.now)) result (word_line_at word.now (token_views tokens.now)) }
{
    match tokens.split_first() {
        Some((token, rest)) => {
            if has_word(&token.kind, word) {
                Ok((token.line, rest))
            } else {
                Err(token_fault(tokens))
            }
        }
        None => Err(token_fault(tokens)),
    }
}

/// What follows a mark.
#[tactic(auto, unfolding(crate::specs::Parts::first_at))]
pub(crate) fn mark(tokens: &[Token], mark: u8) -> Result<&[Token], Refusal<'_>>
    ensures { ReadsAs (λ x. (tt, token_views x.now)) result (mark_at mark (token_views tokens.now)) }
{
    match tokens.split_first() {
        Some((token, rest)) => {
            if has_mark(&token.kind, mark) {
                Ok(rest)
            } else {
                Err(token_fault(tokens))
            }
        }
        None => Err(token_fault(tokens)),
    }
}

/// A value, where this mark comes behind it. As the end of a rule it lets go of the value where the mark is missing.
pub(crate) fn before_mark<X: Drop>(
    value: X,
    tokens: &[Token],
    closing: u8,
) -> Result<(X, &[Token]), Refusal<'_>>
    ensures read { ReadsAs (λ x. (tt, token_views x.1.now)) result (mark_at closing (token_views tokens.now)) }
    ensures value { IfOk result (λ x. x.0 ≡ value) }
{
    let rest = or_refuse!(mark(tokens, closing));
    Ok((value, rest))
}

/// The line of a mark.
#[tactic(auto, unfolding(crate::specs::Parts::first_at))]
pub(crate) fn mark_line(tokens: &[Token], mark: u8) -> Result<(u32, &[Token]), Refusal<'_>>
    ensures { ReadsAs (λ x. (x.0, token_views x.1.now)) result (mark_line_at mark (token_views tokens.now)) }
{
    match tokens.split_first() {
        Some((token, rest)) => {
            if has_mark(&token.kind, mark) {
                Ok((token.line, rest))
            } else {
                Err(token_fault(tokens))
            }
        }
        None => Err(token_fault(tokens)),
    }
}

fn is_reserved(word: &str) -> bool
    ensures { result ≡ is_reserved word.now }
{
    matches!(
        word,
        "shards"
            | "table"
            | "init"
            | "proc"
            | "now"
            | "later"
            | "at"
            | "get"
            | "set"
            | "out"
            | "min"
            | "max"
            | "less"
            | "pick"
    )
}

/// The letters of a name, which is no reserved word.
fn free_word(kind: &Kind) -> Option<&str>
    ensures { option_map (λ x. x.now) result ≡ free_word (kind_view kind.now) }
{
    match kind {
        Kind::Word(letters) => {
            if is_reserved(letters.as_str()) {
                None
            } else {
                Some(letters.as_str())
            }
        }
        Kind::Integer(_) => None,
        Kind::Mark(_) => None,
    }
}

#[tactic(auto, unfolding(crate::specs::Parts::first_at))]
pub(crate) fn name_of(alloc: Global, tokens: &[Token]) -> Result<(Name, &[Token]), Refusal<'_>>
    ensures { ReadsAs (λ x. (name_tree x.0, token_views x.1.now)) result (name_at (token_views tokens.now)) }
{
    match tokens.split_first() {
        Some((token, rest)) => match free_word(&token.kind) {
            Some(letters) => {
                let text = String::from_str(alloc, letters)?;
                let line = token.line;
                Ok((Name { text, line }, rest))
            }
            None => Err(token_fault(tokens)),
        },
        None => Err(token_fault(tokens)),
    }
}

/// Whether a word declares a piece `now`, and not `later`.
fn piece_class(kind: &Kind) -> Option<bool>
    ensures { result ≡ piece_class (kind_view kind.now) }
{
    if has_word(kind, "now") {
        Some(true)
    } else if has_word(kind, "later") {
        Some(false)
    } else {
        None
    }
}

/// Whether a piece is declared `now`, and the line of that word.
#[tactic(auto, unfolding(crate::specs::Parts::first_at))]
pub(crate) fn class_at(tokens: &[Token]) -> Result<((bool, u32), &[Token]), Refusal<'_>>
    ensures { ReadsAs (λ x. (x.0, token_views x.1.now)) result (class_at (token_views tokens.now)) }
{
    match tokens.split_first() {
        Some((token, rest)) => match piece_class(&token.kind) {
            Some(is_now) => Ok(((is_now, token.line), rest)),
            None => Err(token_fault(tokens)),
        },
        None => Err(token_fault(tokens)),
    }
}

/// Whether a mark is `+`, and not `-`.
fn sign_of(kind: &Kind) -> Option<bool>
    ensures { result ≡ sign_of (kind_view kind.now) }
{
    if has_mark(kind, b'+') {
        Some(true)
    } else if has_mark(kind, b'-') {
        Some(false)
    } else {
        None
    }
}

/// Whether `+` or `-` comes first.
pub(crate) fn begins_sign(tokens: &[Token]) -> bool
    ensures { result ≡ head_is is_sign (token_views tokens.now) }
{
    match tokens.first() {
        Some(token) => has_mark(&token.kind, b'+') || has_mark(&token.kind, b'-'),
        None => false,
    }
}

#[tactic(auto, unfolding(crate::specs::Parts::first_at))]
pub(crate) fn sign_at(tokens: &[Token]) -> Result<(bool, &[Token]), Refusal<'_>>
    ensures { ReadsAs (λ x. (x.0, token_views x.1.now)) result (sign_at (token_views tokens.now)) }
{
    match tokens.split_first() {
        Some((token, rest)) => match sign_of(&token.kind) {
            Some(is_sum) => Ok((is_sum, rest)),
            None => Err(token_fault(tokens)),
        },
        None => Err(token_fault(tokens)),
    }
}
