//! Expressions: each is read within a room, the depth that is left to it.

ghost use Rattle.std.specs.Prelude.{◌≡◌, ◌+◌, ◌-◌, ◌<◌, ◌≤◌, IfOk};
ghost use Rattle.roc_lang.specs.Grammar.{standard};
ghost use Rattle.roc_lang.specs.Tree.{expression_tree};
ghost use Rattle.roc_lang_parse.specs.Inner.Views.{ReadsAs, token_views, deep_view, function_word, function_of};
ghost use Rattle.roc_lang_parse.specs.Parts.{behind_comma_at};
ghost use Rattle.roc_lang_parse.specs.Reading.{number_at, variable_at, enclosed_at, pair_at, function_at, pick_at, atom_at, factor_at, factors_at, times, term_at, signed_term_at, sums_at};
ghost use Rattle.roc_lang_parse.specs.Reading.{plus_or_minus, sum_at, deep_at, expression_at};

use crate::deep::{
    Deep, Function, Operands, applied, enclosed, paired, picked, plus_or_minus, times, word_of,
};
use crate::number::{begins_integer, integer_of};
use crate::refusal::{Refusal, limit_fault, or_refuse};
use crate::terminal::{
    before_mark, begins_mark, begins_sign, begins_word, mark, name_of, sign_at, word,
};
use crate::token::Token;
use roc_lang::Expression;
use roc_lang::limits::DEPTH;
use std::alloc::{AllocError, Global};

#[tactic(auto, unfolding(crate::specs::Reading::number_at))]
fn number_of(tokens: &[Token]) -> Result<(Deep, &[Token]), Refusal<'_>>
    ensures read { ReadsAs (λ x. (deep_view x.0, token_views x.1.now)) result (number_at (token_views tokens.now)) }
    ensures depth { IfOk result (λ x. x.0.depth ≡ 1) }
{
    let (value, rest) = or_refuse!(integer_of(tokens));
    let expression = Expression::Number(value);
    Ok((
        Deep {
            expression,
            depth: 1,
        },
        rest,
    ))
}

#[tactic(auto, unfolding(crate::specs::Reading::variable_at))]
fn variable_of(alloc: Global, tokens: &[Token]) -> Result<(Deep, &[Token]), Refusal<'_>>
    ensures read { ReadsAs (λ x. (deep_view x.0, token_views x.1.now)) result (variable_at (token_views tokens.now)) }
    ensures depth { IfOk result (λ x. x.0.depth ≡ 1) }
{
    let (name, rest) = or_refuse!(name_of(alloc, tokens));
    let expression = Expression::Variable(name);
    Ok((
        Deep {
            expression,
            depth: 1,
        },
        rest,
    ))
}

/// An expression in parentheses.
#[cycle(expression)]
#[tactic(auto, unfolding(crate::specs::Reading::enclosed_at))]
fn enclosed_of(alloc: Global, room: u32, tokens: &[Token]) -> Result<(Deep, &[Token]), Refusal<'_>>
    requires above { 0 < room }
    requires below { room < standard.depth }
    ensures read { ReadsAs (λ x. (deep_view x.0, token_views x.1.now)) result (enclosed_at (deep_at room) (token_views tokens.now)) }
    ensures deep { IfOk result (λ x. 0 < x.0.depth) }
    ensures fits { IfOk result (λ x. x.0.depth ≤ room + 1) }
{
    let rest = or_refuse!(mark(tokens, b'('));
    let (inner, rest) = or_refuse!(deep_of(alloc, room, rest));
    before_mark(enclosed(inner), rest, b')')
}

/// A comma and an expression behind it.
#[cycle(expression)]
#[tactic(auto, unfolding(crate::specs::Parts::behind_comma_at))]
fn behind_comma_of(
    alloc: Global,
    room: u32,
    tokens: &[Token],
) -> Result<(Deep, &[Token]), Refusal<'_>>
    requires above { 0 < room }
    requires below { room < standard.depth }
    ensures read { ReadsAs (λ x. (deep_view x.0, token_views x.1.now)) result (behind_comma_at (deep_at room) (token_views tokens.now)) }
    ensures deep { IfOk result (λ x. 0 < x.0.depth) }
    ensures fits { IfOk result (λ x. x.0.depth ≤ room) }
{
    let rest = or_refuse!(mark(tokens, b','));
    deep_of(alloc, room, rest)
}

/// Two operands in parentheses, and the greater of their depths.
#[cycle(expression)]
#[tactic(auto, unfolding(crate::specs::Reading::pair_at))]
fn pair_of(alloc: Global, room: u32, tokens: &[Token]) -> Result<(Operands, &[Token]), Refusal<'_>>
    requires above { 0 < room }
    requires below { room < standard.depth }
    ensures read { ReadsAs (λ x. ((expression_tree x.0.first, expression_tree x.0.second, x.0.depth), token_views x.1.now)) result (pair_at (deep_at room) (token_views tokens.now)) }
    ensures fits { IfOk result (λ x. x.0.depth ≤ room) }
{
    let rest = or_refuse!(mark(tokens, b'('));
    let (first, rest) = or_refuse!(deep_of(alloc, room, rest));
    let (second, rest) = or_refuse!(behind_comma_of(alloc, room, rest));
    before_mark(paired(first, second), rest, b')')
}

/// `min`, `max` or `less`, and its operands.
#[cycle(expression)]
#[tactic(auto, unfolding(crate::specs::Reading::function_at))]
fn call_of(
    alloc: Global,
    function: Function,
    room: u32,
    tokens: &[Token],
) -> Result<(Deep, &[Token]), Refusal<'_>>
    requires above { 0 < room }
    requires below { room < standard.depth }
    ensures read { ReadsAs (λ x. (deep_view x.0, token_views x.1.now)) result (function_at (function_word function) (function_of function) (deep_at room) (token_views tokens.now)) }
    ensures deep { IfOk result (λ x. 0 < x.0.depth) }
    ensures fits { IfOk result (λ x. x.0.depth ≤ room + 1) }
{
    let rest = or_refuse!(word(tokens, word_of(function)));
    let (operands, rest) = or_refuse!(pair_of(alloc, room, rest));
    let call = applied(alloc, function, operands)?;
    Ok((call, rest))
}

/// `pick` and its operands.
#[cycle(expression)]
#[tactic(auto, unfolding(crate::specs::Reading::pick_at))]
fn pick_of(alloc: Global, room: u32, tokens: &[Token]) -> Result<(Deep, &[Token]), Refusal<'_>>
    requires above { 0 < room }
    requires below { room < standard.depth }
    ensures read { ReadsAs (λ x. (deep_view x.0, token_views x.1.now)) result (pick_at (deep_at room) (token_views tokens.now)) }
    ensures deep { IfOk result (λ x. 0 < x.0.depth) }
    ensures fits { IfOk result (λ x. x.0.depth ≤ room + 1) }
{
    let rest = or_refuse!(word(tokens, "pick"));
    let rest = or_refuse!(mark(rest, b'('));
    let (chooser, rest) = or_refuse!(deep_of(alloc, room, rest));
    let (first, rest) = or_refuse!(behind_comma_of(alloc, room, rest));
    let (second, rest) = or_refuse!(behind_comma_of(alloc, room, rest));
    let pick = picked(alloc, chooser, first, second)?;
    before_mark(pick, rest, b')')
}

/// An integer, a name, an expression in parentheses, or a function and its operands.
#[cycle(expression)]
#[tactic(auto, unfolding(crate::specs::Reading::atom_with))]
fn atom_of(alloc: Global, room: u32, tokens: &[Token]) -> Result<(Deep, &[Token]), Refusal<'_>>
    requires above { 0 < room }
    requires below { room ≤ standard.depth }
    ensures read { ReadsAs (λ x. (deep_view x.0, token_views x.1.now)) result (atom_at room (token_views tokens.now)) }
    ensures deep { IfOk result (λ x. 0 < x.0.depth) }
    ensures fits { IfOk result (λ x. x.0.depth ≤ room) }
{
    if begins_integer(tokens) {
        number_of(tokens)
    } else if begins_mark(tokens, b'(') {
        if 1 < room {
            enclosed_of(alloc, room - 1, tokens)
        } else {
            Err(limit_fault(tokens))
        }
    } else if begins_word(tokens, "min") {
        if 1 < room {
            call_of(alloc, Function::Minimum, room - 1, tokens)
        } else {
            Err(limit_fault(tokens))
        }
    } else if begins_word(tokens, "max") {
        if 1 < room {
            call_of(alloc, Function::Maximum, room - 1, tokens)
        } else {
            Err(limit_fault(tokens))
        }
    } else if begins_word(tokens, "less") {
        if 1 < room {
            call_of(alloc, Function::Less, room - 1, tokens)
        } else {
            Err(limit_fault(tokens))
        }
    } else if begins_word(tokens, "pick") {
        if 1 < room {
            pick_of(alloc, room - 1, tokens)
        } else {
            Err(limit_fault(tokens))
        }
    } else {
        variable_of(alloc, tokens)
    }
}

/// A `*` and the atom behind it.
#[cycle(expression)]
#[tactic(auto, unfolding(crate::specs::Reading::factor_at))]
fn factor_of(alloc: Global, room: u32, tokens: &[Token]) -> Result<(Deep, &[Token]), Refusal<'_>>
    requires above { 0 < room }
    requires below { room ≤ standard.depth }
    ensures read { ReadsAs (λ x. (deep_view x.0, token_views x.1.now)) result (factor_at (atom_at room) (token_views tokens.now)) }
    ensures deep { IfOk result (λ x. 0 < x.0.depth) }
    ensures fits { IfOk result (λ x. x.0.depth ≤ room) }
{
    let rest = or_refuse!(mark(tokens, b'*'));
    atom_of(alloc, room, rest)
}

/// All of a product that has begun.
#[cycle(expression)]
fn factors_of(
    alloc: Global,
    room: u32,
    first: Deep,
    tokens: &[Token],
) -> Result<(Deep, &[Token]), Refusal<'_>>
    requires above { 0 < first.depth }
    requires within { first.depth ≤ room }
    requires below { room ≤ standard.depth }
    ensures read { ReadsAs (λ x. (deep_view x.0, token_views x.1.now)) result (factors_at (atom_at (room - 1)) room room (deep_view first) (token_views tokens.now)) }
    ensures deep { IfOk result (λ x. 0 < x.0.depth) }
    ensures fits { IfOk result (λ x. x.0.depth ≤ room) }
{
    let mut product = first;
    let mut rest = tokens;
    for _ in 0..room {
        if !begins_mark(rest, b'*') {
            return Ok((product, rest));
        }
        if product.depth >= room {
            return Err(limit_fault(rest));
        }
        let (factor, after) = or_refuse!(factor_of(alloc, room - 1, rest));
        product = times(alloc, product, factor)?;
        rest = after;
    }
    if begins_mark(rest, b'*') {
        return Err(limit_fault(rest));
    }
    Ok((product, rest))
}

/// Atoms with `*` between.
#[cycle(expression)]
#[tactic(auto, unfolding(crate::specs::Reading::term_with))]
fn term_of(alloc: Global, room: u32, tokens: &[Token]) -> Result<(Deep, &[Token]), Refusal<'_>>
    requires above { 0 < room }
    requires below { room ≤ standard.depth }
    ensures read { ReadsAs (λ x. (deep_view x.0, token_views x.1.now)) result (term_at room (token_views tokens.now)) }
    ensures deep { IfOk result (λ x. 0 < x.0.depth) }
    ensures fits { IfOk result (λ x. x.0.depth ≤ room) }
{
    let (first, rest) = or_refuse!(atom_of(alloc, room, tokens));
    factors_of(alloc, room, first, rest)
}

/// A `+` or `-`, true for `+`, and the term behind it.
#[cycle(expression)]
#[tactic(auto, unfolding(crate::specs::Reading::signed_term_at))]
fn signed_term_of(
    alloc: Global,
    room: u32,
    tokens: &[Token],
) -> Result<((bool, Deep), &[Token]), Refusal<'_>>
    requires above { 0 < room }
    requires below { room ≤ standard.depth }
    ensures read { ReadsAs (λ x. ((x.0.0, deep_view x.0.1), token_views x.1.now)) result (signed_term_at (term_at room) (token_views tokens.now)) }
    ensures deep { IfOk result (λ x. 0 < x.0.1.depth) }
    ensures fits { IfOk result (λ x. x.0.1.depth ≤ room) }
{
    let (is_sum, rest) = or_refuse!(sign_at(tokens));
    let (term, rest) = or_refuse!(term_of(alloc, room, rest));
    Ok(((is_sum, term), rest))
}

/// All of a sum that has begun.
#[cycle(expression)]
fn sums_of(
    alloc: Global,
    room: u32,
    first: Deep,
    tokens: &[Token],
) -> Result<(Deep, &[Token]), Refusal<'_>>
    requires above { 0 < first.depth }
    requires within { first.depth ≤ room }
    requires below { room ≤ standard.depth }
    ensures read { ReadsAs (λ x. (deep_view x.0, token_views x.1.now)) result (sums_at (term_at (room - 1)) room room (deep_view first) (token_views tokens.now)) }
    ensures deep { IfOk result (λ x. 0 < x.0.depth) }
    ensures fits { IfOk result (λ x. x.0.depth ≤ room) }
{
    let mut sum = first;
    let mut rest = tokens;
    for _ in 0..room {
        if !begins_sign(rest) {
            return Ok((sum, rest));
        }
        if sum.depth >= room {
            return Err(limit_fault(rest));
        }
        let ((is_sum, term), after) = or_refuse!(signed_term_of(alloc, room - 1, rest));
        sum = plus_or_minus(alloc, sum, is_sum, term)?;
        rest = after;
    }
    if begins_sign(rest) {
        return Err(limit_fault(rest));
    }
    Ok((sum, rest))
}

/// Terms with `+` and `-` between.
#[cycle(expression)]
#[tactic(auto, unfolding(crate::specs::Reading::sum_with))]
fn sum_of(alloc: Global, room: u32, tokens: &[Token]) -> Result<(Deep, &[Token]), Refusal<'_>>
    requires above { 0 < room }
    requires below { room ≤ standard.depth }
    ensures read { ReadsAs (λ x. (deep_view x.0, token_views x.1.now)) result (sum_at room (token_views tokens.now)) }
    ensures deep { IfOk result (λ x. 0 < x.0.depth) }
    ensures fits { IfOk result (λ x. x.0.depth ≤ room) }
{
    let (first, rest) = or_refuse!(term_of(alloc, room, tokens));
    sums_of(alloc, room, first, rest)
}

/// An expression that is no deeper than the room.
#[cycle(expression)]
fn deep_of(alloc: Global, room: u32, tokens: &[Token]) -> Result<(Deep, &[Token]), Refusal<'_>>
    requires above { 0 < room }
    requires below { room ≤ standard.depth }
    ensures read { ReadsAs (λ x. (deep_view x.0, token_views x.1.now)) result (deep_at room (token_views tokens.now)) }
    ensures deep { IfOk result (λ x. 0 < x.0.depth) }
    ensures fits { IfOk result (λ x. x.0.depth ≤ room) }
{
    sum_of(alloc, room, tokens)
}

/// An expression, as deep as any may be.
#[tactic(auto, unfolding(crate::specs::Reading::expression_at))]
pub(crate) fn expression_of(
    alloc: Global,
    tokens: &[Token],
) -> Result<(Expression, &[Token]), Refusal<'_>>
    ensures { ReadsAs (λ x. (expression_tree x.0, token_views x.1.now)) result (expression_at standard.depth (token_views tokens.now)) }
{
    let (deep, rest) = or_refuse!(deep_of(alloc, DEPTH, tokens));
    Ok((deep.expression, rest))
}
