//! Names, pieces and procedures, and lists of them.

ghost use Rattle.std.specs.Prelude.{◌-◌, map};
ghost use Rattle.roc_lang.specs.Grammar.{standard};
ghost use Rattle.roc_lang.specs.Tree.{name_tree, expression_tree, piece_tree, procedure_tree};
ghost use Rattle.roc_lang_parse.specs.Inner.Views.{ReadsAs, token_views};
ghost use Rattle.roc_lang_parse.specs.Parts.{name_at, behind_comma_at, separated_behind, separated_at, some_at};
ghost use Rattle.roc_lang_parse.specs.Reading.{names_closed_at, names_or_none_at, arguments_at, head_at, piece_at, pieces_behind, some_pieces_at, opening_at, procedure_at, procedures_at};

use crate::expression::expression_of;
use crate::refusal::{Refusal, limit_fault, or_refuse};
use crate::statement::body_of;
use crate::terminal::{
    before_mark, begins_mark, begins_piece, begins_word, class_at, mark, name_of, word,
};
use crate::token::Token;
use roc_lang::limits::{ARGUMENTS, PIECES, PROCEDURES};
use roc_lang::{Expression, Name, Piece, Procedure};
use std::alloc::Global;

/// How many arguments a procedure may have behind the first.
const MORE_ARGUMENTS: u32 = ARGUMENTS - 1;

/// How many pieces a procedure may have behind the first.
const MORE_PIECES: u32 = PIECES - 1;

/// A comma and a name behind it.
#[tactic(auto, unfolding(crate::specs::Parts::behind_comma_at))]
fn next_name_of(alloc: Global, tokens: &[Token]) -> Result<(Name, &[Token]), Refusal<'_>>
    ensures { ReadsAs (λ x. (name_tree x.0, token_views x.1.now)) result (behind_comma_at name_at (token_views tokens.now)) }
{
    let rest = or_refuse!(mark(tokens, b','));
    name_of(alloc, rest)
}

/// A name that was read, and the names behind it.
fn names_behind(
    alloc: Global,
    first: Name,
    more: u32,
    tokens: &[Token],
) -> Result<(Vec<Name>, &[Token]), Refusal<'_>>
    ensures { ReadsAs (λ x. (map name_tree x.0.items, token_views x.1.now)) result (separated_behind name_at (name_tree first) more (token_views tokens.now)) }
{
    let mut names = vec![in alloc; first]?;
    let mut rest = tokens;
    for _ in 0..more {
        if !begins_mark(rest, b',') {
            return Ok((names, rest));
        }
        let (name, after) = or_refuse!(next_name_of(alloc, rest));
        names.push(name)?;
        rest = after;
    }
    if begins_mark(rest, b',') {
        return Err(limit_fault(rest));
    }
    Ok((names, rest))
}

/// Names with commas between: one, and so many more.
#[tactic(auto, unfolding(crate::specs::Parts::some_at))]
pub(crate) fn names_of(
    alloc: Global,
    more: u32,
    tokens: &[Token],
) -> Result<(Vec<Name>, &[Token]), Refusal<'_>>
    ensures { ReadsAs (λ x. (map name_tree x.0.items, token_views x.1.now)) result (separated_at name_at more (token_views tokens.now)) }
{
    let (first, rest) = or_refuse!(name_of(alloc, tokens));
    names_behind(alloc, first, more, rest)
}

/// Names and the closing parenthesis behind them.
#[tactic(auto, unfolding(crate::specs::Reading::names_closed_at))]
fn names_closed_of(alloc: Global, tokens: &[Token]) -> Result<(Vec<Name>, &[Token]), Refusal<'_>>
    ensures { ReadsAs (λ x. (map name_tree x.0.items, token_views x.1.now)) result (names_closed_at (standard.arguments - 1) (token_views tokens.now)) }
{
    let (names, rest) = or_refuse!(names_of(alloc, MORE_ARGUMENTS, tokens));
    before_mark(names, rest, b')')
}

/// Names, or none, and the closing parenthesis.
#[tactic(auto, unfolding(crate::specs::Reading::names_or_none_at))]
fn listed_of(alloc: Global, tokens: &[Token]) -> Result<(Vec<Name>, &[Token]), Refusal<'_>>
    ensures { ReadsAs (λ x. (map name_tree x.0.items, token_views x.1.now)) result (names_or_none_at (standard.arguments - 1) (token_views tokens.now)) }
{
    if begins_mark(tokens, b')') {
        return before_mark(Vec::new(alloc), tokens, b')');
    }
    names_closed_of(alloc, tokens)
}

#[tactic(auto, unfolding(crate::specs::Reading::arguments_at))]
fn arguments_of(alloc: Global, tokens: &[Token]) -> Result<(Vec<Name>, &[Token]), Refusal<'_>>
    ensures { ReadsAs (λ x. (map name_tree x.0.items, token_views x.1.now)) result (arguments_at (standard.arguments - 1) (token_views tokens.now)) }
{
    let rest = or_refuse!(mark(tokens, b'('));
    listed_of(alloc, rest)
}

/// What stands before the opening brace of a piece.
#[derive(Drop)]
struct Head {
    is_now: bool,
    class_line: u32,
    name: Name,
    place: Expression,
}

#[tactic(auto, unfolding(crate::specs::Reading::head_at))]
fn head_of(alloc: Global, tokens: &[Token]) -> Result<(Head, &[Token]), Refusal<'_>>
    ensures { ReadsAs (λ x. (((x.0.is_now, x.0.class_line), name_tree x.0.name, expression_tree x.0.place), token_views x.1.now)) result (head_at standard.depth (token_views tokens.now)) }
{
    let ((is_now, class_line), rest) = or_refuse!(class_at(tokens));
    let (name, rest) = or_refuse!(name_of(alloc, rest));
    let rest = or_refuse!(word(rest, "at"));
    let (place, rest) = or_refuse!(expression_of(alloc, rest));
    Ok((
        Head {
            is_now,
            class_line,
            name,
            place,
        },
        rest,
    ))
}

#[tactic(auto, unfolding(crate::specs::Reading::piece_at))]
fn piece_of(alloc: Global, tokens: &[Token]) -> Result<(Piece, &[Token]), Refusal<'_>>
    ensures { ReadsAs (λ x. (piece_tree x.0, token_views x.1.now)) result (piece_at standard (token_views tokens.now)) }
{
    let (
        Head {
            is_now,
            class_line,
            name,
            place,
        },
        rest,
    ) = or_refuse!(head_of(alloc, tokens));
    let rest = or_refuse!(mark(rest, b'{'));
    let (body, rest) = or_refuse!(body_of(alloc, rest));
    let piece = Piece {
        is_now,
        class_line,
        name,
        place,
        body,
    };
    before_mark(piece, rest, b'}')
}

/// A piece that was read, and the pieces behind it.
fn pieces_behind(
    alloc: Global,
    first: Piece,
    tokens: &[Token],
) -> Result<(Vec<Piece>, &[Token]), Refusal<'_>>
    ensures { ReadsAs (λ x. (map piece_tree x.0.items, token_views x.1.now)) result (pieces_behind standard (piece_tree first) (standard.pieces - 1) (token_views tokens.now)) }
{
    let mut pieces = vec![in alloc; first]?;
    let mut rest = tokens;
    for _ in 0..MORE_PIECES {
        if !begins_piece(rest) {
            return Ok((pieces, rest));
        }
        let (piece, after) = or_refuse!(piece_of(alloc, rest));
        pieces.push(piece)?;
        rest = after;
    }
    if begins_piece(rest) {
        return Err(limit_fault(rest));
    }
    Ok((pieces, rest))
}

/// One piece or more.
#[tactic(auto, unfolding(crate::specs::Parts::some_at))]
fn pieces_of(alloc: Global, tokens: &[Token]) -> Result<(Vec<Piece>, &[Token]), Refusal<'_>>
    ensures { ReadsAs (λ x. (map piece_tree x.0.items, token_views x.1.now)) result (some_pieces_at standard (standard.pieces - 1) (token_views tokens.now)) }
{
    let (first, rest) = or_refuse!(piece_of(alloc, tokens));
    pieces_behind(alloc, first, rest)
}

/// What opens the pieces, the word `view` and a brace or the brace alone: whether the word stands there.
#[tactic(auto, unfolding(crate::specs::Reading::opening_at, crate::specs::Reading::viewed_at))]
fn opening_of(tokens: &[Token]) -> Result<(bool, &[Token]), Refusal<'_>>
    ensures { ReadsAs (λ x. (x.0, token_views x.1.now)) result (opening_at (token_views tokens.now)) }
{
    if begins_word(tokens, "view") {
        let rest = or_refuse!(word(tokens, "view"));
        return before_mark(true, rest, b'{');
    }
    before_mark(false, tokens, b'{')
}

#[tactic(auto, unfolding(crate::specs::Reading::procedure_at))]
fn procedure_of(alloc: Global, tokens: &[Token]) -> Result<(Procedure, &[Token]), Refusal<'_>>
    ensures { ReadsAs (λ x. (procedure_tree x.0, token_views x.1.now)) result (procedure_at standard (token_views tokens.now)) }
{
    let rest = or_refuse!(word(tokens, "proc"));
    let (name, rest) = or_refuse!(name_of(alloc, rest));
    let (arguments, rest) = or_refuse!(arguments_of(alloc, rest));
    let (is_view, rest) = or_refuse!(opening_of(rest));
    let (pieces, rest) = or_refuse!(pieces_of(alloc, rest));
    let procedure = Procedure {
        name,
        arguments,
        is_view,
        pieces,
    };
    before_mark(procedure, rest, b'}')
}

/// As many procedures as come.
pub(crate) fn procedures_of(
    alloc: Global,
    tokens: &[Token],
) -> Result<(Vec<Procedure>, &[Token]), Refusal<'_>>
    ensures { ReadsAs (λ x. (map procedure_tree x.0.items, token_views x.1.now)) result (procedures_at standard (token_views tokens.now)) }
{
    let mut procedures = Vec::new(alloc);
    let mut rest = tokens;
    for _ in 0..PROCEDURES {
        if !begins_word(rest, "proc") {
            return Ok((procedures, rest));
        }
        let (procedure, after) = or_refuse!(procedure_of(alloc, rest));
        procedures.push(procedure)?;
        rest = after;
    }
    if begins_word(rest, "proc") {
        return Err(limit_fault(rest));
    }
    Ok((procedures, rest))
}
