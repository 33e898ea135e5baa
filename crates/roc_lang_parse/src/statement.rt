//! Statements, and lists of them.

ghost use Rattle.std.specs.Prelude.{◌-◌, map};
ghost use Rattle.roc_lang.specs.Grammar.{standard};
ghost use Rattle.roc_lang.specs.Tree.{expression_tree, access_tree, statement_tree};
ghost use Rattle.roc_lang_parse.specs.Inner.Views.{ReadsAs, token_views};
ghost use Rattle.roc_lang_parse.specs.Parts.{behind_comma_at, separated_behind, some_at};
ghost use Rattle.roc_lang_parse.specs.Reading.{expression_at, id_at, access_at, get_at, set_at, out_at, statement_at, body_at};

use crate::expression::expression_of;
use crate::refusal::{Refusal, limit_fault, or_refuse};
use crate::terminal::{
    before_mark, begins_mark, begins_statement, begins_word, mark, mark_line, name_of, word,
    word_line,
};
use crate::token::Token;
use roc_lang::limits::{IDS, STATEMENTS};
use roc_lang::{Access, Expression, Statement};
use std::alloc::Global;

/// How many integers an id may have behind the first.
pub(crate) const MORE_IDS: u32 = IDS - 1;

/// A comma and an integer of an id behind it.
#[tactic(auto, unfolding(crate::specs::Parts::behind_comma_at))]
fn next_integer_of(alloc: Global, tokens: &[Token]) -> Result<(Expression, &[Token]), Refusal<'_>>
    ensures { ReadsAs (λ x. (expression_tree x.0, token_views x.1.now)) result (behind_comma_at (expression_at standard.depth) (token_views tokens.now)) }
{
    let rest = or_refuse!(mark(tokens, b','));
    expression_of(alloc, rest)
}

/// An integer that was read, and those of the id behind it.
fn integers_behind(
    alloc: Global,
    first: Expression,
    tokens: &[Token],
) -> Result<(Vec<Expression>, &[Token]), Refusal<'_>>
    ensures { ReadsAs (λ x. (map expression_tree x.0.items, token_views x.1.now)) result
        (separated_behind (expression_at standard.depth) (expression_tree first) (standard.ids - 1) (token_views tokens.now)) }
{
    let mut integers = vec![in alloc; first]?;
    let mut rest = tokens;
    for _ in 0..MORE_IDS {
        if !begins_mark(rest, b',') {
            return Ok((integers, rest));
        }
        let (integer, after) = or_refuse!(next_integer_of(alloc, rest));
        integers.push(integer)?;
        rest = after;
    }
    if begins_mark(rest, b',') {
        return Err(limit_fault(rest));
    }
    Ok((integers, rest))
}

/// The integers of an id.
#[tactic(auto, unfolding(crate::specs::Parts::some_at))]
fn id_of(alloc: Global, tokens: &[Token]) -> Result<(Vec<Expression>, &[Token]), Refusal<'_>>
    ensures { ReadsAs (λ x. (map expression_tree x.0.items, token_views x.1.now)) result (id_at standard (token_views tokens.now)) }
{
    let (first, rest) = or_refuse!(expression_of(alloc, tokens));
    integers_behind(alloc, first, rest)
}

#[tactic(auto, unfolding(crate::specs::Reading::access_at))]
fn access_of(alloc: Global, tokens: &[Token]) -> Result<(Access, &[Token]), Refusal<'_>>
    ensures { ReadsAs (λ x. (access_tree x.0, token_views x.1.now)) result (access_at standard (token_views tokens.now)) }
{
    let (table, rest) = or_refuse!(name_of(alloc, tokens));
    let rest = or_refuse!(mark(rest, b'['));
    let (id, rest) = or_refuse!(id_of(alloc, rest));
    let (id_line, rest) = or_refuse!(mark_line(rest, b']'));
    let rest = or_refuse!(mark(rest, b'.'));
    let (column, rest) = or_refuse!(name_of(alloc, rest));
    let access = Access {
        table,
        id,
        id_line,
        column,
    };
    Ok((access, rest))
}

#[tactic(auto, unfolding(crate::specs::Reading::get_at))]
fn get_of(alloc: Global, tokens: &[Token]) -> Result<(Statement, &[Token]), Refusal<'_>>
    ensures { ReadsAs (λ x. (statement_tree x.0, token_views x.1.now)) result (get_at standard (token_views tokens.now)) }
{
    let rest = or_refuse!(word(tokens, "get"));
    let (name, rest) = or_refuse!(name_of(alloc, rest));
    let rest = or_refuse!(mark(rest, b'='));
    let (from, rest) = or_refuse!(access_of(alloc, rest));
    before_mark(Statement::Get { name, from }, rest, b';')
}

#[tactic(auto, unfolding(crate::specs::Reading::set_at))]
fn set_of(alloc: Global, tokens: &[Token]) -> Result<(Statement, &[Token]), Refusal<'_>>
    ensures { ReadsAs (λ x. (statement_tree x.0, token_views x.1.now)) result (set_at standard (token_views tokens.now)) }
{
    let (line, rest) = or_refuse!(word_line(tokens, "set"));
    let (to, rest) = or_refuse!(access_of(alloc, rest));
    let rest = or_refuse!(mark(rest, b'='));
    let (value, rest) = or_refuse!(expression_of(alloc, rest));
    before_mark(Statement::Set { line, to, value }, rest, b';')
}

#[tactic(auto, unfolding(crate::specs::Reading::out_at))]
fn out_of(alloc: Global, tokens: &[Token]) -> Result<(Statement, &[Token]), Refusal<'_>>
    ensures { ReadsAs (λ x. (statement_tree x.0, token_views x.1.now)) result (out_at standard (token_views tokens.now)) }
{
    let rest = or_refuse!(word(tokens, "out"));
    let (value, rest) = or_refuse!(expression_of(alloc, rest));
    before_mark(Statement::Out(value), rest, b';')
}

#[tactic(auto, unfolding(crate::specs::Reading::statement_at))]
fn statement_of(alloc: Global, tokens: &[Token]) -> Result<(Statement, &[Token]), Refusal<'_>>
    ensures { ReadsAs (λ x. (statement_tree x.0, token_views x.1.now)) result (statement_at standard (token_views tokens.now)) }
{
    if begins_word(tokens, "get") {
        get_of(alloc, tokens)
    } else if begins_word(tokens, "set") {
        set_of(alloc, tokens)
    } else {
        out_of(alloc, tokens)
    }
}

/// As many statements as come.
pub(crate) fn body_of(
    alloc: Global,
    tokens: &[Token],
) -> Result<(Vec<Statement>, &[Token]), Refusal<'_>>
    ensures { ReadsAs (λ x. (map statement_tree x.0.items, token_views x.1.now)) result (body_at standard (token_views tokens.now)) }
{
    let mut body = Vec::new(alloc);
    let mut rest = tokens;
    for _ in 0..STATEMENTS {
        if !begins_statement(rest) {
            return Ok((body, rest));
        }
        let (statement, after) = or_refuse!(statement_of(alloc, rest));
        body.push(statement)?;
        rest = after;
    }
    if begins_statement(rest) {
        return Err(limit_fault(rest));
    }
    Ok((body, rest))
}
