//! Tables, init lines, and the whole of a text.

ghost use Rattle.std.specs.Prelude.{◌≡◌, ◌-◌, map, IfOk};
ghost use Rattle.roc_lang.specs.Grammar.{standard};
ghost use Rattle.roc_lang.specs.Tree.{table_tree, init_tree};
ghost use Rattle.roc_lang_parse.specs.Inner.Views.{ReadsAs, token_views, parts_tree};
ghost use Rattle.roc_lang_parse.specs.Parts.{signed_at, behind_comma_at, separated_behind, separated_at, some_at};
ghost use Rattle.roc_lang_parse.specs.Reading.{said_arity_at, arity_at, table_at, row_at, init_at, front_at, end_at, tables_at, inits_at, text_at, whole_at};

use crate::number::{bounded_of, shards_of, signed_of};
use crate::procedure::{names_of, procedures_of};
use crate::refusal::{Refusal, limit_fault, or_refuse, token_fault};
use crate::statement::MORE_IDS;
use crate::terminal::{before_mark, begins_mark, begins_word, mark, mark_line, name_of, word};
use crate::token::Token;
use roc_lang::limits::{ARITY, COLUMNS, INITS, LEAST_ARITY, TABLES};
use roc_lang::{Init, Procedure, Source, Table};
use std::alloc::Global;

/// How many columns a table may have behind the first.
const MORE_COLUMNS: u32 = COLUMNS - 1;

/// How many integers an id of a table has, and the opening brace behind it.
#[tactic(auto, unfolding(crate::specs::Reading::said_arity_at))]
fn said_arity_of(tokens: &[Token]) -> Result<(u64, &[Token]), Refusal<'_>>
    ensures { ReadsAs (λ x. (x.0, token_views x.1.now)) result (said_arity_at standard (token_views tokens.now)) }
{
    let rest = or_refuse!(mark(tokens, b'['));
    let (arity, rest) = or_refuse!(bounded_of(LEAST_ARITY, ARITY, rest));
    let rest = or_refuse!(mark(rest, b']'));
    before_mark(arity, rest, b'{')
}

/// The same, or the brace alone: then it is one.
#[tactic(auto, unfolding(crate::specs::Reading::arity_at))]
fn arity_of(tokens: &[Token]) -> Result<(u64, &[Token]), Refusal<'_>>
    ensures { ReadsAs (λ x. (x.0, token_views x.1.now)) result (arity_at standard (token_views tokens.now)) }
{
    if begins_mark(tokens, b'[') {
        return said_arity_of(tokens);
    }
    before_mark(1, tokens, b'{')
}

#[tactic(auto, unfolding(crate::specs::Reading::table_at))]
fn table_of(alloc: Global, tokens: &[Token]) -> Result<(Table, &[Token]), Refusal<'_>>
    ensures { ReadsAs (λ x. (table_tree x.0, token_views x.1.now)) result (table_at standard (token_views tokens.now)) }
{
    let rest = or_refuse!(word(tokens, "table"));
    let (name, rest) = or_refuse!(name_of(alloc, rest));
    let (arity, rest) = or_refuse!(arity_of(rest));
    let (columns, rest) = or_refuse!(names_of(alloc, MORE_COLUMNS, rest));
    let table = Table {
        name,
        arity,
        columns,
    };
    before_mark(table, rest, b'}')
}

/// As many tables as come.
fn tables_of(alloc: Global, tokens: &[Token]) -> Result<(Vec<Table>, &[Token]), Refusal<'_>>
    ensures { ReadsAs (λ x. (map table_tree x.0.items, token_views x.1.now)) result (tables_at standard (token_views tokens.now)) }
{
    let mut tables = Vec::new(alloc);
    let mut rest = tokens;
    for _ in 0..TABLES {
        if !begins_word(rest, "table") {
            return Ok((tables, rest));
        }
        let (table, after) = or_refuse!(table_of(alloc, rest));
        tables.push(table)?;
        rest = after;
    }
    if begins_word(rest, "table") {
        return Err(limit_fault(rest));
    }
    Ok((tables, rest))
}

/// A comma and an integer behind it.
#[tactic(auto, unfolding(crate::specs::Parts::behind_comma_at))]
fn next_signed_of(tokens: &[Token]) -> Result<(i64, &[Token]), Refusal<'_>>
    ensures { ReadsAs (λ x. (x.0, token_views x.1.now)) result (behind_comma_at signed_at (token_views tokens.now)) }
{
    let rest = or_refuse!(mark(tokens, b','));
    signed_of(rest)
}

/// An integer that was read, and those of the id behind it.
fn signed_behind(
    alloc: Global,
    first: i64,
    tokens: &[Token],
) -> Result<(Vec<i64>, &[Token]), Refusal<'_>>
    ensures { ReadsAs (λ x. (x.0.items, token_views x.1.now)) result (separated_behind signed_at first (standard.ids - 1) (token_views tokens.now)) }
{
    let mut integers = vec![in alloc; first]?;
    let mut rest = tokens;
    for _ in 0..MORE_IDS {
        if !begins_mark(rest, b',') {
            return Ok((integers, rest));
        }
        let (integer, after) = or_refuse!(next_signed_of(rest));
        integers.push(integer)?;
        rest = after;
    }
    if begins_mark(rest, b',') {
        return Err(limit_fault(rest));
    }
    Ok((integers, rest))
}

/// The integers of an id.
#[tactic(auto, unfolding(crate::specs::Parts::some_at))]
fn id_of(alloc: Global, tokens: &[Token]) -> Result<(Vec<i64>, &[Token]), Refusal<'_>>
    ensures { ReadsAs (λ x. (x.0.items, token_views x.1.now)) result (separated_at signed_at (standard.ids - 1) (token_views tokens.now)) }
{
    let (first, rest) = or_refuse!(signed_of(tokens));
    signed_behind(alloc, first, rest)
}

/// Where a row stands in its table.
#[derive(Drop)]
struct Row {
    place: i64,
    id: Vec<i64>,
    /// The line of the bracket behind the id.
    line: u32,
}

#[tactic(auto, unfolding(crate::specs::Reading::row_at))]
fn row_of(alloc: Global, tokens: &[Token]) -> Result<(Row, &[Token]), Refusal<'_>>
    ensures { ReadsAs (λ x. ((x.0.place, x.0.id.items, x.0.line), token_views x.1.now)) result (row_at standard (token_views tokens.now)) }
{
    let rest = or_refuse!(mark(tokens, b'['));
    let (place, rest) = or_refuse!(signed_of(rest));
    let rest = or_refuse!(mark(rest, b','));
    let (id, rest) = or_refuse!(id_of(alloc, rest));
    let (line, rest) = or_refuse!(mark_line(rest, b']'));
    Ok((Row { place, id, line }, rest))
}

#[tactic(auto, unfolding(crate::specs::Reading::init_at))]
fn init_of(alloc: Global, tokens: &[Token]) -> Result<(Init, &[Token]), Refusal<'_>>
    ensures { ReadsAs (λ x. (init_tree x.0, token_views x.1.now)) result (init_at standard (token_views tokens.now)) }
{
    let rest = or_refuse!(word(tokens, "init"));
    let (table, rest) = or_refuse!(name_of(alloc, rest));
    let (Row { place, id, line }, rest) = or_refuse!(row_of(alloc, rest));
    let rest = or_refuse!(mark(rest, b'.'));
    let (column, rest) = or_refuse!(name_of(alloc, rest));
    let rest = or_refuse!(mark(rest, b'='));
    let (value, rest) = or_refuse!(signed_of(rest));
    let init = Init {
        table,
        place,
        id,
        id_line: line,
        column,
        value,
    };
    before_mark(init, rest, b';')
}

/// As many init lines as come.
fn inits_of(alloc: Global, tokens: &[Token]) -> Result<(Vec<Init>, &[Token]), Refusal<'_>>
    ensures { ReadsAs (λ x. (map init_tree x.0.items, token_views x.1.now)) result (inits_at standard (token_views tokens.now)) }
{
    let mut inits = Vec::new(alloc);
    let mut rest = tokens;
    for _ in 0..INITS {
        if !begins_word(rest, "init") {
            return Ok((inits, rest));
        }
        let (init, after) = or_refuse!(init_of(alloc, rest));
        inits.push(init)?;
        rest = after;
    }
    if begins_word(rest, "init") {
        return Err(limit_fault(rest));
    }
    Ok((inits, rest))
}

/// The number of shards, and its line.
#[tactic(auto, unfolding(crate::specs::Reading::front_at))]
fn front_of(tokens: &[Token]) -> Result<((u64, u32), &[Token]), Refusal<'_>>
    ensures { ReadsAs (λ x. (x.0, token_views x.1.now)) result (front_at (token_views tokens.now)) }
{
    let rest = or_refuse!(word(tokens, "shards"));
    let (shards, rest) = or_refuse!(shards_of(rest));
    before_mark(shards, rest, b';')
}

/// The parts, where no token is left.
#[tactic(auto, unfolding(crate::specs::Reading::end_at))]
fn ended(parts: Parts, tokens: &[Token]) -> Result<(Parts, &[Token]), Refusal<'_>>
    ensures read { ReadsAs (λ x. (tt, token_views x.1.now)) result (end_at (token_views tokens.now)) }
    ensures value { IfOk result (λ x. x.0 ≡ parts) }
{
    if tokens.is_empty() {
        Ok((parts, tokens))
    } else {
        Err(token_fault(tokens))
    }
}

/// The parts of a text.
#[derive(Drop)]
pub(crate) struct Parts {
    pub shards: u64,
    pub shards_line: u32,
    pub tables: Vec<Table>,
    pub inits: Vec<Init>,
    pub procedures: Vec<Procedure>,
}

/// All of the tokens.
#[tactic(auto, unfolding(crate::specs::Reading::text_at))]
fn text_of(alloc: Global, tokens: &[Token]) -> Result<(Parts, &[Token]), Refusal<'_>>
    ensures { ReadsAs (λ x. (parts_tree x.0, token_views x.1.now)) result (text_at standard (token_views tokens.now)) }
{
    let ((shards, shards_line), rest) = or_refuse!(front_of(tokens));
    let (tables, rest) = or_refuse!(tables_of(alloc, rest));
    let (inits, rest) = or_refuse!(inits_of(alloc, rest));
    let (procedures, rest) = or_refuse!(procedures_of(alloc, rest));
    let parts = Parts {
        shards,
        shards_line,
        tables,
        inits,
        procedures,
    };
    ended(parts, rest)
}

/// The source of all of the tokens.
#[tactic(auto, unfolding(crate::specs::Reading::whole_at))]
pub(crate) fn whole_of(alloc: Global, tokens: &[Token]) -> Result<Source, Refusal<'_>>
    ensures { ReadsAs (λ source. source) result (whole_at standard (token_views tokens.now)) }
{
    let (parts, _) = or_refuse!(text_of(alloc, tokens));
    Ok(Source::new(
        parts.shards,
        parts.shards_line,
        parts.tables,
        parts.inits,
        parts.procedures,
    ))
}
