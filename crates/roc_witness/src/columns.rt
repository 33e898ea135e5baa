//! Which columns a piece reads and writes, gathered once. A piece of a view counts as one without statements.
ghost use Rattle.std.specs.Prelude.{◌≡◌, ◌+◌, ◌*◌, false, length, map, slice_index_or, IfOk};
ghost use Rattle.std.specs.List.{list_any};
ghost use Rattle.roc_program.specs.Parts as view;
ghost use Rattle.roc_program.specs.Conflict.{are_in_conflict};
ghost use Rattle.roc_witness.specs.Inner.Columns as spec;

use roc_base::NoMemory;
use roc_program::{Access, PieceId, Statement, Workload, exposed};
use roc_sequence::Sequence;
use std::alloc::Global;

// As many as a table may have (`docs/LANGUAGE.md`, "Limits").
const COLUMNS: u16 = 16;

/// Of each column whether a piece accesses it, and whether it writes it.
#[derive(Drop)]
pub(crate) struct Columns {
    pub(crate) piece: PieceId,
    pub(crate) touched: Sequence<bool>,
    pub(crate) written: Sequence<bool>,
}

impl Columns {
    /// Those of a piece.
    pub(crate) fn of(
        alloc: Global,
        workload: &Workload,
        piece: PieceId,
    ) -> Result<Columns, NoMemory>
        ensures { IfOk result (λ c. c ≡ spec.gathered_columns workload.now piece) }
    {
        let body = exposed(workload, piece);
        let count = numbers(workload);
        Ok(Columns {
            piece,
            touched: touched(alloc, body, count)?,
            written: written(alloc, body, count)?,
        })
    }

    /// Whether a piece conflicts with the one that has these columns.
    pub(crate) fn conflict(&self, workload: &Workload, one: PieceId) -> bool
        requires { self.now ≡ spec.gathered_columns workload.now self.now.piece }
        ensures { result ≡ are_in_conflict workload.now one self.now.piece }
    {
        let _ = workload.procedures();
        self.collide_with_any(exposed(workload, one))
    }

    fn collide_with_any(&self, body: &[Statement]) -> bool
        ensures { result ≡ list_any (λ s. spec.collides self.now (view.statement s)) body.now }
    {
        body.iter().any(|statement| self.collides(statement))
    }

    // Whether a statement collides with one of the piece.
    fn collides(&self, statement: &Statement) -> bool
        ensures { result ≡ spec.collides self.now (view.statement statement.now) }
    {
        match statement {
            Statement::Get(_, access) => is_marked(&self.written, access),
            Statement::Set(access, _) => is_marked(&self.touched, access),
            Statement::Out(_) => false,
        }
    }
}

// How many numbers the columns of a workload have.
fn numbers(workload: &Workload) -> u16
    ensures { result ≡ 16 * length workload.now.tables }
{
    COLUMNS * workload.tables().len() as u16
}

fn column_of(table: u8, column: u8) -> usize
    ensures { result ≡ 16 * table + column }
{
    usize::from(COLUMNS) * usize::from(table) + usize::from(column)
}

fn is_marked(marks: &Sequence<bool>, access: &Access) -> bool
    ensures { result ≡ slice_index_or marks.now (spec.column_of (view.access access.now)) false }
{
    match marks.as_slice().get(column_of(access.table, access.column)) {
        Some(marked) => *marked,
        None => false,
    }
}

fn is_at(number: u16, access: &Access) -> bool
    ensures { result ≡ spec.is_at number (view.access access.now) }
{
    number / COLUMNS == u16::from(access.table) && number % COLUMNS == u16::from(access.column)
}

fn touches(number: u16, statement: &Statement) -> bool
    ensures { result ≡ spec.touches number (view.statement statement.now) }
{
    match statement {
        Statement::Get(_, access) => is_at(number, access),
        Statement::Set(access, _) => is_at(number, access),
        Statement::Out(_) => false,
    }
}

fn is_touched(number: u16, body: &[Statement]) -> bool
    ensures { result ≡ list_any (λ s. spec.touches number (view.statement s)) body.now }
{
    body.iter().any(|statement| touches(number, statement))
}

fn touched(alloc: Global, body: &[Statement], count: u16) -> Result<Sequence<bool>, NoMemory>
    ensures { IfOk result (λ r. r ≡ spec.marks spec.touches (map view.statement body.now) count) }
{
    let mut touched = Vec::new(alloc);
    for number in 0..count {
        touched.push(is_touched(number, body))?;
    }
    Ok(Sequence::from_vec(touched))
}

fn writes(number: u16, statement: &Statement) -> bool
    ensures { result ≡ spec.writes number (view.statement statement.now) }
{
    match statement {
        Statement::Set(access, _) => is_at(number, access),
        _ => false,
    }
}

fn is_written(number: u16, body: &[Statement]) -> bool
    ensures { result ≡ list_any (λ s. spec.writes number (view.statement s)) body.now }
{
    body.iter().any(|statement| writes(number, statement))
}

fn written(alloc: Global, body: &[Statement], count: u16) -> Result<Sequence<bool>, NoMemory>
    ensures { IfOk result (λ r. r ≡ spec.marks spec.writes (map view.statement body.now) count) }
{
    let mut written = Vec::new(alloc);
    for number in 0..count {
        written.push(is_written(number, body))?;
    }
    Ok(Sequence::from_vec(written))
}
