//! Which pieces a fixed C-edge joins, found once for all pairs.
ghost use Rattle.std.specs.Prelude.{◌≡◌, ◌*◌, length, map, IfOk};
ghost use Rattle.std.specs.List.{range_with_len};
ghost use Rattle.roc_program.specs.WellFormed.{IsProgram};
ghost use Rattle.roc_conflict.specs.Classes.{is_immediate};
ghost use Rattle.roc_scgraph.specs.Graph.{are_siblings};
ghost use Rattle.roc_witness.specs.Inner.Columns.{gathered_columns, AreColumns};
ghost use Rattle.roc_witness.specs.Inner.Table.{piece_number, numbered_piece, meet, row_for, are_met, joins, IsTableOf};

use crate::columns::Columns;
use roc_base::NoMemory;
use roc_conflict::Classes;
use roc_program::{PieceId, Workload};
use roc_scgraph::Vertex;
use roc_sequence::Sequence;
use std::alloc::Global;
use std::marker::Model;

// As many as a procedure may have (`docs/LANGUAGE.md`, "Limits").
const PIECES: u16 = 16;

/// Of each two pieces whether they conflict and are both immediate.
#[derive(Drop)]
pub(crate) struct Table {
    rows: Vec<Sequence<bool>>,
}

impl Model for Table {
    ghost use Rattle.std.specs.Prelude.{Bool, List};

    ghost Value = { List (List Bool) };

    ghost view = { λ t. t.rows.items };
}

impl Table {
    /// The table of a workload.
    pub(crate) fn of(
        alloc: Global,
        workload: &Workload,
        classes: &Classes,
    ) -> Result<Table, NoMemory>
        ensures { IfOk result (λ t. IsTableOf workload.now (is_immediate classes.now) t) }
    {
        let columns = columns(alloc, workload)?;
        let rows = rows(alloc, workload, classes, &columns)?;
        Ok(Table { rows })
    }

    /// Whether an edge joins two vertices that stands in the way of reordering.
    pub(crate) fn joins(&self, one: Vertex, other: Vertex) -> bool
        ensures { result ≡ joins self.now one other }
    {
        if are_siblings(one, other) {
            one.piece != other.piece
        } else {
            self.are_met(one.id(), other.id())
        }
    }

    fn are_met(&self, one: PieceId, other: PieceId) -> bool
        ensures { result ≡ are_met self.now one other }
    {
        match self.rows.get(number_of(one)) {
            Some(row) => match row.as_slice().get(number_of(other)) {
                Some(met) => *met,
                None => false,
            },
            None => false,
        }
    }
}

/// Whether two vertices belong to one instance of one procedure.
pub(crate) fn are_siblings(one: Vertex, other: Vertex) -> bool
    ensures { result ≡ are_siblings one other }
{
    one.proc == other.proc && one.instance == other.instance
}

fn number_of(id: PieceId) -> usize
    ensures { result ≡ piece_number id }
{
    usize::from(PIECES) * usize::from(id.proc) + usize::from(id.piece)
}

// How many numbers the pieces of a workload have.
fn numbers(workload: &Workload) -> u16
    ensures value { result ≡ 16 * length workload.now.procedures }
    ensures well_formed { IsProgram workload.now }
{
    PIECES * workload.procedures().len() as u16
}

fn piece_at(number: u16) -> PieceId
    ensures { result ≡ numbered_piece number }
{
    PieceId {
        proc: number / PIECES,
        piece: number % PIECES,
    }
}

fn meet(workload: &Workload, classes: &Classes, one: PieceId, other: &Columns) -> bool
    requires { other.now ≡ gathered_columns workload.now other.now.piece }
    ensures { result ≡ meet workload.now (is_immediate classes.now) one other.now.piece }
{
    classes.is_immediate(one) && classes.is_immediate(other.piece) && other.conflict(workload, one)
}

fn row(
    alloc: Global,
    workload: &Workload,
    classes: &Classes,
    one: PieceId,
    others: &[Columns],
) -> Result<Sequence<bool>, NoMemory>
    requires { AreColumns workload.now others.now }
    ensures { IfOk result (λ r. r ≡ row_for workload.now (is_immediate classes.now) one (length others.now)) }
{
    let mut row = Vec::new(alloc);
    for other in others {
        row.push(meet(workload, classes, one, other))?;
    }
    Ok(Sequence::from_vec(row))
}

// Those of all pieces, by number.
fn columns(alloc: Global, workload: &Workload) -> Result<Vec<Columns>, NoMemory>
    ensures columns { IfOk result (λ columns. AreColumns workload.now columns.items) }
    ensures count { IfOk result (λ columns. length columns.items ≡ 16 * length workload.now.procedures) }
    ensures well_formed { IsProgram workload.now }
{
    let mut columns = Vec::new(alloc);
    for number in 0..numbers(workload) {
        columns.push(Columns::of(alloc, workload, piece_at(number))?)?;
    }
    Ok(columns)
}

fn rows(
    alloc: Global,
    workload: &Workload,
    classes: &Classes,
    columns: &[Columns],
) -> Result<Vec<Sequence<bool>>, NoMemory>
    requires { AreColumns workload.now columns.now }
    ensures { IfOk result (λ rows. rows.items ≡ map (λ n. row_for workload.now (is_immediate classes.now) (numbered_piece n) (length columns.now)) (range_with_len 0 (length columns.now))) }
{
    let mut rows = Vec::new(alloc);
    for one in columns {
        rows.push(row(alloc, workload, classes, one.piece, columns)?)?;
    }
    Ok(rows)
}
