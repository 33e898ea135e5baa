//! Which columns pieces access and which they write, gathered by table and column.
ghost use Rattle.std.specs.Prelude.{◌≡◌, ◌∷◌, [], ◌||◌, ◌<◌, ℕ, true, false, length, map, slice_set};
ghost use Rattle.std.specs.List.{list_any};
ghost use Rattle.roc_program.specs.Conflict.{are_in_conflict};
ghost use Rattle.roc_program.specs.Parts as view;
ghost use Rattle.roc_program.specs.Pieces.{piece_ids};
ghost use Rattle.roc_program.specs.Program.{Workload as Program};
ghost use Rattle.roc_program.specs.declared.piece_id.PieceId.{PieceId};
ghost use Rattle.roc_conflict.specs.Classes.{is_immediate};
ghost use Rattle.roc_conflict.specs.Contended.{is_contended};
ghost use Rattle.roc_conflict.specs.Columns.{has_column, meets, piece_meets, AreOf, AreAll};
ghost use Rattle.roc_conflict.specs.Inner.Gathered.{is_at, AddsStatements};

use crate::Classes;
use crate::marks::{is_marked_at, no_marks};
use roc_program::{Access, PieceId, Statement, Workload, exposed, piece_count, procedure_count};

/// Of each column of a workload whether some pieces access it, and whether they write it: two tables, by table and column, with room
/// for the most that a workload may have (`docs/LANGUAGE.md`, "Limits").
#[derive(Drop)]
pub struct Columns {
    touched: [[bool; 16]; 64],
    written: [[bool; 16]; 64],
}

impl Columns {
    /// Those of a piece. Takes no memory.
    pub fn of(workload: &Workload, id: PieceId) -> Columns
        ensures { AreOf workload.now id result }
    {
        let mut own = Columns::none();
        own.add(workload, id);
        own
    }

    /// Whether two pieces conflict, where these are the columns of the first. Takes no memory.
    pub fn conflict(&self, workload: &Workload, one: PieceId, other: PieceId) -> bool
        requires { AreOf workload.now one self.now }
        ensures { result ≡ are_in_conflict workload.now one other }
    {
        let _ = one;
        self.meet(workload, other)
    }

    /// Those of all pieces. Takes no memory.
    pub fn of_all(workload: &Workload) -> Columns
        ensures { AreAll workload.now result }
    {
        let mut all = Columns::none();
        for proc in 0..procedure_count(workload) {
            all.add_procedure(workload, proc);
        }
        all
    }

    /// Whether a piece is contended, where these are the columns of all pieces. Takes no memory.
    pub fn contend(&self, workload: &Workload, classes: &Classes, id: PieceId) -> bool
        requires { AreAll workload.now self.now }
        ensures { result ≡ is_contended workload.now (is_immediate classes.now) id }
    {
        classes.is_immediate(id) && self.meet(workload, id)
    }

    /// No columns.
    pub(crate) fn none() -> Columns
        ensures { (workload : Program) (id : PieceId) → piece_meets workload result id ≡ false }
    {
        Columns {
            touched: no_marks(),
            written: no_marks(),
        }
    }

    /// Adds those of a piece: who meets them then met them before, or is in conflict with the piece.
    pub(crate) fn add(&mut self, workload: &Workload, id: PieceId)
        ensures { (other : PieceId) → piece_meets workload.now self.new other ≡ (piece_meets workload.now self.old other || are_in_conflict workload.now other id) }
    {
        let _ = workload.procedures();
        self.add_statements(exposed(workload, id));
    }

    // Adds those of the pieces of a procedure.
    fn add_procedure(&mut self, workload: &Workload, proc: u16)
        requires { proc < length workload.now.procedures }
        ensures { (other : PieceId) → piece_meets workload.now self.new other
            ≡ (piece_meets workload.now self.old other || list_any (are_in_conflict workload.now other) (piece_ids workload.now proc)) }
    {
        for piece in 0..piece_count(workload, proc) {
            self.add(workload, PieceId { proc, piece });
        }
    }

    fn add_statements(&mut self, statements: &[Statement])
        ensures { AddsStatements self.old self.new (map view.statement statements.now) }
    {
        for statement in statements {
            self.add_statement(statement);
        }
    }

    fn add_statement(&mut self, statement: &Statement)
        ensures { AddsStatements self.old self.new (view.statement statement.now ∷ []) }
    {
        match statement {
            Statement::Get(_, from) => mark_column(&mut self.touched, from),
            Statement::Set(to, _) => {
                mark_column(&mut self.touched, to);
                mark_column(&mut self.written, to);
            }
            Statement::Out(_) => {}
        }
    }

    /// Whether a piece meets these.
    pub(crate) fn meet(&self, workload: &Workload, id: PieceId) -> bool
        ensures { result ≡ piece_meets workload.now self.now id }
    {
        self.meet_any(exposed(workload, id))
    }

    fn meet_any(&self, statements: &[Statement]) -> bool
        ensures { result ≡ list_any (λ s. meets self.now (view.statement s)) statements.now }
    {
        statements.iter().any(|statement| self.meets(statement))
    }

    fn meets(&self, statement: &Statement) -> bool
        ensures { result ≡ meets self.now (view.statement statement.now) }
    {
        match statement {
            Statement::Get(_, from) => has_column(&self.written, from),
            Statement::Set(to, _) => has_column(&self.touched, to),
            Statement::Out(_) => false,
        }
    }
}

fn has_column(columns: &[[bool; 16]; 64], access: &Access) -> bool
    ensures { result ≡ has_column columns.now access.now.table access.now.column }
{
    is_marked_at(
        columns,
        usize::from(access.table),
        usize::from(access.column),
    )
}

// Marks a column, where it is within the limits.
fn mark_column(columns: &mut [[bool; 16]; 64], access: &Access)
    ensures { (table column : ℕ) → table < 64 → column < 16
        → has_column columns.new table column ≡ (has_column columns.old table column || is_at table column (view.access access.now)) }
{
    if access.table < 64 {
        let row = with_column(&columns[usize::from(access.table)], access.column);
        columns[usize::from(access.table)] = row;
    }
}

// A row with one more column marked, where it has that column.
fn with_column(row: &[bool; 16], column: u8) -> [bool; 16]
    ensures value { result ≡ slice_set row.now column true }
    ensures long { length row.now ≡ 16 }
{
    let mut marked = *row;
    if column < 16 {
        marked[usize::from(column)] = true;
    }
    marked
}
