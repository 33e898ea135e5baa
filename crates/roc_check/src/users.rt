//! Of each column of a workload the pieces that access it or write it, and by these which pieces are in conflict with a piece.
ghost use Rattle.std.specs.Prelude.{◌≡◌, ◌∷◌, [], ◌||◌, ◌&&◌, ◌==◌, ◌<◌, ◌+◌, ◌*◌, ℕ, false, true, length, map, IfOk};
ghost use Rattle.std.specs.List.{list_any};
ghost use Rattle.roc_program.specs.Conflict.{are_in_conflict};
ghost use Rattle.roc_program.specs.Parts as view;
ghost use Rattle.roc_program.specs.declared.piece_id.PieceId.{PieceId};
ghost use Rattle.roc_check.specs.Inner.PieceSets.{holds, is_piece};
ghost use Rattle.roc_check.specs.Inner.Users.{is_at, is_user, meets_by, Marks, Adds, AreUsers};

use crate::piece_sets::{united, with_piece};
use roc_base::NoMemory;
use roc_program::{Access, PieceId, Statement, Workload, exposed, piece_count, procedure_count};
use std::alloc::Global;

/// How many columns a workload has at most.
const MOST_COLUMNS: usize = 1024;

/// Of each column the pieces that access it, or of which writes alone count that write it, table by table.
pub(crate) fn users(
    alloc: Global,
    workload: &Workload,
    writes_alone: bool,
) -> Result<Vec<[u16; 64]>, NoMemory>
    ensures { IfOk result (λ sets. AreUsers workload.now writes_alone sets.items) }
{
    let _ = workload.procedures();
    let mut sets = no_users(alloc)?;
    for proc in 0..procedure_count(workload) {
        add_procedure(&mut sets, workload, writes_alone, proc);
    }
    Ok(sets)
}

// No pieces of any column.
fn no_users(alloc: Global) -> Result<Vec<[u16; 64]>, NoMemory>
    ensures long { IfOk result (λ sets. length sets.items ≡ 1024) }
    ensures none { IfOk result (λ sets. (table column : ℕ) (id : PieceId) → is_user sets.items table column id ≡ false) }
{
    let mut sets = Vec::new(alloc);
    for _ in 0..MOST_COLUMNS {
        sets.push(no_pieces())?;
    }
    Ok(sets)
}

// Adds the pieces of a procedure to the columns that they use.
fn add_procedure(sets: &mut Vec<[u16; 64]>, workload: &Workload, writes_alone: bool, proc: u16)
    requires procedure { proc < length workload.now.procedures }
    requires long { length sets.old.items ≡ 1024 }
    ensures { Adds workload.now writes_alone sets.old.items sets.new.items (λ id. id.proc == proc) }
{
    let _ = workload.procedures();
    for piece in 0..piece_count(workload, proc) {
        add_piece(sets, workload, writes_alone, PieceId { proc, piece });
    }
}

// Adds a piece to the columns that it uses.
fn add_piece(sets: &mut Vec<[u16; 64]>, workload: &Workload, writes_alone: bool, id: PieceId)
    requires procedure { id.proc < 64 }
    requires piece { id.piece < 16 }
    requires long { length sets.old.items ≡ 1024 }
    ensures { Adds workload.now writes_alone sets.old.items sets.new.items (λ other. is_piece other id) }
{
    add_statements(sets, exposed(workload, id), writes_alone, id);
}

fn add_statements(
    sets: &mut Vec<[u16; 64]>,
    statements: &[Statement],
    writes_alone: bool,
    id: PieceId,
)
    requires procedure { id.proc < 64 }
    requires piece { id.piece < 16 }
    requires long { length sets.old.items ≡ 1024 }
    ensures { Marks writes_alone id sets.old.items sets.new.items (map view.statement statements.now) }
{
    for statement in statements {
        add_statement(sets, statement, writes_alone, id);
    }
}

fn add_statement(sets: &mut Vec<[u16; 64]>, statement: &Statement, writes_alone: bool, id: PieceId)
    requires procedure { id.proc < 64 }
    requires piece { id.piece < 16 }
    requires long { length sets.old.items ≡ 1024 }
    ensures { Marks writes_alone id sets.old.items sets.new.items (view.statement statement.now ∷ []) }
{
    match statement {
        Statement::Get(_, from) => {
            if !writes_alone {
                mark(sets, from, id);
            }
        }
        Statement::Set(to, _) => mark(sets, to, id),
        Statement::Out(_) => {}
    }
}

// Adds a piece to a column, where it is within the limits.
fn mark(sets: &mut Vec<[u16; 64]>, access: &Access, id: PieceId)
    requires procedure { id.proc < 64 }
    requires piece { id.piece < 16 }
    requires long { length sets.old.items ≡ 1024 }
    ensures long { length sets.new.items ≡ 1024 }
    ensures marks { (table column : ℕ) (other : PieceId) → table < 64 → column < 16
        → is_user sets.new.items table column other ≡ (is_user sets.old.items table column other || (is_piece other id && is_at table column (view.access access.now))) }
{
    if access.table < 64 && access.column < 16 {
        let place = place_of(access.table, access.column);
        let set = with_piece(&sets[place], id);
        sets[place] = set;
    }
}

/// The pieces that are in conflict with this one, by those that access each column and those that write it.
pub(crate) fn conflicting(
    workload: &Workload,
    touched: &[[u16; 64]],
    written: &[[u16; 64]],
    first: PieceId,
) -> [u16; 64]
    requires touched { AreUsers workload.now false touched.now }
    requires written { AreUsers workload.now true written.now }
    ensures { (id : PieceId) → holds result id ≡ are_in_conflict workload.now first id }
{
    let _ = workload.procedures();
    met(touched, written, exposed(workload, first))
}

// The pieces of which statements collide with these.
fn met(touched: &[[u16; 64]], written: &[[u16; 64]], statements: &[Statement]) -> [u16; 64]
    ensures { (id : PieceId) → holds result id ≡ list_any (λ s. meets_by touched.now written.now s id) (map view.statement statements.now) }
{
    let mut found = no_pieces();
    for statement in statements {
        found = with_met(&found, touched, written, statement);
    }
    found
}

fn no_pieces() -> [u16; 64]
    ensures { (id : PieceId) → holds result id ≡ false }
{
    [0; 64]
}

fn with_met(
    found: &[u16; 64],
    touched: &[[u16; 64]],
    written: &[[u16; 64]],
    statement: &Statement,
) -> [u16; 64]
    ensures { (id : PieceId) → holds result id ≡ (holds found.now id || meets_by touched.now written.now (view.statement statement.now) id) }
{
    match statement {
        Statement::Get(_, from) => with_users(found, written, from),
        Statement::Set(to, _) => with_users(found, touched, to),
        Statement::Out(_) => *found,
    }
}

// The set with the users of a column.
fn with_users(found: &[u16; 64], sets: &[[u16; 64]], access: &Access) -> [u16; 64]
    ensures { (id : PieceId) → holds result id ≡ (holds found.now id || is_user sets.now access.now.table access.now.column id) }
{
    match sets.get(place_of(access.table, access.column)) {
        Some(set) => united(found, set),
        None => *found,
    }
}

// Where the set of a column stands.
fn place_of(table: u8, column: u8) -> usize
    ensures { result ≡ table * 16 + column }
{
    usize::from(table) * 16 + usize::from(column)
}
