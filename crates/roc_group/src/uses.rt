//! The cells that a group uses.
ghost use Rattle.std.specs.Prelude.{◌≡◌, ◌++◌, ◌∷◌, [], ◌<◌, ◌≤◌, ◌+◌, false, length, IfOk, vec_len, vec_capacity};
ghost use Rattle.std.specs.List.{AllByRecursion, flat_map};
ghost use Rattle.roc_rows.specs.Store.{Store};
ghost use Rattle.roc_plan.specs.Groups.{procedure_of, groups_of, inputs_of, is_immediate_of, pieces_at};
ghost use Rattle.roc_group.specs.Inner.Steady.{uses_with};
ghost use Rattle.roc_program.specs.Keys.{IsKey, HasKey, HasKeys};
ghost use Rattle.roc_program.specs.Parts as pure;
ghost use Rattle.roc_whole.specs.Run.{access_cell};
ghost use Rattle.roc_group.specs.Accesses.{access, uses_of};
ghost use Rattle.roc_group.specs.GroupRun.{call, group_uses};

use crate::Access;
use crate::names::names_before;
use roc_base::NoMemory;
use roc_plan::{Known, Plan};
use roc_program::{Piece, Procedure, Statement};
use roc_rows::Cell;
use roc_sequence::Sequence;
use std::alloc::Global;

/// The cells that a deferrable group uses, in the order in which it uses them, each with whether
/// it is written. They are the same whatever the cells hold when it runs, so that a server can tell
/// conflicts before it runs the group (ROCOCO, OSDI 2014, section 3).
pub fn cells(
    alloc: Global,
    plan: &Plan,
    proc: u16,
    group: u16,
    known: &Known,
) -> Result<Sequence<Access>, NoMemory>
    requires exists { group < length (groups_of plan.now proc) }
    requires deferrable { is_immediate_of plan.now proc group ≡ false }
    requires args { length known.now.args ≡ (procedure_of plan.now proc).arguments }
    requires inputs { length known.now.inputs ≡ length (inputs_of plan.now proc group) }
    ensures { IfOk result (λ uses. (store : Store) → uses ≡ group_uses plan.now (call proc group known.now.args known.now.inputs) store) }
{
    let procedure = &plan.workload().procedures()[proc as usize];
    let names = names_before(alloc, plan, proc, group, known)?;
    uses_of_pieces(alloc, procedure, plan.pieces(proc, group), names.as_slice())
}

// What pieces use, where the names have these values as each begins.
fn uses_of_pieces(
    alloc: Global,
    procedure: &Procedure,
    pieces: &[u16],
    names: &[i64],
) -> Result<Sequence<Access>, NoMemory>
    requires there { AllByRecursion (λ k. k < length (pure.procedure procedure.now).pieces) pieces.now }
    requires keys { AllByRecursion HasKeys (pure.procedure procedure.now).pieces }
    ensures { IfOk result (λ uses. uses ≡ flat_map (uses_with names.now) (pieces_at (pure.procedure procedure.now) pieces.now)) }
{
    let mut uses = Vec::new(alloc);
    for number in pieces {
        let piece = &procedure.pieces[usize::from(*number)];
        uses.reserve(piece.body.len())?;
        push_uses(piece, names, &mut uses);
    }
    Ok(Sequence::from_vec(uses))
}

// Adds what the statements of a piece use, where the names have these values. There is room for one per statement.
pub(crate) fn push_uses(piece: &Piece, names: &[i64], uses: &mut Vec<Access>)
    requires keys { HasKeys (pure.piece piece.now) }
    requires room { vec_len uses.old + length piece.now.body.items ≤ vec_capacity uses.old }
    ensures uses { uses.new.items ≡ uses.old.items ++ uses_with names.now (pure.piece piece.now) }
    ensures len { vec_len uses.new ≤ vec_len uses.old + length piece.now.body.items }
    ensures capacity { vec_capacity uses.old ≤ vec_capacity uses.new }
{
    let place = piece.place.value(names);
    for statement in &piece.body {
        push_use(place, names, statement, uses);
    }
}

// Adds what a statement uses.
fn push_use(place: i64, names: &[i64], statement: &Statement, uses: &mut Vec<Access>)
    requires key { HasKey (pure.statement statement.now) }
    requires room { vec_len uses.old < vec_capacity uses.old }
    ensures uses { uses.new.items ≡ uses.old.items ++ uses_of place names.now (pure.statement statement.now) }
    ensures len { vec_len uses.new ≤ vec_len uses.old + 1 }
    ensures capacity { vec_capacity uses.old ≤ vec_capacity uses.new }
{
    match statement {
        Statement::Get(_, from) => push_access(place, names, from, false, uses),
        Statement::Set(to, _) => push_access(place, names, to, true, uses),
        Statement::Out(_) => {}
    }
}

// Adds one use of the cell that an access means.
fn push_access(
    place: i64,
    names: &[i64],
    row: &roc_program::Access,
    writes: bool,
    uses: &mut Vec<Access>,
)
    requires key { IsKey (pure.access row.now).id }
    requires room { vec_len uses.old < vec_capacity uses.old }
    ensures uses { uses.new.items ≡ uses.old.items ++ access (access_cell place names.now (pure.access row.now)) writes ∷ [] }
    ensures len { vec_len uses.new ≤ vec_len uses.old + 1 }
    ensures capacity { vec_capacity uses.old ≤ vec_capacity uses.new }
{
    let cell = Cell {
        table: row.table,
        place,
        id: row.key(names),
        column: row.column,
    };
    uses.push(Access { cell, writes }).unwrap();
}
