//! A group's run.
ghost use Rattle.std.specs.Prelude.{◌≡◌, ◌++◌, ◌<◌, ◌≤◌, ◌+◌, ◌^◌, ◌∷◌, [], length, map, IfOk, IsOk, OnOk, OnErr, vec_len, vec_capacity};
ghost use Rattle.std.specs.List.{AllByRecursion, filter_map};
ghost use Rattle.roc_program.specs.Keys.{HasKeys};
ghost use Rattle.roc_program.specs.Names.{binding};
ghost use Rattle.roc_program.specs.Parts as pure;
ghost use Rattle.roc_program.specs.Values.{value_of_name};
ghost use Rattle.roc_whole.specs.Run.{progress, after_piece, after_pieces};
ghost use Rattle.roc_plan.specs.Groups.{procedure_of, groups_of, inputs_of, pieces_at, bound_in};
ghost use Rattle.roc_group.specs.Accesses.{uses_of_piece, uses_of_pieces};
ghost use Rattle.roc_group.specs.GroupRun.{call, group_run, group_uses, bound_by_run, statements_in, statements_of};
ghost use Rattle.roc_group.specs.Outputs.{AreSameOutputs};
ghost use Rattle.roc_group.specs.Inner.Steady.{IsSteady, AreSteady};

use crate::names::fill_names;
use crate::outputs::Given;
use crate::uses::push_uses;
use crate::{Access, Outputs};
use roc_base::NoMemory;
use roc_plan::{Known, Plan};
use roc_program::{Piece, Procedure, Statement};
use roc_rows::Rows;
use roc_whole::run_piece;

/// Runs a group on the cells: its pieces in program order, from what it is given. The values of the names that it binds, what it gives
/// out and the cells that it touches are added to `out`. `NoMemory` leaves cells and `out` as they were, and comes only where cells or
/// `out` lack room for one per statement of the group, or `out` lacks it for the procedure's names. A savepoint of the cells stays.
pub fn run_group(
    plan: &Plan,
    proc: u16,
    group: u16,
    known: &Known,
    rows: &mut Rows,
    out: &mut Outputs,
) -> Result<(), NoMemory>
    requires exists { group < length (groups_of plan.now proc) }
    requires args { length known.now.args ≡ (procedure_of plan.now proc).arguments }
    requires inputs { length known.now.inputs ≡ length (inputs_of plan.now proc group) }
    ensures store { OnOk result (rows.new.store ≡ (group_run plan.now (call proc group known.now.args known.now.inputs) rows.old.store).store) }
    ensures bound { OnOk result (out.new.bound ≡ out.old.bound ++ bound_by_run plan.now (call proc group known.now.args known.now.inputs) rows.old.store) }
    ensures outs { OnOk result (out.new.outs ≡ out.old.outs ++ (group_run plan.now (call proc group known.now.args known.now.inputs) rows.old.store).reply) }
    ensures cells { OnOk result (out.new.cells ≡ out.old.cells ++ group_uses plan.now (call proc group known.now.args known.now.inputs) rows.old.store) }
    ensures err { OnErr result ((rows.new.store ≡ rows.old.store) × AreSameOutputs out.old out.new) }
    ensures succeeds { statements_of plan.now proc group ≤ rows.old.spare → statements_of plan.now proc group ≤ out.old.spare → (procedure_of plan.now proc).names ≤ out.old.names → IsOk result }
    ensures spare { rows.old.spare ≤ rows.new.spare + statements_of plan.now proc group }
    ensures saved { rows.new.saved ≡ rows.old.saved }
{
    let procedure = &plan.workload().procedures()[proc as usize];
    let pieces = plan.pieces(proc, group);
    make_room(procedure, pieces, rows, out)?;
    fill_names(plan, proc, group, known, &mut out.names)?;
    run_with(
        procedure,
        pieces,
        rows,
        out.names.as_mut_slice(),
        &mut out.given,
    );
    Ok(())
}

// Takes the memory that pieces of a procedure need as they run.
fn make_room(
    procedure: &Procedure,
    pieces: &[u16],
    rows: &mut Rows,
    out: &mut Outputs,
) -> Result<(), NoMemory>
    requires { AllByRecursion (λ k. k < length (pure.procedure procedure.now).pieces) pieces.now }
    ensures store { rows.new.store ≡ rows.old.store }
    ensures same { AreSameOutputs out.old out.new }
    ensures saved { rows.new.saved ≡ rows.old.saved }
    ensures rows { OnOk result (statements_in (pieces_at (pure.procedure procedure.now) pieces.now) ≤ rows.new.spare) }
    ensures statements { OnOk result (statements_in (pieces_at (pure.procedure procedure.now) pieces.now) ≤ out.new.spare) }
    ensures names { OnOk result (procedure.now.names ≤ out.new.names) }
    ensures spare { rows.old.spare ≤ rows.new.spare }
    ensures succeeds { statements_in (pieces_at (pure.procedure procedure.now) pieces.now) ≤ rows.old.spare
        → statements_in (pieces_at (pure.procedure procedure.now) pieces.now) ≤ out.old.spare → procedure.now.names ≤ out.old.names → IsOk result }
{
    let spare = rows.spare();
    let statements = count_statements(procedure, pieces)?;
    if spare < statements {
        rows.reserve(statements)?;
    }
    out.reserve(statements, procedure.names as usize)
}

// How many statements pieces of a procedure have. There is no room for more than can be counted.
fn count_statements(procedure: &Procedure, pieces: &[u16]) -> Result<usize, NoMemory>
    requires { AllByRecursion (λ k. k < length (pure.procedure procedure.now).pieces) pieces.now }
    ensures ok { IfOk result (λ count. count ≡ statements_in (pieces_at (pure.procedure procedure.now) pieces.now)) }
    ensures err { OnErr result (2 ^ 64 ≤ statements_in (pieces_at (pure.procedure procedure.now) pieces.now)) }
{
    let mut count: usize = 0;
    for number in pieces {
        let more = procedure.pieces[usize::from(*number)].body.len();
        let Some(sum) = count.checked_add(more) else {
            return Err(NoMemory);
        };
        count = sum;
    }
    Ok(count)
}

// Runs pieces of a procedure where the names have these values. There is room for one per statement.
fn run_with(
    procedure: &Procedure,
    pieces: &[u16],
    rows: &mut Rows,
    names: &mut [i64],
    given: &mut Given,
)
    requires there { AllByRecursion (λ k. k < length (pure.procedure procedure.now).pieces) pieces.now }
    requires keys { AllByRecursion HasKeys (pure.procedure procedure.now).pieces }
    requires steady { AreSteady (pure.procedure procedure.now) }
    requires rows { statements_in (pieces_at (pure.procedure procedure.now) pieces.now) ≤ rows.old.spare }
    requires outs { vec_len given.old.outs + statements_in (pieces_at (pure.procedure procedure.now) pieces.now) ≤ vec_capacity given.old.outs }
    requires bound { vec_len given.old.bound + statements_in (pieces_at (pure.procedure procedure.now) pieces.now) ≤ vec_capacity given.old.bound }
    requires cells { vec_len given.old.cells + statements_in (pieces_at (pure.procedure procedure.now) pieces.now) ≤ vec_capacity given.old.cells }
    ensures run { progress rows.new.store names.new given.new.outs.items ≡ after_pieces (progress rows.old.store names.old given.old.outs.items) (pieces_at (pure.procedure procedure.now) pieces.now) }
    ensures bound { given.new.bound.items ≡ given.old.bound.items ++ map (value_of_name names.new) (bound_in (pure.procedure procedure.now) pieces.now) }
    ensures cells { given.new.cells.items ≡ given.old.cells.items ++ uses_of_pieces (progress rows.old.store names.old given.old.outs.items) (pieces_at (pure.procedure procedure.now) pieces.now) }
    ensures spare { rows.old.spare ≤ rows.new.spare + statements_in (pieces_at (pure.procedure procedure.now) pieces.now) }
    ensures saved { rows.new.saved ≡ rows.old.saved }
{
    run_pieces(
        procedure,
        pieces,
        rows,
        names,
        &mut given.outs,
        &mut given.cells,
    );
    push_bound(procedure, pieces, names, &mut given.bound);
}

// Runs pieces of a procedure, one after another.
fn run_pieces(
    procedure: &Procedure,
    pieces: &[u16],
    rows: &mut Rows,
    names: &mut [i64],
    outs: &mut Vec<i64>,
    cells: &mut Vec<Access>,
)
    requires there { AllByRecursion (λ k. k < length (pure.procedure procedure.now).pieces) pieces.now }
    requires keys { AllByRecursion HasKeys (pure.procedure procedure.now).pieces }
    requires steady { AreSteady (pure.procedure procedure.now) }
    requires rows { statements_in (pieces_at (pure.procedure procedure.now) pieces.now) ≤ rows.old.spare }
    requires outs { vec_len outs.old + statements_in (pieces_at (pure.procedure procedure.now) pieces.now) ≤ vec_capacity outs.old }
    requires cells { vec_len cells.old + statements_in (pieces_at (pure.procedure procedure.now) pieces.now) ≤ vec_capacity cells.old }
    ensures run { progress rows.new.store names.new outs.new.items ≡ after_pieces (progress rows.old.store names.old outs.old.items) (pieces_at (pure.procedure procedure.now) pieces.now) }
    ensures cells { cells.new.items ≡ cells.old.items ++ uses_of_pieces (progress rows.old.store names.old outs.old.items) (pieces_at (pure.procedure procedure.now) pieces.now) }
    ensures spare { rows.old.spare ≤ rows.new.spare + statements_in (pieces_at (pure.procedure procedure.now) pieces.now) }
    ensures saved { rows.new.saved ≡ rows.old.saved }
{
    for piece in pieces {
        run_one(
            &procedure.pieces[usize::from(*piece)],
            rows,
            names,
            outs,
            cells,
        );
    }
}

// Runs a piece. What it uses follows from the names as it begins, so it is told first.
fn run_one(
    piece: &Piece,
    rows: &mut Rows,
    names: &mut [i64],
    outs: &mut Vec<i64>,
    cells: &mut Vec<Access>,
)
    requires keys { HasKeys (pure.piece piece.now) }
    requires steady { IsSteady (pure.piece piece.now) }
    requires rows { length piece.now.body.items ≤ rows.old.spare }
    requires outs { vec_len outs.old + length piece.now.body.items ≤ vec_capacity outs.old }
    requires cells { vec_len cells.old + length piece.now.body.items ≤ vec_capacity cells.old }
    ensures run { progress rows.new.store names.new outs.new.items ≡ after_piece (progress rows.old.store names.old outs.old.items) (pure.piece piece.now) }
    ensures cells { cells.new.items ≡ cells.old.items ++ uses_of_piece (progress rows.old.store names.old outs.old.items) (pure.piece piece.now) }
    ensures spare { rows.old.spare ≤ rows.new.spare + length piece.now.body.items }
    ensures saved { rows.new.saved ≡ rows.old.saved }
    ensures lens { (vec_len outs.new ≤ vec_len outs.old + length piece.now.body.items) × (vec_len cells.new ≤ vec_len cells.old + length piece.now.body.items) }
    ensures capacities { (vec_capacity outs.old ≤ vec_capacity outs.new) × (vec_capacity cells.old ≤ vec_capacity cells.new) }
{
    push_uses(piece, names, cells);
    run_piece(piece, rows, names, outs);
}

// Adds the values of the names that pieces bind. There is room for one per statement.
fn push_bound(procedure: &Procedure, pieces: &[u16], names: &[i64], bound: &mut Vec<i64>)
    requires there { AllByRecursion (λ k. k < length (pure.procedure procedure.now).pieces) pieces.now }
    requires room { vec_len bound.old + statements_in (pieces_at (pure.procedure procedure.now) pieces.now) ≤ vec_capacity bound.old }
    ensures { bound.new.items ≡ bound.old.items ++ map (value_of_name names.now) (bound_in (pure.procedure procedure.now) pieces.now) }
{
    for piece in pieces {
        push_body(&procedure.pieces[usize::from(*piece)].body, names, bound);
    }
}

// The same of statements.
fn push_body(body: &[Statement], names: &[i64], bound: &mut Vec<i64>)
    requires { vec_len bound.old + length body.now ≤ vec_capacity bound.old }
    ensures bound { bound.new.items ≡ bound.old.items ++ map (value_of_name names.now) (filter_map binding (map pure.statement body.now)) }
    ensures len { vec_len bound.new ≤ vec_len bound.old + length body.now }
    ensures capacity { vec_capacity bound.old ≤ vec_capacity bound.new }
{
    for statement in body {
        push_value(statement, names, bound);
    }
}

// The same of a statement.
fn push_value(statement: &Statement, names: &[i64], bound: &mut Vec<i64>)
    requires { vec_len bound.old < vec_capacity bound.old }
    ensures bound { bound.new.items ≡ bound.old.items ++ map (value_of_name names.now) (filter_map binding (pure.statement statement.now ∷ [])) }
    ensures len { vec_len bound.new ≤ vec_len bound.old + 1 }
    ensures capacity { vec_capacity bound.old ≤ vec_capacity bound.new }
{
    let Statement::Get(number, _) = statement else {
        return;
    };
    bound.push(value_of(names, *number)).unwrap();
}

// The value of a name; a number past the end has 0.
fn value_of(names: &[i64], number: u16) -> i64
    ensures { result ≡ value_of_name names.now number }
{
    match names.get(usize::from(number)) {
        Some(value) => *value,
        None => 0,
    }
}
