//! Whole procedures.
ghost use Rattle.std.specs.Prelude.{◌≡◌, ◌<◌, ◌++◌, length, IfOk, OnOk};
ghost use Rattle.roc_rows.specs.Store.{write};
ghost use Rattle.roc_program.specs.Values.{with_arguments};
ghost use Rattle.std.specs.List.{AllByRecursion};
ghost use Rattle.roc_program.specs.Keys.{HasKeys};
ghost use Rattle.roc_program.specs.Parts as pure;
ghost use Rattle.roc_whole.specs.Run.{progress, after_pieces, whole_run};
ghost use Rattle.roc_whole.specs.Serial.{procedure_at, init_cell, start_store};

use crate::run_piece;
use roc_base::{NoMemory, Nums};
use roc_program::{Init, Procedure, Workload};
use roc_rows::{Cell, Rows};
use std::alloc::Global;

/// Runs a whole procedure on the cells: its pieces in program order, their statements in order.
/// What it gives out is added to `reply`. Its arguments are as many as it takes; further ones have
/// no name. `NoMemory` leaves a part of the run in the cells and in the reply, so that both are to
/// be thrown away.
pub fn run_whole(
    alloc: Global,
    workload: &Workload,
    rows: &mut Rows,
    proc: u16,
    args: &[i64],
    reply: &mut Nums,
) -> Result<(), NoMemory>
    requires { proc < length workload.now.procedures }
    ensures store { OnOk result (rows.new.store ≡ (whole_run (procedure_at workload.now proc) args.now rows.old.store).store) }
    ensures reply { OnOk result (reply.new ≡ reply.old ++ (whole_run (procedure_at workload.now proc) args.now rows.old.store).reply) }
{
    let procedure = &workload.procedures()[proc as usize];
    let mut names = start_names(alloc, procedure, args)?;
    let mut given = Vec::new(alloc);
    run_pieces(procedure, rows, names.as_mut_slice(), &mut given)?;
    reply.extend_from_slice(given.as_slice())?;
    Ok(())
}

// Runs all pieces of a procedure.
fn run_pieces(
    procedure: &Procedure,
    rows: &mut Rows,
    names: &mut [i64],
    reply: &mut Vec<i64>,
) -> Result<(), NoMemory>
    requires { AllByRecursion HasKeys (pure.procedure procedure.now).pieces }
    ensures { OnOk result (progress rows.new.store names.new reply.new.items ≡ after_pieces (progress rows.old.store names.old reply.old.items) (pure.procedure procedure.now).pieces) }
{
    for piece in &procedure.pieces {
        rows.reserve(piece.body.len())?;
        reply.reserve(piece.body.len())?;
        run_piece(piece, rows, names, reply);
    }
    Ok(())
}

// The names' values before anything is read: the arguments, and 0 for each other name.
fn start_names(alloc: Global, procedure: &Procedure, args: &[i64]) -> Result<Vec<i64>, NoMemory>
    ensures { IfOk result (λ names. names.items ≡ with_arguments (pure.procedure procedure.now) args.now) }
{
    let mut names = Vec::from_slice(alloc, args)?;
    for _ in args.len()..procedure.names as usize {
        names.push(0)?;
    }
    Ok(names)
}

/// What all cells hold before anything runs: each `init` line of the workload, a later one over an
/// earlier one.
pub fn start_rows(alloc: Global, workload: &Workload) -> Result<Rows, NoMemory>
    ensures { IfOk result (λ rows. rows.store ≡ start_store workload.now) }
{
    let mut rows = Rows::new(alloc);
    for init in workload.inits() {
        set_init(&mut rows, init)?;
    }
    Ok(rows)
}

/// Sets the cell of an `init` line.
pub fn set_init(rows: &mut Rows, init: &Init) -> Result<(), NoMemory>
    ensures { OnOk result (rows.new.store ≡ write rows.old.store (init_cell (pure.init init.now)) init.now.value) }
{
    let cell = Cell {
        table: init.table,
        place: init.place,
        id: init.id,
        column: init.column,
    };
    rows.set(cell, init.value)?;
    Ok(())
}
