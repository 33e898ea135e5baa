//! Pieces, statement by statement.
ghost use Rattle.std.specs.Prelude.{◌≡◌, ◌≤◌, ◌<◌, ◌+◌, length, slice_set, vec_len, vec_capacity};
ghost use Rattle.roc_program.specs.Keys.{IsKey, HasKey, HasKeys};
ghost use Rattle.roc_program.specs.Parts as pure;
ghost use Rattle.roc_whole.specs.Run.{progress, access_cell, after_statement, after_piece};

use roc_program::{Access, Piece, Statement};
use roc_rows::{Cell, Rows};

/// Runs a piece on the cells. `names` has the values of the procedure's names, by number: a `get`
/// sets its own, and one past the end is dropped. The ids of what it accesses have one to four integers, as those of a
/// workload's pieces have. What the piece gives out is added to `reply`.
/// Takes no memory: cells and reply have room for as many as the piece has statements.
pub fn run_piece(piece: &Piece, rows: &mut Rows, names: &mut [i64], reply: &mut Vec<i64>)
    requires keys { HasKeys (pure.piece piece.now) }
    requires rows { length piece.now.body.items ≤ rows.old.spare }
    requires reply { vec_len reply.old + length piece.now.body.items ≤ vec_capacity reply.old }
    ensures run { progress rows.new.store names.new reply.new.items ≡ after_piece (progress rows.old.store names.old reply.old.items) (pure.piece piece.now) }
    ensures spare { rows.old.spare ≤ rows.new.spare + length piece.now.body.items }
    ensures saved { rows.new.saved ≡ rows.old.saved }
    ensures len { vec_len reply.new ≤ vec_len reply.old + length piece.now.body.items }
    ensures capacity { vec_capacity reply.old ≤ vec_capacity reply.new }
{
    let place = piece.place.value(names);
    for statement in &piece.body {
        run_statement(place, statement, rows, names, reply);
    }
}

// Runs a statement of a piece at a place.
fn run_statement(
    place: i64,
    statement: &Statement,
    rows: &mut Rows,
    names: &mut [i64],
    reply: &mut Vec<i64>,
)
    requires key { HasKey (pure.statement statement.now) }
    requires rows { 0 < rows.old.spare }
    requires reply { vec_len reply.old < vec_capacity reply.old }
    ensures run { progress rows.new.store names.new reply.new.items ≡ after_statement place (progress rows.old.store names.old reply.old.items) (pure.statement statement.now) }
    ensures spare { rows.old.spare ≤ rows.new.spare + 1 }
    ensures saved { rows.new.saved ≡ rows.old.saved }
    ensures len { vec_len reply.new ≤ vec_len reply.old + 1 }
    ensures capacity { vec_capacity reply.old ≤ vec_capacity reply.new }
{
    match statement {
        Statement::Get(number, from) => {
            let read = rows.get(access_cell(place, names, from));
            set_name(names, *number, read);
        }
        Statement::Set(to, value) => rows
            .set(access_cell(place, names, to), value.value(names))
            .unwrap(),
        Statement::Out(value) => reply.push(value.value(names)).unwrap(),
    }
}

// The cell that an access means.
fn access_cell(place: i64, names: &[i64], access: &Access) -> Cell
    requires { IsKey (pure.access access.now).id }
    ensures { result ≡ access_cell place names.now (pure.access access.now) }
{
    Cell {
        table: access.table,
        place,
        id: access.key(names),
        column: access.column,
    }
}

// Sets the value of a name, where there is one of this number.
fn set_name(names: &mut [i64], number: u16, value: i64)
    ensures { names.new ≡ slice_set names.old number value }
{
    let at = number as usize;
    if at < names.len() {
        names[at] = value;
    }
}
