//! Tables of a procedure, of at most 16 pieces: which are contended, and which lead to which.
ghost use Rattle.std.specs.Prelude.{◌≡◌, ◌↔◌, ◌<◌, ◌≤◌, ◌⊎◌, ℕ, length, IsTrue};
ghost use Rattle.roc_program.specs.Pieces.{pieces_in};
ghost use Rattle.roc_conflict.specs.Classes.{is_immediate};
ghost use Rattle.roc_conflict.specs.Columns.{AreAll};
ghost use Rattle.roc_merge_groups.specs.Flow.{feeds, Leads};
ghost use Rattle.roc_merge.specs.Inner.Tables.{holds, AreContended, IsFlow};

use roc_conflict::{Classes, Columns};
use roc_merge_accept::feeds;
use roc_program::{PieceId, Workload, piece_count};

/// How many pieces a procedure has.
pub(crate) fn count_of(workload: &Workload, proc: u16) -> u16
    requires { proc < length workload.now.procedures }
    ensures value { result ≡ length (pieces_in workload.now proc) }
    ensures few { result ≤ 16 }
{
    let _ = workload.procedures();
    piece_count(workload, proc)
}

/// Of each piece of a procedure whether it is contended, by the columns of all pieces; past the last one is none.
pub(crate) fn contended_in(
    workload: &Workload,
    classes: &Classes,
    columns: &Columns,
    proc: u16,
) -> [bool; 16]
    requires procedure { proc < length workload.now.procedures }
    requires columns { AreAll workload.now columns.now }
    ensures { AreContended workload.now (is_immediate classes.now) proc result }
{
    let mut row = [false; 16];
    for piece in 0..count_of(workload, proc) {
        row[usize::from(piece)] = columns.contend(workload, classes, PieceId { proc, piece });
    }
    row
}

/// Of each piece of a procedure the pieces that lead to it.
pub(crate) fn flow_in(workload: &Workload, proc: u16) -> [[bool; 16]; 16]
    requires { proc < length workload.now.procedures }
    ensures { IsFlow workload.now proc result (length (pieces_in workload.now proc)) }
{
    let mut flow = [[false; 16]; 16];
    for user in 0..count_of(workload, proc) {
        let row = sources(workload, proc, user, &flow);
        flow[usize::from(user)] = row;
    }
    flow
}

// The pieces that lead to this one, where the rows of those before it are there: what it uses was bound before, or by itself.
fn sources(workload: &Workload, proc: u16, user: u16, flow: &[[bool; 16]; 16]) -> [bool; 16]
    requires procedure { proc < length workload.now.procedures }
    requires user { user < length (pieces_in workload.now proc) }
    requires few { length (pieces_in workload.now proc) ≤ 16 }
    requires flow { IsFlow workload.now proc flow.now user }
    ensures { (p : ℕ) → IsTrue (holds result p) ↔ Leads (feeds workload.now proc) p user }
{
    let _ = workload.procedures();
    let mut row = [false; 16];
    for source in 0..user {
        if feeds(workload, proc, source, user) {
            row = with_source(&row, source, &flow[usize::from(source)]);
        }
    }
    if feeds(workload, proc, user, user) {
        row[usize::from(user)] = true;
    }
    row
}

// What a row holds, and a piece with those that lead to it.
fn with_source(row: &[bool; 16], source: u16, behind: &[bool; 16]) -> [bool; 16]
    requires { source < 16 }
    ensures { (p : ℕ) → IsTrue (holds result p) ↔ ((p ≡ source) ⊎ (IsTrue (holds row.now p) ⊎ IsTrue (holds behind.now p))) }
{
    let mut all = union(row, behind);
    all[usize::from(source)] = true;
    all
}

// What either row holds.
fn union(one: &[bool; 16], other: &[bool; 16]) -> [bool; 16]
    ensures { (p : ℕ) → IsTrue (holds result p) ↔ (IsTrue (holds one.now p) ⊎ IsTrue (holds other.now p)) }
{
    let mut row = *one;
    for at in 0..16 {
        if other[at] {
            row[at] = true;
        }
    }
    row
}
