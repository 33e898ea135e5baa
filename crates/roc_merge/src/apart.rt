//! The first two contended pieces of a procedure that are at different places.
ghost use Rattle.std.specs.Prelude.{◌≡◌, ◌<◌, ◌≤◌, ℕ, true, false, length, IfSome, IfNone};
ghost use Rattle.roc_program.specs.Pieces.{pieces_in};
ghost use Rattle.roc_conflict.specs.Classes.{is_immediate};
ghost use Rattle.roc_conflict.specs.Columns.{AreAll};
ghost use Rattle.roc_merge_groups.specs.Refusals.{IsApart};
ghost use Rattle.roc_merge.specs.Inner.Tables.{IsApartBy, IsJoinedBy};
ghost use Rattle.roc_merge.specs.Inner.Firsts.{IsJoined, IsFirstBehind, IsFirstPair};

use crate::tables::{contended_in, count_of};
use roc_conflict::{Classes, Columns};
use roc_merge_accept::are_co_located;
use roc_program::{PieceId, Workload, procedure_count};

/// The first two of all procedures, by the columns of all pieces.
pub(crate) fn first_apart(
    workload: &Workload,
    classes: &Classes,
    columns: &Columns,
) -> Option<(PieceId, PieceId)>
    requires { AreAll workload.now columns.now }
    ensures found { IfSome result (λ pair. IsApart workload.now (is_immediate classes.now) pair.0 pair.1) }
    ensures none { IfNone result ((proc p q : ℕ) → IsJoined workload.now (is_immediate classes.now) proc p q) }
{
    for proc in 0..procedure_count(workload) {
        if let Some((p, q)) = first_in(workload, classes, columns, proc) {
            return Some((PieceId { proc, piece: p }, PieceId { proc, piece: q }));
        }
    }
    None
}

// The first two of a procedure.
fn first_in(
    workload: &Workload,
    classes: &Classes,
    columns: &Columns,
    proc: u16,
) -> Option<(u16, u16)>
    requires procedure { proc < length workload.now.procedures }
    requires columns { AreAll workload.now columns.now }
    ensures found { IfSome result (λ pair. IsFirstPair workload.now (is_immediate classes.now) proc pair.0 pair.1) }
    ensures none { IfNone result ((p q : ℕ) → IsJoined workload.now (is_immediate classes.now) proc p q) }
{
    let contended = contended_in(workload, classes, columns, proc);
    for p in 0..count_of(workload, proc) {
        if let Some(q) = first_behind(workload, proc, &contended, p) {
            return Some((p, q));
        }
    }
    None
}

// The first piece behind p that is apart from it.
fn first_behind(workload: &Workload, proc: u16, contended: &[bool; 16], p: u16) -> Option<u16>
    requires procedure { proc < length workload.now.procedures }
    requires piece { p < length (pieces_in workload.now proc) }
    ensures found { IfSome result (λ q. IsFirstBehind workload.now proc contended.now p q) }
    ensures none { IfNone result ((q : ℕ) → p < q → q < length (pieces_in workload.now proc) → IsJoinedBy workload.now proc contended.now p q) }
{
    let count = count_of(workload, proc);
    for q in p + 1..count {
        if are_apart(workload, proc, contended, p, q) {
            return Some(q);
        }
    }
    None
}

// Whether two pieces are contended, at different places.
fn are_apart(workload: &Workload, proc: u16, contended: &[bool; 16], p: u16, q: u16) -> bool
    requires procedure { proc < length workload.now.procedures }
    requires first { p < length (pieces_in workload.now proc) }
    requires second { q < length (pieces_in workload.now proc) }
    requires few { length (pieces_in workload.now proc) ≤ 16 }
    ensures yes { result ≡ true → IsApartBy workload.now proc contended.now p q }
    ensures no { result ≡ false → IsJoinedBy workload.now proc contended.now p q }
{
    contended[usize::from(p)] && contended[usize::from(q)] && !are_co_located(workload, proc, p, q)
}
