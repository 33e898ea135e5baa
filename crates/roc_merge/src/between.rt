//! The first two contended pieces of a procedure with one between them that is at another place.
ghost use Rattle.std.specs.Prelude.{◌≡◌, ◌<◌, ◌≤◌, ℕ, true, false, length, IfSome, IfNone};
ghost use Rattle.roc_program.specs.Pieces.{pieces_in};
ghost use Rattle.roc_conflict.specs.Classes.{is_immediate};
ghost use Rattle.roc_conflict.specs.Columns.{AreAll};
ghost use Rattle.roc_program.specs.declared.piece_id.PieceId.{PieceId};
ghost use Rattle.roc_merge_groups.specs.Refusals.{AreApart, IsBlocked};
ghost use Rattle.roc_merge.specs.Inner.Tables.{IsWayBy, IsClearBy};
ghost use Rattle.roc_merge.specs.Inner.Firsts.{IsClear, IsFirstBetween, IsFirstFrom, IsFirstThree};

use crate::tables::{contended_in, count_of, flow_in};
use roc_conflict::{Classes, Columns};
use roc_merge_accept::are_co_located;
use roc_program::{PieceId, Workload, procedure_count};

/// Two contended pieces, and one between them.
#[derive(Clone, Copy)]
pub(crate) struct Between {
    pub p: u16,
    pub q: u16,
    pub x: u16,
}

/// The first p, q and x of all procedures, by the columns of all pieces.
pub(crate) fn first_blocked(
    workload: &Workload,
    classes: &Classes,
    columns: &Columns,
) -> Option<(PieceId, PieceId, PieceId)>
    requires { AreAll workload.now columns.now }
    ensures found { IfSome result (λ r. ((a b : PieceId) → ¬ AreApart workload.now (is_immediate classes.now) a b) → IsBlocked workload.now (is_immediate classes.now) r.0 r.1 r.2) }
    ensures none { IfNone result ((proc a b c : ℕ) → IsClear workload.now (is_immediate classes.now) proc a b c) }
{
    for proc in 0..procedure_count(workload) {
        if let Some(between) = first_in(workload, classes, columns, proc) {
            let p = PieceId {
                proc,
                piece: between.p,
            };
            let q = PieceId {
                proc,
                piece: between.q,
            };
            let x = PieceId {
                proc,
                piece: between.x,
            };
            return Some((p, q, x));
        }
    }
    None
}

// The first of a procedure.
fn first_in(workload: &Workload, classes: &Classes, columns: &Columns, proc: u16) -> Option<Between>
    requires procedure { proc < length workload.now.procedures }
    requires columns { AreAll workload.now columns.now }
    ensures found { IfSome result (λ b. IsFirstThree workload.now (is_immediate classes.now) proc b.p b.q b.x) }
    ensures none { IfNone result ((a b c : ℕ) → IsClear workload.now (is_immediate classes.now) proc a b c) }
{
    let contended = contended_in(workload, classes, columns, proc);
    let flow = flow_in(workload, proc);
    for p in 0..count_of(workload, proc) {
        if let Some((q, x)) = first_from(workload, proc, &contended, &flow, p) {
            return Some(Between { p, q, x });
        }
    }
    None
}

// The first from a piece.
fn first_from(
    workload: &Workload,
    proc: u16,
    contended: &[bool; 16],
    flow: &[[bool; 16]; 16],
    p: u16,
) -> Option<(u16, u16)>
    requires procedure { proc < length workload.now.procedures }
    requires piece { p < length (pieces_in workload.now proc) }
    ensures found { IfSome result (λ r. IsFirstFrom workload.now proc contended.now flow.now (length (pieces_in workload.now proc)) p r.0 r.1) }
    ensures none { IfNone result ((b c : ℕ) → b < length (pieces_in workload.now proc) → c < length (pieces_in workload.now proc) → IsClearBy workload.now proc contended.now flow.now p b c) }
{
    for q in 0..count_of(workload, proc) {
        if let Some(x) = first_between(workload, proc, contended, flow, p, q) {
            return Some((q, x));
        }
    }
    None
}

// The first between two pieces.
fn first_between(
    workload: &Workload,
    proc: u16,
    contended: &[bool; 16],
    flow: &[[bool; 16]; 16],
    p: u16,
    q: u16,
) -> Option<u16>
    requires procedure { proc < length workload.now.procedures }
    requires first { p < length (pieces_in workload.now proc) }
    requires second { q < length (pieces_in workload.now proc) }
    ensures found { IfSome result (λ x. IsFirstBetween workload.now proc contended.now flow.now p q x × (x < length (pieces_in workload.now proc))) }
    ensures none { IfNone result ((c : ℕ) → c < length (pieces_in workload.now proc) → IsClearBy workload.now proc contended.now flow.now p q c) }
{
    for x in 0..count_of(workload, proc) {
        if is_in_the_way(workload, proc, contended, flow, p, q, x) {
            return Some(x);
        }
    }
    None
}

// Whether a piece is between two contended ones, and not at the first one's place.
fn is_in_the_way(
    workload: &Workload,
    proc: u16,
    contended: &[bool; 16],
    flow: &[[bool; 16]; 16],
    p: u16,
    q: u16,
    x: u16,
) -> bool
    requires procedure { proc < length workload.now.procedures }
    requires first { p < length (pieces_in workload.now proc) }
    requires second { q < length (pieces_in workload.now proc) }
    requires third { x < length (pieces_in workload.now proc) }
    requires few { length (pieces_in workload.now proc) ≤ 16 }
    ensures yes { result ≡ true → IsWayBy workload.now proc contended.now flow.now p q x }
    ensures no { result ≡ false → IsClearBy workload.now proc contended.now flow.now p q x }
{
    contended[usize::from(p)]
        && contended[usize::from(q)]
        && flow[usize::from(x)][usize::from(p)]
        && flow[usize::from(q)][usize::from(x)]
        && !are_co_located(workload, proc, p, x)
}
