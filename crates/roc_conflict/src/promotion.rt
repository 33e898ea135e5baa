//! Promotion: pieces in conflict with immediate ones are immediate too.
ghost use Rattle.std.specs.Prelude.{◌≡◌, ◌↔◌, ◌<◌, false, length, map, IsTrue, IfOk, IfSome, IfNone};
ghost use Rattle.roc_program.specs.Pieces.{HasPiece};
ghost use Rattle.roc_program.specs.declared.piece_id.PieceId.{PieceId};
ghost use Rattle.roc_conflict.specs.Classes.{is_immediate};
ghost use Rattle.roc_conflict.specs.Columns.{piece_meets};
ghost use Rattle.roc_conflict.specs.Immediate.{IsImmediate};
ghost use Rattle.roc_conflict.specs.Inner.Marks.{is_due};

use crate::classes::hold;
use crate::marks::{is_marked, mark, no_marks};
use crate::{Classes, Columns};
use roc_base::NoMemory;
use roc_program::{PieceId, Workload, is_declared_now, piece_count, procedure_count};
use std::alloc::Global;

/// Which pieces are immediate: those declared `now`, and each piece in conflict with an immediate
/// one.
pub fn promote(alloc: Global, workload: &Workload) -> Result<Classes, NoMemory>
    ensures shape { IfOk result (λ classes. map length classes ≡ map (λ p. length p.pieces) workload.now.procedures) }
    ensures exact { IfOk result (λ classes. (id : PieceId) → IsTrue (is_immediate classes id) ↔ IsImmediate workload.now id) }
{
    let immediate = immediate_pieces(workload);
    Classes::where_marked(alloc, workload, &immediate)
}

/// Whether classes are those that promotion gives. Takes no memory.
pub fn is_least(workload: &Workload, classes: &Classes) -> bool
    ensures { IsTrue result ↔ ((id : PieceId) → IsTrue (is_immediate classes.now id) ↔ IsImmediate workload.now id) }
{
    let immediate = immediate_pieces(workload);
    classes.are_among(&immediate) && hold(classes, &immediate)
}

// The immediate pieces, each of which is taken once. What is in conflict with a piece that was taken meets the columns that are reached.
fn immediate_pieces(workload: &Workload) -> [[bool; 16]; 64]
    ensures { (id : PieceId) → IsTrue (is_immediate result id) ↔ IsImmediate workload.now id }
{
    let _ = workload.procedures();
    let mut reached = Columns::none();
    let mut taken = no_marks();
    'walk: while let Some(next) = first_due(workload, &reached, &taken) {
        mark(&mut taken, next);
        reached.add(workload, next);
    }
    taken
}

// The first piece that is immediate and was not taken yet.
fn first_due(workload: &Workload, reached: &Columns, taken: &[[bool; 16]; 64]) -> Option<PieceId>
    ensures found { IfSome result (λ id. HasPiece workload.now id × IsTrue (is_due workload.now (piece_meets workload.now reached.now) taken.now id)) }
    ensures none { IfNone result ((id : PieceId) → HasPiece workload.now id → is_due workload.now (piece_meets workload.now reached.now) taken.now id ≡ false) }
{
    for proc in 0..procedure_count(workload) {
        if let Some(id) = first_due_in(workload, reached, taken, proc) {
            return Some(id);
        }
    }
    None
}

// The first of a procedure.
fn first_due_in(
    workload: &Workload,
    reached: &Columns,
    taken: &[[bool; 16]; 64],
    proc: u16,
) -> Option<PieceId>
    requires { proc < length workload.now.procedures }
    ensures found { IfSome result (λ id. HasPiece workload.now id × IsTrue (is_due workload.now (piece_meets workload.now reached.now) taken.now id)) }
    ensures none { IfNone result ((id : PieceId) → id.proc ≡ proc → HasPiece workload.now id → is_due workload.now (piece_meets workload.now reached.now) taken.now id ≡ false) }
{
    for piece in 0..piece_count(workload, proc) {
        let id = PieceId { proc, piece };
        if is_due(workload, reached, taken, id) {
            return Some(id);
        }
    }
    None
}

// Whether a piece is immediate, by what is reached so far, and was not taken.
fn is_due(workload: &Workload, reached: &Columns, taken: &[[bool; 16]; 64], id: PieceId) -> bool
    ensures { result ≡ is_due workload.now (piece_meets workload.now reached.now) taken.now id }
{
    !is_marked(taken, id) && (is_declared_now(workload, id) || reached.meet(workload, id))
}
