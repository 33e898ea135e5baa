//! The pieces of a workload, by number.
ghost use Rattle.std.specs.Prelude.{◌≡◌, ◌++◌, ◌<◌, length, map, IfOk, OnOk};
ghost use Rattle.std.specs.List.{range_with_len};
ghost use Rattle.roc_program.specs.LookUps.{is_view_in};
ghost use Rattle.roc_program.specs.Parts as view;
ghost use Rattle.roc_program.specs.Pieces.{piece_of, pieces_in, all_pieces};
ghost use Rattle.roc_program.specs.declared.piece_id.PieceId.{PieceId};

use crate::{PieceId, Statement, Workload};
use roc_base::NoMemory;
use std::alloc::{AllocError, Global};

/// How many procedures there are.
pub fn procedure_count(workload: &Workload) -> u16
    ensures { result ≡ length workload.now.procedures }
{
    workload.procedures().len() as u16
}

/// How many pieces a procedure has.
pub fn piece_count(workload: &Workload, proc: u16) -> u16
    requires { proc < length workload.now.procedures }
    ensures { result ≡ length (pieces_in workload.now proc) }
{
    workload.procedures()[usize::from(proc)].pieces.len() as u16
}

/// All pieces, in the order of the text.
pub fn all_pieces(alloc: Global, workload: &Workload) -> Result<Vec<PieceId>, NoMemory>
    ensures { IfOk result (λ ids. ids.items ≡ all_pieces workload.now) }
{
    let mut ids = Vec::new(alloc);
    for proc in 0..procedure_count(workload) {
        push_pieces(&mut ids, proc, piece_count(workload, proc))?;
    }
    Ok(ids)
}

// Adds the first pieces of a procedure.
fn push_pieces(ids: &mut Vec<PieceId>, proc: u16, count: u16) -> Result<(), AllocError>
    ensures { OnOk result (ids.new.items ≡ ids.old.items ++ map (λ k. record { proc = proc; piece = k }) (range_with_len 0 count)) }
{
    for piece in 0..count {
        ids.push(PieceId { proc, piece })?;
    }
    Ok(())
}

/// Whether a procedure is a view; one that is not there is none. Takes no memory.
pub fn is_view(workload: &Workload, proc: u16) -> bool
    ensures { result ≡ is_view_in workload.now proc }
{
    match workload.procedures().get(usize::from(proc)) {
        Some(procedure) => procedure.is_view,
        None => false,
    }
}

/// Whether a piece was declared `now`; one that is not there was not.
pub fn is_declared_now(workload: &Workload, id: PieceId) -> bool
    ensures { result ≡ (piece_of workload.now id).is_now }
{
    match workload.procedures().get(usize::from(id.proc)) {
        Some(procedure) => match procedure.pieces.get(usize::from(id.piece)) {
            Some(piece) => piece.is_now,
            None => false,
        },
        None => false,
    }
}

// The statements of a piece; one that is not there has none.
pub(crate) fn body_of(workload: &Workload, id: PieceId) -> &[Statement]
    ensures { map view.statement result.now ≡ (piece_of workload.now id).body }
{
    match workload.procedures().get(usize::from(id.proc)) {
        Some(procedure) => match procedure.pieces.get(usize::from(id.piece)) {
            Some(piece) => piece.body.as_slice(),
            None => &[],
        },
        None => &[],
    }
}
