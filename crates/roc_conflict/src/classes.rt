//! The class of each piece.
ghost use Rattle.std.specs.Prelude.{◌≡◌, ◌↔◌, ℕ, length, map, IsTrue, IfOk};
ghost use Rattle.std.specs.List.{range_with_len};
ghost use Rattle.roc_program.specs.declared.piece_id.PieceId.{PieceId};
ghost use Rattle.roc_conflict.specs.Classes.{is_immediate};
ghost use Rattle.roc_program.specs.Pieces.{piece_ids};
ghost use Rattle.roc_conflict.specs.Inner.Marks.{is_marked_at, is_held};

use crate::marks::{is_marked, is_marked_at};
use roc_base::NoMemory;
use roc_program::{PieceId, Workload, piece_count, procedure_count};
use std::alloc::Global;
use std::marker::Model;

/// Of each piece of a workload whether it is immediate.
#[derive(Drop)]
pub struct Classes {
    procedures: Vec<Vec<bool>>,
}

impl Model for Classes {
    ghost use Rattle.std.specs.Prelude.{Bool, List, map};

    ghost Value = { List (List Bool) };

    ghost view = { λ c. map (λ v. v.items) c.procedures.items };
}

impl Classes {
    /// Whether a piece is immediate; one that is not there is not.
    pub fn is_immediate(&self, id: PieceId) -> bool
        ensures { result ≡ is_immediate self.now id }
    {
        match self.procedures.get(usize::from(id.proc)) {
            Some(pieces) => match pieces.get(usize::from(id.piece)) {
                Some(immediate) => *immediate,
                None => false,
            },
            None => false,
        }
    }

    // The classes where the marked pieces are the immediate ones.
    pub(crate) fn where_marked(
        alloc: Global,
        workload: &Workload,
        marks: &[[bool; 16]; 64],
    ) -> Result<Classes, NoMemory>
        ensures { IfOk result (λ classes. classes ≡ map (λ proc. map (is_immediate marks.now) (piece_ids workload.now proc)) (range_with_len 0 (length workload.now.procedures))) }
    {
        let mut procedures = Vec::new(alloc);
        for proc in 0..procedure_count(workload) {
            procedures.push(row(alloc, proc, piece_count(workload, proc), marks)?)?;
        }
        Ok(Classes { procedures })
    }

    // Whether only marked pieces are immediate.
    pub(crate) fn are_among(&self, marks: &[[bool; 16]; 64]) -> bool
        ensures { IsTrue result ↔ ((id : PieceId) → IsTrue (is_immediate self.now id) → IsTrue (is_immediate marks.now id)) }
    {
        are_rows_among(self.procedures.as_slice(), marks)
    }
}

// Whether of the classes of procedures only marked ones are set.
fn are_rows_among(rows: &[Vec<bool>], marks: &[[bool; 16]; 64]) -> bool
    ensures { IsTrue result ↔ ((proc piece : ℕ) → IsTrue (is_marked_at (map (λ row. row.items) rows.now) proc piece) → IsTrue (is_marked_at marks.now proc piece)) }
{
    for proc in 0..rows.len() {
        if !is_row_among(&rows[proc], marks, proc) {
            return false;
        }
    }
    true
}

fn is_row_among(row: &[bool], marks: &[[bool; 16]; 64], proc: usize) -> bool
    ensures { IsTrue result ↔ ((piece : ℕ) → IsTrue (is_held row.now piece) → IsTrue (is_marked_at marks.now proc piece)) }
{
    for piece in 0..row.len() {
        if row[piece] && !is_marked_at(marks, proc, piece) {
            return false;
        }
    }
    true
}

/// Whether each marked piece is immediate.
pub(crate) fn hold(classes: &Classes, marks: &[[bool; 16]; 64]) -> bool
    ensures { IsTrue result ↔ ((id : PieceId) → IsTrue (is_immediate marks.now id) → IsTrue (is_immediate classes.now id)) }
{
    for proc in 0..64 {
        if !hold_row(classes, proc, &marks[usize::from(proc)]) {
            return false;
        }
    }
    true
}

// The same of a procedure's marks.
fn hold_row(classes: &Classes, proc: u16, row: &[bool; 16]) -> bool
    ensures { IsTrue result ↔ ((piece : ℕ) → IsTrue (is_held row.now piece) → IsTrue (is_marked_at classes.now proc piece)) }
{
    for piece in 0..16 {
        if row[usize::from(piece)] && !classes.is_immediate(PieceId { proc, piece }) {
            return false;
        }
    }
    true
}

// Of each of the first pieces of a procedure whether it is marked.
fn row(
    alloc: Global,
    proc: u16,
    count: u16,
    marks: &[[bool; 16]; 64],
) -> Result<Vec<bool>, NoMemory>
    ensures { IfOk result (λ classes. classes.items ≡ map (λ k. is_immediate marks.now (record { proc = proc; piece = k })) (range_with_len 0 count)) }
{
    let mut classes = Vec::new(alloc);
    for piece in 0..count {
        classes.push(is_marked(marks, PieceId { proc, piece }))?;
    }
    Ok(classes)
}
