//! Marks on the pieces of a workload: a place for each piece that a workload may have.
ghost use Rattle.std.specs.Prelude.{◌≡◌, ◌<◌, true, false, length, slice_set};
ghost use Rattle.roc_program.specs.declared.piece_id.PieceId.{PieceId};
ghost use Rattle.roc_conflict.specs.Classes.{is_immediate};
ghost use Rattle.roc_conflict.specs.Inner.Marks.{is_marked_at, IsMarked};

use roc_program::PieceId;

/// No marks.
pub(crate) fn no_marks() -> [[bool; 16]; 64]
    ensures { (id : PieceId) → is_immediate result id ≡ false }
{
    [[false; 16]; 64]
}

/// Whether a piece is marked.
pub(crate) fn is_marked(marks: &[[bool; 16]; 64], id: PieceId) -> bool
    ensures { result ≡ is_immediate marks.now id }
{
    is_marked_at(marks, usize::from(id.proc), usize::from(id.piece))
}

/// Whether the place of these numbers is marked; past the last one none is.
pub(crate) fn is_marked_at(marks: &[[bool; 16]; 64], proc: usize, piece: usize) -> bool
    ensures { result ≡ is_marked_at marks.now proc piece }
{
    match marks.get(proc) {
        Some(row) => match row.get(piece) {
            Some(marked) => *marked,
            None => false,
        },
        None => false,
    }
}

/// Marks a piece.
pub(crate) fn mark(marks: &mut [[bool; 16]; 64], id: PieceId)
    requires procedure { id.proc < 64 }
    requires piece { id.piece < 16 }
    ensures { IsMarked marks.old marks.new id }
{
    let row = with_place(&marks[usize::from(id.proc)], usize::from(id.piece));
    marks[usize::from(id.proc)] = row;
}

// A row with one more place marked.
fn with_place(row: &[bool; 16], piece: usize) -> [bool; 16]
    requires { piece < 16 }
    ensures value { result ≡ slice_set row.now piece true }
    ensures long { length row.now ≡ 16 }
{
    let mut marked = *row;
    marked[piece] = true;
    marked
}
