//! Sets of the pieces of a workload: a word for each procedure, with a bit for each piece.
ghost use Rattle.std.specs.Prelude.{◌≡◌, ◌==◌, ◌||◌, ◌<◌};
ghost use Rattle.std.specs.Int.{bit_at};
ghost use Rattle.roc_program.specs.declared.piece_id.PieceId.{PieceId};
ghost use Rattle.roc_check.specs.Inner.PieceSets.{holds, is_piece};

use roc_program::PieceId;

/// The set with one more piece.
pub(crate) fn with_piece(set: &[u16; 64], id: PieceId) -> [u16; 64]
    requires procedure { id.proc < 64 }
    requires piece { id.piece < 16 }
    ensures { (other : PieceId) → holds result other ≡ (holds set.now other || is_piece other id) }
{
    let mut more = *set;
    let place = usize::from(id.proc);
    more[place] = set[place] | 1 << id.piece;
    more
}

/// The pieces of two sets.
pub(crate) fn united(one: &[u16; 64], other: &[u16; 64]) -> [u16; 64]
    ensures { (id : PieceId) → holds result id ≡ (holds one.now id || holds other.now id) }
{
    let mut all = *one;
    for at in 0..64 {
        all[at] = one[at] | other[at];
    }
    all
}

/// Whether a piece is in the set.
pub(crate) fn holds(set: &[u16; 64], id: PieceId) -> bool
    ensures { result ≡ holds set.now id }
{
    match set.get(usize::from(id.proc)) {
        Some(word) => has_bit(*word, id.piece),
        None => false,
    }
}

// Whether a word has this bit.
fn has_bit(word: u16, bit: u16) -> bool
    ensures { result ≡ (bit_at word bit == 1) }
{
    bit < 16 && (word >> bit) & 1 == 1
}
