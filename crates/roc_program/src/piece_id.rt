//! Pieces by number.

/// A piece by the number of its procedure and its place there, both from 0 in the order of the text.
#[derive(Clone, Copy, Debug, PartialEq, Eq, PartialOrd, Ord)]
pub struct PieceId {
    pub proc: u16,
    pub piece: u16,
}
