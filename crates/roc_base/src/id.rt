//! Transaction ids.
use std::fmt;

/// The id of a transaction: its coordinator, and its place in that coordinator's sequence, which
/// starts at 0 and rises by one. Ids are ordered by coordinator and then by sequence, and printed
/// as `c.s`.
#[derive(Clone, Copy, Debug, PartialEq, Eq, PartialOrd, Ord, Hash)]
pub struct TxnId {
    pub coord: u16,
    pub seq: u32,
}

impl fmt::Display for TxnId {
    ghost use Rattle.std.specs.Prelude.{Some};
    ghost use Rattle.roc_base.specs.TxnId.{txn_text};

    ghost output = { λ id. Some (txn_text id) };

    fn fmt<W: fmt::Write>(&self, f: &mut fmt::Formatter<W>) -> fmt::Result {
        let (coord, seq) = (self.coord, self.seq);
        write!(f, "{coord}.{seq}")
    }
}
