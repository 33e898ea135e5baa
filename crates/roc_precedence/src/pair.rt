//! What comes before what.
use roc_base::TxnId;

/// One transaction comes before another. Pairs are ordered by the later one first.
#[derive(Clone, Copy, Debug, PartialEq, Eq, PartialOrd, Ord)]
pub struct Pair {
    pub later: TxnId,
    pub earlier: TxnId,
}
