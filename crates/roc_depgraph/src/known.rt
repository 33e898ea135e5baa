//! A transaction and its list.
use roc_base::{Edges, TxnId};
use std::alloc::AllocError;

/// A transaction with its list of predecessors.
#[derive(Debug, Drop, PartialEq, Eq)]
pub struct KnownList {
    pub of: TxnId,
    pub edges: Edges,
}

/// A copy is the same list.
impl Clone for KnownList {
    ghost use Rattle.std.specs.Prelude.{◌≡◌};

    ghost is_clone = { λ from copy. copy ≡ from };

    fn clone(&self) -> Result<KnownList, AllocError> {
        let edges = self.edges.clone()?;
        Ok(KnownList { of: self.of, edges })
    }
}
