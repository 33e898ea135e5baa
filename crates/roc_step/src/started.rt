//! Groups that have started on a server.

use roc_base::{Edges, Nums, TxnId};
use roc_group::Access;
use roc_msg::Facts;
use roc_sequence::Sequence;

/// A group that has started here, with what it was given, what it uses, what its startok says, and what came of it.
#[derive(Drop)]
pub struct StartedGroup {
    pub id: TxnId,
    pub proc: u16,
    pub group: u16,
    /// The procedure's arguments.
    pub args: Nums,
    /// The values of names that other groups bind.
    pub inputs: Nums,
    /// The cells that it uses.
    pub cells: Sequence<Access>,
    /// What an immediate group bound and added to the reply as it started; nothing of a deferrable one.
    pub bound: Nums,
    pub outs: Nums,
    /// The transactions that come before, and known lists of these and of their ancestors.
    pub edges: Edges,
    pub facts: Facts,
    /// What a deferrable group adds to the reply, once it has run.
    pub later: Option<Nums>,
}
