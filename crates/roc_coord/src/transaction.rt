//! What a coordinator keeps of a transaction that has no reply yet.

use roc_base::{Edges, Nums, Shard, TxnId};
use roc_msg::Facts;
use roc_sequence::Sequence;

/// A start that was sent.
#[derive(Drop)]
pub struct SentStart {
    pub group: u16,
    pub shard: Shard,
}

/// What a group's `StartOk` told.
#[derive(Drop)]
pub struct TakenStart {
    pub group: u16,
    pub bound: Nums,
    pub outs: Nums,
    pub edges: Edges,
    pub facts: Facts,
}

/// What a shard's `CommitOk` told.
#[derive(Drop)]
pub struct TakenCommit {
    pub shard: Shard,
    pub outs: Nums,
}

/// A transaction without a reply.
#[derive(Drop)]
pub struct Transaction {
    pub id: TxnId,
    pub proc: u16,
    pub args: Nums,
    pub starts: Sequence<SentStart>,
    pub startoks: Sequence<TakenStart>,
    /// The shards that were asked to commit, rising; none before all groups have started.
    pub asked: Sequence<Shard>,
    pub commitoks: Sequence<TakenCommit>,
}
