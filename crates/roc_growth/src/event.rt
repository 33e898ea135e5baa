//! What may happen in a world of two files, and what is seen of it.

use roc_base::{Node, Nums, Shard, TxnId};
use roc_law_protocol::Kept;
use roc_msg::Reason;

/// One event of the world. A message that is lost is one that is never delivered.
#[derive(Drop)]
pub enum Event {
    /// A transaction or a view is submitted at a coordinator.
    Submit {
        coord: u16,
        proc: u16,
        args: Nums,
    },
    /// A message of the network comes to its receiver; messages are numbered from 1.
    Deliver(u64),
    /// Time has passed for a node, which sends again what has no answer yet.
    Tick(Node),
    /// The server of a shard stops and starts again, as its records say, and ticks. Where it stopped at a message of the network, this one
    /// came to it.
    Stop {
        shard: Shard,
        during: Option<(u64, Kept)>,
    },
    /// The coordinator of this number drains: it submits no more until it has switched to the next file.
    Drain(u16),
}

/// What is seen of an event.
#[derive(Drop)]
pub enum Seen {
    /// A submission was accepted.
    Submitted(TxnId),
    /// A submission was refused: the coordinator may submit no more.
    Spent,
    /// A submission was refused: as many transactions are unanswered as may be.
    Busy,
    /// A submission was refused: the coordinator drains.
    Draining,
    /// A submission was refused: the coordinator's own file has no such procedure.
    NoProc,
    /// A message, a tick, a stop or a drain was taken.
    Done,
    /// A message was taken, and with it a transaction or a view has its reply.
    Answered { id: TxnId, reply: Nums },
    /// A message came too late to be taken.
    Gone,
    /// A message is of another file than its receiver's, and did nothing.
    Skipped,
    /// A message was ignored.
    Ignored(Reason),
}
