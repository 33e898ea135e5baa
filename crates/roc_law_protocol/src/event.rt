//! What may happen, and what is seen of it.

use roc_base::{Node, Nums, Shard, TxnId};
use roc_msg::Reason;

/// What is kept of a message that comes to a server as it stops.
#[derive(Drop)]
pub enum Kept {
    /// Its record was not whole: the server starts again as it was before it.
    Lost,
    /// Its record was whole, and so many of the messages that come of it were sent.
    Sent(u32),
}

/// One event of the world. A message that is lost is one that is never delivered.
#[derive(Drop)]
pub enum Event {
    /// A transaction is submitted at a coordinator.
    Submit {
        coord: u16,
        proc: u16,
        args: Nums,
    },
    /// A message of the network comes to its receiver; messages are numbered from 1.
    Deliver(u64),
    /// Time has passed for a node, which sends again what has no answer yet.
    Tick(Node),
    /// The server of a shard stops and starts again, as its records say, and ticks. Where it stopped at a message of the network, this one
    /// came to it.
    Stop {
        shard: Shard,
        during: Option<(u64, Kept)>,
    },
}

/// What is seen of an event.
#[derive(Drop)]
pub enum Seen {
    /// A submission was accepted.
    Submitted(TxnId),
    /// A submission was refused: the coordinator may submit no more.
    Spent,
    /// A submission was refused: as many transactions are unanswered as may be.
    Busy,
    /// A message or a tick was taken.
    Done,
    /// A message was taken, and with it a transaction has its reply.
    Answered { id: TxnId, reply: Nums },
    /// A message came too late to be taken.
    Gone,
    /// A message was ignored.
    Ignored(Reason),
}
