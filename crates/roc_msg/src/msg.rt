//! A message, and a message on its way.

use crate::{CellVersions, Facts};
use roc_base::{Edges, Node, Nums, Shard, TxnId};

/// What nodes tell one another, as in the start and commit rounds of ROCOCO (OSDI 2014).
#[derive(Clone, Debug, Drop, PartialEq, Eq)]
pub enum Msg {
    /// A coordinator asks the shard of a group's place to start it.
    Start {
        id: TxnId,
        proc: u16,
        group: u16,
        /// The procedure's arguments.
        args: Nums,
        /// The values of names that other groups bind, in the order in which they are bound.
        inputs: Nums,
    },
    /// A group has started. What an immediate one gave, the transactions that come before, and lists
    /// that are known of these and of their ancestors.
    StartOk {
        id: TxnId,
        group: u16,
        shard: Shard,
        /// What its names are bound to, in the order in which they are bound.
        bound: Nums,
        /// What it adds to the reply.
        outs: Nums,
        edges: Edges,
        facts: Facts,
    },
    /// All groups have started, and this is all that comes before the transaction. The facts are
    /// lists of others, as the startoks told them.
    Commit {
        id: TxnId,
        edges: Edges,
        facts: Facts,
    },
    /// The buffered groups here have run: what they add to the reply, in group order.
    CommitOk {
        id: TxnId,
        shard: Shard,
        outs: Nums,
    },
    /// A shard asks another one for the list of a transaction.
    Fetch {
        id: TxnId,
        /// The shard that asks.
        asker: Shard,
    },
    /// The list of a transaction, for a shard that asked for it.
    Known {
        id: TxnId,
        edges: Edges,
    },
    /// The server is to end.
    Stop,
    /// A coordinator tells that it has answered all its transactions with a sequence below this one.
    Ended {
        coord: u16,
        below: u32,
    },
    /// The transaction is answered, and so are all of its coordinator below this sequence.
    Settled {
        id: TxnId,
        below: u32,
    },
    /// A coordinator asks the shard of a group's place to read for a read-only transaction.
    Read {
        id: TxnId,
        /// Which of the transaction's rounds it is.
        round: u32,
        proc: u16,
        group: u16,
        /// The procedure's arguments.
        args: Nums,
    },
    /// What a group of a read-only transaction has read in a round.
    ReadOk {
        id: TxnId,
        round: u32,
        group: u16,
        shard: Shard,
        /// The versions of the cells that it reads, in the order in which it reads them.
        versions: CellVersions,
        /// What it adds to the reply.
        outs: Nums,
    },
    /// A coordinator has answered all its transactions before this one, and is to go on with a
    /// grown workload.
    Drained {
        upto: TxnId,
    },
    /// The shard has gone on to the grown workload, and tells a coordinator what that had told as
    /// drained.
    Switched {
        upto: TxnId,
        shard: Shard,
    },
}

impl Msg {
    ghost use Rattle.std.specs.Prelude.{◌≡◌, ◌↔◌, IsTrue};
    ghost use Rattle.roc_msg.specs.Msg.{id_of, kind_of};

    /// The transaction that the message is of: none for a stop, and for what speaks of all that a
    /// coordinator has submitted before a mark. Takes no memory.
    pub fn id(&self) -> Option<TxnId>
        ensures { result ≡ id_of self.now }
    {
        match self {
            Msg::Start { id, .. }
            | Msg::StartOk { id, .. }
            | Msg::Commit { id, .. }
            | Msg::CommitOk { id, .. }
            | Msg::Fetch { id, .. }
            | Msg::Known { id, .. }
            | Msg::Settled { id, .. }
            | Msg::Read { id, .. }
            | Msg::ReadOk { id, .. } => Some(*id),
            Msg::Stop | Msg::Ended { .. } | Msg::Drained { .. } | Msg::Switched { .. } => None,
        }
    }

    /// The number of its kind, in the order of the kinds: 1 for a start, 13 for a switch. Takes
    /// no memory.
    pub fn kind(&self) -> u8
        ensures { result ≡ kind_of self.now }
    {
        match self {
            Msg::Start { .. } => 1,
            Msg::StartOk { .. } => 2,
            Msg::Commit { .. } => 3,
            Msg::CommitOk { .. } => 4,
            Msg::Fetch { .. } => 5,
            Msg::Known { .. } => 6,
            Msg::Stop => 7,
            Msg::Ended { .. } => 8,
            Msg::Settled { .. } => 9,
            Msg::Read { .. } => 10,
            Msg::ReadOk { .. } => 11,
            Msg::Drained { .. } => 12,
            Msg::Switched { .. } => 13,
        }
    }

    /// Whether this is the same message. Takes no memory.
    pub fn is(&self, other: &Msg) -> bool
        ensures { IsTrue result ↔ (self.now ≡ other.now) }
    {
        *self == *other
    }
}

/// A message with who sent it and to whom.
#[derive(Debug, Drop)]
pub struct Envelope {
    pub from: Node,
    pub to: Node,
    pub msg: Msg,
}
