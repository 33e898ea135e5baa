//! The lines of a log.

use roc_base::{Node, Nums, TxnId};
use roc_sequence::Sequence;

/// A line of a log behind its first. Datagrams are kept as their bytes.
#[derive(Drop)]
pub enum LogLine {
    /// A submission that the coordinator took: the number of the procedure, and the arguments.
    Submit { proc: u16, args: Nums },
    /// A datagram that the node took.
    In(Sequence<u8>),
    /// The node's tick.
    Tick,
    /// A datagram of a message that the node's core sent.
    Out(Sequence<u8>),
    /// The reply of the coordinator to a transaction.
    Answer { id: TxnId, reply: Nums },
}

/// The log of a node: the tag of its datagrams, whose it is, which its first line says, and the lines behind.
#[derive(Drop)]
pub struct Log {
    pub tag: [u8; 8],
    pub node: Node,
    pub lines: Sequence<LogLine>,
}
