//! A line of a report, as data.

use roc_base::{Node, Nums, Shard, TxnId};
use roc_msg::{Envelope, Reason};
use roc_program::PieceId;
use roc_rows::Cell;
use roc_scgraph::Vertex;
use std::fmt;

/// When the pieces of a transaction may run, once pieces in conflict with immediate ones were
/// promoted.
#[derive(Clone, Copy)]
pub enum Standing {
    /// Declared `now`.
    Immediate,
    /// Declared `later`, and immediate all the same.
    Promoted,
    /// Declared `later`, and left so.
    Deferrable,
    /// Of a view, which stands outside of conflicts.
    View,
}

impl fmt::Display for Standing {
    ghost use Rattle.std.specs.Prelude.{Some};
    ghost use Rattle.roc_report.specs.Standing.{standing_text};

    ghost output = { λ standing. Some (standing_text standing) };

    fn fmt<W: fmt::Write>(&self, f: &mut fmt::Formatter<W>) -> fmt::Result {
        f.write_str(match self {
            Standing::Immediate => "immediate",
            Standing::Promoted => "promoted",
            Standing::Deferrable => "deferrable",
            Standing::View => "view",
        })
    }
}

/// One line of a report. It lends its lists, messages and cells from where they are kept.
#[derive(Clone, Copy)]
pub enum ReportLine<'a> {
    /// An accepted submission: its id, the procedure's number and the arguments.
    Submit {
        id: TxnId,
        proc: u16,
        args: &'a Nums,
    },
    /// A submission refused as busy, by its coordinator.
    Busy(u16),
    /// A submission refused as spent, by its coordinator.
    Spent(u16),
    /// The delivery of a message, by its number.
    Deliver(u64),
    /// No message was left to be delivered.
    Nothing,
    /// A node's tick.
    Tick(Node),
    /// A stop of a server, at a message or at none: its number, and how many of the messages that come of it were sent, where
    /// its record was kept.
    Stopped(Shard, Option<(u64, Option<u32>)>),
    /// A coordinator is to take no more submissions.
    Drain(u16),
    /// A submission refused as draining, by its coordinator.
    Draining(u16),
    /// A submission refused since the coordinator has no such procedure.
    NoProc(u16),
    /// The message was of another file than its receiver, and was skipped.
    Skipped,
    /// The message came too late to be taken.
    Gone,
    /// The message was ignored.
    Ignored(Reason),
    /// A message that was sent, with its number.
    Send {
        number: u64,
        sent: &'a Envelope,
    },
    /// A transaction has its reply.
    Answer {
        id: TxnId,
        reply: &'a Nums,
    },
    /// The serial order.
    Order(&'a [TxnId]),
    /// A cell that is not 0, and its number.
    Row {
        cell: &'a Cell,
        value: i64,
    },
    /// A transaction without a reply.
    Pending(TxnId),
    /// How many transactions were answered, how many have no reply, and how many messages were
    /// sent.
    End {
        answered: u64,
        pending: u64,
        messages: u64,
    },
}

/// One line that `check` writes: of the text of a workload, or why it is refused. It lends its lists from where they are kept.
#[derive(Clone, Copy)]
pub enum CheckLine<'a> {
    /// How many shards the workload has.
    Shards(u8),
    /// A procedure, by its number.
    Proc(u16),
    /// A piece of a procedure.
    Piece {
        id: PieceId,
        standing: Standing,
    },
    /// A group of a procedure, by its number: whether it is immediate, and its pieces, by number.
    Group {
        proc: u16,
        number: u16,
        immediate: bool,
        pieces: &'a [u16],
    },
    /// Two pieces in static conflict.
    Conflict(PieceId, PieceId),
    /// The workload is accepted.
    Accepted,
    /// The workload is refused: two pieces that may not be cut apart are at different places. A cycle shows why.
    Apart {
        p: PieceId,
        q: PieceId,
        cycle: &'a [Vertex],
    },
    /// The workload is refused: a piece between two that may not be cut apart is at another place. A cycle of the two shows why.
    Blocked {
        p: PieceId,
        q: PieceId,
        x: PieceId,
        cycle: &'a [Vertex],
    },
}
