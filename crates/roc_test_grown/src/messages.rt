//! The two workloads, messages that come, and what they bring a node to send.
use crate::holds::holds;
use roc_base::{Node, Shard, TxnId};
use roc_check::check;
use roc_epoch::Next;
use roc_grown::GrownFault;
use roc_msg::{Msg, Outbox, Outgoing, Reason};
use roc_plan::Plan;
use std::alloc::Global;
use std::process::Abort;

/// A counter on one shard.
pub(crate) const COUNTER: &[u8] = b"shards 1;
table t { x }
proc add(n) { later a at 0 { get v = t[0].x; set t[0].x = v + n; out v; } }
";

const GROWN: &[u8] = b"shards 1;
table t { x }
proc add(n) { later a at 0 { get v = t[0].x; set t[0].x = v + n; out v; } }
proc put(n) { later a at 0 { set t[0].x = n; } }
";

/// The plan of a text.
pub(crate) fn plan_of(rt: &impl Abort, alloc: Global, text: &[u8]) -> Plan {
    check(alloc, text).expect(rt, "a plan")
}

/// The file that comes next, for so many coordinators.
pub(crate) fn next_of(rt: &impl Abort, alloc: Global, coords: u16) -> Next {
    Next {
        plan: plan_of(rt, alloc, GROWN),
        tag: [0; 8],
        coords,
    }
}

/// What is answered. A submission that is accepted has an id with a sequence.
#[derive(Clone, Copy, PartialEq)]
pub(crate) enum Answer {
    Done,
    Submitted(u32),
    Refused(GrownFault),
    Skipped,
    Ignored(Reason),
    /// There was no memory.
    Failed,
    Other,
}

/// A message: a coordinator's number and a sequence, and of a switched the shard.
#[derive(Clone, Copy)]
pub(crate) enum Message {
    Drained(u16, u32),
    Switched(u16, u32, u8),
    Ended(u16, u32),
    Stop,
}

/// The message of a row.
pub(crate) fn message_of(row: Message) -> Msg {
    match row {
        Message::Drained(coord, seq) => Msg::Drained {
            upto: TxnId { coord, seq },
        },
        Message::Switched(coord, seq, shard) => Msg::Switched {
            upto: TxnId { coord, seq },
            shard: Shard(shard),
        },
        Message::Ended(coord, below) => Msg::Ended { coord, below },
        Message::Stop => Msg::Stop,
    }
}

/// What tells a node of the other side: a drained goes to a shard, and a switched to a coordinator; with the id that it carries.
#[derive(Clone, Copy, PartialEq)]
pub(crate) enum Told {
    Drained(u8, u16, u32),
    Switched(u16, u16, u32),
    Other,
}

/// What a message tells, and whom.
fn told_by(out: &Outgoing) -> Told {
    match (&out.to, &out.msg) {
        (Node::Server(shard), Msg::Drained { upto }) => {
            Told::Drained(shard.0, upto.coord, upto.seq)
        }
        (Node::Coord(number), Msg::Switched { upto, .. }) => {
            Told::Switched(*number, upto.coord, upto.seq)
        }
        _ => Told::Other,
    }
}

/// The outbox holds what tells this.
pub(crate) fn tells(rt: &impl Abort, outbox: &Outbox, wanted: &[Told], name: &str) {
    let told = outbox.messages().iter().map(told_by);
    holds(rt, name, told.eq(wanted.iter().copied()));
}
