//! Runs with servers as children: how each ends, whom it starts, stops and awaits.
use crate::datagrams::{COMMIT, COMMITOK, Packet, START, STARTOK, STOP};
use crate::families::{Case, Children, Family, Words, runs};
use crate::outside::{Failing, NOTHING, Seen};
use crate::workloads::{ANY, BANK, COUNTER, FIRST_SHARD, SECOND_SHARD};
use roc_base::Shard;
use roc_node_local::LocalEnd;

const SERVE_FIRST: Words = ["serve", "w.rcw", "c.toml", "--shard", "0", "--turns", "3"];

const SERVE_SECOND: Words = ["serve", "w.rcw", "c.toml", "--shard", "1", "--turns", "3"];

const STOPPED: [Packet; 3] = [
    (FIRST_SHARD, STOP),
    (FIRST_SHARD, STOP),
    (FIRST_SHARD, STOP),
];

const BOTH_STOPPED: [Packet; 6] = [
    (FIRST_SHARD, STOP),
    (FIRST_SHARD, STOP),
    (FIRST_SHARD, STOP),
    (SECOND_SHARD, STOP),
    (SECOND_SHARD, STOP),
    (SECOND_SHARD, STOP),
];

const NOTHING_ASKED: &[u8] = b"end 0 answered 0 unanswered 0 unsubmitted\n";

static CASES: [Case; 13] = [
    // A run ends as its child does.
    Case {
        texts: &COUNTER,
        requests: b"",
        arrivals: &[],
        failing: NOTHING,
        children: Children {
            statuses: &[Some(0)],
            failing: None,
        },
        end: LocalEnd::Done,
        family: Family {
            started: &[SERVE_FIRST],
            awaited: &[(0, Some(0))],
        },
        seen: Seen {
            name: "child ends with 0",
            bound: &[ANY],
            sent: &STOPPED,
            lines: NOTHING_ASKED,
        },
    },
    Case {
        texts: &COUNTER,
        requests: b"",
        arrivals: &[],
        failing: NOTHING,
        children: Children {
            statuses: &[Some(4)],
            failing: None,
        },
        end: LocalEnd::ChildFault {
            shard: Shard(0),
            status: Some(4),
        },
        family: Family {
            started: &[SERVE_FIRST],
            awaited: &[(0, Some(4))],
        },
        seen: Seen {
            name: "child ends with 4",
            bound: &[ANY],
            sent: &STOPPED,
            lines: NOTHING_ASKED,
        },
    },
    Case {
        texts: &COUNTER,
        requests: b"",
        arrivals: &[],
        failing: NOTHING,
        children: Children {
            statuses: &[Some(0)],
            failing: Some(2),
        },
        end: LocalEnd::ChildFault {
            shard: Shard(0),
            status: None,
        },
        family: Family {
            started: &[SERVE_FIRST],
            awaited: &[(0, None)],
        },
        seen: Seen {
            name: "wait fails",
            bound: &[ANY],
            sent: &STOPPED,
            lines: NOTHING_ASKED,
        },
    },
    Case {
        texts: &COUNTER,
        requests: b"add 5\n",
        arrivals: &[(FIRST_SHARD, STARTOK), (FIRST_SHARD, COMMITOK)],
        failing: NOTHING,
        children: Children {
            statuses: &[Some(0)],
            failing: None,
        },
        end: LocalEnd::Done,
        family: Family {
            started: &[SERVE_FIRST],
            awaited: &[(0, Some(0))],
        },
        seen: Seen {
            name: "answers",
            bound: &[ANY],
            sent: &[
                (FIRST_SHARD, START),
                (FIRST_SHARD, COMMIT),
                (FIRST_SHARD, STOP),
                (FIRST_SHARD, STOP),
                (FIRST_SHARD, STOP),
            ],
            lines: b"submit 0.0 add 5
answer 0.0 0
end 1 answered 0 unanswered 0 unsubmitted
",
        },
    },
    // The first fault stays: each of these children ends with another status than 0 behind it.
    Case {
        texts: &COUNTER,
        requests: b"",
        arrivals: &[],
        failing: Failing { call: 1, ..NOTHING },
        children: Children {
            statuses: &[Some(4)],
            failing: None,
        },
        end: LocalEnd::LinkFault,
        family: Family {
            started: &[],
            awaited: &[],
        },
        seen: Seen {
            name: "bind",
            bound: &[],
            sent: &[],
            lines: b"",
        },
    },
    Case {
        texts: &COUNTER,
        requests: b"add 5\n",
        arrivals: &[],
        failing: Failing { call: 2, ..NOTHING },
        children: Children {
            statuses: &[Some(4)],
            failing: None,
        },
        end: LocalEnd::LinkFault,
        family: Family {
            started: &[SERVE_FIRST],
            awaited: &[(0, Some(4))],
        },
        seen: Seen {
            name: "receive",
            bound: &[ANY],
            sent: &[
                (FIRST_SHARD, START),
                (FIRST_SHARD, STOP),
                (FIRST_SHARD, STOP),
                (FIRST_SHARD, STOP),
            ],
            lines: b"submit 0.0 add 5\n",
        },
    },
    Case {
        texts: &COUNTER,
        requests: b"",
        arrivals: &[],
        failing: Failing {
            write: 1,
            ..NOTHING
        },
        children: Children {
            statuses: &[Some(4)],
            failing: None,
        },
        end: LocalEnd::SinkFault,
        family: Family {
            started: &[SERVE_FIRST],
            awaited: &[(0, Some(4))],
        },
        seen: Seen {
            name: "write",
            bound: &[ANY],
            sent: &STOPPED,
            lines: b"end 0 answered 0 unan",
        },
    },
    Case {
        texts: &COUNTER,
        requests: b"add 5\n",
        arrivals: &[],
        failing: NOTHING,
        children: Children {
            statuses: &[Some(4)],
            failing: None,
        },
        end: LocalEnd::Unanswered,
        family: Family {
            started: &[SERVE_FIRST],
            awaited: &[(0, Some(4))],
        },
        seen: Seen {
            name: "no turn is left",
            bound: &[ANY],
            sent: &[
                (FIRST_SHARD, START),
                (FIRST_SHARD, START),
                (FIRST_SHARD, START),
                (FIRST_SHARD, START),
                (FIRST_SHARD, STOP),
                (FIRST_SHARD, STOP),
                (FIRST_SHARD, STOP),
            ],
            lines: b"submit 0.0 add 5
unanswered 0.0
end 0 answered 1 unanswered 0 unsubmitted
",
        },
    },
    // Both servers are stopped and awaited.
    Case {
        texts: &BANK,
        requests: b"",
        arrivals: &[],
        failing: NOTHING,
        children: Children {
            statuses: &[Some(0), Some(0)],
            failing: None,
        },
        end: LocalEnd::Done,
        family: Family {
            started: &[SERVE_FIRST, SERVE_SECOND],
            awaited: &[(0, Some(0)), (1, Some(0))],
        },
        seen: Seen {
            name: "both end with 0",
            bound: &[ANY],
            sent: &BOTH_STOPPED,
            lines: NOTHING_ASKED,
        },
    },
    Case {
        texts: &BANK,
        requests: b"",
        arrivals: &[],
        failing: NOTHING,
        children: Children {
            statuses: &[Some(4), Some(5)],
            failing: None,
        },
        end: LocalEnd::ChildFault {
            shard: Shard(0),
            status: Some(4),
        },
        family: Family {
            started: &[SERVE_FIRST, SERVE_SECOND],
            awaited: &[(0, Some(4)), (1, Some(5))],
        },
        seen: Seen {
            name: "both end badly",
            bound: &[ANY],
            sent: &BOTH_STOPPED,
            lines: NOTHING_ASKED,
        },
    },
    Case {
        texts: &BANK,
        requests: b"",
        arrivals: &[],
        failing: NOTHING,
        children: Children {
            statuses: &[Some(0), Some(5)],
            failing: None,
        },
        end: LocalEnd::ChildFault {
            shard: Shard(1),
            status: Some(5),
        },
        family: Family {
            started: &[SERVE_FIRST, SERVE_SECOND],
            awaited: &[(0, Some(0)), (1, Some(5))],
        },
        seen: Seen {
            name: "second ends badly",
            bound: &[ANY],
            sent: &BOTH_STOPPED,
            lines: NOTHING_ASKED,
        },
    },
    Case {
        texts: &BANK,
        requests: b"",
        arrivals: &[],
        failing: NOTHING,
        children: Children {
            statuses: &[Some(0)],
            failing: Some(2),
        },
        end: LocalEnd::ChildFault {
            shard: Shard(1),
            status: None,
        },
        family: Family {
            started: &[SERVE_FIRST],
            awaited: &[(0, Some(0))],
        },
        seen: Seen {
            name: "second start",
            bound: &[ANY],
            sent: &BOTH_STOPPED,
            lines: b"",
        },
    },
    // No server runs that could be stopped.
    Case {
        texts: &BANK,
        requests: b"",
        arrivals: &[],
        failing: NOTHING,
        children: Children {
            statuses: &[Some(0)],
            failing: Some(1),
        },
        end: LocalEnd::ChildFault {
            shard: Shard(0),
            status: None,
        },
        family: Family {
            started: &[],
            awaited: &[],
        },
        seen: Seen {
            name: "first start",
            bound: &[ANY],
            sent: &[],
            lines: b"",
        },
    },
];

#[test]
fn runs_with_children_end_as_told(rt: HostRuntime) {
    for case in &CASES {
        runs(&rt, rt.alloc(), case);
    }
}
