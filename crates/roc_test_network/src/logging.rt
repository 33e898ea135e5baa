//! Nodes that keep a log, of which any call may fail: each event is in it before anything is sent or written for it.
use crate::coordinators::ANSWERS;
use crate::datagrams::{COMMIT, Packet, START, STARTOK, STOP, STRANGE_START};
use crate::outside::{Failing, NOTHING, Seen};
use crate::servers::{CALLER, Setting};
use crate::workloads::{ANY, COUNTER, FIRST_SHARD};
use crate::{coordinators, servers};
use roc_node_serve::ServeEnd;
use roc_node_submit::SubmitEnd;

const LOGGING: Setting = Setting {
    texts: &COUNTER,
    counts: false,
    journal: None,
    log: Some("log"),
};

// A start twice, the same under another tag, and a stop.
const ROUND: [Packet; 4] = [
    (CALLER, START),
    (CALLER, START),
    (CALLER, STRANGE_START),
    (CALLER, STOP),
];

/// Servers that keep a log.
pub(crate) static SERVED: [servers::Case; 5] = [
    servers::Case {
        setting: &LOGGING,
        arrivals: &ROUND,
        failing: NOTHING,
        turns: 9,
        end: ServeEnd::Done,
        seen: Seen {
            name: "served to the end",
            bound: &[FIRST_SHARD],
            sent: &[(CALLER, STARTOK), (CALLER, STARTOK)],
            lines: b"serving 0\nend 0 stop taken 3 skipped 1\n",
        },
        log: b"node s0
in 52434f3102017461676f6674656e01000000000000000000000000000100000000000000050000
out 52434f3102027461676f6674656e0000000000000000000000000000000000000000
in 52434f3102017461676f6674656e01000000000000000000000000000100000000000000050000
out 52434f3102027461676f6674656e0000000000000000000000000000000000000000
in 52434f3102077461676f6674656e010000
",
    },
    servers::Case {
        setting: &LOGGING,
        arrivals: &ROUND,
        failing: Failing { log: 1, ..NOTHING },
        turns: 9,
        end: ServeEnd::BookFault,
        seen: Seen {
            name: "the open fails",
            bound: &[],
            sent: &[],
            lines: b"",
        },
        log: b"",
    },
    servers::Case {
        setting: &LOGGING,
        arrivals: &ROUND,
        failing: Failing { log: 2, ..NOTHING },
        turns: 9,
        end: ServeEnd::BookFault,
        seen: Seen {
            name: "the first line fails",
            bound: &[],
            sent: &[],
            lines: b"",
        },
        log: b"node",
    },
    servers::Case {
        setting: &LOGGING,
        arrivals: &ROUND,
        failing: Failing { log: 3, ..NOTHING },
        turns: 9,
        end: ServeEnd::BookFault,
        seen: Seen {
            name: "the first event fails",
            bound: &[FIRST_SHARD],
            sent: &[],
            lines: b"serving 0\n",
        },
        log: b"node s0
in 52434f3102017461676f6674656e0100000000000000000000000000010000000000000005",
    },
    servers::Case {
        setting: &LOGGING,
        arrivals: &ROUND,
        failing: Failing { log: 4, ..NOTHING },
        turns: 9,
        end: ServeEnd::BookFault,
        seen: Seen {
            name: "the second event fails",
            bound: &[FIRST_SHARD],
            sent: &[(CALLER, STARTOK)],
            lines: b"serving 0\n",
        },
        log: b"node s0
in 52434f3102017461676f6674656e01000000000000000000000000000100000000000000050000
out 52434f3102027461676f6674656e0000000000000000000000000000000000000000
in 52434f3102017461676f6674656e0100000000000000000000000000010000000000000005",
    },
];

/// Coordinators that keep a log.
pub(crate) static SUBMITTED: [coordinators::Case; 5] = [
    coordinators::Case {
        requests: b"add 5\n",
        arrivals: &ANSWERS,
        failing: NOTHING,
        name: Some("log"),
        turns: 9,
        end: SubmitEnd::Done,
        seen: Seen {
            name: "submitted to the end",
            bound: &[ANY],
            sent: &[(FIRST_SHARD, START), (FIRST_SHARD, COMMIT)],
            lines: b"submit 0.0 add 5\nanswer 0.0 0\nend 1 answered 0 unanswered 0 unsubmitted\n",
        },
        log: b"node c0
submit add 5
out 52434f3102017461676f6674656e01000000000000000000000000000100000000000000050000
in 52434f3102027461676f6674656e0000000000000000000000000000000000000000
out 52434f3102037461676f6674656e01000000000000000000000000
in 52434f3102047461676f6674656e0000000000000000000000010000000000000000
answer 0.0 0
",
    },
    coordinators::Case {
        requests: b"add 5\n",
        arrivals: &ANSWERS,
        failing: Failing { log: 1, ..NOTHING },
        name: Some("log"),
        turns: 9,
        end: SubmitEnd::BookFault,
        seen: Seen {
            name: "the open fails",
            bound: &[],
            sent: &[],
            lines: b"",
        },
        log: b"",
    },
    coordinators::Case {
        requests: b"add 5\n",
        arrivals: &ANSWERS,
        failing: Failing { log: 3, ..NOTHING },
        name: Some("log"),
        turns: 9,
        end: SubmitEnd::BookFault,
        seen: Seen {
            name: "the submission fails",
            bound: &[ANY],
            sent: &[],
            lines: b"",
        },
        log: b"node c0
submit add 5
out 52434f3102017461676f6674656e010",
    },
    coordinators::Case {
        requests: b"add 5\n",
        arrivals: &ANSWERS,
        failing: Failing { log: 4, ..NOTHING },
        name: Some("log"),
        turns: 9,
        end: SubmitEnd::BookFault,
        seen: Seen {
            name: "the first answer fails",
            bound: &[ANY],
            sent: &[(FIRST_SHARD, START)],
            lines: b"submit 0.0 add 5\n",
        },
        log: b"node c0
submit add 5
out 52434f3102017461676f6674656e01000000000000000000000000000100000000000000050000
in 52434f3102027461676f6674656e0000000000000000000000000000000000",
    },
    coordinators::Case {
        requests: b"add 5\n",
        arrivals: &ANSWERS,
        failing: Failing { log: 5, ..NOTHING },
        name: Some("log"),
        turns: 9,
        end: SubmitEnd::BookFault,
        seen: Seen {
            name: "the last answer fails",
            bound: &[ANY],
            sent: &[(FIRST_SHARD, START), (FIRST_SHARD, COMMIT)],
            lines: b"submit 0.0 add 5\n",
        },
        log: b"node c0
submit add 5
out 52434f3102017461676f6674656e01000000000000000000000000000100000000000000050000
in 52434f3102027461676f6674656e0000000000000000000000000000000000000000
out 52434f3102037461676f6674656e01000000000000000000000000
in 52434f3102047461676f6674656e00000000000",
    },
];
