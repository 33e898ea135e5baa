//! Commands with nodes, of which a call of the link, of a child or of the log fails.
use crate::cases::Case;
use crate::outside::{Failing, NOTHING, Packet};
use crate::texts::{
    CALLER, FIRST_SHARD, HALF_A_START, LOG_OF_A_START, SECOND_SHARD, START, STARTOK, STOP,
    STOP_OF_TRANSFERS, STRANGE_START,
};

// A start, its repeat, the same under another tag, and a stop.
const ROUND: [Packet; 4] = [
    (CALLER, START),
    (CALLER, START),
    (CALLER, STRANGE_START),
    (CALLER, STOP),
];

const BOTH_STOPPED: [Packet; 6] = [
    (FIRST_SHARD, STOP_OF_TRANSFERS),
    (FIRST_SHARD, STOP_OF_TRANSFERS),
    (FIRST_SHARD, STOP_OF_TRANSFERS),
    (SECOND_SHARD, STOP_OF_TRANSFERS),
    (SECOND_SHARD, STOP_OF_TRANSFERS),
    (SECOND_SHARD, STOP_OF_TRANSFERS),
];

/// Without a journal.
pub(crate) const WITH_NODES: [Case; 9] = [
    Case {
        words: &[
            "serve", "add.rcw", "add.toml", "--shard", "0", "--turns", "9",
        ],
        failing: Failing { link: 1, ..NOTHING },
        arrivals: &ROUND,
        status: 8,
        out: b"",
        err: b"link\n",
        sent: &[],
        awaited: &[],
        log: b"",
    },
    Case {
        words: &[
            "serve", "add.rcw", "add.toml", "--shard", "0", "--turns", "9",
        ],
        failing: Failing { link: 3, ..NOTHING },
        arrivals: &ROUND,
        status: 8,
        out: b"serving 0\n",
        err: b"link\n",
        sent: &[(CALLER, STARTOK)],
        awaited: &[],
        log: b"",
    },
    Case {
        words: &[
            "serve", "add.rcw", "add.toml", "--shard", "0", "--turns", "9",
        ],
        failing: Failing {
            sends: 1,
            ..NOTHING
        },
        arrivals: &ROUND,
        status: 0,
        out: b"serving 0\nend 0 stop taken 3 skipped 1\n",
        err: b"",
        sent: &[(CALLER, STARTOK)],
        awaited: &[],
        log: b"",
    },
    Case {
        words: &[
            "local",
            "pay.rcw",
            "pay.toml",
            "pay.requests",
            "--turns",
            "3",
        ],
        failing: Failing {
            children: 2,
            ..NOTHING
        },
        arrivals: &[],
        status: 9,
        out: b"",
        err: b"child 1\n",
        sent: &BOTH_STOPPED,
        awaited: &[0],
        log: b"",
    },
    Case {
        words: &[
            "local",
            "add.rcw",
            "add.toml",
            "none.requests",
            "--turns",
            "3",
        ],
        failing: Failing {
            children: 2,
            ..NOTHING
        },
        arrivals: &[],
        status: 9,
        out: b"end 0 answered 0 unanswered 0 unsubmitted\n",
        err: b"child 0\n",
        sent: &[
            (FIRST_SHARD, STOP),
            (FIRST_SHARD, STOP),
            (FIRST_SHARD, STOP),
        ],
        awaited: &[0],
        log: b"",
    },
    Case {
        words: &[
            "serve", "add.rcw", "add.toml", "--shard", "0", "--turns", "9", "--log", "l",
        ],
        failing: NOTHING,
        arrivals: &[(CALLER, START), (CALLER, STOP)],
        status: 0,
        out: b"serving 0\nend 0 stop taken 2 skipped 0\n",
        err: b"",
        sent: &[(CALLER, STARTOK)],
        awaited: &[],
        log: LOG_OF_A_START,
    },
    Case {
        words: &[
            "serve", "add.rcw", "add.toml", "--shard", "0", "--turns", "9", "--log", "l",
        ],
        failing: Failing { log: 1, ..NOTHING },
        arrivals: &[(CALLER, START)],
        status: 13,
        out: b"",
        err: b"log l\n",
        sent: &[],
        awaited: &[],
        log: b"",
    },
    Case {
        words: &[
            "serve", "add.rcw", "add.toml", "--shard", "0", "--turns", "9", "--log", "l",
        ],
        failing: Failing { log: 3, ..NOTHING },
        arrivals: &[(CALLER, START)],
        status: 13,
        out: b"serving 0\n",
        err: b"log l\n",
        sent: &[],
        awaited: &[],
        log: HALF_A_START,
    },
    Case {
        words: &[
            "serve",
            "add.rcw",
            "add.toml",
            "--shard",
            "0",
            "--turns",
            "9",
            "--log",
            "l",
            "--journal",
            "j",
        ],
        failing: NOTHING,
        arrivals: &[(CALLER, START)],
        status: 2,
        out: b"",
        err: b"log\n",
        sent: &[],
        awaited: &[],
        log: b"",
    },
];
