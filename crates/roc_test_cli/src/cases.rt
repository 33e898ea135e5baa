//! Runs of the program, of which one call of the outside fails, and what is to come of each.
use crate::nodes::WITH_NODES;
use crate::outside::{Failing, NOTHING, Packet};
use crate::texts::{
    CALLER, CHECKED, COMMIT, COMMITOK, HALF_OF_CHECKED, REPORT, START, STARTOK, STOP,
    TWO_EVENTS_AND_A_HALF,
};

/// The words, what comes and what fails, and what is to come of it: the status, what the streams take, what is sent, whom of the children is awaited,
/// and what a log has taken. A write that fails takes half of its piece.
pub(crate) struct Case {
    pub words: &'static [&'static str],
    pub failing: Failing,
    pub arrivals: &'static [Packet],
    pub status: u8,
    pub out: &'static [u8],
    pub err: &'static [u8],
    pub sent: &'static [Packet],
    pub awaited: &'static [u64],
    pub log: &'static [u8],
}

/// Runs one after another on one disk, on which the journal's name holds these bytes, and of which this call fails, if it is not 0.
pub(crate) struct Lives {
    pub journal: &'static [u8],
    pub failing: u64,
    pub cases: &'static [Case],
}

const OVER_FILES: [Case; 14] = [
    Case {
        words: &["replay", "add.rcw", "add.rcs"],
        failing: NOTHING,
        arrivals: &[],
        status: 0,
        out: REPORT,
        err: b"",
        sent: &[],
        awaited: &[],
        log: b"",
    },
    Case {
        words: &["replay", "add.rcw", "add.rcs"],
        failing: Failing {
            files: 1,
            ..NOTHING
        },
        arrivals: &[],
        status: 6,
        out: b"",
        err: b"file add.rcw\n",
        sent: &[],
        awaited: &[],
        log: b"",
    },
    Case {
        words: &["replay", "add.rcw", "add.rcs"],
        failing: Failing {
            files: 2,
            ..NOTHING
        },
        arrivals: &[],
        status: 6,
        out: b"",
        err: b"file add.rcs\n",
        sent: &[],
        awaited: &[],
        log: b"",
    },
    Case {
        words: &["replay", "add.rcw", "add.rcs"],
        failing: Failing { out: 3, ..NOTHING },
        arrivals: &[],
        status: 7,
        out: TWO_EVENTS_AND_A_HALF,
        err: b"sink\n",
        sent: &[],
        awaited: &[],
        log: b"",
    },
    Case {
        words: &["check", "none.rcw"],
        failing: Failing { line: 1, ..NOTHING },
        arrivals: &[],
        status: 6,
        out: b"",
        err: b"fi",
        sent: &[],
        awaited: &[],
        log: b"",
    },
    Case {
        words: &["check", "add.rcw"],
        failing: NOTHING,
        arrivals: &[],
        status: 0,
        out: CHECKED,
        err: b"",
        sent: &[],
        awaited: &[],
        log: b"",
    },
    Case {
        words: &["check", "add.rcw"],
        failing: Failing {
            files: 1,
            ..NOTHING
        },
        arrivals: &[],
        status: 6,
        out: b"",
        err: b"file add.rcw\n",
        sent: &[],
        awaited: &[],
        log: b"",
    },
    Case {
        words: &["check", "add.rcw"],
        failing: Failing { out: 1, ..NOTHING },
        arrivals: &[],
        status: 7,
        out: HALF_OF_CHECKED,
        err: b"sink\n",
        sent: &[],
        awaited: &[],
        log: b"",
    },
    Case {
        words: &["audit", "add.rcw", "s.log", "c.log"],
        failing: NOTHING,
        arrivals: &[],
        status: 0,
        out: b"order 0.0\nyes 1 answered\n",
        err: b"",
        sent: &[],
        awaited: &[],
        log: b"",
    },
    Case {
        words: &["audit", "add.rcw", "s.log", "c.log"],
        failing: Failing {
            files: 3,
            ..NOTHING
        },
        arrivals: &[],
        status: 6,
        out: b"",
        err: b"file c.log\n",
        sent: &[],
        awaited: &[],
        log: b"",
    },
    Case {
        words: &["audit", "add.rcw", "s.log", "c.log"],
        failing: Failing { out: 1, ..NOTHING },
        arrivals: &[],
        status: 7,
        out: b"order 0.0\nye",
        err: b"sink\n",
        sent: &[],
        awaited: &[],
        log: b"",
    },
    Case {
        words: &["audit", "add.rcw", "s.log", "forged.log"],
        failing: NOTHING,
        arrivals: &[],
        status: 12,
        out: b"no mismatch forged.log:7\n",
        err: b"",
        sent: &[],
        awaited: &[],
        log: b"",
    },
    Case {
        words: &["audit", "add.rcw", "s.log", "forged.log"],
        failing: Failing { out: 1, ..NOTHING },
        arrivals: &[],
        status: 7,
        out: b"no mismatch ",
        err: b"sink\n",
        sent: &[],
        awaited: &[],
        log: b"",
    },
    Case {
        words: &["audit", "add.rcw", "c.log"],
        failing: NOTHING,
        arrivals: &[],
        status: 3,
        out: b"",
        err: b"LOGS: gap 0\n",
        sent: &[],
        awaited: &[],
        log: b"",
    },
];

// It starts again with what it took.
const STARTED_AGAIN: [Case; 2] = [
    Case {
        words: &[
            "serve",
            "add.rcw",
            "add.toml",
            "--shard",
            "0",
            "--turns",
            "9",
            "--journal",
            "j",
        ],
        failing: NOTHING,
        arrivals: &[(CALLER, START), (CALLER, STOP)],
        status: 0,
        out: b"serving 0\nend 0 stop taken 2 skipped 0\n",
        err: b"",
        sent: &[(CALLER, STARTOK)],
        awaited: &[],
        log: b"",
    },
    Case {
        words: &[
            "serve",
            "add.rcw",
            "add.toml",
            "--shard",
            "0",
            "--turns",
            "9",
            "--journal",
            "j",
        ],
        failing: NOTHING,
        arrivals: &[(CALLER, COMMIT), (CALLER, STOP)],
        status: 0,
        out: b"serving 0\nend 0 stop taken 2 skipped 0\n",
        err: b"",
        sent: &[(CALLER, COMMITOK)],
        awaited: &[],
        log: b"",
    },
];

const NO_JOURNAL: [Case; 1] = [Case {
    words: &[
        "serve",
        "add.rcw",
        "add.toml",
        "--shard",
        "0",
        "--turns",
        "9",
        "--journal",
        "j",
    ],
    failing: NOTHING,
    arrivals: &[(CALLER, START)],
    status: 3,
    out: b"",
    err: b"j: journal\n",
    sent: &[],
    awaited: &[],
    log: b"",
}];

const UNOPENED: [Case; 1] = [Case {
    words: &[
        "serve",
        "add.rcw",
        "add.toml",
        "--shard",
        "0",
        "--turns",
        "9",
        "--journal",
        "j",
    ],
    failing: NOTHING,
    arrivals: &[(CALLER, START)],
    status: 10,
    out: b"",
    err: b"disk j\n",
    sent: &[],
    awaited: &[],
    log: b"",
}];

/// All of them.
pub(crate) static LIVES: [Lives; 7] = [
    Lives {
        journal: b"",
        failing: 0,
        cases: &OVER_FILES,
    },
    Lives {
        journal: b"",
        failing: 0,
        cases: &WITH_NODES,
    },
    Lives {
        journal: b"",
        failing: 0,
        cases: &STARTED_AGAIN,
    },
    Lives {
        journal: b"RCJ1othertag\0",
        failing: 0,
        cases: &NO_JOURNAL,
    },
    Lives {
        journal: b"",
        failing: 1,
        cases: &UNOPENED,
    },
    Lives {
        journal: b"",
        failing: 2,
        cases: &UNOPENED,
    },
    Lives {
        journal: b"",
        failing: 3,
        cases: &UNOPENED,
    },
];
