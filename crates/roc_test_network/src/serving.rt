//! Servers that serve a shard: honest rounds, hostile datagrams and calls that fail.
use crate::datagrams::{
    ADD_OF_FIRST, ADD_OF_SECOND, COMMIT_BEHIND_FIRST, COMMIT_BEHIND_SECOND, FETCH_OF_FIRST,
    FETCH_OF_NOTHING, HUNDRED, HUNDRED_AND_ONE, KNOWN_TWICE, Packet, START, START_OF_GROUP_1,
    START_OF_PROCEDURE_1, START_WITHOUT_ARGUMENTS, STARTOK, STARTOK_BEHIND_FIRST, STOP,
    STRANGE_START,
};
use crate::logging::SERVED;
use crate::outside::{Failing, NOTHING, Seen, disk_of};
use crate::servers::{CALLER, Case, OTHER_CALLER, Setting, serves};
use crate::workloads::{BANK, COUNTER, FIRST_SHARD};
use roc_disk_memory::MemDisk;
use roc_node_serve::ServeEnd;
use std::alloc::Global;
use std::process::Abort;

const PLAIN: Setting = Setting {
    texts: &COUNTER,
    counts: false,
    journal: None,
    log: None,
};

const COUNTING: Setting = Setting {
    texts: &COUNTER,
    counts: true,
    journal: None,
    log: None,
};

const COUNTING_BANK: Setting = Setting {
    texts: &BANK,
    counts: true,
    journal: None,
    log: None,
};

// A start twice, the same under another tag, and a stop.
const ROUND: [Packet; 4] = [
    (CALLER, START),
    (CALLER, START),
    (CALLER, STRANGE_START),
    (CALLER, STOP),
];

static ROUNDS: [Case; 4] = [
    Case {
        setting: &PLAIN,
        arrivals: &ROUND,
        failing: NOTHING,
        turns: 9,
        end: ServeEnd::Done,
        seen: Seen {
            name: "stop",
            bound: &[FIRST_SHARD],
            sent: &[(CALLER, STARTOK), (CALLER, STARTOK)],
            lines: b"serving 0\nend 0 stop taken 3 skipped 1\n",
        },
        log: b"",
    },
    Case {
        setting: &PLAIN,
        arrivals: &ROUND,
        failing: NOTHING,
        turns: 2,
        end: ServeEnd::Done,
        seen: Seen {
            name: "turns",
            bound: &[FIRST_SHARD],
            sent: &[(CALLER, STARTOK), (CALLER, STARTOK)],
            lines: b"serving 0\nend 0 turns taken 2 skipped 0\n",
        },
        log: b"",
    },
    Case {
        setting: &PLAIN,
        arrivals: &[],
        failing: NOTHING,
        turns: 2,
        end: ServeEnd::Done,
        seen: Seen {
            name: "silence",
            bound: &[FIRST_SHARD],
            sent: &[],
            lines: b"serving 0\nend 0 turns taken 0 skipped 0\n",
        },
        log: b"",
    },
    // The coordinator is answered where it was heard last.
    Case {
        setting: &PLAIN,
        arrivals: &[
            (CALLER, START),
            (OTHER_CALLER, START),
            (CALLER, STRANGE_START),
            (CALLER, STOP),
        ],
        failing: NOTHING,
        turns: 9,
        end: ServeEnd::Done,
        seen: Seen {
            name: "other address",
            bound: &[FIRST_SHARD],
            sent: &[(CALLER, STARTOK), (OTHER_CALLER, STARTOK)],
            lines: b"serving 0\nend 0 stop taken 3 skipped 1\n",
        },
        log: b"",
    },
];

static FAULTS: [Case; 5] = [
    Case {
        setting: &PLAIN,
        arrivals: &ROUND,
        failing: Failing { call: 1, ..NOTHING },
        turns: 9,
        end: ServeEnd::LinkFault,
        seen: Seen {
            name: "bind",
            bound: &[],
            sent: &[],
            lines: b"",
        },
        log: b"",
    },
    Case {
        setting: &PLAIN,
        arrivals: &ROUND,
        failing: Failing { call: 3, ..NOTHING },
        turns: 9,
        end: ServeEnd::LinkFault,
        seen: Seen {
            name: "second receive",
            bound: &[FIRST_SHARD],
            sent: &[(CALLER, STARTOK)],
            lines: b"serving 0\n",
        },
        log: b"",
    },
    Case {
        setting: &PLAIN,
        arrivals: &ROUND,
        failing: Failing { send: 1, ..NOTHING },
        turns: 9,
        end: ServeEnd::Done,
        seen: Seen {
            name: "first send",
            bound: &[FIRST_SHARD],
            sent: &[(CALLER, STARTOK)],
            lines: b"serving 0\nend 0 stop taken 3 skipped 1\n",
        },
        log: b"",
    },
    // A write that fails takes half of its text.
    Case {
        setting: &PLAIN,
        arrivals: &ROUND,
        failing: Failing {
            write: 1,
            ..NOTHING
        },
        turns: 9,
        end: ServeEnd::SinkFault,
        seen: Seen {
            name: "first write",
            bound: &[FIRST_SHARD],
            sent: &[],
            lines: b"servi",
        },
        log: b"",
    },
    Case {
        setting: &PLAIN,
        arrivals: &ROUND,
        failing: Failing {
            write: 2,
            ..NOTHING
        },
        turns: 9,
        end: ServeEnd::SinkFault,
        seen: Seen {
            name: "last write",
            bound: &[FIRST_SHARD],
            sent: &[(CALLER, STARTOK), (CALLER, STARTOK)],
            lines: b"serving 0\nend 0 stop tak",
        },
        log: b"",
    },
];

static REFUSALS: [Case; 1] = [Case {
    setting: &COUNTING,
    arrivals: &[
        (CALLER, b""),
        (CALLER, KNOWN_TWICE),
        (CALLER, START_OF_PROCEDURE_1),
        (CALLER, START_OF_GROUP_1),
        (CALLER, START_WITHOUT_ARGUMENTS),
        (CALLER, STARTOK),
        (CALLER, FETCH_OF_NOTHING),
        (CALLER, STOP),
    ],
    failing: NOTHING,
    turns: 9,
    end: ServeEnd::Done,
    seen: Seen {
        name: "refusals",
        bound: &[FIRST_SHARD],
        sent: &[],
        lines: b"serving 0
end 0 stop taken 6 skipped 2
skipped short 1
skipped order 1
ignored foreign 1
ignored badproc 1
ignored badgroup 1
ignored badinputs 1
ignored nothere 1
",
    },
    log: b"",
}];

// The commits have an immediate edge from each to the other, and the fetch is of a shard that the workload lacks.
static FORGED: [Case; 1] = [Case {
    setting: &COUNTING_BANK,
    arrivals: &[
        (CALLER, ADD_OF_FIRST),
        (OTHER_CALLER, ADD_OF_SECOND),
        (CALLER, COMMIT_BEHIND_SECOND),
        (OTHER_CALLER, COMMIT_BEHIND_FIRST),
        (CALLER, FETCH_OF_FIRST),
        (CALLER, STOP),
    ],
    failing: NOTHING,
    turns: 9,
    end: ServeEnd::Done,
    seen: Seen {
        name: "forged commits",
        bound: &[FIRST_SHARD],
        sent: &[
            (CALLER, STARTOK),
            (OTHER_CALLER, STARTOK_BEHIND_FIRST),
            (CALLER, HUNDRED),
            (OTHER_CALLER, HUNDRED_AND_ONE),
        ],
        lines: b"serving 0\nend 0 stop taken 6 skipped 0\n",
    },
    log: b"",
}];

// Without a journal the disk is left alone.
fn serves_one(rt: &impl Abort, alloc: Global, case: &Case, disk: &mut MemDisk) {
    serves(rt, alloc, case, disk);
    assert!(rt; disk.seen().is_empty());
}

fn serve_each(rt: &impl Abort, alloc: Global, cases: &[Case]) {
    for case in cases {
        serves_one(rt, alloc, case, &mut disk_of(rt, alloc, 0));
    }
}

#[test]
fn servers_end_as_told(rt: HostRuntime) {
    serve_each(&rt, rt.alloc(), &ROUNDS);
    serve_each(&rt, rt.alloc(), &FAULTS);
    serve_each(&rt, rt.alloc(), &REFUSALS);
    serve_each(&rt, rt.alloc(), &FORGED);
    serve_each(&rt, rt.alloc(), &SERVED);
}
