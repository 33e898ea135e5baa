//! Servers that keep a journal: a disk of which any call fails, and servers that stop and start again.
use crate::datagrams::{
    ADD_OF_FIRST, ADD_OF_SECOND, COMMIT, COMMIT_BEHIND_FIRST, COMMIT_BEHIND_OTHER_SHARD,
    COMMIT_BEHIND_SECOND, FETCH_OF_SECOND, HUNDRED, HUNDRED_AND_ONE, Packet, START, STARTOK,
    STARTOK_BEHIND_FIRST, STOP, STRANGE_START,
};
use crate::outside::{NOTHING, Outside, Seen, disk_of, hold, outside_of};
use crate::same::same;
use crate::servers::{CALLER, Case, OTHER_CALLER, Setting, serve_first, serves};
use crate::workloads::{BANK, COUNTER, FIRST_SHARD, SECOND_SHARD};
use roc_disk_memory::{MemDisk, Tear};
use roc_node_serve::ServeEnd;
use std::alloc::Global;
use std::process::Abort;

const KEEPING: Setting = Setting {
    texts: &COUNTER,
    counts: false,
    journal: Some("journal"),
    log: None,
};

const KEEPING_BANK: Setting = Setting {
    texts: &BANK,
    counts: false,
    journal: Some("journal"),
    log: None,
};

// A start twice, the same under another tag, and a stop: two records.
const ROUND: [Packet; 4] = [
    (CALLER, START),
    (CALLER, START),
    (CALLER, STRANGE_START),
    (CALLER, STOP),
];

static WHOLE: Case = Case {
    setting: &KEEPING,
    arrivals: &ROUND,
    failing: NOTHING,
    turns: 9,
    end: ServeEnd::Done,
    seen: Seen {
        name: "round",
        bound: &[FIRST_SHARD],
        sent: &[(CALLER, STARTOK), (CALLER, STARTOK)],
        lines: b"serving 0\nend 0 stop taken 3 skipped 1\n",
    },
    log: b"",
};

// The calls of the disk until the journal is made, and until a record is kept.
const CALLS_OF_OPEN: u64 = 7;

const CALLS_OF_RECORD: u64 = 4;

// The same where a call of the disk fails before the journal is open.
static UNOPENED: Case = Case {
    setting: &KEEPING,
    arrivals: &ROUND,
    failing: NOTHING,
    turns: 9,
    end: ServeEnd::Disk,
    seen: Seen {
        name: "unopened",
        bound: &[],
        sent: &[],
        lines: b"",
    },
    log: b"",
};

static BROKEN_AT_FIRST: Case = Case {
    setting: &KEEPING,
    arrivals: &ROUND,
    failing: NOTHING,
    turns: 9,
    end: ServeEnd::Disk,
    seen: Seen {
        name: "broken at the first",
        bound: &[FIRST_SHARD],
        sent: &[],
        lines: b"serving 0\n",
    },
    log: b"",
};

static BROKEN_AT_SECOND: Case = Case {
    setting: &KEEPING,
    arrivals: &ROUND,
    failing: NOTHING,
    turns: 9,
    end: ServeEnd::Disk,
    seen: Seen {
        name: "broken at the second",
        bound: &[FIRST_SHARD],
        sent: &[(CALLER, STARTOK)],
        lines: b"serving 0\n",
    },
    log: b"",
};

// The next life where a call failed as the journal was made, behind its first write and before its last one: it has no magic.
static UNMADE: Case = Case {
    setting: &KEEPING,
    arrivals: &ROUND,
    failing: NOTHING,
    turns: 9,
    end: ServeEnd::Journal(0),
    seen: Seen {
        name: "unmade",
        bound: &[],
        sent: &[],
        lines: b"",
    },
    log: b"",
};

// Two transactions start, and the server stops.
static STARTS: Case = Case {
    setting: &KEEPING_BANK,
    arrivals: &[(CALLER, ADD_OF_FIRST), (OTHER_CALLER, ADD_OF_SECOND)],
    failing: NOTHING,
    turns: 2,
    end: ServeEnd::Done,
    seen: Seen {
        name: "starts",
        bound: &[FIRST_SHARD],
        sent: &[(CALLER, STARTOK), (OTHER_CALLER, STARTOK_BEHIND_FIRST)],
        lines: b"serving 0\nend 0 turns taken 2 skipped 0\n",
    },
    log: b"",
};

// It starts again, and both are committed.
static COMMITS: Case = Case {
    setting: &KEEPING_BANK,
    arrivals: &[
        (CALLER, COMMIT_BEHIND_SECOND),
        (OTHER_CALLER, COMMIT_BEHIND_FIRST),
        (CALLER, STOP),
    ],
    failing: NOTHING,
    turns: 9,
    end: ServeEnd::Done,
    seen: Seen {
        name: "commits",
        bound: &[FIRST_SHARD],
        sent: &[(CALLER, HUNDRED), (OTHER_CALLER, HUNDRED_AND_ONE)],
        lines: b"serving 0\nend 0 stop taken 3 skipped 0\n",
    },
    log: b"",
};

// A transaction is committed behind one of which the other shard has told.
static ASKS: Case = Case {
    setting: &KEEPING_BANK,
    arrivals: &[(CALLER, ADD_OF_FIRST), (CALLER, COMMIT_BEHIND_OTHER_SHARD)],
    failing: NOTHING,
    turns: 2,
    end: ServeEnd::Done,
    seen: Seen {
        name: "asks",
        bound: &[FIRST_SHARD],
        sent: &[(CALLER, STARTOK), (SECOND_SHARD, FETCH_OF_SECOND)],
        lines: b"serving 0\nend 0 turns taken 2 skipped 0\n",
    },
    log: b"",
};

// Started again, it asks once more, and takes no turn for it.
static ASKS_AGAIN: Case = Case {
    setting: &KEEPING_BANK,
    arrivals: &[],
    failing: NOTHING,
    turns: 0,
    end: ServeEnd::Done,
    seen: Seen {
        name: "asks again",
        bound: &[FIRST_SHARD],
        sent: &[(SECOND_SHARD, FETCH_OF_SECOND)],
        lines: b"serving 0\nend 0 turns taken 0 skipped 0\n",
    },
    log: b"",
};

// What the journal of one workload's server holds is none of another's.
static REFUSED: Case = Case {
    setting: &KEEPING,
    arrivals: &[],
    failing: NOTHING,
    turns: 9,
    end: ServeEnd::Journal(13),
    seen: Seen {
        name: "refused",
        bound: &[],
        sent: &[],
        lines: b"",
    },
    log: b"",
};

// What comes of the first life, by the call of the disk that fails.
fn first_life(call: u64) -> &'static Case {
    if call <= CALLS_OF_OPEN {
        &UNOPENED
    } else if call <= CALLS_OF_OPEN + CALLS_OF_RECORD {
        &BROKEN_AT_FIRST
    } else {
        &BROKEN_AT_SECOND
    }
}

fn second_life(call: u64) -> &'static Case {
    if call == 5 || call == 6 {
        &UNMADE
    } else {
        &WHOLE
    }
}

// Two lives on a disk of which the call of this number fails.
fn lives(rt: &impl Abort, alloc: Global, call: u64, first: &Case, second: &Case) {
    let mut disk = disk_of(rt, alloc, call);
    serves(rt, alloc, first, &mut disk);
    serves(rt, alloc, second, &mut disk);
}

// The server ends where its disk fails, before anything is sent for the message, and is started again.
#[test]
fn a_disk_that_fails_ends_the_server(rt: HostRuntime) {
    for call in 1..CALLS_OF_OPEN + 2 * CALLS_OF_RECORD + 1 {
        lives(&rt, rt.alloc(), call, first_life(call), second_life(call));
    }
}

// A server goes on amid two transactions, one begins again with a tick, and one is given the journal of another workload.
#[test]
fn servers_go_on_where_they_stopped(rt: HostRuntime) {
    lives(&rt, rt.alloc(), 0, &STARTS, &COMMITS);
    lives(&rt, rt.alloc(), 0, &ASKS, &ASKS_AGAIN);
    lives(&rt, rt.alloc(), 0, &STARTS, &REFUSED);
}

// How many datagrams a server with a journal sends for those that come.
fn sent_with(rt: &impl Abort, alloc: Global, outside: &mut Outside, disk: &mut MemDisk) -> usize {
    serve_first(rt, alloc, &KEEPING, 1, outside, disk);
    outside.link.sent().expect(rt, "told").len()
}

fn sent_for(rt: &impl Abort, alloc: Global, arrivals: &[Packet], disk: &mut MemDisk) -> usize {
    let mut outside = outside_of(rt, alloc, arrivals, &NOTHING);
    sent_with(rt, alloc, &mut outside, disk)
}

// A server whose disk stops as it takes a start, and another one on what that leaves: where the first one has answered, the second one
// has the start, and its commit is answered.
fn stops(rt: &impl Abort, alloc: Global, disk: &mut MemDisk, left: &mut MemDisk, wanted: usize) {
    let answered = sent_for(rt, alloc, &[(CALLER, START)], disk);
    hold(rt, left, disk.image());
    let again = sent_for(rt, alloc, &[(CALLER, COMMIT)], left);
    assert!(rt; again == 1 || answered == 0);
    same(rt, "a start is answered", &answered, &wanted);
}

// It stopped while the journal was made, or as it took the start, or not at all.
fn stops_at(rt: &impl Abort, alloc: Global, call: u64, tear: Tear) {
    let wanted = usize::from(call > CALLS_OF_OPEN + CALLS_OF_RECORD);
    let mut disk = MemDisk::new(alloc, Vec::new(alloc), call, tear);
    stops(rt, alloc, &mut disk, &mut disk_of(rt, alloc, 0), wanted);
}

fn stops_each_way(rt: &impl Abort, alloc: Global, call: u64) {
    for tear in [Tear::Nothing, Tear::Half, Tear::Whole, Tear::Other(1)] {
        stops_at(rt, alloc, call, tear);
    }
}

#[test]
fn what_was_answered_outlasts_a_stop(rt: HostRuntime) {
    for call in 1..CALLS_OF_OPEN + CALLS_OF_RECORD + 2 {
        stops_each_way(&rt, rt.alloc(), call);
    }
}
