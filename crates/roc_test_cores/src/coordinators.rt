//! What a coordinator makes of submissions and messages that no honest caller or node sends.
ghost use Rattle.roc_coord.specs.Fits.{CoordFits};

use crate::datagrams::{
    COMMIT, COMMITOK_7, COMMITOK_7_8, FIRST_READ, READOK_1, READOK_2, READOK_GROUP_1, READOK_OTHER,
    READOK_SHARD_1, READOK_VERSIONS, STARTOK, STARTOK_OTHER, STARTOK_SHARD_1, STOP, message_of,
};
use crate::holds::holds;
use crate::workloads::{COUNTER, LOOKED_AT, plan_of};
use roc_base::TxnId;
use roc_coord::{Coord, Handled, SubmitFault};
use roc_msg::{NodeFault, Outbox, Reason};
use roc_plan::Plan;
use std::alloc::Global;
use std::process::Abort;

// What is answered to a message, or to a submission: the sequence of its id, or a fault.
#[derive(Clone, Copy, PartialEq)]
enum Answer {
    Taken,
    Replied,
    Ignored(Reason),
    As(u32),
    Refused(SubmitFault),
    None,
}

// A datagram, and what is answered to its message.
type Row = (&'static [u8], Answer);

// A call, and what is answered to its submission.
type Call = (u16, &'static [i64], Answer);

// A workload, the calls that are submitted in turn, what comes then, and how many are unanswered at the end.
struct Case {
    name: &'static str,
    text: &'static [u8],
    calls: &'static [Call],
    rows: &'static [Row],
    unanswered: usize,
}

const FORGED: Case = Case {
    name: "forged messages are ignored",
    text: COUNTER,
    calls: &[(0, &[0], Answer::As(0))],
    rows: &[
        (COMMIT, Answer::Ignored(Reason::Foreign)),
        (STOP, Answer::Ignored(Reason::Foreign)),
        (STARTOK_OTHER, Answer::Ignored(Reason::Stale)),
        (STARTOK_SHARD_1, Answer::Ignored(Reason::Unfit)),
        (COMMITOK_7, Answer::Ignored(Reason::Unfit)),
        (FIRST_READ, Answer::Ignored(Reason::Foreign)),
        (READOK_1, Answer::Ignored(Reason::Unfit)),
    ],
    unanswered: 1,
};

const READS: Case = Case {
    name: "answers to reads are ignored for a fault",
    text: LOOKED_AT,
    calls: &[(1, &[0], Answer::As(0))],
    rows: &[
        (STARTOK, Answer::Ignored(Reason::Unfit)),
        (COMMITOK_7, Answer::Ignored(Reason::Unfit)),
        (READOK_OTHER, Answer::Ignored(Reason::Stale)),
        (READOK_2, Answer::Ignored(Reason::Stale)),
        (READOK_GROUP_1, Answer::Ignored(Reason::Unfit)),
        (READOK_SHARD_1, Answer::Ignored(Reason::Unfit)),
        (READOK_VERSIONS, Answer::Ignored(Reason::Unfit)),
        (READOK_1, Answer::Taken),
        (READOK_1, Answer::Ignored(Reason::Stale)),
        (READOK_2, Answer::Replied),
        (READOK_2, Answer::Ignored(Reason::Stale)),
    ],
    unanswered: 0,
};

const REPEATED: Case = Case {
    name: "repeated messages are ignored",
    text: COUNTER,
    calls: &[(0, &[0], Answer::As(0))],
    rows: &[
        (STARTOK, Answer::Taken),
        (STARTOK, Answer::Ignored(Reason::Stale)),
        (COMMITOK_7_8, Answer::Ignored(Reason::Unfit)),
        (COMMITOK_7, Answer::Replied),
        (COMMITOK_7, Answer::Ignored(Reason::Stale)),
    ],
    unanswered: 0,
};

const REFUSED: Case = Case {
    name: "submissions are refused for a fault",
    text: COUNTER,
    calls: &[
        (1, &[1], Answer::Refused(SubmitFault::NoProc)),
        (0, &[1, 2], Answer::Refused(SubmitFault::Args)),
        (0, &[1], Answer::As(0)),
        (0, &[1], Answer::As(1)),
        (0, &[1], Answer::As(2)),
        (0, &[1], Answer::As(3)),
        (0, &[1], Answer::As(4)),
        (0, &[1], Answer::As(5)),
        (0, &[1], Answer::As(6)),
        (0, &[1], Answer::As(7)),
        (0, &[1], Answer::As(8)),
        (0, &[1], Answer::As(9)),
        (0, &[1], Answer::As(10)),
        (0, &[1], Answer::As(11)),
        (0, &[1], Answer::As(12)),
        (0, &[1], Answer::As(13)),
        (0, &[1], Answer::As(14)),
        (0, &[1], Answer::As(15)),
        (0, &[1], Answer::Refused(SubmitFault::Busy)),
    ],
    rows: &[],
    unanswered: 16,
};

static CASES: [Case; 4] = [FORGED, READS, REPEATED, REFUSED];

fn answer_of(answer: Result<Handled, NodeFault>) -> Answer {
    match answer {
        Ok(Handled::Done) => Answer::Taken,
        Ok(Handled::Answered { .. }) => Answer::Replied,
        Ok(Handled::Ignored(reason)) => Answer::Ignored(reason),
        Err(_) => Answer::None,
    }
}

fn submission_of(answer: Result<TxnId, SubmitFault>) -> Answer {
    match answer {
        Ok(id) => Answer::As(id.seq),
        Err(fault) => Answer::Refused(fault),
    }
}

fn takes(
    rt: &impl Abort,
    alloc: Global,
    plan: &Plan,
    coord: &mut Coord,
    bytes: &[u8],
    outbox: &mut Outbox,
) -> Answer
    requires fits { CoordFits plan.now coord.old }
    ensures { CoordFits plan.now coord.new }
{
    let msg = message_of(rt, alloc, bytes);
    answer_of(coord.handle(plan, &msg, outbox))
}

fn takes_all(
    rt: &impl Abort,
    alloc: Global,
    plan: &Plan,
    coord: &mut Coord,
    case: &Case,
    outbox: &mut Outbox,
)
    requires fits { CoordFits plan.now coord.old }
    ensures { CoordFits plan.now coord.new }
{
    for (bytes, wanted) in case.rows {
        let answer = takes(rt, alloc, plan, coord, bytes, outbox);
        holds(rt, case.name, answer == *wanted);
    }
}

fn submits(rt: &impl Abort, plan: &Plan, coord: &mut Coord, case: &Case, outbox: &mut Outbox)
    requires fits { CoordFits plan.now coord.old }
    ensures { CoordFits plan.now coord.new }
{
    for (proc, args, wanted) in case.calls {
        let answer = submission_of(coord.submit(plan, *proc, args, outbox));
        holds(rt, case.name, answer == *wanted);
    }
}

fn coordinates(
    rt: &impl Abort,
    alloc: Global,
    plan: &Plan,
    coord: &mut Coord,
    case: &Case,
    outbox: &mut Outbox,
)
    requires fits { CoordFits plan.now coord.old }
{
    submits(rt, plan, coord, case, outbox);
    takes_all(rt, alloc, plan, coord, case, outbox);
    holds(rt, case.name, coord.unanswered().len() == case.unanswered);
}

fn coordinates_first(rt: &impl Abort, alloc: Global, case: &Case) {
    let plan = plan_of(rt, alloc, case.text);
    let mut coord = Coord::new(alloc, 0);
    coordinates(rt, alloc, &plan, &mut coord, case, &mut Outbox::new(alloc));
}

#[test]
fn coordinators_answer(rt: HostRuntime) {
    for case in &CASES {
        coordinates_first(&rt, rt.alloc(), case);
    }
}
