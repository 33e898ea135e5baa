//! What a server makes of messages that no honest node sends, of repeated ones and of watermarks, and what it tells then.
ghost use Rattle.std.specs.Prelude.{◌≡◌, ◌<◌};
ghost use Rattle.roc_server.specs.Ahead.{ServingFits};
ghost use Rattle.roc_step.specs.Fits.{ServerFits};

use crate::datagrams::{
    CIRCLE, CIRCLE_BACK, COMMIT, COMMIT_BEHIND, COMMITOK, ENDED_2, ENDED_3, FETCH, KNOWN, NO_ARGS,
    NO_GROUP, NO_PROC, READ, READ_GROUP_1, READ_NO_ARGS, READ_OF_0, READ_OF_2, READ_PLACE_1,
    READOK, SECOND_START, SETTLED, START, START_AGAIN, STOP, TORN_COMMIT, message_of,
};
use crate::holds::holds;
use crate::workloads::{COUNTER, LOOKED_AT, TWINS, plan_of};
use roc_base::{Edges, Key, Shard, Steps, TxnId};
use roc_group::Access;
use roc_msg::{NodeFault, Outbox, Reason};
use roc_plan::{Class, Plan};
use roc_rows::Cell;
use roc_server::{Handled, Server};
use std::alloc::Global;
use std::marker::Brand;
use std::process::Abort;
use std::sync::ledger::{Blank, Ledger};

// What is answered to a message.
#[derive(Clone, Copy, PartialEq)]
enum Answer {
    Done,
    Gone,
    Ignored(Reason),
    None,
}

// A datagram, and what is answered to its message.
type Row = (&'static [u8], Answer);

// A workload, what a server of its first shard is sent in turn, how many messages it sends, how many groups wait on it then, and who
// precedes a transaction that would write the counter, by deferrable groups and by immediate ones.
struct Case {
    name: &'static str,
    text: &'static [u8],
    rows: &'static [Row],
    sent: usize,
    waiting: usize,
    deferrable: &'static [TxnId],
    immediate: &'static [TxnId],
}

const FIRST: TxnId = TxnId { coord: 0, seq: 0 };

const SECOND: TxnId = TxnId { coord: 1, seq: 0 };

const FORGED: Case = Case {
    name: "forged messages are ignored",
    text: COUNTER,
    rows: &[
        (COMMITOK, Answer::Ignored(Reason::Foreign)),
        (STOP, Answer::Ignored(Reason::Foreign)),
        (NO_PROC, Answer::Ignored(Reason::BadProc)),
        (NO_GROUP, Answer::Ignored(Reason::BadGroup)),
        (NO_ARGS, Answer::Ignored(Reason::BadInputs)),
        (COMMIT, Answer::Ignored(Reason::NotHere)),
        (FETCH, Answer::Ignored(Reason::NotHere)),
        (KNOWN, Answer::Ignored(Reason::NotHere)),
    ],
    sent: 0,
    waiting: 0,
    deferrable: &[],
    immediate: &[],
};

const WAITING: Case = Case {
    name: "a group waits until it is decided",
    text: COUNTER,
    rows: &[(START, Answer::Done)],
    sent: 1,
    waiting: 1,
    deferrable: &[FIRST],
    immediate: &[],
};

const READS: Case = Case {
    name: "reads are refused for a fault, and wait",
    text: LOOKED_AT,
    rows: &[
        (READOK, Answer::Ignored(Reason::Foreign)),
        (NO_PROC, Answer::Ignored(Reason::BadProc)),
        (READ_OF_0, Answer::Ignored(Reason::BadProc)),
        (READ_OF_2, Answer::Ignored(Reason::BadProc)),
        (READ_GROUP_1, Answer::Ignored(Reason::BadGroup)),
        (READ_NO_ARGS, Answer::Ignored(Reason::BadInputs)),
        (READ_PLACE_1, Answer::Ignored(Reason::NotHere)),
        (START, Answer::Done),
        (READ, Answer::Done),
        (COMMIT, Answer::Done),
    ],
    sent: 3,
    waiting: 0,
    deferrable: &[],
    immediate: &[],
};

const REPEATED: Case = Case {
    name: "repeated messages are answered again",
    text: COUNTER,
    rows: &[
        (START, Answer::Done),
        (START, Answer::Done),
        (START_AGAIN, Answer::Ignored(Reason::Differs)),
        (COMMIT, Answer::Done),
        (COMMIT, Answer::Done),
    ],
    sent: 4,
    waiting: 0,
    deferrable: &[],
    immediate: &[],
};

const UNLIKE: Case = Case {
    name: "unlike lists are ignored",
    text: COUNTER,
    rows: &[
        (START, Answer::Done),
        (TORN_COMMIT, Answer::Ignored(Reason::Differs)),
        (COMMIT_BEHIND, Answer::Done),
        (COMMIT, Answer::Ignored(Reason::Differs)),
    ],
    sent: 2,
    waiting: 1,
    deferrable: &[FIRST],
    immediate: &[],
};

const LATE: Case = Case {
    name: "a group that starts late is ignored",
    text: TWINS,
    rows: &[
        (START, Answer::Done),
        (COMMIT, Answer::Done),
        (NO_GROUP, Answer::Ignored(Reason::Late)),
        (FETCH, Answer::Done),
    ],
    sent: 3,
    waiting: 0,
    deferrable: &[],
    immediate: &[],
};

const CIRCLES: Case = Case {
    name: "a circle of immediate edges is taken",
    text: COUNTER,
    rows: &[
        (START, Answer::Done),
        (SECOND_START, Answer::Done),
        (CIRCLE, Answer::Done),
        (CIRCLE_BACK, Answer::Done),
    ],
    sent: 4,
    waiting: 0,
    deferrable: &[],
    immediate: &[],
};

const HEARD: Case = Case {
    name: "watermarks are heard",
    text: COUNTER,
    rows: &[
        (ENDED_3, Answer::Done),
        (ENDED_2, Answer::Done),
        (SETTLED, Answer::Gone),
        (START, Answer::Gone),
    ],
    sent: 0,
    waiting: 0,
    deferrable: &[],
    immediate: &[],
};

static CASES: [Case; 8] = [
    FORGED, WAITING, READS, REPEATED, UNLIKE, LATE, CIRCLES, HEARD,
];

fn answer_of(answer: Result<Handled, NodeFault>) -> Answer {
    match answer {
        Ok(Handled::Done) => Answer::Done,
        Ok(Handled::Gone) => Answer::Gone,
        Ok(Handled::Ignored(reason)) => Answer::Ignored(reason),
        Err(_) => Answer::None,
    }
}

// Has a message made ahead, and then handled: both are answered alike.
fn takes(
    rt: &impl Abort,
    alloc: Global,
    plan: &Plan,
    server: &mut Server,
    bytes: &[u8],
    outbox: &mut Outbox,
) -> (Answer, Answer)
    requires fits { ServingFits plan.now server.old }
    ensures { ServingFits plan.now server.new }
{
    let msg = message_of(rt, alloc, bytes);
    let ahead = answer_of(server.ready(plan, &msg, outbox));
    (ahead, answer_of(server.handle(plan, &msg, outbox)))
}

fn takes_all(
    rt: &impl Abort,
    alloc: Global,
    plan: &Plan,
    server: &mut Server,
    case: &Case,
    outbox: &mut Outbox,
)
    requires fits { ServingFits plan.now server.old }
    ensures { ServingFits plan.now server.new }
{
    for (bytes, wanted) in case.rows {
        let (ahead, now) = takes(rt, alloc, plan, server, bytes, outbox);
        holds(rt, case.name, ahead == *wanted && now == *wanted);
    }
}

// The entries of a second transaction's group of this class that would write the counter.
fn counted_entries<L: Ledger>(
    plan: &Plan,
    server: &Server,
    class: Class,
    blank: Blank,
) -> Option<Edges>
    requires fits { ServerFits plan.now server.now.state }
    requires name { blank.name ≡ L.name }
    requires parts { blank.parts ≡ L.parts }
    requires some { 0 < blank.parts }
{
    let cell = Cell {
        table: 0,
        place: 0,
        id: Key::from_slice(&[0]),
        column: 0,
    };
    let cells = [Access { cell, writes: true }];
    let mut steps = Steps::<L>::new(blank);
    server.entries(plan, SECOND, class, &cells, &mut steps).ok()
}

fn are_entries(edges: &Edges, wanted: &[TxnId]) -> bool {
    let from = edges.as_slice().iter().map(|edge| edge.from());
    from.eq(wanted.iter().copied())
}

fn precede(plan: &Plan, server: &Server, class: Class, wanted: &[TxnId]) -> bool
    requires fits { ServerFits plan.now server.now.state }
{
    match counted_entries::<Brand>(plan, server, class, Blank::new(1)) {
        Some(edges) => are_entries(&edges, wanted),
        None => false,
    }
}

fn tells(rt: &impl Abort, plan: &Plan, server: &Server, case: &Case)
    requires fits { ServerFits plan.now server.now.state }
{
    let deferrable = precede(plan, server, Class::Deferrable, case.deferrable);
    holds(rt, case.name, deferrable);
    let immediate = precede(plan, server, Class::Immediate, case.immediate);
    holds(rt, case.name, immediate);
    let waiting = server.waiting(plan).expect(rt, "memory");
    holds(rt, case.name, waiting.len() == case.waiting);
}

fn serves(rt: &impl Abort, alloc: Global, plan: &Plan, server: &mut Server, case: &Case)
    requires fits { ServingFits plan.now server.old }
{
    let mut outbox = Outbox::new(alloc);
    takes_all(rt, alloc, plan, server, case, &mut outbox);
    holds(rt, case.name, outbox.messages().len() == case.sent);
    tells(rt, plan, server, case);
}

fn serves_first(rt: &impl Abort, alloc: Global, plan: &Plan, case: &Case) {
    let mut server = Server::new(alloc, plan, Shard(0)).expect(rt, "a server");
    serves(rt, alloc, plan, &mut server, case);
}

fn serves_case(rt: &impl Abort, alloc: Global, case: &Case) {
    let plan = plan_of(rt, alloc, case.text);
    serves_first(rt, alloc, &plan, case);
}

#[test]
fn servers_answer_and_tell(rt: HostRuntime) {
    for case in &CASES {
        serves_case(&rt, rt.alloc(), case);
    }
}
