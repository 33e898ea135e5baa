//! Runs, with what comes of them where memory suffices.
ghost use Rattle.std.specs.List.{AllByRecursion};
ghost use Rattle.roc_coord.specs.Fits.{CoordFits};
ghost use Rattle.roc_server.specs.Ahead.{ServingFits};

use crate::first::{Run, first_run, plan_of};
use crate::holds::holds;
use crate::run::{Event, happen_all, post};
use roc_base::{Node, Nums, Shard, TxnId};
use roc_plan::Plan;
use std::alloc::Global;
use std::process::Abort;

// A reply, with the transaction that it is of.
type Reply = (TxnId, &'static [i64]);

// A workload, its events, and what is to come of them: the replies, how many messages are sent, and the serial order.
struct Case {
    workload: &'static [u8],
    coords: u16,
    events: &'static [Event],
    replies: &'static [Reply],
    messages: usize,
    order: &'static [TxnId],
}

fn are_replies(rt: &impl Abort, found: &[(TxnId, Nums)], wanted: &[Reply]) {
    holds(rt, "how many replies", found.len() == wanted.len());
    for ((id, reply), (wanted_id, numbers)) in found.iter().zip(wanted) {
        holds(rt, "whom a reply is to", *id == *wanted_id);
        holds(rt, "a reply", reply.as_slice() == *numbers);
    }
}

fn is_outcome(rt: &impl Abort, run: &Run, case: &Case) {
    are_replies(rt, &run.replies, case.replies);
    holds(rt, "how many messages", run.sent.len() == case.messages);
    holds(rt, "the order", run.order.as_slice() == case.order);
}

fn runs(rt: &impl Abort, plan: &Plan, run: &mut Run, case: &Case)
    requires servers { AllByRecursion (ServingFits plan.now) run.old.servers.items }
    requires coords { AllByRecursion (CoordFits plan.now) run.old.coords.items }
{
    happen_all(rt, plan, run, case.events);
    post(rt, run);
    is_outcome(rt, run, case);
}

fn starts(rt: &impl Abort, alloc: Global, plan: &Plan, case: &Case) {
    if let Ok(mut run) = first_run(alloc, plan, case.coords) {
        runs(rt, plan, &mut run, case);
    }
}

// A test whose own memory is wanting has shown nothing, and passes: a call of a node stops it where it is not as it must be.
fn passes(rt: &impl Abort, alloc: Global, case: &Case) {
    if let Some(plan) = plan_of(rt, alloc, case.workload) {
        starts(rt, alloc, &plan, case);
    }
}

static CROSSING: Case = Case {
    workload: b"shards 2;
table acct { bal }
init acct[0,0].bal = 100;
init acct[1,0].bal = 50;
proc pay(f,t,n) {
  later take at f { get b = acct[0].bal; set acct[0].bal = b - n; out b; }
  later give at t { get d = acct[0].bal; set acct[0].bal = d + n; out d; }
}
",
    coords: 2,
    events: &[
        Event::Submit(0, &[0, 1, 10]),
        Event::Submit(1, &[1, 0, 5]),
        Event::Deliver(1, 1),
        Event::Deliver(3, 3),
        Event::Deliver(2, 2),
        Event::Deliver(4, 5),
        Event::Deliver(7, 7),
        Event::Deliver(6, 6),
        Event::Deliver(8, 9),
        Event::Deliver(11, 11),
        Event::Deliver(10, 10),
        Event::Deliver(12, 16),
    ],
    replies: &[(FIRST, &[100, 50]), (SECOND, &[60, 90])],
    messages: 16,
    order: &[FIRST, SECOND],
};

const FIRST: TxnId = TxnId { coord: 0, seq: 0 };

const SECOND: TxnId = TxnId { coord: 1, seq: 0 };

const THIRD: TxnId = TxnId { coord: 2, seq: 0 };

#[test]
fn crossing_transfers(rt: HostRuntime) {
    passes(&rt, rt.alloc(), &CROSSING)
}

// Each shard lacks the list of the transaction that comes before its own, and asks for it; one asks again at a tick.
static RING: Case = Case {
    workload: b"shards 3;
table acct { bal }
init acct[0,0].bal = 100;
init acct[1,0].bal = 100;
init acct[2,0].bal = 100;
proc pay(f,t,n) {
  later take at f { get b = acct[0].bal; set acct[0].bal = b - n; out b; }
  later give at t { get d = acct[0].bal; set acct[0].bal = d + n; out d; }
}
",
    coords: 3,
    events: &[
        Event::Submit(0, &[0, 1, 10]),
        Event::Submit(1, &[1, 2, 20]),
        Event::Submit(2, &[2, 0, 30]),
        Event::Deliver(6, 6),
        Event::Deliver(1, 5),
        Event::Deliver(7, 18),
        Event::Deliver(21, 21),
        Event::Tick(Node::Server(Shard(0))),
        Event::Deliver(19, 20),
        Event::Deliver(22, 22),
        Event::Deliver(24, 31),
    ],
    replies: &[
        (FIRST, &[100, 100]),
        (SECOND, &[110, 100]),
        (THIRD, &[120, 90]),
    ],
    messages: 31,
    order: &[FIRST, SECOND, THIRD],
};

#[test]
fn a_ring_of_transfers(rt: HostRuntime) {
    passes(&rt, rt.alloc(), &RING)
}

const ADDITION: Event = Event::Submit(0, &[1]);

// Sixteen unanswered are the most: the seventeenth is refused until one of them has its reply. Then time passes.
static BUSY: Case = Case {
    workload: b"shards 1;
table t { x }
proc add(n) { later a at 0 { get v = t[0].x; set t[0].x = v + n; out v; } }
",
    coords: 1,
    events: &[
        ADDITION,
        ADDITION,
        ADDITION,
        ADDITION,
        ADDITION,
        ADDITION,
        ADDITION,
        ADDITION,
        ADDITION,
        ADDITION,
        ADDITION,
        ADDITION,
        ADDITION,
        ADDITION,
        ADDITION,
        ADDITION,
        Event::Busy(0, &[1]),
        Event::Deliver(1, 1),
        Event::Deliver(17, 19),
        ADDITION,
        Event::Tick(Node::Coord(0)),
    ],
    replies: &[(FIRST, &[0])],
    messages: 37,
    order: &[FIRST],
};

#[test]
fn busy_submissions(rt: HostRuntime) {
    passes(&rt, rt.alloc(), &BUSY)
}

const LATER: TxnId = TxnId { coord: 0, seq: 1 };

// The shards forget what is ended, one behind the other. A list that comes late teaches the first a transaction again, so that it asks for what
// comes before that one, of which the other answers that it is settled. A start of what is gone is the last message.
static FORGOTTEN: Case = Case {
    workload: b"shards 2;
table acct { bal }
init acct[0,0].bal = 100;
init acct[1,0].bal = 100;
proc pay(f,t,n) {
  later take at f { get b = acct[0].bal; set acct[0].bal = b - n; out b; }
  later give at t { get d = acct[0].bal; set acct[0].bal = d + n; out d; }
}
",
    coords: 2,
    events: &[
        Event::Submit(1, &[1, 1, 1]),
        Event::Deliver(1, 4),
        Event::Submit(0, &[0, 1, 2]),
        Event::Deliver(6, 9),
        Event::Deliver(11, 11),
        Event::Submit(0, &[0, 1, 4]),
        Event::Deliver(13, 13),
        Event::Deliver(5, 5),
        Event::Deliver(15, 15),
        Event::Deliver(10, 10),
        Event::Deliver(17, 18),
        Event::Deliver(16, 16),
        Event::Deliver(19, 19),
        Event::Tick(Node::Coord(0)),
        Event::Tick(Node::Coord(1)),
        Event::Deliver(22, 22),
        Event::Deliver(24, 24),
        Event::Deliver(12, 12),
        Event::Deliver(14, 14),
        Event::Deliver(26, 27),
        Event::Tick(Node::Server(Shard(0))),
        Event::Submit(0, &[0, 1, 8]),
        Event::Deliver(31, 31),
        Event::Deliver(23, 23),
        Event::Deliver(25, 25),
        Event::Deliver(29, 29),
        Event::Deliver(34, 34),
        Event::Deliver(28, 28),
        Event::Deliver(35, 36),
        Event::Deliver(1, 1),
    ],
    replies: &[
        (SECOND, &[100, 99]),
        (FIRST, &[100, 100]),
        (LATER, &[98, 102]),
    ],
    messages: 36,
    order: &[SECOND, FIRST, LATER],
};

#[test]
fn transactions_that_are_forgotten(rt: HostRuntime) {
    passes(&rt, rt.alloc(), &FORGOTTEN)
}

// Two views look while an addition is undecided, one of them again at a tick; what both read in their first round is answered behind the commit.
static LOOKED_AT: Case = Case {
    workload: b"shards 1;
table t { x }
proc add(n) { later a at 0 { get v = t[0].x; set t[0].x = v + n; out v; } }
proc look() view { later a at 0 { get v = t[0].x; out v; } }
",
    coords: 2,
    events: &[
        Event::Submit(0, &[5]),
        Event::Deliver(1, 1),
        Event::Look(0),
        Event::Look(1),
        Event::Deliver(3, 4),
        Event::Tick(Node::Coord(1)),
        Event::Deliver(5, 5),
        Event::Deliver(2, 2),
        Event::Deliver(6, 13),
    ],
    replies: &[(FIRST, &[0]), (LATER, &[5]), (SECOND, &[5])],
    messages: 13,
    order: &[FIRST],
};

#[test]
fn views_beside_an_addition(rt: HostRuntime) {
    passes(&rt, rt.alloc(), &LOOKED_AT)
}
