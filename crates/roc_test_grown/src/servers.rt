//! What a server makes of drained and switched messages, forged ones too, and of messages of another file.
ghost use Rattle.std.specs.Option.{option_copied};
ghost use Rattle.roc_grown.specs.Fits.{GrownServerFits};

use crate::holds::holds;
use crate::messages::{Answer, COUNTER, Message, Told, message_of, next_of, plan_of, tells};
use roc_base::Shard;
use roc_epoch::{File, Next};
use roc_grown::{GrownHandled, GrownServer};
use roc_msg::{NodeFault, Outbox, Reason};
use roc_plan::Plan;
use std::alloc::Global;
use std::process::Abort;

// A message of a file, what is answered, and what it makes the server tell.
type Row = (File, Message, Answer, &'static [Told]);

// Messages that come in turn, to a server of which two coordinators are known.
struct Case {
    name: &'static str,
    rows: &'static [Row],
    switched: bool,
}

static ALONE: Case = Case {
    name: "where nothing comes next, each drained is foreign",
    rows: &[
        (
            File::Neither,
            Message::Drained(0, 0),
            Answer::Ignored(Reason::Foreign),
            &[],
        ),
        (
            File::Neither,
            Message::Switched(0, 0, 0),
            Answer::Ignored(Reason::Foreign),
            &[],
        ),
        (File::Second, Message::Ended(0, 1), Answer::Skipped, &[]),
        (File::First, Message::Ended(0, 1), Answer::Done, &[]),
    ],
    switched: false,
};

static ONE_TOLD: Case = Case {
    name: "one of two has told, again and again",
    rows: &[
        (File::Neither, Message::Drained(0, 3), Answer::Done, &[]),
        (File::Neither, Message::Drained(0, 3), Answer::Done, &[]),
        (File::Neither, Message::Drained(0, 5), Answer::Done, &[]),
        (
            File::First,
            Message::Drained(2, 0),
            Answer::Ignored(Reason::Foreign),
            &[],
        ),
        (
            File::Second,
            Message::Switched(0, 3, 0),
            Answer::Ignored(Reason::Foreign),
            &[],
        ),
        (File::Second, Message::Ended(0, 9), Answer::Skipped, &[]),
        (
            File::First,
            Message::Stop,
            Answer::Ignored(Reason::Foreign),
            &[],
        ),
    ],
    switched: false,
};

static BOTH_TOLD: Case = Case {
    name: "both have told: the first of each counts, and who tells later is answered alone",
    rows: &[
        (File::Neither, Message::Drained(1, 4), Answer::Done, &[]),
        (File::Neither, Message::Drained(1, 7), Answer::Done, &[]),
        (
            File::Neither,
            Message::Drained(0, 0),
            Answer::Done,
            &[Told::Switched(0, 0, 0), Told::Switched(1, 1, 4)],
        ),
        (
            File::Neither,
            Message::Drained(1, 7),
            Answer::Done,
            &[Told::Switched(1, 1, 7)],
        ),
        (
            File::Neither,
            Message::Drained(2, 0),
            Answer::Ignored(Reason::Foreign),
            &[],
        ),
        (File::First, Message::Ended(0, 9), Answer::Skipped, &[]),
        (File::Second, Message::Ended(0, 9), Answer::Done, &[]),
        (File::First, Message::Stop, Answer::Skipped, &[]),
    ],
    switched: true,
};

fn answer_of(answer: Result<GrownHandled, NodeFault>) -> Answer {
    match answer {
        Ok(GrownHandled::Done) => Answer::Done,
        Ok(GrownHandled::Skipped) => Answer::Skipped,
        Ok(GrownHandled::Ignored(reason)) => Answer::Ignored(reason),
        Ok(GrownHandled::Gone) => Answer::Other,
        Err(_) => Answer::Failed,
    }
}

fn comes(
    plan: &Plan,
    next: Option<&Next>,
    server: &mut GrownServer,
    row: &Row,
    outbox: &mut Outbox,
) -> Answer
    requires fits { GrownServerFits plan.now (option_copied next) server.old }
    ensures { GrownServerFits plan.now (option_copied next.entry) server.new }
{
    let msg = message_of(row.1);
    answer_of(server.handle(plan, next, row.0, &msg, outbox))
}

// A call that wants memory leaves the outbox, and is made again.
fn comes_at_last(
    rt: &impl Abort,
    plan: &Plan,
    next: Option<&Next>,
    server: &mut GrownServer,
    row: &Row,
    outbox: &mut Outbox,
) -> Answer
    requires fits { GrownServerFits plan.now (option_copied next) server.old }
    ensures { GrownServerFits plan.now (option_copied next.entry) server.new }
{
    let answer = comes(plan, next, server, row, outbox);
    if answer != Answer::Failed {
        return answer;
    }
    assert!(rt; outbox.messages().is_empty());
    comes(plan, next, server, row, outbox)
}

fn takes(
    rt: &impl Abort,
    plan: &Plan,
    next: Option<&Next>,
    server: &mut GrownServer,
    name: &str,
    row: &Row,
    outbox: &mut Outbox,
)
    requires fits { GrownServerFits plan.now (option_copied next) server.old }
    ensures { GrownServerFits plan.now (option_copied next.entry) server.new }
{
    let answer = comes_at_last(rt, plan, next, server, row, outbox);
    holds(rt, name, answer == row.2);
    tells(rt, outbox, row.3, name);
}

fn serves(
    rt: &impl Abort,
    alloc: Global,
    plan: &Plan,
    next: Option<&Next>,
    server: &mut GrownServer,
    case: &Case,
)
    requires fits { GrownServerFits plan.now (option_copied next) server.old }
    ensures { GrownServerFits plan.now (option_copied next.entry) server.new }
{
    for row in case.rows {
        takes(
            rt,
            plan,
            next,
            server,
            case.name,
            row,
            &mut Outbox::new(alloc),
        );
    }
    holds(rt, case.name, server.switched() == case.switched);
}

fn serves_first(rt: &impl Abort, alloc: Global, plan: &Plan, next: Option<&Next>, case: &Case) {
    let mut server = GrownServer::new(alloc, plan, Shard(0)).expect(rt, "a server");
    serves(rt, alloc, plan, next, &mut server, case);
}

fn goes_over(rt: &impl Abort, alloc: Global, plan: &Plan, next: &Next) {
    serves_first(rt, alloc, plan, None, &ALONE);
    serves_first(rt, alloc, plan, Some(next), &ONE_TOLD);
    serves_first(rt, alloc, plan, Some(next), &BOTH_TOLD);
}

#[test]
fn servers_answer_and_tell(rt: HostRuntime) {
    let plan = plan_of(&rt, rt.alloc(), COUNTER);
    let next = next_of(&rt, rt.alloc(), 2);
    goes_over(&rt, rt.alloc(), &plan, &next);
}
