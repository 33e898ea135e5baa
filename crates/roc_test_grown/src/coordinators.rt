//! What a coordinator makes of drains, submissions, ticks, and drained and switched messages, forged ones too.
ghost use Rattle.std.specs.Option.{option_copied};
ghost use Rattle.roc_grown.specs.Fits.{GrownCoordFits};

use crate::holds::holds;
use crate::messages::{Answer, COUNTER, Message, Told, message_of, next_of, plan_of, tells};
use roc_base::TxnId;
use roc_coord::SubmitFault;
use roc_epoch::{File, Next};
use roc_grown::{GrownAnswer, GrownCoord, GrownFault};
use roc_msg::{NodeFault, Outbox, Reason};
use roc_plan::Plan;
use std::alloc::Global;
use std::process::Abort;

// What happens.
#[derive(Clone, Copy)]
enum Event {
    Drain,
    // A procedure is submitted with the argument 1.
    Submit(u16),
    Tick,
    Came(File, Message),
}

// An event, what is answered, and what it makes the coordinator tell.
type Row = (Event, Answer, &'static [Told]);

// Coordinator 0 of one shard, drained at once.
static DRAINED: [Row; 18] = [
    (
        Event::Submit(1),
        Answer::Refused(GrownFault::Plain(SubmitFault::NoProc)),
        &[],
    ),
    (
        Event::Came(File::Neither, Message::Switched(0, 0, 0)),
        Answer::Ignored(Reason::Foreign),
        &[],
    ),
    (
        Event::Came(File::Neither, Message::Drained(0, 0)),
        Answer::Ignored(Reason::Foreign),
        &[],
    ),
    (
        Event::Came(File::Second, Message::Stop),
        Answer::Skipped,
        &[],
    ),
    (Event::Tick, Answer::Done, &[]),
    (Event::Drain, Answer::Done, &[Told::Drained(0, 0, 0)]),
    (Event::Drain, Answer::Done, &[]),
    (Event::Submit(0), Answer::Refused(GrownFault::Draining), &[]),
    (Event::Submit(9), Answer::Refused(GrownFault::Draining), &[]),
    (Event::Tick, Answer::Done, &[Told::Drained(0, 0, 0)]),
    (
        Event::Came(File::Neither, Message::Switched(0, 1, 0)),
        Answer::Ignored(Reason::Foreign),
        &[],
    ),
    (
        Event::Came(File::Neither, Message::Switched(1, 0, 0)),
        Answer::Ignored(Reason::Foreign),
        &[],
    ),
    (
        Event::Came(File::Neither, Message::Switched(0, 0, 1)),
        Answer::Ignored(Reason::Foreign),
        &[],
    ),
    (
        Event::Came(File::First, Message::Switched(0, 0, 0)),
        Answer::Done,
        &[],
    ),
    (
        Event::Came(File::Neither, Message::Switched(0, 0, 0)),
        Answer::Ignored(Reason::Stale),
        &[],
    ),
    (Event::Drain, Answer::Done, &[]),
    (
        Event::Came(File::First, Message::Stop),
        Answer::Skipped,
        &[],
    ),
    (Event::Submit(1), Answer::Submitted(0), &[Told::Other]),
];

fn submission_of(answer: Result<TxnId, GrownFault>) -> Answer {
    match answer {
        Err(GrownFault::Plain(SubmitFault::NoMemory)) => Answer::Failed,
        Ok(id) => Answer::Submitted(id.seq),
        Err(fault) => Answer::Refused(fault),
    }
}

fn answer_of(answer: &Result<GrownAnswer, NodeFault>) -> Answer {
    match answer {
        Ok(GrownAnswer::Done) => Answer::Done,
        Ok(GrownAnswer::Skipped) => Answer::Skipped,
        Ok(GrownAnswer::Ignored(reason)) => Answer::Ignored(*reason),
        Ok(_) => Answer::Other,
        Err(_) => Answer::Failed,
    }
}

fn done(answer: Result<(), NodeFault>) -> Answer {
    match answer {
        Ok(()) => Answer::Done,
        Err(_) => Answer::Failed,
    }
}

fn comes(
    plan: &Plan,
    next: Option<&Next>,
    coord: &mut GrownCoord,
    file: File,
    message: Message,
    outbox: &mut Outbox,
) -> Answer
    requires fits { GrownCoordFits plan.now (option_copied next) coord.old }
    ensures { GrownCoordFits plan.now (option_copied next.entry) coord.new }
{
    let msg = message_of(message);
    let answer = coord.handle(plan, next, file, &msg, outbox);
    answer_of(&answer)
}

fn happens(
    plan: &Plan,
    next: Option<&Next>,
    coord: &mut GrownCoord,
    event: Event,
    outbox: &mut Outbox,
) -> Answer
    requires fits { GrownCoordFits plan.now (option_copied next) coord.old }
    ensures { GrownCoordFits plan.now (option_copied next.entry) coord.new }
{
    match event {
        Event::Drain => done(coord.drain(plan, outbox)),
        Event::Submit(proc) => submission_of(coord.submit(plan, next, proc, &[1], outbox)),
        Event::Tick => done(coord.tick(plan, next, outbox)),
        Event::Came(file, message) => comes(plan, next, coord, file, message, outbox),
    }
}

// A call that wants memory leaves the outbox, and is made again.
fn happens_at_last(
    rt: &impl Abort,
    plan: &Plan,
    next: Option<&Next>,
    coord: &mut GrownCoord,
    event: Event,
    outbox: &mut Outbox,
) -> Answer
    requires fits { GrownCoordFits plan.now (option_copied next) coord.old }
    ensures { GrownCoordFits plan.now (option_copied next.entry) coord.new }
{
    let answer = happens(plan, next, coord, event, outbox);
    if answer != Answer::Failed {
        return answer;
    }
    assert!(rt; outbox.messages().is_empty());
    happens(plan, next, coord, event, outbox)
}

fn takes(
    rt: &impl Abort,
    plan: &Plan,
    next: Option<&Next>,
    coord: &mut GrownCoord,
    row: &Row,
    outbox: &mut Outbox,
)
    requires fits { GrownCoordFits plan.now (option_copied next) coord.old }
    ensures { GrownCoordFits plan.now (option_copied next.entry) coord.new }
{
    let answer = happens_at_last(rt, plan, next, coord, row.0, outbox);
    holds(rt, "what the coordinator answers", answer == row.1);
    tells(rt, outbox, row.2, "what the coordinator tells");
}

fn coordinates(
    rt: &impl Abort,
    alloc: Global,
    plan: &Plan,
    next: Option<&Next>,
    coord: &mut GrownCoord,
    rows: &[Row],
)
    requires fits { GrownCoordFits plan.now (option_copied next) coord.old }
    ensures { GrownCoordFits plan.now (option_copied next.entry) coord.new }
{
    for row in rows {
        takes(rt, plan, next, coord, row, &mut Outbox::new(alloc));
    }
    assert!(rt; coord.switched() && !coord.draining());
}

fn goes_over(rt: &impl Abort, alloc: Global, plan: &Plan, next: &Next) {
    let mut coord = GrownCoord::new(alloc, 0);
    coordinates(rt, alloc, plan, Some(next), &mut coord, &DRAINED);
}

#[test]
fn coordinators_answer_and_tell(rt: HostRuntime) {
    let plan = plan_of(&rt, rt.alloc(), COUNTER);
    let next = next_of(&rt, rt.alloc(), 1);
    goes_over(&rt, rt.alloc(), &plan, &next);
}
