//! Events, and what comes of them in a run.
ghost use Rattle.std.specs.Prelude.{◌≡◌};
ghost use Rattle.std.specs.List.{AllByRecursion};
ghost use Rattle.roc_coord.specs.Fits.{CoordFits};
ghost use Rattle.roc_server.specs.Ahead.{ServingFits};

use crate::again::{coordinate, serve, submit, tick_coord, tick_server};
use crate::first::Run;
use roc_base::{Node, Nums, TxnId};
use roc_coord::{Coord, SubmitFault};
use roc_msg::{Msg, Outbox};
use roc_plan::Plan;
use roc_server::Server;
use std::mem;
use std::process::Abort;

/// What happens.
#[derive(Clone, Copy)]
pub(crate) enum Event {
    /// A transaction of the first procedure is submitted, and accepted.
    Submit(u16, &'static [i64]),
    /// It is refused, since too many are unanswered.
    Busy(u16, &'static [i64]),
    /// A view, of the second procedure, is submitted, and accepted.
    Look(u16),
    /// The messages from a number to another are delivered, in order.
    Deliver(usize, usize),
    Tick(Node),
}

fn serve_at(
    rt: &impl Abort,
    plan: &Plan,
    servers: &mut Vec<Server>,
    at: usize,
    msg: &Msg,
    outbox: &mut Outbox,
)
    requires fits { AllByRecursion (ServingFits plan.now) servers.old.items }
    ensures { AllByRecursion (ServingFits plan.now) servers.new.items }
{
    assert!(rt; at < servers.len());
    serve(rt, plan, &mut servers[at], msg, outbox);
}

fn coordinate_at(
    rt: &impl Abort,
    plan: &Plan,
    coords: &mut Vec<Coord>,
    at: usize,
    msg: &Msg,
    outbox: &mut Outbox,
) -> Option<(TxnId, Nums)>
    requires fits { AllByRecursion (CoordFits plan.now) coords.old.items }
    ensures { AllByRecursion (CoordFits plan.now) coords.new.items }
{
    assert!(rt; at < coords.len());
    coordinate(rt, plan, &mut coords[at], msg, outbox)
}

// Submits a call, which is accepted, or refused where too many are unanswered.
fn submit_at(
    rt: &impl Abort,
    plan: &Plan,
    coords: &mut Vec<Coord>,
    at: usize,
    proc: u16,
    args: &[i64],
    busy: bool,
    outbox: &mut Outbox,
)
    requires fits { AllByRecursion (CoordFits plan.now) coords.old.items }
    ensures { AllByRecursion (CoordFits plan.now) coords.new.items }
{
    assert!(rt; at < coords.len());
    match submit(rt, plan, &mut coords[at], proc, args, outbox) {
        Ok(_) => assert!(rt; !busy),
        Err(fault) => assert!(rt; busy && fault == SubmitFault::Busy),
    }
}

fn tick_server_at(
    rt: &impl Abort,
    plan: &Plan,
    servers: &mut Vec<Server>,
    at: usize,
    outbox: &mut Outbox,
)
    requires fits { AllByRecursion (ServingFits plan.now) servers.old.items }
    ensures { AllByRecursion (ServingFits plan.now) servers.new.items }
{
    assert!(rt; at < servers.len());
    tick_server(rt, plan, &mut servers[at], outbox);
}

fn tick_coord_at(
    rt: &impl Abort,
    plan: &Plan,
    coords: &mut Vec<Coord>,
    at: usize,
    outbox: &mut Outbox,
)
    requires fits { AllByRecursion (CoordFits plan.now) coords.old.items }
    ensures { AllByRecursion (CoordFits plan.now) coords.new.items }
{
    assert!(rt; at < coords.len());
    tick_coord(rt, plan, &mut coords[at], outbox);
}

// Adds the transactions that were not decided before.
fn note_decided(rt: &impl Abort, order: &mut Vec<TxnId>, decided: &[TxnId]) {
    for id in decided {
        if !order.contains(id) {
            order.push(*id).expect(rt, "room");
        }
    }
}

/// Takes what the nodes sent and decided.
pub(crate) fn post(rt: &impl Abort, run: &mut Run)
    ensures servers { run.new.servers ≡ run.old.servers }
    ensures coords { run.new.coords ≡ run.old.coords }
{
    let outbox = mem::replace(&mut run.outbox, Outbox::new(run.alloc));
    let (mut messages, decided) = outbox.into_parts();
    run.sent.append(&mut messages).expect(rt, "room");
    note_decided(rt, &mut run.order, &decided);
}

fn note_reply(rt: &impl Abort, replies: &mut Vec<(TxnId, Nums)>, reply: Option<(TxnId, Nums)>) {
    if let Some(reply) = reply {
        replies.push(reply).expect(rt, "room");
    }
}

fn deliver(rt: &impl Abort, plan: &Plan, run: &mut Run, number: usize)
    requires servers { AllByRecursion (ServingFits plan.now) run.old.servers.items }
    requires coords { AllByRecursion (CoordFits plan.now) run.old.coords.items }
    ensures servers { AllByRecursion (ServingFits plan.now) run.new.servers.items }
    ensures coords { AllByRecursion (CoordFits plan.now) run.new.coords.items }
{
    if number > run.sent.len() {
        post(rt, run);
    }
    assert!(rt; 0 < number);
    assert!(rt; number <= run.sent.len());
    let sent = &run.sent[number - 1];
    let (msg, outbox) = (&sent.msg, &mut run.outbox);
    match sent.to {
        Node::Server(shard) => {
            serve_at(
                rt,
                plan,
                &mut run.servers,
                usize::from(shard.0),
                msg,
                outbox,
            );
        }
        Node::Coord(coord) => {
            let reply = coordinate_at(rt, plan, &mut run.coords, usize::from(coord), msg, outbox);
            note_reply(rt, &mut run.replies, reply);
        }
    }
}

fn deliver_all(rt: &impl Abort, plan: &Plan, run: &mut Run, first: usize, last: usize)
    requires servers { AllByRecursion (ServingFits plan.now) run.old.servers.items }
    requires coords { AllByRecursion (CoordFits plan.now) run.old.coords.items }
    ensures servers { AllByRecursion (ServingFits plan.now) run.new.servers.items }
    ensures coords { AllByRecursion (CoordFits plan.now) run.new.coords.items }
{
    for number in first..=last {
        deliver(rt, plan, run, number);
    }
}

fn tick(rt: &impl Abort, plan: &Plan, run: &mut Run, node: Node)
    requires servers { AllByRecursion (ServingFits plan.now) run.old.servers.items }
    requires coords { AllByRecursion (CoordFits plan.now) run.old.coords.items }
    ensures servers { AllByRecursion (ServingFits plan.now) run.new.servers.items }
    ensures coords { AllByRecursion (CoordFits plan.now) run.new.coords.items }
{
    let outbox = &mut run.outbox;
    match node {
        Node::Server(shard) => {
            tick_server_at(rt, plan, &mut run.servers, usize::from(shard.0), outbox);
        }
        Node::Coord(coord) => {
            tick_coord_at(rt, plan, &mut run.coords, usize::from(coord), outbox);
        }
    }
}

fn happen(rt: &impl Abort, plan: &Plan, run: &mut Run, event: Event)
    requires servers { AllByRecursion (ServingFits plan.now) run.old.servers.items }
    requires coords { AllByRecursion (CoordFits plan.now) run.old.coords.items }
    ensures servers { AllByRecursion (ServingFits plan.now) run.new.servers.items }
    ensures coords { AllByRecursion (CoordFits plan.now) run.new.coords.items }
{
    match event {
        Event::Submit(coord, args) => {
            let (coords, outbox) = (&mut run.coords, &mut run.outbox);
            submit_at(rt, plan, coords, usize::from(coord), 0, args, false, outbox);
        }
        Event::Look(coord) => {
            let (coords, outbox) = (&mut run.coords, &mut run.outbox);
            submit_at(rt, plan, coords, usize::from(coord), 1, &[], false, outbox);
        }
        Event::Busy(coord, args) => {
            let (coords, outbox) = (&mut run.coords, &mut run.outbox);
            submit_at(rt, plan, coords, usize::from(coord), 0, args, true, outbox);
        }
        Event::Deliver(first, last) => deliver_all(rt, plan, run, first, last),
        Event::Tick(node) => tick(rt, plan, run, node),
    }
}

/// Events happen in turn.
pub(crate) fn happen_all(rt: &impl Abort, plan: &Plan, run: &mut Run, events: &[Event])
    requires servers { AllByRecursion (ServingFits plan.now) run.old.servers.items }
    requires coords { AllByRecursion (CoordFits plan.now) run.old.coords.items }
{
    for event in events {
        happen(rt, plan, run, *event);
    }
}
