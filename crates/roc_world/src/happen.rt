//! What an event does, over the fields of a world.
ghost use Rattle.std.specs.Prelude.{◌≡◌, ◌<◌, ◌≤◌, Some, length, IfOk, OnOk};
ghost use Rattle.std.specs.Option.{option_copied};
ghost use Rattle.roc_law_protocol.specs.declared.event.Kept.TheVariants as kept;
ghost use Rattle.roc_epoch.specs.Files.{IsNextOf};
ghost use Rattle.roc_growth.specs.declared.event.Event.TheVariants as event;
ghost use Rattle.roc_growth.specs.declared.event.Seen.TheVariants as seen;
ghost use Rattle.roc_growth.specs.Fits.{FitsGrown};
ghost use Rattle.roc_growth.specs.Run.{IsEventOf, IsSentIn};
ghost use Rattle.roc_world.specs.Inner.Parts.{world_of, Leads, StartsAgain, TakesCut};

use crate::nodes::{
    drain_at, handle_at_coord, handle_at_server, restart_at_server, submit_at, tick_coord,
    tick_server,
};
use crate::notes::{
    note_at_coord, note_at_server, note_cut, note_drain, note_submitted, note_tick,
};
use crate::parts::Parts;
use crate::{Event, Kept, Seen};
use roc_base::{NoMemory, Node, Nums, Shard};
use roc_coord::SubmitFault;
use roc_epoch::Next;
use roc_grown::GrownFault;
use roc_growth::worlds::events_have_outcomes;
use roc_msg::Outbox;
use roc_plan::Plan;
use std::alloc::Global;

/// An event happens. `NoMemory` may leave a part of it.
pub(crate) fn happen(
    alloc: Global,
    plan: &Plan,
    next: Option<&Next>,
    parts: &mut Parts,
    event: &Event,
) -> Result<Seen, NoMemory>
    requires next { IsNextOf plan.now (option_copied next) }
    requires fits { FitsGrown plan.now (option_copied next) (world_of parts.old) }
    requires event { IsEventOf plan.now (option_copied next) (world_of parts.old) event.now }
    ensures { IfOk result (λ seen. Leads plan.now (option_copied next.entry) (world_of parts.old) event.now seen (world_of parts.new)) }
{
    match event {
        Event::Submit { coord, proc, args } => {
            submit(alloc, plan, next, parts, *coord, *proc, args)
        }
        Event::Deliver(number) => deliver(alloc, plan, next, parts, *number),
        Event::Tick(node) => tick(alloc, plan, next, parts, *node),
        Event::Stop { shard, during } => stop(alloc, plan, next, parts, *shard, during),
        Event::Drain(coord) => drain(alloc, plan, next, parts, *coord),
    }
}

// A transaction or a view is submitted. It has as many arguments as the last file's procedure, so that a plan that has this one takes no other number of them.
fn submit(
    alloc: Global,
    plan: &Plan,
    next: Option<&Next>,
    parts: &mut Parts,
    coord: u16,
    proc: u16,
    args: &Nums,
) -> Result<Seen, NoMemory>
    requires next { IsNextOf plan.now (option_copied next) }
    requires fits { FitsGrown plan.now (option_copied next) (world_of parts.old) }
    requires event { IsEventOf plan.now (option_copied next) (world_of parts.old) (event.Submit coord proc args.now) }
    ensures { IfOk result (λ seen. Leads plan.now (option_copied next.entry) (world_of parts.old) (event.Submit coord proc args.now) seen (world_of parts.new)) }
{
    events_have_outcomes();
    let mut outbox = Outbox::new(alloc);
    match submit_at(
        plan,
        next,
        &mut parts.coords,
        coord,
        proc,
        args.as_slice(),
        &mut outbox,
    ) {
        Ok((id, switched)) => note_submitted(parts, switched, coord, id, proc, args, outbox),
        Err(GrownFault::Draining) => Ok(Seen::Draining),
        Err(GrownFault::Plain(SubmitFault::NoProc)) => Ok(Seen::NoProc),
        Err(GrownFault::Plain(SubmitFault::Spent)) => Ok(Seen::Spent),
        Err(GrownFault::Plain(SubmitFault::Busy)) => Ok(Seen::Busy),
        Err(GrownFault::Plain(SubmitFault::NoMemory)) => Err(NoMemory),
        Err(GrownFault::Plain(SubmitFault::Args)) => unreachable!(),
    }
}

// A message comes to its receiver.
fn deliver(
    alloc: Global,
    plan: &Plan,
    next: Option<&Next>,
    parts: &mut Parts,
    number: u64,
) -> Result<Seen, NoMemory>
    requires fits { FitsGrown plan.now (option_copied next) (world_of parts.old) }
    requires event { IsEventOf plan.now (option_copied next) (world_of parts.old) (event.Deliver number) }
    ensures { IfOk result (λ seen. Leads plan.now (option_copied next.entry) (world_of parts.old) (event.Deliver number) seen (world_of parts.new)) }
{
    let mut outbox = Outbox::new(alloc);
    let file = parts.network.file(number);
    let sent = parts.network.message(number);
    match sent.to {
        Node::Server(shard) => {
            let servers = &mut parts.servers;
            match handle_at_server(plan, next, servers, shard, file, &sent.msg, &mut outbox) {
                Ok((handled, switched)) => {
                    parts.network.note_delivery(number);
                    note_at_server(parts, switched, shard, handled, outbox)
                }
                Err(fault) => Err(fault),
            }
        }
        Node::Coord(coord) => {
            let coords = &mut parts.coords;
            match handle_at_coord(plan, next, coords, coord, file, &sent.msg, &mut outbox) {
                Ok((answer, switched)) => {
                    parts.network.note_delivery(number);
                    note_at_coord(parts, switched, coord, answer, outbox)
                }
                Err(fault) => Err(fault),
            }
        }
    }
}

// Time has passed for a node.
fn tick(
    alloc: Global,
    plan: &Plan,
    next: Option<&Next>,
    parts: &mut Parts,
    node: Node,
) -> Result<Seen, NoMemory>
    requires fits { FitsGrown plan.now (option_copied next) (world_of parts.old) }
    requires event { IsEventOf plan.now (option_copied next) (world_of parts.old) (event.Tick node) }
    ensures { IfOk result (λ seen. Leads plan.now (option_copied next.entry) (world_of parts.old) (event.Tick node) seen (world_of parts.new)) }
{
    let mut outbox = Outbox::new(alloc);
    match node {
        Node::Server(shard) => match tick_server(&mut parts.servers, shard, &mut outbox) {
            Ok(switched) => note_tick(parts, switched, Node::Server(shard), outbox),
            Err(fault) => Err(fault),
        },
        Node::Coord(coord) => {
            match tick_coord(plan, next, &mut parts.coords, coord, &mut outbox) {
                Ok(switched) => note_tick(parts, switched, Node::Coord(coord), outbox),
                Err(fault) => Err(fault),
            }
        }
    }
}

// A coordinator is told to drain.
fn drain(
    alloc: Global,
    plan: &Plan,
    next: Option<&Next>,
    parts: &mut Parts,
    coord: u16,
) -> Result<Seen, NoMemory>
    requires event { IsEventOf plan.now (option_copied next) (world_of parts.old) (event.Drain coord) }
    ensures { IfOk result (λ seen. Leads plan.now (option_copied next.entry) (world_of parts.old) (event.Drain coord) seen (world_of parts.new)) }
{
    let mut outbox = Outbox::new(alloc);
    match drain_at(plan, &mut parts.coords, coord, &mut outbox) {
        Ok(switched) => note_drain(parts, switched, coord, outbox),
        Err(fault) => Err(fault),
    }
}

// The server of a shard stops, at a message or at none, and starts again.
fn stop(
    alloc: Global,
    plan: &Plan,
    next: Option<&Next>,
    parts: &mut Parts,
    shard: Shard,
    during: &Option<(u64, Kept)>,
) -> Result<Seen, NoMemory>
    requires fits { FitsGrown plan.now (option_copied next) (world_of parts.old) }
    requires event { IsEventOf plan.now (option_copied next) (world_of parts.old) (event.Stop shard during.now) }
    ensures { IfOk result (λ seen. Leads plan.now (option_copied next.entry) (world_of parts.old) (event.Stop shard during.now) seen (world_of parts.new)) }
{
    match during {
        None => start_again(alloc, parts, shard),
        Some((number, kept)) => stop_at(alloc, plan, next, parts, shard, *number, kept),
    }
}

// The server of a shard stops at a message, which comes to it, and starts again.
fn stop_at(
    alloc: Global,
    plan: &Plan,
    next: Option<&Next>,
    parts: &mut Parts,
    shard: Shard,
    number: u64,
    kept: &Kept,
) -> Result<Seen, NoMemory>
    requires fits { FitsGrown plan.now (option_copied next) (world_of parts.old) }
    requires event { IsEventOf plan.now (option_copied next) (world_of parts.old) (event.Stop shard (Some (number, kept.now))) }
    ensures { IfOk result (λ seen. Leads plan.now (option_copied next.entry) (world_of parts.old) (event.Stop shard (Some (number, kept.now))) seen (world_of parts.new)) }
{
    match kept {
        Kept::Lost => {
            parts.network.note_delivery(number);
            start_again(alloc, parts, shard)
        }
        Kept::Sent(many) => match take_cut(alloc, plan, next, parts, shard, number, *many) {
            Ok(()) => start_again(alloc, parts, shard),
            Err(fault) => Err(fault),
        },
    }
}

// A message comes to a server, and of what it sends the first so many go into the network.
fn take_cut(
    alloc: Global,
    plan: &Plan,
    next: Option<&Next>,
    parts: &mut Parts,
    shard: Shard,
    number: u64,
    many: u32,
) -> Result<(), NoMemory>
    requires fits { FitsGrown plan.now (option_copied next) (world_of parts.old) }
    requires exists { shard.0 < length parts.old.servers.items }
    requires number { (0 < number) × (number ≤ length (world_of parts.old).sent) }
    requires there { IsSentIn (world_of parts.old) shard.0 (Some (number, kept.Sent many)) }
    ensures { OnOk result (TakesCut plan.now (option_copied next.entry) (world_of parts.old) shard number many (world_of parts.new)) }
{
    let mut outbox = Outbox::new(alloc);
    let file = parts.network.file(number);
    let sent = parts.network.message(number);
    let servers = &mut parts.servers;
    match handle_at_server(plan, next, servers, shard, file, &sent.msg, &mut outbox) {
        Ok((_, switched)) => {
            parts.network.note_delivery(number);
            note_cut(parts, switched, shard, many, outbox)
        }
        Err(fault) => Err(fault),
    }
}

// A server gives up the reads that it keeps, and ticks.
fn start_again(alloc: Global, parts: &mut Parts, shard: Shard) -> Result<Seen, NoMemory>
    requires exists { shard.0 < length parts.old.servers.items }
    ensures { IfOk result (λ what. (what ≡ seen.Done) × StartsAgain (world_of parts.old) shard (world_of parts.new)) }
{
    let mut outbox = Outbox::new(alloc);
    restart_at_server(&mut parts.servers, shard);
    match tick_server(&mut parts.servers, shard, &mut outbox) {
        Ok(switched) => note_tick(parts, switched, Node::Server(shard), outbox),
        Err(fault) => Err(fault),
    }
}
