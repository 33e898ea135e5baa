//! The lines of a schedule, one after another.
ghost use Rattle.std.specs.Prelude.{◌≡◌, ℕ, ◌≤◌, List, length, Some, IfOk, OnOk, false};
ghost use Rattle.std.specs.List.{AllByRecursion};
ghost use Rattle.std.specs.Option.{option_copied};
ghost use Rattle.roc_io.specs.Cause.{HasCause};
ghost use Rattle.roc_plan.specs.Accepted.{IsAccepted};
ghost use Rattle.roc_epoch.specs.Files.{IsNextOf};
ghost use Rattle.roc_growth.specs.Fits.{FitsGrown};
ghost use Rattle.roc_growth.specs.World.{first_grown_world};
ghost use Rattle.roc_growth.specs.Run.{AreCoordsOf, IsEventOf};
ghost use Rattle.roc_growth.specs.Quiet.{messages_of};
ghost use Rattle.roc_replay.specs.BoundLine.{IsScheduleOf, WantedFits, coordinators, chosen, event_in};
ghost use Rattle.roc_replay.specs.Inner.Closed.{IsClosed, ClosesReportInPiece, is_sent_to, asks_unsent, wants_unsent};
ghost use Rattle.roc_replay.specs.Ended.{is_sink_fault};
ghost use Rattle.roc_replay.specs.Inner.Ends.{IsEnd};
ghost use Rattle.roc_replay.specs.Pieces.{GoesOutInPieces};
ghost use Rattle.roc_replay.specs.Played.{IsPlayedLine};
ghost use Rattle.roc_replay.specs.Report.{first_lines, busy_in};

use crate::closing::last_lines;
use crate::laws::{files_are_told_apart, lines_name_parts, report_explains_itself};
use crate::lines::{event_text, nothing_text};
use crate::{BoundLine, Ended, Wanted};
use roc_base::{NoMemory, Node, Shard};
use roc_epoch::{Next, last_plan};
use roc_io::{Sink, Written};
use roc_msg::Envelope;
use roc_plan::Plan;
use roc_program::Workload;
use roc_sched::What;
use roc_world::{Event, Seen, World};
use std::alloc::Global;

// How many coordinators there are.
fn coordinators(next: Option<&Next>) -> u16
    ensures count { result ≡ coordinators (option_copied next.entry) }
    ensures for_next { AreCoordsOf (option_copied next.entry) result }
{
    match next {
        Some(next) => next.coords,
        None => 16,
    }
}

// Each plan is accepted. It does nothing.
fn plans_are_accepted(plan: &Plan)
    ensures { IsAccepted plan.now }
{
    let _workload = plan.workload();
}

/// Plays the lines of a schedule, one after another, from the first world on. The sink takes the
/// lines of each event in one piece, and the closing lines in one piece at the end.
pub fn play<S: Sink>(
    alloc: Global,
    plan: &Plan,
    next: Option<&Next>,
    lines: &[BoundLine],
    sink: &mut S,
) -> Ended
    requires next { IsNextOf plan.now (option_copied next) }
    requires fits { AllByRecursion (λ line. WantedFits plan.now (option_copied next) line.wanted) lines.now }
    ensures ends { (schedule : List ℕ) → IsScheduleOf plan.now (option_copied next.entry) schedule lines.now
        → IsEnd plan.now (option_copied next.entry) schedule result (S.taken sink.old) (S.taken sink.new) }
    ensures pieces { (schedule : List ℕ) → IsScheduleOf plan.now (option_copied next.entry) schedule lines.now
        → GoesOutInPieces plan.now (option_copied next.entry) schedule (S.pieces sink.old) (S.pieces sink.new) result }
    ensures sink { HasCause (is_sink_fault result) (S.faults sink.old) (S.faults sink.new) }
{
    let Ok(mut world) = World::new(alloc, plan, next, coordinators(next)) else {
        return Ended::NoMemory;
    };
    play_lines(alloc, plan, next, lines, &mut world, sink)
}

// The same, from the first world.
fn play_lines<S: Sink>(
    alloc: Global,
    plan: &Plan,
    next: Option<&Next>,
    lines: &[BoundLine],
    world: &mut World,
    sink: &mut S,
) -> Ended
    requires next { IsNextOf plan.now (option_copied next) }
    requires fits { AllByRecursion (λ line. WantedFits plan.now (option_copied next) line.wanted) lines.now }
    requires first { world.old ≡ first_grown_world plan.now (coordinators (option_copied next)) }
    requires world { FitsGrown plan.now (option_copied next) world.old }
    ensures ends { (schedule : List ℕ) → IsScheduleOf plan.now (option_copied next.entry) schedule lines.now
        → IsEnd plan.now (option_copied next.entry) schedule result (S.taken sink.old) (S.taken sink.new) }
    ensures pieces { (schedule : List ℕ) → IsScheduleOf plan.now (option_copied next.entry) schedule lines.now
        → GoesOutInPieces plan.now (option_copied next.entry) schedule (S.pieces sink.old) (S.pieces sink.new) result }
    ensures sink { HasCause (is_sink_fault result) (S.faults sink.old) (S.faults sink.new) }
{
    plans_are_accepted(plan);
    report_explains_itself();
    files_are_told_apart();
    lines_name_parts();
    let mut busy = 0;
    for line in lines {
        if is_unsent(&line.wanted, world.sent()) {
            return Ended::Text {
                line: line.number,
                what: What::Message,
            };
        }
        let Ok(played) = play_line(alloc, plan, next, world, &line.wanted) else {
            return Ended::NoMemory;
        };
        busy += played.busy;
        if let Written::Failed = sink.write(&played.text) {
            return Ended::SinkFault;
        }
    }
    close(alloc, last_plan(plan, next).workload(), world, busy, sink)
}

// Writes the closing lines.
fn close<S: Sink>(
    alloc: Global,
    workload: &Workload,
    world: &World,
    busy: u64,
    sink: &mut S,
) -> Ended
    ensures closed { IsClosed workload.now world.now busy result (S.taken sink.old) (S.taken sink.new) }
    ensures pieces { ClosesReportInPiece workload.now world.now result (S.pieces sink.old) (S.pieces sink.new) }
    ensures sink { HasCause (is_sink_fault result) (S.faults sink.old) (S.faults sink.new) }
{
    let Ok(closing) = last_lines(alloc, workload, world, busy) else {
        return Ended::NoMemory;
    };
    match sink.write(&closing.text) {
        Written::Ok => Ended::Done(closing.summary),
        Written::Failed => Ended::SinkFault,
    }
}

// Whether a line asks for a message that is not there, where these were sent.
fn is_unsent(wanted: &Wanted, sent: &[Envelope]) -> bool
    ensures { result ≡ wants_unsent wanted.now sent.now }
{
    match wanted {
        Wanted::Event(event) => asks_unsent(event, sent),
        Wanted::Any(_) => false,
    }
}

// Whether an event is the delivery of a message that was not sent, or a stop at one that was not sent to the server.
fn asks_unsent(event: &Event, sent: &[Envelope]) -> bool
    ensures { result ≡ asks_unsent event.now sent.now }
{
    match event {
        Event::Deliver(number) => *number > sent.len() as u64,
        Event::Stop { shard, during } => match during {
            Some((number, _)) => !is_sent_to(*shard, *number, sent),
            None => false,
        },
        Event::Submit { .. } | Event::Tick(_) | Event::Drain(_) => false,
    }
}

// Whether the message of a number was sent to the server of a shard.
fn is_sent_to(shard: Shard, number: u64, sent: &[Envelope]) -> bool
    ensures { result ≡ is_sent_to shard number sent.now }
{
    if number == 0 {
        return false;
    }
    match sent.get((number - 1) as usize) {
        Some(message) => match message.to {
            Node::Server(to) => to == shard,
            Node::Coord(_) => false,
        },
        None => false,
    }
}

// What one line of a schedule adds to a report.
#[derive(Drop)]
struct Played {
    text: Vec<u8>,
    busy: u64,
}

// Plays one line: what it asks for happens, and the lines that tell it are given as text.
fn play_line(
    alloc: Global,
    plan: &Plan,
    next: Option<&Next>,
    world: &mut World,
    wanted: &Wanted,
) -> Result<Played, NoMemory>
    requires next { IsNextOf plan.now (option_copied next) }
    requires world { FitsGrown plan.now (option_copied next) world.old }
    requires coords { length world.old.coords ≡ coordinators (option_copied next) }
    requires fits { WantedFits plan.now (option_copied next) wanted.now }
    requires sent { wants_unsent wanted.now (messages_of world.old.sent) ≡ false }
    ensures played { IfOk result (λ played. IsPlayedLine plan.now (option_copied next.entry) (event_in world.old wanted.now) world.old world.new played.text.items played.busy) }
    ensures fits { OnOk result (FitsGrown plan.now (option_copied next.entry) world.new) }
    ensures coords { OnOk result (length world.new.coords ≡ coordinators (option_copied next.entry)) }
    ensures few { IfOk result (λ played. played.busy ≤ 1) }
{
    match wanted {
        Wanted::Event(event) => play_event(alloc, plan, next, world, event),
        Wanted::Any(place) => play_any(alloc, plan, next, world, *place),
    }
}

// The delivery of the message at a place among those that were never delivered, counted round, if there are any.
fn chosen(place: u32, undelivered: &[u64]) -> Option<Event>
    ensures { result ≡ chosen place undelivered.now }
{
    let count = undelivered.len();
    if count == 0 {
        return None;
    }
    Some(Event::Deliver(undelivered[place as usize % count]))
}

// Delivers the message at a place among those that were never delivered, counted round. Where there is none, nothing happens.
fn play_any(
    alloc: Global,
    plan: &Plan,
    next: Option<&Next>,
    world: &mut World,
    place: u32,
) -> Result<Played, NoMemory>
    requires next { IsNextOf plan.now (option_copied next) }
    requires fits { FitsGrown plan.now (option_copied next) world.old }
    ensures played { IfOk result (λ played. IsPlayedLine plan.now (option_copied next.entry) (chosen place world.old.undelivered) world.old world.new played.text.items played.busy) }
    ensures fits { OnOk result (FitsGrown plan.now (option_copied next.entry) world.new) }
    ensures coords { OnOk result (length world.new.coords ≡ length world.old.coords) }
    ensures few { IfOk result (λ played. played.busy ≤ 1) }
{
    match chosen(place, world.undelivered()) {
        Some(event) => play_event(alloc, plan, next, world, &event),
        None => {
            let text = nothing_text(alloc, last_plan(plan, next).workload())?;
            Ok(Played { text, busy: 0 })
        }
    }
}

// Plays one event: it happens, and the lines that tell it are given as text.
fn play_event(
    alloc: Global,
    plan: &Plan,
    next: Option<&Next>,
    world: &mut World,
    event: &Event,
) -> Result<Played, NoMemory>
    requires next { IsNextOf plan.now (option_copied next) }
    requires fits { FitsGrown plan.now (option_copied next) world.old }
    requires event { IsEventOf plan.now (option_copied next) world.old event.now }
    ensures played { IfOk result (λ played. IsPlayedLine plan.now (option_copied next.entry) (Some event.now) world.old world.new played.text.items played.busy) }
    ensures fits { OnOk result (FitsGrown plan.now (option_copied next.entry) world.new) }
    ensures coords { OnOk result (length world.new.coords ≡ length world.old.coords) }
    ensures few { IfOk result (λ played. played.busy ≤ 1) }
{
    let before = world.sent().len();
    let seen = world.step(plan, next, event)?;
    let workload = last_plan(plan, next).workload();
    let text = event_text(alloc, workload, event, &seen, world.sent(), before)?;
    Ok(Played {
        text,
        busy: busy_lines(event, &seen),
    })
}

// How many lines say that a submission was refused as busy.
fn busy_lines(event: &Event, seen: &Seen) -> u64
    ensures lines { result ≡ busy_in (first_lines (Some event.now) seen.now) }
    ensures few { result ≤ 1 }
{
    match event {
        Event::Submit { .. } => match seen {
            Seen::Busy => 1,
            _ => 0,
        },
        Event::Deliver(_) | Event::Tick(_) | Event::Stop { .. } | Event::Drain(_) => 0,
    }
}
