//! What the lines of a schedule ask for, and which line does not fit the plan.
ghost use Rattle.std.specs.Prelude.{◌≡◌, IfOk, IfErr, Some};
ghost use Rattle.std.specs.List.{AllByRecursion};
ghost use Rattle.std.specs.Option.{option_copied};
ghost use Rattle.roc_program.specs.LookUps.{procedure_named};
ghost use Rattle.roc_sched.specs.Each.{each};
ghost use Rattle.roc_sched.specs.Schedule.{item_of};
ghost use Rattle.roc_replay.specs.BoundLine.{coords_of, played_forms, kept_record, stop_during, submission_of, wanted_by, asked_by, IsScheduleOf, WantedFits};
ghost use Rattle.roc_replay.specs.Inner.Reading.{GivesAtLine, IsUnfitBy, IsBlamed};

use crate::{BoundLine, Wanted};
use roc_base::Nums;
use roc_epoch::{Next, last_plan};
use roc_plan::Plan;
use roc_sched::laws::lines_fit;
use roc_sched::{Act, Forms, Line, TextFault, What, parse_schedule};
use roc_sequence::Sequence;
use roc_world::{Event, Kept};
use std::alloc::Global;

// How many coordinators there are for the next file, where there is one.
fn coords_of(next: Option<&Next>) -> Option<u16>
    ensures { result ≡ coords_of (option_copied next.entry) }
{
    match next {
        Some(next) => Some(next.coords),
        None => None,
    }
}

// The forms of lines that are played: those of any schedule, stops of servers, and drains of coordinators where there is a next file.
fn played_forms(next: Option<&Next>) -> Forms
    ensures { result ≡ played_forms (option_copied next.entry) }
{
    Forms {
        stops: true,
        coords: coords_of(next),
    }
}

// A submission of the procedure of this name, with its count of arguments, on the line of a number.
fn submission_of(
    plan: &Plan,
    line: u32,
    coord: u16,
    name: &[u8],
    args: &Nums,
) -> Result<Wanted, TextFault>
    ensures { GivesAtLine line result (submission_of plan.now.program coord args.now (procedure_named plan.now.program name.now)) }
{
    match plan.procedure_named(name) {
        Some(proc) => {
            if args.len() == usize::from(plan.args(proc)) {
                let args = args.clone()?;
                Ok(Wanted::Event(Event::Submit { coord, proc, args }))
            } else {
                Err(TextFault::At {
                    line,
                    what: What::Arguments,
                })
            }
        }
        None => Err(TextFault::At {
            line,
            what: What::Procedure,
        }),
    }
}

// What is kept of a message at which a server stops: its record and so many of the messages that come of it, or nothing.
fn kept_record(many: Option<u32>) -> Kept
    ensures { result ≡ kept_record many }
{
    match many {
        Some(many) => Kept::Sent(many),
        None => Kept::Lost,
    }
}

// The message at which a server stops, and what is kept of it.
fn stop_during(during: &Option<(u64, Option<u32>)>) -> Option<(u64, Kept)>
    ensures { result ≡ stop_during during.now }
{
    match during {
        Some((message, many)) => Some((*message, kept_record(*many))),
        None => None,
    }
}

// What an act asks for, on the line of a number.
fn wanted_by(plan: &Plan, line: u32, act: &Act) -> Result<Wanted, TextFault>
    ensures { GivesAtLine line result (wanted_by plan.now.program act.now) }
{
    match act {
        Act::Submit { coord, name, args } => {
            submission_of(plan, line, *coord, name.as_bytes(), args)
        }
        Act::Deliver(message) => Ok(Wanted::Event(Event::Deliver(*message))),
        Act::Any(place) => Ok(Wanted::Any(*place)),
        Act::Tick(node) => Ok(Wanted::Event(Event::Tick(*node))),
        Act::Stop { shard, during } => Ok(Wanted::Event(Event::Stop {
            shard: *shard,
            during: stop_during(during),
        })),
        Act::Drain(coord) => Ok(Wanted::Event(Event::Drain(*coord))),
    }
}

// What a line asks for, with its number.
fn asked_by(plan: &Plan, line: &Line) -> Result<BoundLine, TextFault>
    ensures { GivesAtLine line.now.number result (asked_by plan.now.program line.now) }
{
    let number = line.number;
    match wanted_by(plan, number, &line.act) {
        Ok(wanted) => Ok(BoundLine { number, wanted }),
        Err(fault) => Err(fault),
    }
}

// What lines ask for, in order.
fn all_asked(alloc: Global, plan: &Plan, lines: &[Line]) -> Result<Sequence<BoundLine>, TextFault>
    ensures asks { IfOk result (λ asked. each (λ line. item_of (asked_by plan.now.program line)) lines.now ≡ Some asked) }
    ensures fault { IfErr result (IsUnfitBy plan.now.program lines.now) }
{
    let mut asked = Sequence::new(alloc);
    for line in lines {
        match asked_by(plan, line) {
            Ok(one) => asked.push(one)?,
            Err(fault) => return Err(fault),
        }
    }
    Ok(asked)
}

/// What the lines of a schedule ask for, by the last of the files.
///
/// Of bytes that are no schedule the first fault is named, and of a schedule the first line that does not fit that file's plan.
pub fn parse_asked(
    alloc: Global,
    plan: &Plan,
    next: Option<&Next>,
    text: &[u8],
) -> Result<Sequence<BoundLine>, TextFault>
    ensures found { IfOk result (λ asked. IsScheduleOf plan.now (option_copied next.entry) text.now asked) }
    ensures fits { IfOk result (λ asked. AllByRecursion (λ one. WantedFits plan.now (option_copied next.entry) one.wanted) asked) }
    ensures fault { IfErr result (IsBlamed plan.now (option_copied next.entry) text.now) }
{
    lines_fit();
    let last = last_plan(plan, next);
    let lines = match parse_schedule(alloc, text, last.workload().shards(), played_forms(next)) {
        Ok(lines) => lines,
        Err(fault) => return Err(fault),
    };
    match all_asked(alloc, last, &lines) {
        Ok(asked) => Ok(asked),
        Err(fault) => Err(fault),
    }
}
