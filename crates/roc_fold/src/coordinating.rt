//! The fold of a coordinator's log.
ghost use Rattle.std.specs.Prelude.{◌≡◌, ◌++◌, [], IfOk, OnOk, drop};
ghost use Rattle.roc_coord.specs.Fits.{CoordFits};
ghost use Rattle.roc_coord.specs.Tick.{tick_sends};
ghost use Rattle.roc_log.specs.declared.line.LogLine.TheVariants.{In, Submit};
ghost use Rattle.roc_wire.specs.Fits.{FitsHeader};
ghost use Rattle.roc_fold.specs.Fold.{nothing, coordinating};
ghost use Rattle.roc_log.specs.Sent.{outs_logged};
ghost use Rattle.roc_fold.specs.Sent.{answer_logged};
ghost use Rattle.roc_fold.specs.Inner.Steps.{EndsBy, GivesTo, StepsBy, folding_of};

use crate::due::{Gathered, brought, take_due, take_outbox};
use roc_base::{NoMemory, Nums};
use roc_coord::{Coord, Handled, SubmitFault};
use roc_log::LogLine;
use roc_msg::{Msg, Outbox};
use roc_plan::Plan;
use roc_wire::Header;
use std::alloc::Global;

// Adds the line of an answer, where there is one.
fn put_answer(due: &mut Vec<LogLine>, answer: Handled) -> Result<(), NoMemory>
    ensures { OnOk result (due.new.items ≡ due.old.items ++ answer_logged answer) }
{
    match answer {
        Handled::Answered { id, reply } => {
            due.push(LogLine::Answer { id, reply })?;
            Ok(())
        }
        Handled::Done => Ok(()),
        Handled::Ignored(_) => Ok(()),
    }
}

fn message(
    alloc: Global,
    plan: &Plan,
    header: &Header,
    coord: &mut Coord,
    msg: &Msg,
    gathered: &mut Gathered,
) -> Result<(), NoMemory>
    requires fits { CoordFits plan.now coord.old }
    requires header { FitsHeader header.now }
    ensures gives { OnOk result (GivesTo plan.now header.now (coordinating coord.old) msg.now gathered.old (coordinating coord.new) gathered.new) }
    ensures fits { CoordFits plan.now coord.new }
{
    let mut outbox = Outbox::new(alloc);
    let Ok(answer) = coord.handle(plan, msg, &mut outbox) else {
        return Err(NoMemory);
    };
    take_outbox(alloc, header, &outbox, gathered)?;
    put_answer(&mut gathered.due, answer)
}

fn tick(
    alloc: Global,
    plan: &Plan,
    header: &Header,
    coord: &mut Coord,
    gathered: &mut Gathered,
) -> Result<(), NoMemory>
    requires fits { CoordFits plan.now coord.old }
    requires header { FitsHeader header.now }
    ensures due { OnOk result (folding_of (coordinating coord.new) gathered.new
        ≡ record { core = coordinating coord.old; due = outs_logged header.now (tick_sends plan.now coord.old); decided = gathered.old.decided; ran = gathered.old.ran }) }
    ensures fits { CoordFits plan.now coord.new }
{
    let mut outbox = Outbox::new(alloc);
    if coord.tick(plan, &mut outbox).is_err() {
        return Err(NoMemory);
    }
    take_outbox(alloc, header, &outbox, gathered)
}

fn submission(
    alloc: Global,
    plan: &Plan,
    header: &Header,
    coord: &mut Coord,
    proc: u16,
    args: &Nums,
    gathered: &mut Gathered,
) -> Result<bool, NoMemory>
    requires fits { CoordFits plan.now coord.old }
    requires header { FitsHeader header.now }
    requires none { drop gathered.old.at gathered.old.due.items ≡ [] }
    ensures steps { IfOk result (StepsBy plan.now header.now (folding_of (coordinating coord.old) gathered.old) (Submit proc args.now) (folding_of (coordinating coord.new) gathered.new)) }
    ensures fits { CoordFits plan.now coord.new }
{
    let mut outbox = Outbox::new(alloc);
    match coord.submit(plan, proc, args.as_slice(), &mut outbox) {
        Ok(_) => {
            take_outbox(alloc, header, &outbox, gathered)?;
            Ok(true)
        }
        Err(SubmitFault::NoMemory) => Err(NoMemory),
        Err(_) => Ok(false),
    }
}

// Takes the bytes of a datagram, where they are one with the header's tag.
fn datagram(
    alloc: Global,
    plan: &Plan,
    header: &Header,
    coord: &mut Coord,
    bytes: &[u8],
    gathered: &mut Gathered,
) -> Result<bool, NoMemory>
    requires fits { CoordFits plan.now coord.old }
    requires header { FitsHeader header.now }
    requires none { drop gathered.old.at gathered.old.due.items ≡ [] }
    ensures steps { IfOk result (StepsBy plan.now header.now (folding_of (coordinating coord.old) gathered.old) (In bytes.now) (folding_of (coordinating coord.new) gathered.new)) }
    ensures fits { CoordFits plan.now coord.new }
{
    let Some(msg) = brought(alloc, header.tag, bytes)? else {
        return Ok(false);
    };
    message(alloc, plan, header, coord, &msg, gathered)?;
    Ok(true)
}

fn event(
    alloc: Global,
    plan: &Plan,
    header: &Header,
    coord: &mut Coord,
    gathered: &mut Gathered,
    line: &LogLine,
) -> Result<bool, NoMemory>
    requires fits { CoordFits plan.now coord.old }
    requires header { FitsHeader header.now }
    requires none { drop gathered.old.at gathered.old.due.items ≡ [] }
    ensures steps { IfOk result (StepsBy plan.now header.now (folding_of (coordinating coord.old) gathered.old) line.now (folding_of (coordinating coord.new) gathered.new)) }
    ensures fits { CoordFits plan.now coord.new }
{
    match line {
        LogLine::In(bytes) => datagram(alloc, plan, header, coord, bytes.as_slice(), gathered),
        LogLine::Tick => {
            tick(alloc, plan, header, coord, gathered)?;
            Ok(true)
        }
        LogLine::Submit { proc, args } => {
            submission(alloc, plan, header, coord, *proc, args, gathered)
        }
        LogLine::Out(_) => Ok(false),
        LogLine::Answer { id: _, reply: _ } => Ok(false),
    }
}

fn next(
    alloc: Global,
    plan: &Plan,
    header: &Header,
    coord: &mut Coord,
    gathered: &mut Gathered,
    line: &LogLine,
) -> Result<bool, NoMemory>
    requires fits { CoordFits plan.now coord.old }
    requires header { FitsHeader header.now }
    ensures steps { IfOk result (StepsBy plan.now header.now (folding_of (coordinating coord.old) gathered.old) line.now (folding_of (coordinating coord.new) gathered.new)) }
    ensures fits { CoordFits plan.now coord.new }
{
    if gathered.at < gathered.due.len() {
        return Ok(take_due(gathered, line));
    }
    event(alloc, plan, header, coord, gathered, line)
}

/// Folds lines from where nothing is due; answers the number of the first that does not stand next.
pub(crate) fn all(
    alloc: Global,
    plan: &Plan,
    header: &Header,
    coord: &mut Coord,
    gathered: &mut Gathered,
    lines: &[LogLine],
) -> Result<Option<u64>, NoMemory>
    requires fits { CoordFits plan.now coord.old }
    requires header { FitsHeader header.now }
    requires begins { folding_of (coordinating coord.old) gathered.old ≡ nothing (coordinating coord.old) }
    ensures ends { IfOk result (EndsBy plan.now header.now (coordinating coord.old) lines.now (folding_of (coordinating coord.new) gathered.new)) }
{
    for (index, line) in lines.iter().enumerate() {
        if !next(alloc, plan, header, coord, gathered, line)? {
            return Ok(Some(index as u64 + 2));
        }
    }
    Ok(None)
}
