//! The fold of a server's log.
ghost use Rattle.std.specs.Prelude.{◌≡◌, ◌++◌, [], List, IfOk, OnOk, drop, map};
ghost use Rattle.roc_log.specs.declared.line.LogLine.TheVariants.{In};
ghost use Rattle.roc_base.specs.declared.id.TxnId.{TxnId as Id};
ghost use Rattle.roc_server.specs.Ahead.{ServingFits};
ghost use Rattle.roc_step.specs.Step.{tick_sends};
ghost use Rattle.roc_step.specs.Waiting.{waiting_groups};
ghost use Rattle.roc_step.specs.New.{AreDecided};
ghost use Rattle.roc_wire.specs.Fits.{FitsHeader};
ghost use Rattle.roc_fold.specs.Fold.{nothing, serving};
ghost use Rattle.roc_fold.specs.Folded.{access_by, accesses_waiting};
ghost use Rattle.roc_log.specs.Sent.{outs_logged};
ghost use Rattle.roc_fold.specs.Inner.Steps.{EndsBy, GivesTo, StepsBy, folding_of};

use crate::due::{Gathered, brought, take_due, take_outbox};
use roc_base::{NoMemory, TxnId};
use roc_group::Access;
use roc_log::LogLine;
use roc_msg::{Msg, Outbox, Ran};
use roc_plan::Plan;
use roc_server::{Server, Waiting};
use roc_wire::Header;
use std::alloc::Global;

fn message(
    alloc: Global,
    plan: &Plan,
    header: &Header,
    server: &mut Server,
    msg: &Msg,
    gathered: &mut Gathered,
) -> Result<(), NoMemory>
    requires fits { ServingFits plan.now server.old }
    requires header { FitsHeader header.now }
    ensures gives { OnOk result (GivesTo plan.now header.now (serving server.old.state server.old.viewing) msg.now gathered.old
        (serving server.new.state server.new.viewing) gathered.new) }
    ensures fits { OnOk result (ServingFits plan.now server.new) }
{
    let mut outbox = Outbox::new(alloc);
    match server.handle(plan, msg, &mut outbox) {
        Ok(_) => take_outbox(alloc, header, &outbox, gathered),
        Err(_) => Err(NoMemory),
    }
}

fn tick(
    alloc: Global,
    header: &Header,
    server: &mut Server,
    gathered: &mut Gathered,
) -> Result<(), NoMemory>
    requires header { FitsHeader header.now }
    ensures due { OnOk result (folding_of (serving server.new.state server.new.viewing) gathered.new
        ≡ record { core = serving server.old.state server.old.viewing; due = outs_logged header.now (tick_sends server.old.state); decided = gathered.old.decided; ran = gathered.old.ran }) }
    ensures same { OnOk result (server.new ≡ server.old) }
{
    let mut outbox = Outbox::new(alloc);
    if server.tick(&mut outbox).is_err() {
        return Err(NoMemory);
    }
    take_outbox(alloc, header, &outbox, gathered)
}

// Takes the bytes of a datagram, where they are one with the header's tag.
fn datagram(
    alloc: Global,
    plan: &Plan,
    header: &Header,
    server: &mut Server,
    bytes: &[u8],
    gathered: &mut Gathered,
) -> Result<bool, NoMemory>
    requires fits { ServingFits plan.now server.old }
    requires header { FitsHeader header.now }
    requires none { drop gathered.old.at gathered.old.due.items ≡ [] }
    ensures steps { IfOk result (StepsBy plan.now header.now (folding_of (serving server.old.state server.old.viewing) gathered.old) (In bytes.now)
        (folding_of (serving server.new.state server.new.viewing) gathered.new)) }
    ensures fits { OnOk result (ServingFits plan.now server.new) }
{
    let Some(msg) = brought(alloc, header.tag, bytes)? else {
        return Ok(false);
    };
    message(alloc, plan, header, server, &msg, gathered)?;
    Ok(true)
}

fn event(
    alloc: Global,
    plan: &Plan,
    header: &Header,
    server: &mut Server,
    gathered: &mut Gathered,
    line: &LogLine,
) -> Result<bool, NoMemory>
    requires fits { ServingFits plan.now server.old }
    requires header { FitsHeader header.now }
    requires none { drop gathered.old.at gathered.old.due.items ≡ [] }
    ensures steps { IfOk result (StepsBy plan.now header.now (folding_of (serving server.old.state server.old.viewing) gathered.old) line.now
        (folding_of (serving server.new.state server.new.viewing) gathered.new)) }
    ensures fits { OnOk result (ServingFits plan.now server.new) }
{
    match line {
        LogLine::In(bytes) => datagram(alloc, plan, header, server, bytes.as_slice(), gathered),
        LogLine::Tick => {
            tick(alloc, header, server, gathered)?;
            Ok(true)
        }
        LogLine::Submit { proc: _, args: _ } => Ok(false),
        LogLine::Out(_) => Ok(false),
        LogLine::Answer { id: _, reply: _ } => Ok(false),
    }
}

fn next(
    alloc: Global,
    plan: &Plan,
    header: &Header,
    server: &mut Server,
    gathered: &mut Gathered,
    line: &LogLine,
) -> Result<bool, NoMemory>
    requires fits { ServingFits plan.now server.old }
    requires header { FitsHeader header.now }
    ensures steps { IfOk result (StepsBy plan.now header.now (folding_of (serving server.old.state server.old.viewing) gathered.old) line.now
        (folding_of (serving server.new.state server.new.viewing) gathered.new)) }
    ensures fits { OnOk result (ServingFits plan.now server.new) }
{
    if gathered.at < gathered.due.len() {
        return Ok(take_due(gathered, line));
    }
    event(alloc, plan, header, server, gathered, line)
}

/// Folds lines from where nothing is due; answers the number of the first that does not stand next.
pub(crate) fn all(
    alloc: Global,
    plan: &Plan,
    header: &Header,
    server: &mut Server,
    gathered: &mut Gathered,
    lines: &[LogLine],
) -> Result<Option<u64>, NoMemory>
    requires fits { ServingFits plan.now server.old }
    requires header { FitsHeader header.now }
    requires begins { folding_of (serving server.old.state server.old.viewing) gathered.old ≡ nothing (serving server.old.state server.old.viewing) }
    ensures ends { IfOk result (EndsBy plan.now header.now (serving server.old.state server.old.viewing) lines.now (folding_of (serving server.new.state server.new.viewing) gathered.new)) }
    ensures fits { OnOk result (ServingFits plan.now server.new) }
{
    for (index, line) in lines.iter().enumerate() {
        if !next(alloc, plan, header, server, gathered, line)? {
            return Ok(Some(index as u64 + 2));
        }
    }
    Ok(None)
}

// The accesses of groups.
fn accesses(alloc: Global, groups: &[Waiting]) -> Result<Vec<Ran>, NoMemory>
    ensures { IfOk result (λ found. found.items ≡ accesses_waiting groups.now) }
{
    let mut found = Vec::new(alloc);
    for group in groups {
        put_accesses(group.id, group.cells.as_slice(), &mut found)?;
    }
    Ok(found)
}

fn put_accesses(id: TxnId, cells: &[Access], found: &mut Vec<Ran>) -> Result<(), NoMemory>
    ensures { OnOk result (found.new.items ≡ found.old.items ++ map (access_by id) cells.now) }
{
    for access in cells {
        found.push(Ran {
            id,
            cell: access.cell,
            writes: access.writes,
        })?;
    }
    Ok(())
}

/// The accesses of what waits on a server.
pub(crate) fn waiting(alloc: Global, plan: &Plan, server: &Server) -> Result<Vec<Ran>, NoMemory>
    requires { ServingFits plan.now server.now }
    ensures { IfOk result (λ found. (decided : List Id) → AreDecided server.now.state.lists.links decided → found.items ≡ accesses_waiting (waiting_groups plan.now decided server.now.state)) }
{
    let groups = server.waiting(plan)?;
    accesses(alloc, &groups)
}
