//! What a coordinator's node keeps, and what it does before a turn.
ghost use Rattle.std.specs.Prelude.{◌≡◌, ◌≤◌, false, Some, Err, length, IfOk, OnOk};
ghost use Rattle.roc_grown.specs.Coord.{wants_memory};
ghost use Rattle.roc_grown.specs.Fits.{GrownCoordFits};
ghost use Rattle.roc_grown_node.specs.Posting.{grown_packets_for};
ghost use Rattle.roc_grown_node.specs.Setting.{grown_setting_of};
ghost use Rattle.roc_grown_submit.specs.Inner.GrownTurn.{gathered, DrainsFirst, SubmitsOne, SubmitsSome, SubmitsFirst, SubmitsLater, GathersAll, SubmitsHalf};
ghost use Rattle.roc_node.specs.Posting.{none_heard};
ghost use Rattle.roc_wire.specs.Fits.{FitsHeader};

use roc_base::NoMemory;
use roc_coord::SubmitFault;
use roc_epoch::own_plan;
use roc_grown::{GrownCoord, GrownFault};
use roc_grown_node::{GrownSetting, grown_post};
use roc_io::Datagram;
use roc_msg::Outbox;
use roc_node::Heard;
use roc_report::{ReportLine, append};
use roc_sched::Request;
use std::alloc::Global;

/// A coordinator with what its node keeps besides: how many requests of each file it has submitted, and how many of all were answered.
#[derive(Drop)]
pub struct CoordNode {
    pub coord: GrownCoord,
    pub first: usize,
    pub second: usize,
    pub answered: u64,
}

/// What is due: text that is to be written, and the datagrams that are to be sent behind that.
#[derive(Drop)]
pub struct TurnOutput {
    pub text: Vec<u8>,
    pub sends: Vec<Datagram>,
}

// Drains the coordinator, where none of these requests is left and none is unanswered. One that drains or has switched does nothing.
fn drain_first(
    setting: GrownSetting<'_>,
    coord: &mut GrownCoord,
    left: &[Request],
    outbox: &mut Outbox,
) -> Result<(), NoMemory>
    requires fits { GrownCoordFits setting.plan.now (Some setting.next.now) coord.old }
    ensures drains { OnOk result (DrainsFirst (grown_setting_of setting.entry) left.now coord.old coord.new outbox.old.messages outbox.new.messages) }
    ensures fits { GrownCoordFits setting.entry.plan.now (Some setting.entry.next.now) coord.new }
{
    if !left.is_empty() {
        return Ok(());
    }
    if !coord.unanswered().is_empty() {
        return Ok(());
    }
    match coord.drain(setting.plan, outbox) {
        Ok(()) => Ok(()),
        Err(_) => Err(NoMemory),
    }
}

// Submits a request, and answers whether the coordinator accepts it.
fn submit_one(
    alloc: Global,
    setting: GrownSetting<'_>,
    coord: &mut GrownCoord,
    request: &Request,
    outbox: &mut Outbox,
    text: &mut Vec<u8>,
) -> Result<bool, NoMemory>
    requires fits { GrownCoordFits setting.plan.now (Some setting.next.now) coord.old }
    ensures submits { IfOk result (λ accepted. SubmitsOne accepted (grown_setting_of setting.entry) request.now coord.old coord.new
        (gathered outbox.old.messages text.old.items) (gathered outbox.new.messages text.new.items)) }
    ensures fits { GrownCoordFits setting.entry.plan.now (Some setting.entry.next.now) coord.new }
{
    let own = own_plan(setting.plan, Some(setting.next), coord.switched());
    let proc = match own.procedure_named(request.name.as_bytes()) {
        Some(proc) => proc,
        None => return Ok(false),
    };
    match coord.submit(
        setting.plan,
        Some(setting.next),
        proc,
        request.args.as_slice(),
        outbox,
    ) {
        Ok(id) => {
            let line = ReportLine::Submit {
                id,
                proc,
                args: &request.args,
            };
            append(alloc, text, setting.next.plan.workload(), &line)?;
            Ok(true)
        }
        Err(fault) => refused(fault),
    }
}

// What a fault means: want of memory, or that the coordinator does not accept the request.
fn refused(fault: GrownFault) -> Result<bool, NoMemory>
    ensures is { IfOk result (λ accepted. accepted ≡ false) }
    ensures refuses { OnOk result (wants_memory (Err fault) ≡ false) }
{
    match fault {
        GrownFault::Draining => Ok(false),
        GrownFault::Plain(SubmitFault::NoProc) => Ok(false),
        GrownFault::Plain(SubmitFault::Args) => Ok(false),
        GrownFault::Plain(SubmitFault::Spent) => Ok(false),
        GrownFault::Plain(SubmitFault::Busy) => Ok(false),
        GrownFault::Plain(SubmitFault::NoMemory) => Err(NoMemory),
    }
}

// Submits these requests, one after another, until the coordinator refuses one, and answers how many it accepted.
fn submit_some(
    alloc: Global,
    setting: GrownSetting<'_>,
    coord: &mut GrownCoord,
    requests: &[Request],
    outbox: &mut Outbox,
    text: &mut Vec<u8>,
) -> Result<usize, NoMemory>
    requires fits { GrownCoordFits setting.plan.now (Some setting.next.now) coord.old }
    ensures submits { IfOk result (λ count. SubmitsSome (grown_setting_of setting.entry) requests.now count coord.old coord.new
        (gathered outbox.old.messages text.old.items) (gathered outbox.new.messages text.new.items)) }
    ensures fits { GrownCoordFits setting.entry.plan.now (Some setting.entry.next.now) coord.new }
    ensures within { IfOk result (λ count. count ≤ length requests.now) }
{
    let mut count = 0;
    for request in requests {
        if !submit_one(alloc, setting, coord, request, outbox, text)? {
            return Ok(count);
        }
        count += 1;
    }
    Ok(count)
}

// What messages of a coordinator are sent as, which has switched or not.
pub(crate) fn post_all(
    alloc: Global,
    setting: GrownSetting<'_>,
    switched: bool,
    outbox: &Outbox,
) -> Result<Vec<Datagram>, NoMemory>
    requires header { FitsHeader setting.header.now }
    requires cluster { length setting.cluster.now ≡ setting.plan.now.program.shards }
    ensures { IfOk result (λ sends. sends.items ≡ grown_packets_for (grown_setting_of setting.entry) switched none_heard outbox.now.messages) }
{
    grown_post(alloc, setting, switched, &Heard::new(), outbox.messages())
}

// Submits those of the first file that are left.
fn submit_first(
    alloc: Global,
    setting: GrownSetting<'_>,
    coord_node: &mut CoordNode,
    requests: &[Request],
    outbox: &mut Outbox,
    text: &mut Vec<u8>,
) -> Result<(), NoMemory>
    requires fits { GrownCoordFits setting.plan.now (Some setting.next.now) coord_node.old.coord }
    requires first { coord_node.old.first ≤ length requests.now }
    ensures submits { OnOk result (SubmitsFirst (grown_setting_of setting.entry) requests.now coord_node.old coord_node.new
        (gathered outbox.old.messages text.old.items) (gathered outbox.new.messages text.new.items)) }
    ensures fits { GrownCoordFits setting.entry.plan.now (Some setting.entry.next.now) coord_node.new.coord }
    ensures first { OnOk result (coord_node.new.first ≤ length requests.now) }
{
    let left = &requests[coord_node.first..];
    match submit_some(alloc, setting, &mut coord_node.coord, left, outbox, text) {
        Ok(count) => {
            coord_node.first += count;
            Ok(())
        }
        Err(NoMemory) => Err(NoMemory),
    }
}

// Submits those of the second file, where the coordinator has switched and none of these is left of the first one.
fn submit_later(
    alloc: Global,
    setting: GrownSetting<'_>,
    coord_node: &mut CoordNode,
    left: &[Request],
    later: &[Request],
    outbox: &mut Outbox,
    text: &mut Vec<u8>,
) -> Result<(), NoMemory>
    requires fits { GrownCoordFits setting.plan.now (Some setting.next.now) coord_node.old.coord }
    requires second { coord_node.old.second ≤ length later.now }
    ensures submits { OnOk result (SubmitsLater (grown_setting_of setting.entry) left.now later.now coord_node.old coord_node.new
        (gathered outbox.old.messages text.old.items) (gathered outbox.new.messages text.new.items)) }
    ensures fits { GrownCoordFits setting.entry.plan.now (Some setting.entry.next.now) coord_node.new.coord }
    ensures second { OnOk result (coord_node.new.second ≤ length later.now) }
{
    if !coord_node.coord.switched() {
        return Ok(());
    }
    if !left.is_empty() {
        return Ok(());
    }
    let rest = &later[coord_node.second..];
    match submit_some(alloc, setting, &mut coord_node.coord, rest, outbox, text) {
        Ok(count) => {
            coord_node.second += count;
            Ok(())
        }
        Err(NoMemory) => Err(NoMemory),
    }
}

// All that is due before a turn is gathered: the drain, then submissions of the first file, then those of the second.
fn gather_all(
    alloc: Global,
    setting: GrownSetting<'_>,
    coord_node: &mut CoordNode,
    requests: &[Request],
    later: &[Request],
    outbox: &mut Outbox,
    text: &mut Vec<u8>,
) -> Result<(), NoMemory>
    requires fits { GrownCoordFits setting.plan.now (Some setting.next.now) coord_node.old.coord }
    requires first { coord_node.old.first ≤ length requests.now }
    requires second { coord_node.old.second ≤ length later.now }
    ensures gathers { OnOk result (GathersAll (grown_setting_of setting.entry) requests.now later.now coord_node.old coord_node.new
        (gathered outbox.old.messages text.old.items) (gathered outbox.new.messages text.new.items)) }
    ensures fits { GrownCoordFits setting.entry.plan.now (Some setting.entry.next.now) coord_node.new.coord }
    ensures first { OnOk result (coord_node.new.first ≤ length requests.now) }
    ensures second { OnOk result (coord_node.new.second ≤ length later.now) }
{
    let left = &requests[coord_node.first..];
    drain_first(setting, &mut coord_node.coord, left, outbox)?;
    submit_first(alloc, setting, coord_node, requests, outbox, text)?;
    let left = &requests[coord_node.first..];
    submit_later(alloc, setting, coord_node, left, later, outbox, text)
}

/// What a node does before a turn: it drains, where all of the first requests are submitted and answered, and then submits one request after another, until the
/// coordinator refuses one, as it does while sixteen are unanswered.
#[tactic(auto, using(crate::proofs::Gathered::half_made))]
pub fn make_submissions(
    alloc: Global,
    setting: GrownSetting<'_>,
    coord_node: &mut CoordNode,
    requests: &[Request],
    later: &[Request],
) -> Result<TurnOutput, NoMemory>
    requires fits { GrownCoordFits setting.plan.now (Some setting.next.now) coord_node.old.coord }
    requires header { FitsHeader setting.header.now }
    requires cluster { length setting.cluster.now ≡ setting.plan.now.program.shards }
    requires first { coord_node.old.first ≤ length requests.now }
    requires second { coord_node.old.second ≤ length later.now }
    ensures submits { IfOk result (SubmitsHalf (grown_setting_of setting.entry) requests.now later.now coord_node.old coord_node.new) }
    ensures fits { GrownCoordFits setting.entry.plan.now (Some setting.entry.next.now) coord_node.new.coord }
    ensures first { OnOk result (coord_node.new.first ≤ length requests.now) }
    ensures second { OnOk result (coord_node.new.second ≤ length later.now) }
{
    let mut outbox = Outbox::new(alloc);
    let mut text = Vec::new(alloc);
    gather_all(
        alloc,
        setting,
        coord_node,
        requests,
        later,
        &mut outbox,
        &mut text,
    )?;
    let sends = post_all(alloc, setting, coord_node.coord.switched(), &outbox)?;
    Ok(TurnOutput { text, sends })
}
