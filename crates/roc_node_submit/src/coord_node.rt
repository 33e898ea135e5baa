//! What a coordinator's node makes of its requests and of one event.
ghost use Rattle.std.specs.Prelude.{◌≡◌, ◌≤◌, ◌++◌, length, IfOk, OnOk};
ghost use Rattle.roc_coord.specs.Fits.{CoordFits};
ghost use Rattle.roc_wire.specs.Fits.{FitsHeader};
ghost use Rattle.roc_wire.specs.declared.header.Header.{Header as Sender};
ghost use Rattle.roc_report.specs.Text.{lines_text};
ghost use Rattle.roc_node.specs.Posting.{none_heard, packets_for};
ghost use Rattle.roc_node.specs.NodeEvent.{silent};
ghost use Rattle.roc_node.specs.Setting.{setting_of};
ghost use Rattle.roc_coord.specs.Step.{after_message};
ghost use Rattle.roc_node.specs.Judgement.{judged};
ghost use Rattle.roc_node_submit.specs.CoordRun.{reply_lines, datagram_logged, answered_then, step_of_judged};
ghost use Rattle.roc_node_submit.specs.Inner.CoordTurn.{SubmitsOne, SubmitsSome, SubmitsHalf, TakesStep, TakesHalf, gathered};

use crate::logging::{log_message, log_silence, log_submission};
use roc_base::NoMemory;
use roc_coord::{Coord, Handled, SubmitFault};
use roc_io::Datagram;
use roc_msg::{Msg, Outbox};
use roc_node::{Heard, Judged, Setting, judge, post};
use roc_program::Workload;
use roc_report::{ReportLine, append};
use roc_sched::Request;
use std::alloc::Global;

/// A coordinator with what its node keeps besides: how many requests it has submitted, and how many were answered.
#[derive(Drop)]
pub struct CoordNode {
    pub coord: Coord,
    pub next: usize,
    pub answered: u64,
}

/// What is due: lines of the log, where one is kept, text that is to be written behind them, and the datagrams that are to be sent behind that.
#[derive(Drop)]
pub struct TurnOutput {
    pub log: Vec<u8>,
    pub text: Vec<u8>,
    pub sends: Vec<Datagram>,
}

// Submits a request, and answers whether the coordinator accepts it.
fn submit_one(
    alloc: Global,
    setting: Setting<'_>,
    coord: &mut Coord,
    request: &Request,
    outbox: &mut Outbox,
    text: &mut Vec<u8>,
    log: &mut Vec<u8>,
) -> Result<bool, NoMemory>
    requires fits { CoordFits setting.plan.now coord.old }
    requires header { FitsHeader setting.header.now }
    ensures submits { IfOk result (λ accepted. SubmitsOne accepted (setting_of setting.entry) setting.entry.logs request.now coord.old coord.new
        (gathered outbox.old.messages text.old.items log.old.items) (gathered outbox.new.messages text.new.items log.new.items)) }
    ensures fits { CoordFits setting.entry.plan.now coord.new }
{
    let proc = match setting.plan.procedure_named(request.name.as_bytes()) {
        Some(proc) => proc,
        None => return Ok(false),
    };
    let had = outbox.messages().len();
    match coord.submit(setting.plan, proc, request.args.as_slice(), outbox) {
        Ok(id) => {
            let line = ReportLine::Submit {
                id,
                proc,
                args: &request.args,
            };
            append(alloc, text, setting.plan.workload(), &line)?;
            log_submission(
                alloc,
                setting,
                log,
                proc,
                &request.args,
                &outbox.messages()[had..],
            )?;
            Ok(true)
        }
        Err(SubmitFault::NoMemory) => Err(NoMemory),
        Err(SubmitFault::NoProc) => Ok(false),
        Err(SubmitFault::Args) => Ok(false),
        Err(SubmitFault::Spent) => Ok(false),
        Err(SubmitFault::Busy) => Ok(false),
    }
}

// The requests that are submitted before a turn, one after another, until the coordinator refuses one.
fn submit_some(
    alloc: Global,
    setting: Setting<'_>,
    coord_node: &mut CoordNode,
    requests: &[Request],
    outbox: &mut Outbox,
    text: &mut Vec<u8>,
    log: &mut Vec<u8>,
) -> Result<(), NoMemory>
    requires fits { CoordFits setting.plan.now coord_node.old.coord }
    requires header { FitsHeader setting.header.now }
    requires next { coord_node.old.next ≤ length requests.now }
    ensures submits { OnOk result (SubmitsSome (setting_of setting.entry) setting.entry.logs requests.now coord_node.old coord_node.new
        (gathered outbox.old.messages text.old.items log.old.items) (gathered outbox.new.messages text.new.items log.new.items)) }
    ensures fits { CoordFits setting.entry.plan.now coord_node.new.coord }
    ensures next { coord_node.new.next ≤ length requests.now }
{
    for request in &requests[coord_node.next..] {
        if !submit_one(
            alloc,
            setting,
            &mut coord_node.coord,
            request,
            outbox,
            text,
            log,
        )? {
            return Ok(());
        }
        coord_node.next += 1;
    }
    Ok(())
}

/// The submissions before a turn, one after another, until the coordinator refuses one, as it does while sixteen are unanswered.
pub fn make_submissions(
    alloc: Global,
    setting: Setting<'_>,
    coord_node: &mut CoordNode,
    requests: &[Request],
) -> Result<TurnOutput, NoMemory>
    requires fits { CoordFits setting.plan.now coord_node.old.coord }
    requires header { FitsHeader setting.header.now }
    requires cluster { length setting.cluster.now ≡ setting.plan.now.program.shards }
    requires next { coord_node.old.next ≤ length requests.now }
    ensures submits { IfOk result (SubmitsHalf (setting_of setting.entry) setting.entry.logs requests.now coord_node.old coord_node.new) }
    ensures fits { CoordFits setting.entry.plan.now coord_node.new.coord }
    ensures next { coord_node.new.next ≤ length requests.now }
{
    let mut outbox = Outbox::new(alloc);
    let mut text = Vec::new(alloc);
    let mut log = Vec::new(alloc);
    submit_some(
        alloc,
        setting,
        coord_node,
        requests,
        &mut outbox,
        &mut text,
        &mut log,
    )?;
    let sends = post_all(alloc, setting, &outbox)?;
    Ok(TurnOutput { log, text, sends })
}

// Adds the line of a reply, if a transaction or a view has it now.
fn push_reply(
    alloc: Global,
    workload: &Workload,
    text: &mut Vec<u8>,
    answer: &Handled,
) -> Result<(), NoMemory>
    ensures { OnOk result (text.new.items ≡ text.old.items ++ lines_text workload.now (reply_lines answer.now)) }
{
    match answer {
        Handled::Answered { id, reply } => append(
            alloc,
            text,
            workload,
            &ReportLine::Answer { id: *id, reply },
        ),
        Handled::Done => Ok(()),
        Handled::Ignored(_) => Ok(()),
    }
}

fn answered_then(answered: u64, answer: &Handled) -> u64
    ensures { result ≡ answered_then answered answer.now }
{
    match answer {
        Handled::Answered { .. } => answered.saturating_add(1),
        Handled::Done => answered,
        Handled::Ignored(_) => answered,
    }
}

// What messages of a coordinator are sent as.
fn post_all(alloc: Global, setting: Setting<'_>, outbox: &Outbox) -> Result<Vec<Datagram>, NoMemory>
    requires header { FitsHeader setting.header.now }
    requires cluster { length setting.cluster.now ≡ setting.plan.now.program.shards }
    ensures { IfOk result (λ sends. sends.items ≡ packets_for setting.entry.header.now setting.entry.cluster.now none_heard outbox.now.messages) }
{
    let shards = setting.plan.workload().shards();
    post(
        alloc,
        setting.header,
        setting.cluster,
        shards,
        &Heard::new(),
        outbox.messages(),
    )
}

// A delivery, which these bytes spell.
fn take_message(
    alloc: Global,
    setting: Setting<'_>,
    coord_node: &mut CoordNode,
    bytes: &[u8],
    msg: &Msg,
) -> Result<TurnOutput, NoMemory>
    requires fits { CoordFits setting.plan.now coord_node.old.coord }
    requires header { FitsHeader setting.header.now }
    requires cluster { length setting.cluster.now ≡ setting.plan.now.program.shards }
    ensures takes { (from : Sender) → IfOk result (TakesStep (setting_of setting.entry) setting.entry.logs
        (after_message setting.entry.plan.now coord_node.old.coord msg.now)
        (datagram_logged setting.entry.header.now bytes.now (after_message setting.entry.plan.now coord_node.old.coord msg.now) (Judged.Delivery from msg.now))
        coord_node.old coord_node.new) }
    ensures fits { CoordFits setting.entry.plan.now coord_node.new.coord }
{
    let mut outbox = Outbox::new(alloc);
    let answer = match coord_node.coord.handle(setting.plan, msg, &mut outbox) {
        Ok(answer) => answer,
        Err(_) => return Err(NoMemory),
    };
    let mut log = Vec::new(alloc);
    log_message(alloc, setting, &mut log, bytes, &outbox, &answer)?;
    let mut text = Vec::new(alloc);
    push_reply(alloc, setting.plan.workload(), &mut text, &answer)?;
    let sends = post_all(alloc, setting, &outbox)?;
    coord_node.answered = answered_then(coord_node.answered, &answer);
    Ok(TurnOutput { log, text, sends })
}

/// A datagram.
pub fn take_datagram(
    alloc: Global,
    setting: Setting<'_>,
    coord_node: &mut CoordNode,
    bytes: &[u8],
) -> Result<TurnOutput, NoMemory>
    requires fits { CoordFits setting.plan.now coord_node.old.coord }
    requires header { FitsHeader setting.header.now }
    requires cluster { length setting.cluster.now ≡ setting.plan.now.program.shards }
    ensures takes { IfOk result (TakesStep (setting_of setting.entry) setting.entry.logs
        (step_of_judged setting.entry.plan.now coord_node.old.coord (judged setting.entry.header.now.tag bytes.now))
        (datagram_logged setting.entry.header.now bytes.now (step_of_judged setting.entry.plan.now coord_node.old.coord (judged setting.entry.header.now.tag bytes.now))
        (judged setting.entry.header.now.tag bytes.now))
        coord_node.old coord_node.new) }
    ensures fits { CoordFits setting.entry.plan.now coord_node.new.coord }
{
    match judge(alloc, setting.header.tag, bytes) {
        Ok(Judged::Delivery(_sender, msg)) => {
            take_message(alloc, setting, coord_node, bytes, &msg)
        }
        Ok(Judged::Skipped(_skip)) => Ok(TurnOutput {
            log: Vec::new(alloc),
            text: Vec::new(alloc),
            sends: Vec::new(alloc),
        }),
        Err(NoMemory) => Err(NoMemory),
    }
}

/// Silence.
pub fn take_silence(
    alloc: Global,
    setting: Setting<'_>,
    coord_node: &mut CoordNode,
) -> Result<TurnOutput, NoMemory>
    requires fits { CoordFits setting.plan.now coord_node.old.coord }
    requires header { FitsHeader setting.header.now }
    requires cluster { length setting.cluster.now ≡ setting.plan.now.program.shards }
    ensures takes { IfOk result (TakesHalf (setting_of setting.entry) setting.entry.logs silent coord_node.old coord_node.new) }
    ensures fits { CoordFits setting.entry.plan.now coord_node.new.coord }
{
    let mut outbox = Outbox::new(alloc);
    if coord_node.coord.tick(setting.plan, &mut outbox).is_err() {
        return Err(NoMemory);
    }
    let mut log = Vec::new(alloc);
    log_silence(alloc, setting, &mut log, &outbox)?;
    let sends = post_all(alloc, setting, &outbox)?;
    Ok(TurnOutput {
        log,
        text: Vec::new(alloc),
        sends,
    })
}
