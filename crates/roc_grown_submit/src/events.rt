//! What a coordinator's node makes of one event.
ghost use Rattle.std.specs.Prelude.{◌≡◌, ◌++◌, Some, length, IfOk, OnOk};
ghost use Rattle.roc_grown.specs.Coord.{after_grown_message};
ghost use Rattle.roc_grown.specs.Fits.{GrownCoordFits};
ghost use Rattle.roc_grown_node.specs.Judgement.{grown_judged};
ghost use Rattle.roc_grown_node.specs.Setting.{grown_setting_of};
ghost use Rattle.roc_grown_submit.specs.GrownCoordRun.{grown_reply_lines, grown_answered_then, grown_step_of_judged};
ghost use Rattle.roc_grown_submit.specs.Inner.GrownTurn.{TakesStep, TakesHalf};
ghost use Rattle.roc_node.specs.NodeEvent.{silent};
ghost use Rattle.roc_report.specs.Text.{lines_text};
ghost use Rattle.roc_wire.specs.Fits.{FitsHeader};

use crate::coord_node::{CoordNode, TurnOutput, post_all};
use roc_base::NoMemory;
use roc_epoch::File;
use roc_grown::GrownAnswer;
use roc_grown_node::{GrownJudged, GrownSetting, grown_judge};
use roc_msg::{Msg, Outbox};
use roc_program::Workload;
use roc_report::{ReportLine, append};
use std::alloc::Global;

// Adds the line of a reply, if a transaction or a view has it now.
fn push_reply(
    alloc: Global,
    workload: &Workload,
    text: &mut Vec<u8>,
    answer: &GrownAnswer,
) -> Result<(), NoMemory>
    ensures { OnOk result (text.new.items ≡ text.old.items ++ lines_text workload.now (grown_reply_lines answer.now)) }
{
    match answer {
        GrownAnswer::Answered { id, reply } => append(
            alloc,
            text,
            workload,
            &ReportLine::Answer { id: *id, reply },
        ),
        GrownAnswer::Done => Ok(()),
        GrownAnswer::Skipped => Ok(()),
        GrownAnswer::Ignored(_) => Ok(()),
    }
}

fn answered_then(answered: u64, answer: &GrownAnswer) -> u64
    ensures { result ≡ grown_answered_then answered answer.now }
{
    match answer {
        GrownAnswer::Answered { .. } => answered.saturating_add(1),
        GrownAnswer::Done => answered,
        GrownAnswer::Skipped => answered,
        GrownAnswer::Ignored(_) => answered,
    }
}

// A delivery of a file.
fn take_message(
    alloc: Global,
    setting: GrownSetting<'_>,
    coord_node: &mut CoordNode,
    file: File,
    msg: &Msg,
) -> Result<TurnOutput, NoMemory>
    requires fits { GrownCoordFits setting.plan.now (Some setting.next.now) coord_node.old.coord }
    requires header { FitsHeader setting.header.now }
    requires cluster { length setting.cluster.now ≡ setting.plan.now.program.shards }
    ensures takes { IfOk result (TakesStep (grown_setting_of setting.entry)
        (after_grown_message setting.entry.plan.now (Some setting.entry.next.now) coord_node.old.coord file msg.now) coord_node.old coord_node.new) }
    ensures fits { GrownCoordFits setting.entry.plan.now (Some setting.entry.next.now) coord_node.new.coord }
{
    let mut outbox = Outbox::new(alloc);
    let answer = match coord_node
        .coord
        .handle(setting.plan, Some(setting.next), file, msg, &mut outbox)
    {
        Ok(answer) => answer,
        Err(_) => return Err(NoMemory),
    };
    let mut text = Vec::new(alloc);
    push_reply(alloc, setting.next.plan.workload(), &mut text, &answer)?;
    let sends = post_all(alloc, setting, coord_node.coord.switched(), &outbox)?;
    coord_node.answered = answered_then(coord_node.answered, &answer);
    Ok(TurnOutput { text, sends })
}

/// A datagram.
pub fn take_datagram(
    alloc: Global,
    setting: GrownSetting<'_>,
    coord_node: &mut CoordNode,
    bytes: &[u8],
) -> Result<TurnOutput, NoMemory>
    requires fits { GrownCoordFits setting.plan.now (Some setting.next.now) coord_node.old.coord }
    requires header { FitsHeader setting.header.now }
    requires cluster { length setting.cluster.now ≡ setting.plan.now.program.shards }
    ensures takes { IfOk result (TakesStep (grown_setting_of setting.entry)
        (grown_step_of_judged (grown_setting_of setting.entry) coord_node.old.coord (grown_judged (grown_setting_of setting.entry) coord_node.old.coord.switched bytes.now))
        coord_node.old coord_node.new) }
    ensures fits { GrownCoordFits setting.entry.plan.now (Some setting.entry.next.now) coord_node.new.coord }
{
    match grown_judge(alloc, setting, coord_node.coord.switched(), bytes) {
        Ok(GrownJudged::Delivery(_sender, file, msg)) => {
            take_message(alloc, setting, coord_node, file, &msg)
        }
        Ok(GrownJudged::Skipped(_skip)) => Ok(TurnOutput {
            text: Vec::new(alloc),
            sends: Vec::new(alloc),
        }),
        Err(NoMemory) => Err(NoMemory),
    }
}

/// Silence.
pub fn take_silence(
    alloc: Global,
    setting: GrownSetting<'_>,
    coord_node: &mut CoordNode,
) -> Result<TurnOutput, NoMemory>
    requires fits { GrownCoordFits setting.plan.now (Some setting.next.now) coord_node.old.coord }
    requires header { FitsHeader setting.header.now }
    requires cluster { length setting.cluster.now ≡ setting.plan.now.program.shards }
    ensures takes { IfOk result (TakesHalf (grown_setting_of setting.entry) silent coord_node.old coord_node.new) }
    ensures fits { GrownCoordFits setting.entry.plan.now (Some setting.entry.next.now) coord_node.new.coord }
{
    let mut outbox = Outbox::new(alloc);
    if coord_node
        .coord
        .tick(setting.plan, Some(setting.next), &mut outbox)
        .is_err()
    {
        return Err(NoMemory);
    }
    let sends = post_all(alloc, setting, coord_node.coord.switched(), &outbox)?;
    Ok(TurnOutput {
        text: Vec::new(alloc),
        sends,
    })
}
