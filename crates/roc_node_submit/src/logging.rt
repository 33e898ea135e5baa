//! The lines of a coordinator's log, as text.
ghost use Rattle.std.specs.Prelude.{◌≡◌, ◌++◌, ◌∷◌, OnOk};
ghost use Rattle.roc_wire.specs.Fits.{FitsHeader};
ghost use Rattle.roc_program.specs.Program.{Workload as Program};
ghost use Rattle.roc_log.specs.LogLine.{lines_text};
ghost use Rattle.roc_log.specs.Sent.{outs_logged};
ghost use Rattle.roc_log.specs.declared.line.LogLine.TheVariants as line;
ghost use Rattle.roc_node_submit.specs.CoordRun.{reply_logged};
ghost use Rattle.roc_node_submit.specs.Inner.CoordTurn.{if_logged};

use roc_base::{NoMemory, Nums};
use roc_coord::Handled;
use roc_log::{append_answer, append_in, append_outs, append_submit, append_tick};
use roc_msg::{Outbox, Outgoing};
use roc_node::Setting;
use std::alloc::Global;

/// Adds the lines of a submission to the log, if one is kept.
pub fn log_submission(
    alloc: Global,
    setting: Setting<'_>,
    log: &mut Vec<u8>,
    proc: u16,
    args: &Nums,
    sends: &[Outgoing],
) -> Result<(), NoMemory>
    requires { FitsHeader setting.header.now }
    ensures { OnOk result (log.new.items ≡ log.old.items
        ++ if_logged setting.entry.logs (lines_text setting.entry.plan.now.program (line.Submit proc args.now ∷ outs_logged setting.entry.header.now sends.now))) }
{
    if !setting.logs {
        return Ok(());
    }
    append_submit(alloc, log, setting.plan.workload(), proc, args)?;
    append_outs(alloc, log, setting.header, sends)
}

// Adds the line of an answer to the log, if there is one.
fn log_answer(alloc: Global, log: &mut Vec<u8>, answer: &Handled) -> Result<(), NoMemory>
    ensures { (program : Program) → OnOk result (log.new.items ≡ log.old.items ++ lines_text program (reply_logged answer.now)) }
{
    match answer {
        Handled::Answered { id, reply } => append_answer(alloc, log, *id, reply),
        Handled::Done => Ok(()),
        Handled::Ignored(_) => Ok(()),
    }
}

/// Adds the lines of a delivery, which these bytes spell, to the log, if one is kept.
pub fn log_message(
    alloc: Global,
    setting: Setting<'_>,
    log: &mut Vec<u8>,
    bytes: &[u8],
    outbox: &Outbox,
    answer: &Handled,
) -> Result<(), NoMemory>
    requires { FitsHeader setting.header.now }
    ensures { OnOk result (log.new.items ≡ log.old.items ++ if_logged setting.entry.logs (lines_text setting.entry.plan.now.program
        (line.In bytes.now ∷ (outs_logged setting.entry.header.now outbox.now.messages ++ reply_logged answer.now)))) }
{
    if !setting.logs {
        return Ok(());
    }
    append_in(alloc, log, bytes)?;
    append_outs(alloc, log, setting.header, outbox.messages())?;
    log_answer(alloc, log, answer)
}

/// Adds the lines of silence to the log, if one is kept.
pub fn log_silence(
    alloc: Global,
    setting: Setting<'_>,
    log: &mut Vec<u8>,
    outbox: &Outbox,
) -> Result<(), NoMemory>
    requires { FitsHeader setting.header.now }
    ensures { OnOk result (log.new.items ≡ log.old.items ++ if_logged setting.entry.logs (lines_text setting.entry.plan.now.program
        (line.Tick ∷ outs_logged setting.entry.header.now outbox.now.messages))) }
{
    if !setting.logs {
        return Ok(());
    }
    append_tick(log)?;
    append_outs(alloc, log, setting.header, outbox.messages())
}
