//! Generated load.
ghost use Rattle.std.specs.Prelude.{◌≡◌, ◌<◌, ◌≤◌, ◌++◌, IfOk, OnOk, string_bytes};
ghost use Rattle.roc_io.specs.Cause.{HasCause};
ghost use Rattle.roc_check.specs.Checked.{IsPlanOfText};
ghost use Rattle.roc_generate.specs.WorkloadText.{generated_workload};
ghost use Rattle.roc_generate.specs.ScheduleText.{generated_schedule};
ghost use Rattle.roc_generate.specs.SummaryText.{load_summary_text};
ghost use Rattle.roc_cli.specs.Done.{IsGenerated};
ghost use Rattle.roc_cli_files.specs.Fault.{blames_sink, fails_by};
ghost use Rattle.roc_cli.specs.Inner.Ends.{GenEnds};

use crate::unseen::Unseen;
use roc_base::NoMemory;
use roc_check::{CheckFault, check};
use roc_cli_files::Fault;
use roc_cli_words::Part;
use roc_generate::generate;
use roc_generate::laws::{schedules_fit, workloads_have_plans};
use roc_io::{Sink, Written};
use roc_plan::Plan;
use roc_replay::{Ended, Summary, replay};
use roc_sched::laws::{lines_are_unique, texts_are_right_or_wrong};
use std::alloc::{AllocError, Global};

/// Writes a generated text, or the numbers of its run.
pub(crate) fn write_generated<'a, S: Sink>(
    alloc: Global,
    seed: u64,
    shards: u8,
    txns: u16,
    part: Part,
    out: &mut S,
) -> Result<(), Fault<'a>>
    requires some { 0 < shards }
    requires few { shards ≤ 64 }
    requires within { txns ≤ 1000 }
    ensures ends { GenEnds seed shards txns part (S.taken out.old) (S.taken out.new) result }
    ensures faults { HasCause (fails_by blames_sink result) (S.faults out.old) (S.faults out.new) }
{
    let Ok(text) = generated(alloc, seed, shards, txns, part) else {
        return Err(Fault::Memory);
    };
    match out.write(&text) {
        Written::Ok => Ok(()),
        Written::Failed => Err(Fault::Sink),
    }
}

// What is to be generated.
fn generated(
    alloc: Global,
    seed: u64,
    shards: u8,
    txns: u16,
    part: Part,
) -> Result<Vec<u8>, NoMemory>
    requires some { 0 < shards }
    requires few { shards ≤ 64 }
    requires within { txns ≤ 1000 }
    ensures { IfOk result (λ text. IsGenerated seed shards txns part text.items) }
{
    let (workload, schedule) = generate(alloc, seed, shards, txns)?;
    match part {
        Part::Workload => Ok(workload),
        Part::Schedule => Ok(schedule),
        Part::Run => summary_of_texts(alloc, seed, shards, txns, &workload, &schedule),
    }
}

// The numbers of the run of a generated schedule.
fn summary_of_texts(
    alloc: Global,
    seed: u64,
    shards: u8,
    txns: u16,
    workload: &[u8],
    schedule: &[u8],
) -> Result<Vec<u8>, NoMemory>
    requires some { 0 < shards }
    requires few { shards ≤ 64 }
    requires within { txns ≤ 1000 }
    requires workload { workload.now ≡ generated_workload shards }
    requires schedule { schedule.now ≡ generated_schedule seed shards txns }
    ensures { IfOk result (λ text. IsGenerated seed shards txns Part.Run text.items) }
{
    workloads_have_plans();
    let plan = match check(alloc, workload) {
        Ok(plan) => plan,
        Err(CheckFault::NoMemory) => return Err(NoMemory),
        Err(CheckFault::Lang(_)) => unreachable!(),
        Err(CheckFault::Scope(_)) => unreachable!(),
        Err(CheckFault::Apart { .. }) => unreachable!(),
        Err(CheckFault::Blocked { .. }) => unreachable!(),
    };
    summary_of_plan(alloc, seed, shards, txns, &plan, schedule)
}

// The same under the plan of the generated workload.
fn summary_of_plan(
    alloc: Global,
    seed: u64,
    shards: u8,
    txns: u16,
    plan: &Plan,
    schedule: &[u8],
) -> Result<Vec<u8>, NoMemory>
    requires some { 0 < shards }
    requires few { shards ≤ 64 }
    requires within { txns ≤ 1000 }
    requires planned { IsPlanOfText (generated_workload shards) plan.now }
    requires schedule { schedule.now ≡ generated_schedule seed shards txns }
    ensures { IfOk result (λ text. IsGenerated seed shards txns Part.Run text.items) }
{
    schedules_fit();
    lines_are_unique();
    texts_are_right_or_wrong();
    let mut sink = Unseen;
    match replay(alloc, plan, None, schedule, &mut sink) {
        Ended::Done(summary) => summary_text(alloc, summary),
        Ended::NoMemory => Err(NoMemory),
        Ended::Text { .. } => unreachable!(),
        Ended::SinkFault => unreachable!(),
    }
}

// The numbers of a run, as two lines.
fn summary_text(alloc: Global, summary: Summary) -> Result<Vec<u8>, NoMemory>
    ensures { IfOk result (λ text. text.items ≡ load_summary_text summary.answered summary.pending summary.messages summary.busy) }
{
    let mut text = String::new(alloc);
    push_numbers(&mut text, summary)?;
    Ok(text.into_bytes())
}

fn push_numbers(text: &mut String, summary: Summary) -> Result<(), AllocError>
    ensures { OnOk result (string_bytes text.new ≡ string_bytes text.old ++ load_summary_text summary.answered summary.pending summary.messages summary.busy) }
{
    let Summary {
        answered,
        pending,
        messages,
        busy,
    } = summary;
    write!(
        text,
        "end {answered} answered {pending} pending {messages} messages\n"
    )?;
    write!(text, "busy {busy}\n")
}
