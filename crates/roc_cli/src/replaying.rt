//! The replay of a schedule: under one workload, or under two, where the second is what the first is to grow to.
ghost use Rattle.std.specs.Prelude.{◌≡◌, ◌≤◌, ℕ, List, Some, false};
ghost use Rattle.std.specs.Option.{option_copied};
ghost use Rattle.roc_io.specs.Cause.{HasCause};
ghost use Rattle.roc_epoch.specs.Files.{IsNextOf};
ghost use Rattle.roc_sched.specs.Schedule.{most_bytes};
ghost use Rattle.roc_cli_words.specs.Commands.{IsGrowthWithin, growth_of};
ghost use Rattle.roc_cli_files.specs.Fault.{blames_file, blames_sink, ReadsBut, fails_by};
ghost use Rattle.roc_cli_files.specs.Held.{HoldsPlan};
ghost use Rattle.roc_cli_files.specs.Input.{HoldsWithin};
ghost use Rattle.roc_cli_nodes.specs.Call.{run_call};
ghost use Rattle.roc_cli_nodes.specs.Words.{IsReplay};
ghost use Rattle.roc_cli.specs.Inner.Ends.{Ends, ReplayEnds};
ghost use Rattle.roc_cli.specs.Inner.Texts.{ReportLaws};

use roc_check::laws::{plans_are_accepted, programs_of_texts_have_names};
use roc_cli_files::{Fault, MOST_LISTED_BYTES, bytes_of, next_of, plan_of};
use roc_cli_words::Growth;
use roc_epoch::Next;
use roc_io::{Files, Sink};
use roc_plan::Plan;
use roc_replay::laws::reports_are_read_in_one_way;
use roc_replay::{Ended, replay};
use std::alloc::Global;

/// Replays a schedule under the plan of a workload, and under that of the one that it is to grow to, where there is one.
pub(crate) fn replay_files<'a, F: Files, S: Sink>(
    alloc: Global,
    workload: &'a str,
    schedule: &'a str,
    growth: Option<Growth<'a>>,
    files: &mut F,
    out: &mut S,
) -> Result<(), Fault<'a>>
    requires within { IsGrowthWithin (growth_of growth) }
    ensures ends { (words : List (List ℕ)) → IsReplay words workload.entry.now schedule.entry.now (growth_of growth.entry)
        → Ends (run_call F.Files S.Sink words files.old files.new out.old out.new) result }
    ensures failed { ReadsBut (F.failed_names files.old) (F.failed_names files.new) result }
    ensures file_faults { HasCause (fails_by blames_file result) (F.faults files.old) (F.faults files.new) }
    ensures sink_faults { HasCause (fails_by blames_sink result) (S.faults out.old) (S.faults out.new) }
    ensures content { (name : List ℕ) → F.content files.new name ≡ F.content files.old name }
{
    match plan_of(alloc, files, workload, out) {
        Ok(plan) => replay_schedule(alloc, &plan, schedule, growth, files, out),
        Err(fault) => Err(fault),
    }
}

// The same, once the workload was read.
fn replay_schedule<'a, F: Files, S: Sink>(
    alloc: Global,
    plan: &Plan,
    schedule: &'a str,
    growth: Option<Growth<'a>>,
    files: &mut F,
    out: &mut S,
) -> Result<(), Fault<'a>>
    requires within { IsGrowthWithin (growth_of growth) }
    ensures ends { (words : List (List ℕ)) (workload : List ℕ) → IsReplay words workload schedule.entry.now (growth_of growth.entry)
        → HoldsPlan (F.content files.old) workload plan.now → Ends (run_call F.Files S.Sink words files.old files.new out.old out.new) result }
    ensures failed { ReadsBut (F.failed_names files.old) (F.failed_names files.new) result }
    ensures file_faults { HasCause (fails_by blames_file result) (F.faults files.old) (F.faults files.new) }
    ensures sink_faults { HasCause (fails_by blames_sink result) (S.faults out.old) (S.faults out.new) }
    ensures content { (name : List ℕ) → F.content files.new name ≡ F.content files.old name }
{
    match bytes_of(alloc, files, schedule, MOST_LISTED_BYTES) {
        Ok(bytes) => replay_bytes(alloc, plan, schedule, &bytes, growth, files, out),
        Err(fault) => Err(fault),
    }
}

// The same, once the bytes of the schedule were read: its lines are judged by the last workload that there is.
fn replay_bytes<'a, F: Files, S: Sink>(
    alloc: Global,
    plan: &Plan,
    schedule: &'a str,
    bytes: &[u8],
    growth: Option<Growth<'a>>,
    files: &mut F,
    out: &mut S,
) -> Result<(), Fault<'a>>
    requires within { IsGrowthWithin (growth_of growth) }
    ensures ends { (words : List (List ℕ)) (workload : List ℕ) → IsReplay words workload schedule.entry.now (growth_of growth.entry)
        → HoldsPlan (F.content files.old) workload plan.now → HoldsWithin (F.content files.old) schedule.entry.now most_bytes bytes.now
        → Ends (run_call F.Files S.Sink words files.old files.new out.old out.new) result }
    ensures failed { ReadsBut (F.failed_names files.old) (F.failed_names files.new) result }
    ensures file_faults { HasCause (fails_by blames_file result) (F.faults files.old) (F.faults files.new) }
    ensures sink_faults { HasCause (fails_by blames_sink result) (S.faults out.old) (S.faults out.new) }
    ensures content { (name : List ℕ) → F.content files.new name ≡ F.content files.old name }
{
    reports_keep_laws();
    match growth {
        Some(growth) => replay_grown(alloc, plan, schedule, bytes, growth, files, out),
        None => replay_under(alloc, plan, None, schedule, bytes, out),
    }
}

// The same, where the workload is to grow.
fn replay_grown<'a, F: Files, S: Sink>(
    alloc: Global,
    plan: &Plan,
    schedule: &'a str,
    bytes: &[u8],
    growth: Growth<'a>,
    files: &mut F,
    out: &mut S,
) -> Result<(), Fault<'a>>
    requires within { (1 ≤ growth.coords) × (growth.coords ≤ 16) }
    ensures ends { (words : List (List ℕ)) (workload : List ℕ) → IsReplay words workload schedule.entry.now (Some (growth.entry.workload.now, growth.entry.coords))
        → HoldsPlan (F.content files.old) workload plan.now → HoldsWithin (F.content files.old) schedule.entry.now most_bytes bytes.now
        → Ends (run_call F.Files S.Sink words files.old files.new out.old out.new) result }
    ensures failed { ReadsBut (F.failed_names files.old) (F.failed_names files.new) result }
    ensures file_faults { HasCause (fails_by blames_file result) (F.faults files.old) (F.faults files.new) }
    ensures sink_faults { HasCause (fails_by blames_sink result) (S.faults out.old) (S.faults out.new) }
    ensures content { (name : List ℕ) → F.content files.new name ≡ F.content files.old name }
{
    reports_keep_laws();
    match next_of(alloc, files, growth.workload, plan, growth.coords, out) {
        Ok(next) => replay_under(alloc, plan, Some(&next), schedule, bytes, out),
        Err(fault) => Err(fault),
    }
}

// Replays the schedule of these bytes.
fn replay_under<'a, S: Sink>(
    alloc: Global,
    plan: &Plan,
    next: Option<&Next>,
    name: &'a str,
    bytes: &[u8],
    out: &mut S,
) -> Result<(), Fault<'a>>
    requires next { IsNextOf plan.now (option_copied next) }
    ensures ends { ReplayEnds plan.now (option_copied next.entry) bytes.now name.entry.now (S.taken out.old) (S.taken out.new) result }
    ensures no_file { fails_by blames_file result ≡ false }
    ensures faults { HasCause (fails_by blames_sink result) (S.faults out.old) (S.faults out.new) }
{
    match replay(alloc, plan, next, bytes, out) {
        Ended::Done(_) => Ok(()),
        Ended::Text { line, what } => Err(Fault::At {
            file: name,
            line,
            what: what.as_str(),
        }),
        Ended::SinkFault => Err(Fault::Sink),
        Ended::NoMemory => Err(Fault::Memory),
    }
}

// What the laws say of reports.
fn reports_keep_laws()
    ensures { ReportLaws }
{
    programs_of_texts_have_names();
    reports_are_read_in_one_way();
    plans_are_accepted();
}
