//! The text of the check of a workload.
ghost use Rattle.std.specs.Prelude.{◌≡◌, ℕ, List};
ghost use Rattle.roc_io.specs.Cause.{HasCause};
ghost use Rattle.roc_cli_files.specs.Fault.{blames_file, blames_sink, fails_by, ReadsBut};
ghost use Rattle.roc_cli_files.specs.Input.{CheckEnds};
ghost use Rattle.roc_cli_files.specs.Inner.Input.{CheckTextEnds};

use crate::fault::Fault;
use crate::input::plan_of;
use roc_check::check_text;
use roc_io::{Files, Sink, Written};
use roc_plan::Plan;
use std::alloc::Global;

/// Checks the workload that a file holds, and writes the text of the check, or the line that says why it is not acceptable.
pub fn check_file<'a, F: Files, S: Sink>(
    alloc: Global,
    files: &mut F,
    name: &'a str,
    out: &mut S,
) -> Result<(), Fault<'a>>
    ensures ends { CheckEnds (F.content files.old) name.entry.now (S.taken out.old) (S.taken out.new) result }
    ensures failed { ReadsBut (F.failed_names files.old) (F.failed_names files.new) result }
    ensures file_faults { HasCause (fails_by blames_file result) (F.faults files.old) (F.faults files.new) }
    ensures sink_faults { HasCause (fails_by blames_sink result) (S.faults out.old) (S.faults out.new) }
    ensures unchanged { (other : List ℕ) → F.content files.new other ≡ F.content files.old other }
{
    match plan_of(alloc, files, name, out) {
        Ok(plan) => write_check(alloc, &plan, out),
        Err(fault) => Err(fault),
    }
}

// Writes the text of the check of an accepted workload.
fn write_check<'a, S: Sink>(alloc: Global, plan: &Plan, out: &mut S) -> Result<(), Fault<'a>>
    ensures ends { CheckTextEnds plan.now (S.taken out.old) (S.taken out.new) result }
    ensures faults { HasCause (fails_by blames_sink result) (S.faults out.old) (S.faults out.new) }
{
    let Ok(text) = check_text(alloc, plan) else {
        return Err(Fault::Memory);
    };
    match out.write(&text) {
        Written::Ok => Ok(()),
        Written::Failed => Err(Fault::Sink),
    }
}
