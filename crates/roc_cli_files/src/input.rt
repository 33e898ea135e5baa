//! The files that the words name.
ghost use Rattle.std.specs.Prelude.{◌≡◌, ℕ, List, false, IfOk, IfErr};
ghost use Rattle.roc_io.specs.Cause.{HasCause};
ghost use Rattle.roc_report.specs.Shown.{shown_check};
ghost use Rattle.roc_check.specs.Checked.{IsCheckFault};
ghost use Rattle.roc_cli_files.specs.Input.{HoldsWithin, IsReadFault, PlanEnds};
ghost use Rattle.roc_cli_files.specs.Fault.{blames_file, blames_sink, blames_link, fails_by, ReadsBut};
ghost use Rattle.roc_cli_files.specs.Inner.Input.{TextEnds, TextFails, RejectionEnds, TellsError, TellsMisuse};

use crate::fault::Fault;
use roc_check::{CheckFault, check};
use roc_io::{Files, Read, Sink, Written};
use roc_lang::LangError;
use roc_lang::limits::TEXT_BYTES;
use roc_lang_scope::ScopeFault;
use roc_plan::Plan;
use roc_program::Workload;
use roc_report::{CheckLine, append_check};
use std::alloc::Global;

/// The bytes that a file holds, of which there may be so many.
pub fn bytes_of<'a, F: Files>(
    alloc: Global,
    files: &mut F,
    name: &'a str,
    most: usize,
) -> Result<Vec<u8>, Fault<'a>>
    ensures held { IfOk result (λ bytes. HoldsWithin (F.content files.old) name.entry.now most bytes.items) }
    ensures fault { IfErr result (IsReadFault (F.content files.old) name.entry.now most) }
    ensures cause { HasCause (fails_by blames_file result) (F.faults files.old) (F.faults files.new) }
    ensures failed { ReadsBut (F.failed_names files.old) (F.failed_names files.new) result }
    ensures unchanged { (other : List ℕ) → F.content files.new other ≡ F.content files.old other }
    ensures no_link { fails_by blames_link result ≡ false }
{
    let mut bytes = Vec::new(alloc);
    match files.read(name, &mut bytes, most) {
        Read::Ok => Ok(bytes),
        Read::TooLong => Err(Fault::TooLong(name)),
        Read::NoMemory => Err(Fault::Memory),
        Read::Failed => Err(Fault::File(name)),
    }
}

/// The plan of the workload that a file holds. Where it is not acceptable, standard output is told why.
pub fn plan_of<'a, F: Files, S: Sink>(
    alloc: Global,
    files: &mut F,
    name: &'a str,
    out: &mut S,
) -> Result<Plan, Fault<'a>>
    ensures ends { PlanEnds (F.content files.old) name.entry.now (S.taken out.old) (S.taken out.new) result }
    ensures failed { ReadsBut (F.failed_names files.old) (F.failed_names files.new) result }
    ensures file_faults { HasCause (fails_by blames_file result) (F.faults files.old) (F.faults files.new) }
    ensures sink_faults { HasCause (fails_by blames_sink result) (S.faults out.old) (S.faults out.new) }
    ensures unchanged { (other : List ℕ) → F.content files.new other ≡ F.content files.old other }
{
    match bytes_of(alloc, files, name, TEXT_BYTES) {
        Ok(bytes) => checked(alloc, name, &bytes, out),
        Err(fault) => Err(fault),
    }
}

/// The plan of the workload of these bytes, of the file of this name.
pub(crate) fn checked<'a, S: Sink>(
    alloc: Global,
    name: &'a str,
    bytes: &[u8],
    out: &mut S,
) -> Result<Plan, Fault<'a>>
    ensures ends { TextEnds bytes.now name.entry.now (S.taken out.old) (S.taken out.new) result }
    ensures faults { HasCause (fails_by blames_sink result) (S.faults out.old) (S.faults out.new) }
    ensures no_link { fails_by blames_link result ≡ false }
{
    match check(alloc, bytes) {
        Ok(plan) => Ok(plan),
        Err(fault) => Err(fault_of_check(alloc, name, fault, out)),
    }
}

// A fault of the check, with the file's name; a refusal is written.
fn fault_of_check<'a, S: Sink>(
    alloc: Global,
    name: &'a str,
    fault: CheckFault,
    out: &mut S,
) -> Fault<'a>
    ensures ends { (bytes : List ℕ) → IsCheckFault bytes fault → TextFails bytes name.entry.now (S.taken out.old) (S.taken out.new) result }
    ensures faults { HasCause (blames_sink result) (S.faults out.old) (S.faults out.new) }
    ensures no_link { blames_link result ≡ false }
{
    match fault {
        CheckFault::Lang(error) => fault_of(name, error),
        CheckFault::Scope(fault) => misuse_of(name, fault),
        CheckFault::Apart {
            workload,
            p,
            q,
            cycle,
        } => {
            let cycle = cycle.as_slice();
            reject(alloc, &workload, &CheckLine::Apart { p, q, cycle }, out)
        }
        CheckFault::Blocked {
            workload,
            p,
            q,
            x,
            cycle,
        } => {
            let cycle = cycle.as_slice();
            reject(
                alloc,
                &workload,
                &CheckLine::Blocked { p, q, x, cycle },
                out,
            )
        }
        CheckFault::NoMemory => Fault::Memory,
    }
}

// Writes the line that says why a workload is not acceptable.
fn reject<'a, S: Sink>(
    alloc: Global,
    workload: &Workload,
    line: &CheckLine,
    out: &mut S,
) -> Fault<'a>
    ensures ends { RejectionEnds workload.now (shown_check line.now) (S.taken out.old) (S.taken out.new) result }
    ensures faults { HasCause (blames_sink result) (S.faults out.old) (S.faults out.new) }
    ensures no_link { blames_link result ≡ false }
{
    let mut text = Vec::new(alloc);
    let Ok(()) = append_check(alloc, &mut text, workload, line) else {
        return Fault::Memory;
    };
    match out.write(&text) {
        Written::Ok => Fault::Rejected,
        Written::Failed => Fault::Sink,
    }
}

/// A fault of a workload's text, with the file's name.
pub(crate) fn fault_of(name: &str, error: LangError) -> Fault<'_>
    ensures told { TellsError name.entry.now error result }
    ensures no_link { blames_link result ≡ false }
{
    match error {
        LangError::At { line, what } => Fault::At {
            file: name,
            line,
            what: what.as_str(),
        },
        LangError::NoMemory => Fault::Memory,
    }
}

/// A fault of a workload's scope, with the file's name.
pub(crate) fn misuse_of(name: &str, fault: ScopeFault) -> Fault<'_>
    ensures told { TellsMisuse name.entry.now fault result }
    ensures no_link { blames_link result ≡ false }
{
    match fault {
        ScopeFault::At { line, what } => Fault::Scope {
            file: name,
            line,
            what,
        },
        ScopeFault::NoMemory => Fault::Memory,
    }
}
