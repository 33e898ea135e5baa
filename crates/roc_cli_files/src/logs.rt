//! The logs of nodes: each file is read, judged and taken before the next is read.
ghost use Rattle.std.specs.Prelude.{◌≡◌, ℕ, List, [], false, IfOk, IfErr};
ghost use Rattle.roc_io.specs.Cause.{HasCause};
ghost use Rattle.roc_log.specs.declared.line.Log.{Log};
ghost use Rattle.roc_auditor.specs.Taken.{HasTaken};
ghost use Rattle.roc_cli_files.specs.Fault.{blames_file, blames_sink, blames_link, fails_by, ReadsBut};
ghost use Rattle.roc_cli_files.specs.Listed.{names_listed, HasTakenNamed, LogsFail};
ghost use Rattle.roc_cli_files.specs.Inner.Logs.{TakesOne, TakesText};

use crate::fault::Fault;
use crate::input::bytes_of;
use roc_auditor::Auditor;
use roc_base::NoMemory;
use roc_io::Files;
use roc_log::{LogFault, parse_log};
use roc_plan::Plan;
use std::alloc::Global;

/// How many bytes a log may have.
pub const MOST_LOG_BYTES: usize = 67_108_864;

/// An auditor that has taken the logs that files hold, in order, of a workload with this plan and this tag.
pub fn logs_of<'a, F: Files>(
    alloc: Global,
    names: &[&'a str],
    plan: &Plan,
    tag: &[u8; 8],
    files: &mut F,
) -> Result<Auditor, Fault<'a>>
    ensures held { IfOk result (HasTakenNamed (F.content files.old) (names_listed names.now) plan.now tag.now) }
    ensures fails { IfErr result (LogsFail (F.content files.old) (names_listed names.now) plan.now tag.now) }
    ensures failed { ReadsBut (F.failed_names files.old) (F.failed_names files.new) result }
    ensures file_faults { HasCause (fails_by blames_file result) (F.faults files.old) (F.faults files.new) }
    ensures no_sink { fails_by blames_sink result ≡ false }
    ensures unchanged { (name : List ℕ) → F.content files.new name ≡ F.content files.old name }
    ensures no_link { fails_by blames_link result ≡ false }
{
    let mut auditor = Auditor::new(alloc);
    match take_all(alloc, names, plan, tag, files, &mut auditor) {
        Ok(()) => Ok(auditor),
        Err(fault) => Err(fault),
    }
}

// Has an auditor that took nothing take the logs.
fn take_all<'a, F: Files>(
    alloc: Global,
    names: &[&'a str],
    plan: &Plan,
    tag: &[u8; 8],
    files: &mut F,
    auditor: &mut Auditor,
) -> Result<(), Fault<'a>>
    requires { HasTaken plan.now [] auditor.old }
    ensures held { IfOk result (λ done. HasTakenNamed (F.content files.old) (names_listed names.now) plan.now tag.now auditor.new) }
    ensures fails { IfErr result (LogsFail (F.content files.old) (names_listed names.now) plan.now tag.now) }
    ensures failed { ReadsBut (F.failed_names files.old) (F.failed_names files.new) result }
    ensures file_faults { HasCause (fails_by blames_file result) (F.faults files.old) (F.faults files.new) }
    ensures no_sink { fails_by blames_sink result ≡ false }
    ensures unchanged { (name : List ℕ) → F.content files.new name ≡ F.content files.old name }
    ensures no_link { fails_by blames_link result ≡ false }
{
    for name in names {
        match take_one(alloc, *name, plan, tag, files, auditor) {
            Ok(()) => {}
            Err(fault) => return Err(fault),
        }
    }
    Ok(())
}

// Has it take the log of one file.
fn take_one<'a, F: Files>(
    alloc: Global,
    name: &'a str,
    plan: &Plan,
    tag: &[u8; 8],
    files: &mut F,
    auditor: &mut Auditor,
) -> Result<(), Fault<'a>>
    ensures takes { (logs : List Log) → HasTaken plan.now logs auditor.old → TakesOne (F.content files.old) name.entry.now plan.now tag.now logs auditor.new result }
    ensures failed { ReadsBut (F.failed_names files.old) (F.failed_names files.new) result }
    ensures file_faults { HasCause (fails_by blames_file result) (F.faults files.old) (F.faults files.new) }
    ensures no_sink { fails_by blames_sink result ≡ false }
    ensures unchanged { (other : List ℕ) → F.content files.new other ≡ F.content files.old other }
    ensures no_link { fails_by blames_link result ≡ false }
{
    match bytes_of(alloc, files, name, MOST_LOG_BYTES) {
        Ok(bytes) => take_text(alloc, name, plan, tag, &bytes, auditor),
        Err(fault) => Err(fault),
    }
}

// Has it take the log that these bytes are, of the file of this name.
fn take_text<'a>(
    alloc: Global,
    name: &'a str,
    plan: &Plan,
    tag: &[u8; 8],
    bytes: &[u8],
    auditor: &mut Auditor,
) -> Result<(), Fault<'a>>
    ensures takes { (logs : List Log) → HasTaken plan.now logs auditor.old → TakesText bytes.now name.entry.now plan.now tag.now logs auditor.new result }
    ensures no_file { fails_by blames_file result ≡ false }
    ensures no_sink { fails_by blames_sink result ≡ false }
    ensures no_link { fails_by blames_link result ≡ false }
{
    match parse_log(alloc, plan.workload(), tag, auditor.nodes(), bytes) {
        Ok(log) => match auditor.take(plan, log) {
            Ok(()) => Ok(()),
            Err(NoMemory) => Err(Fault::Memory),
        },
        Err(LogFault::At { line, what }) => Err(Fault::Log {
            file: name,
            line,
            what,
        }),
        Err(LogFault::NoMemory) => Err(Fault::Memory),
    }
}
