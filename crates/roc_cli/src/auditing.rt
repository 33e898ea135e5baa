//! The audit of logs: what they tell is judged, and the verdict is written.
ghost use Rattle.std.specs.Prelude.{◌≡◌, ℕ, List, false};
ghost use Rattle.roc_io.specs.Cause.{HasCause};
ghost use Rattle.roc_log.specs.declared.line.Log.{Log};
ghost use Rattle.roc_auditor.specs.Taken.{HasTaken};
ghost use Rattle.roc_cli_files.specs.Fault.{blames_file, blames_sink, fails_by, ReadsBut};
ghost use Rattle.roc_cli_files.specs.Listed.{names_listed};
ghost use Rattle.roc_cli_nodes.specs.Call.{run_call};
ghost use Rattle.roc_cli_nodes.specs.Words.{IsAudit};
ghost use Rattle.roc_cli.specs.Audited.{is_yes};
ghost use Rattle.roc_cli.specs.Inner.Auditing.{LogsEnd, VerdictEnds, fault_of_audit};
ghost use Rattle.roc_cli.specs.Inner.Ends.{AuditEnds, Ends};

use roc_auditor::laws::yes_vouches_for_logs;
use roc_auditor::{AuditFault, Auditor, Verdict, append_verdict};
use roc_cli_files::{Fault, Tagged, logs_of, tagged_of};
use roc_io::{Files, Sink, Written};
use roc_judge::Judgement;
use roc_plan::Plan;
use std::alloc::Global;

/// Judges the logs of the named files, which are of the named workload, and writes the verdict.
pub(crate) fn audit_files<'a, F: Files, S: Sink>(
    alloc: Global,
    workload: &'a str,
    names: &[&'a str],
    files: &mut F,
    out: &mut S,
) -> Result<(), Fault<'a>>
    ensures ends { (words : List (List ℕ)) → IsAudit words workload.entry.now (names_listed names.now)
        → Ends (run_call F.Files S.Sink words files.old files.new out.old out.new) result }
    ensures failed { ReadsBut (F.failed_names files.old) (F.failed_names files.new) result }
    ensures file_faults { HasCause (fails_by blames_file result) (F.faults files.old) (F.faults files.new) }
    ensures sink_faults { HasCause (fails_by blames_sink result) (S.faults out.old) (S.faults out.new) }
    ensures content { (name : List ℕ) → F.content files.new name ≡ F.content files.old name }
{
    yes_vouches_for_logs();
    match tagged_of(alloc, files, workload, out) {
        Ok(tagged) => audit_logs(alloc, &tagged, names, files, out),
        Err(fault) => Err(fault),
    }
}

// The same, once the workload was read.
fn audit_logs<'a, F: Files, S: Sink>(
    alloc: Global,
    tagged: &Tagged,
    names: &[&'a str],
    files: &mut F,
    out: &mut S,
) -> Result<(), Fault<'a>>
    ensures ends { LogsEnd (F.content files.old) (names_listed names.now) tagged.now.plan tagged.now.tag (S.taken out.old) (S.taken out.new) result }
    ensures failed { ReadsBut (F.failed_names files.old) (F.failed_names files.new) result }
    ensures file_faults { HasCause (fails_by blames_file result) (F.faults files.old) (F.faults files.new) }
    ensures sink_faults { HasCause (fails_by blames_sink result) (S.faults out.old) (S.faults out.new) }
    ensures content { (name : List ℕ) → F.content files.new name ≡ F.content files.old name }
{
    match logs_of(alloc, names, &tagged.plan, &tagged.tag, files) {
        Ok(auditor) => audit_taken(alloc, &tagged.plan, auditor, names, out),
        Err(fault) => Err(fault),
    }
}

// The same, once all logs were taken.
fn audit_taken<'a, S: Sink>(
    alloc: Global,
    plan: &Plan,
    auditor: Auditor,
    names: &[&'a str],
    out: &mut S,
) -> Result<(), Fault<'a>>
    ensures ends { (logs : List Log) → HasTaken plan.now logs auditor → AuditEnds plan.now logs (names_listed names.now) (S.taken out.old) (S.taken out.new) result }
    ensures no_file { fails_by blames_file result ≡ false }
    ensures faults { HasCause (fails_by blames_sink result) (S.faults out.old) (S.faults out.new) }
{
    match auditor.verdict(plan) {
        Ok(verdict) => tell_verdict(alloc, names, &verdict, out),
        Err(fault) => Err(unaudited(fault)),
    }
}

// Why there is no verdict.
fn unaudited<'a>(fault: AuditFault) -> Fault<'a>
    ensures is { result ≡ fault_of_audit fault }
    ensures no_file { blames_file result ≡ false }
    ensures no_sink { blames_sink result ≡ false }
{
    match fault {
        AuditFault::Gap(shard) => Fault::Gap(shard),
        AuditFault::NoMemory => Fault::Memory,
    }
}

// Writes a verdict.
fn tell_verdict<'a, S: Sink>(
    alloc: Global,
    names: &[&'a str],
    verdict: &Verdict,
    out: &mut S,
) -> Result<(), Fault<'a>>
    ensures ends { VerdictEnds (names_listed names.now) verdict.now (S.taken out.old) (S.taken out.new) result }
    ensures no_file { fails_by blames_file result ≡ false }
    ensures faults { HasCause (fails_by blames_sink result) (S.faults out.old) (S.faults out.new) }
{
    let mut text = Vec::new(alloc);
    let Ok(()) = append_verdict(alloc, &mut text, names, verdict) else {
        return Err(Fault::Memory);
    };
    match out.write(&text) {
        Written::Failed => Err(Fault::Sink),
        Written::Ok => {
            if is_yes(verdict) {
                Ok(())
            } else {
                Err(Fault::Refuted)
            }
        }
    }
}

// Whether one order explains what the logs tell.
fn is_yes(verdict: &Verdict) -> bool
    ensures { result ≡ is_yes verdict.now }
{
    matches!(verdict, Verdict::Judged(Judgement::Yes { .. }))
}
