//! The text of a verdict.
ghost use Rattle.std.specs.Prelude.{◌≡◌, ◌++◌, map, OnOk, OnErr};
ghost use Rattle.std.specs.String.{string_bytes};
ghost use Rattle.roc_auditor.specs.VerdictText.{spaced_ids, spaced_values, judgement_text, mismatch_text, log_named, verdict_text};

use crate::verdict::Verdict;
use roc_base::{NoMemory, TxnId};
use roc_judge::Judgement;
use std::alloc::{AllocError, Global};

/// Adds the lines of a verdict, where these are the names of the logs; a log without one is shown as no name. `NoMemory` leaves the text
/// as it was.
pub fn append_verdict(
    alloc: Global,
    into: &mut Vec<u8>,
    names: &[&str],
    verdict: &Verdict,
) -> Result<(), NoMemory>
    ensures ok { OnOk result (into.new.items ≡ into.old.items ++ verdict_text (map (λ name. name.now) names.now) verdict.now) }
    ensures err { OnErr result (into.new.items ≡ into.old.items) }
{
    let mut text = String::new(alloc);
    push_verdict(&mut text, names, verdict)?;
    into.extend_from_slice(text.as_bytes())?;
    Ok(())
}

fn push_verdict(text: &mut String, names: &[&str], verdict: &Verdict) -> Result<(), AllocError>
    ensures { OnOk result (string_bytes text.new ≡ string_bytes text.old ++ verdict_text (map (λ name. name.now) names.now) verdict.now) }
{
    match verdict {
        Verdict::Mismatch { log, line } => push_mismatch(text, log_named(names, *log), *line),
        Verdict::Judged(judgement) => push_judgement(text, judgement),
    }
}

fn push_mismatch(text: &mut String, name: &str, line: u64) -> Result<(), AllocError>
    ensures { OnOk result (string_bytes text.new ≡ string_bytes text.old ++ mismatch_text name.now line) }
{
    write!(text, "no mismatch {name}:{line}\n")
}

fn push_judgement(text: &mut String, judgement: &Judgement) -> Result<(), AllocError>
    ensures { OnOk result (string_bytes text.new ≡ string_bytes text.old ++ judgement_text judgement.now) }
{
    match judgement {
        Judgement::Missing(id) => write!(text, "no missing {id}\n"),
        Judgement::Unsubmitted(id) => write!(text, "no submitted {id}\n"),
        Judgement::Cycle(ids) => {
            text.push_str("no cycle")?;
            push_ids(text, ids.as_slice())?;
            text.push('\n')
        }
        Judgement::Reply { id, logged, run } => {
            write!(text, "no reply {id}")?;
            push_values(text, logged.as_slice())?;
            text.push_str(" /")?;
            push_values(text, run.as_slice())?;
            text.push('\n')
        }
        Judgement::Yes { order, answered } => {
            text.push_str("order")?;
            push_ids(text, order.as_slice())?;
            write!(text, "\nyes {answered} answered\n")
        }
    }
}

// Adds ids, a space before each.
fn push_ids(text: &mut String, ids: &[TxnId]) -> Result<(), AllocError>
    ensures { OnOk result (string_bytes text.new ≡ string_bytes text.old ++ spaced_ids ids.now) }
{
    for id in ids {
        write!(text, " {id}")?;
    }
    Ok(())
}

// Adds values, a space before each.
fn push_values(text: &mut String, values: &[i64]) -> Result<(), AllocError>
    ensures { OnOk result (string_bytes text.new ≡ string_bytes text.old ++ spaced_values values.now) }
{
    for value in values {
        write!(text, " {value}")?;
    }
    Ok(())
}

// The name of the log at a place, or no name.
fn log_named<'a>(names: &[&'a str], place: usize) -> &'a str
    ensures { result.now ≡ log_named (map (λ name. name.now) names.now) place }
{
    if place < names.len() {
        names[place]
    } else {
        ""
    }
}
