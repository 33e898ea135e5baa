//! `parse_log`: from the bytes of a log to its lines.

ghost use Rattle.std.specs.Prelude.{Err, IfOk, IfErr};
ghost use Rattle.roc_log.specs.declared.line.Log.{Log};
ghost use Rattle.roc_log.specs.Words.{log_lines};
ghost use Rattle.roc_log.specs.Logs.{IsLog, IsLogFault, IsLogOr, IsFaultBy};
ghost use Rattle.roc_log.specs.Inner.Given.{GivesAt, views, log_of_lines};

use crate::fault::{LogFault, What};
use crate::line::Log;
use crate::node_line::first_line;
use crate::parts::{line_count, parts_of};
use crate::reading::further_lines;
use roc_base::Node;
use roc_program::Workload;
use std::alloc::Global;

/// The log of these lines.
fn log_of_lines(
    alloc: Global,
    workload: &Workload,
    tag: &[u8; 8],
    seen: &[Node],
    lines: &[&[u8]],
) -> Result<Log, LogFault>
    ensures { GivesAt result (log_of_lines workload.now tag.now seen.now (views lines.now)) }
{
    let Some((first, further)) = lines.split_first() else {
        return Err(LogFault::At {
            line: 1,
            what: What::Word,
        });
    };
    match first_line(alloc, workload.shards(), seen, first) {
        Ok(node) => match further_lines(alloc, workload, tag, node, further) {
            Ok(lines) => Ok(Log {
                tag: *tag,
                node,
                lines,
            }),
            Err(fault) => Err(fault),
        },
        Err(fault) => Err(fault.at(1)),
    }
}

#[tactic(auto, unfolding(crate::specs::Words::log_lines))]
fn log_of(
    alloc: Global,
    workload: &Workload,
    tag: &[u8; 8],
    seen: &[Node],
    text: &[u8],
) -> Result<Log, LogFault>
    ensures { GivesAt result (log_of_lines workload.now tag.now seen.now (log_lines text.now)) }
{
    let parts = parts_of(alloc, text, b'\n')?;
    let count = line_count(&parts);
    log_of_lines(alloc, workload, tag, seen, &parts[..count])
}

/// The log that bytes are, under a workload with this tag, where there are logs of the nodes `seen` already:
/// `docs/FORMATS.md` says what that is. Its size is not judged here.
///
/// Of other bytes the first fault is named. `NoMemory` leaves nothing behind.
pub fn parse_log(
    alloc: Global,
    workload: &Workload,
    tag: &[u8; 8],
    seen: &[Node],
    text: &[u8],
) -> Result<Log, LogFault>
    // What is taken is this log.
    ensures found { IfOk result (λ log. IsLog workload.now tag.now seen.now text.now log) }
    // A log is taken, unless memory runs out.
    ensures only { (log : Log) → IsLog workload.now tag.now seen.now text.now log → IsLogOr log result }
    // A fault is the first one of the bytes.
    ensures fault { IfErr result (IsFaultBy (IsLogFault workload.now tag.now seen.now text.now)) }
{
    log_of(alloc, workload, tag, seen, text)
}
