//! The lines of nodes.
ghost use Rattle.std.specs.Prelude.{◌≡◌, ◌++◌, OnOk, OnErr};
ghost use Rattle.std.specs.String.{string_bytes};
ghost use Rattle.roc_node.specs.NodeLine.{ender_text, where_some, node_line_words, node_line_text, node_lines_text, skip_lines, ignore_lines, end_lines};

use crate::{Counts, IgnoreCounts, Skip, SkipCounts};
use roc_base::{NoMemory, Shard, TxnId};
use roc_msg::Reason;
use roc_wire::WireFault;
use std::alloc::{AllocError, Global};

/// A line that a node writes besides its submissions and answers.
#[derive(Clone, Copy)]
pub enum NodeLine {
    /// A server has bound its address.
    Serving(Shard),
    /// A server's turns are over: whether a stop ended them, and how many datagrams were taken and skipped.
    EndServe {
        shard: Shard,
        stopped: bool,
        taken: u64,
        skipped: u64,
    },
    /// How many datagrams were skipped for this.
    Skipped {
        skip: Skip,
        count: u64,
    },
    /// How many messages were ignored for this.
    Ignored {
        reason: Reason,
        count: u64,
    },
    /// A transaction has no reply.
    Unanswered(TxnId),
    /// A coordinator's turns are over: how many requests were answered, were not, and were not submitted.
    EndSubmit {
        answered: u64,
        unanswered: u64,
        unsubmitted: u64,
    },
}

/// Adds a line, with a line feed at its end. `NoMemory` leaves the text as it was.
pub fn append_line(alloc: Global, into: &mut Vec<u8>, line: NodeLine) -> Result<(), NoMemory>
    ensures ok { OnOk result (into.new.items ≡ into.old.items ++ node_line_text line) }
    ensures err { OnErr result (into.new.items ≡ into.old.items) }
{
    let mut text = String::new(alloc);
    push_words(&mut text, line)?;
    text.push('\n')?;
    into.extend_from_slice(text.as_bytes())?;
    Ok(())
}

// Adds a line without its end.
fn push_words(text: &mut String, line: NodeLine) -> Result<(), AllocError>
    ensures { OnOk result (string_bytes text.new ≡ string_bytes text.old ++ node_line_words line) }
{
    match line {
        NodeLine::Serving(Shard(number)) => write!(text, "serving {number}"),
        NodeLine::EndServe {
            shard: Shard(number),
            stopped,
            taken,
            skipped,
        } => write!(
            text,
            "end {number} {} taken {taken} skipped {skipped}",
            ender(stopped)
        ),
        NodeLine::Skipped { skip, count } => push_skip(text, skip, count),
        NodeLine::Ignored { reason, count } => write!(text, "ignored {reason} {count}"),
        NodeLine::Unanswered(id) => write!(text, "unanswered {id}"),
        NodeLine::EndSubmit {
            answered,
            unanswered,
            unsubmitted,
        } => write!(
            text,
            "end {answered} answered {unanswered} unanswered {unsubmitted} unsubmitted"
        ),
    }
}

// What ended the turns of a server.
fn ender(stopped: bool) -> &'static str
    ensures { result.now ≡ ender_text stopped }
{
    if stopped { "stop" } else { "turns" }
}

fn push_skip(text: &mut String, skip: Skip, count: u64) -> Result<(), AllocError>
    ensures { OnOk result (string_bytes text.new ≡ string_bytes text.old ++ node_line_words (NodeLine.Skipped skip count)) }
{
    match skip {
        Skip::Fault(fault) => write!(text, "skipped {} {count}", fault.as_str()),
        Skip::Tag => write!(text, "skipped tag {count}"),
    }
}

// Adds a line, where the count in it is not 0.
fn append_some(
    alloc: Global,
    into: &mut Vec<u8>,
    count: u64,
    line: NodeLine,
) -> Result<(), NoMemory>
    ensures { OnOk result (into.new.items ≡ into.old.items ++ node_lines_text (where_some count line)) }
{
    if count > 0 {
        append_line(alloc, into, line)?;
    }
    Ok(())
}

// Adds how many datagrams were skipped for a fault, where any were.
fn append_skip(alloc: Global, into: &mut Vec<u8>, skip: Skip, count: u64) -> Result<(), NoMemory>
    ensures { OnOk result (into.new.items ≡ into.old.items ++ node_lines_text (where_some count (NodeLine.Skipped skip count))) }
{
    append_some(alloc, into, count, NodeLine::Skipped { skip, count })
}

fn append_ignore(
    alloc: Global,
    into: &mut Vec<u8>,
    reason: Reason,
    count: u64,
) -> Result<(), NoMemory>
    ensures { OnOk result (into.new.items ≡ into.old.items ++ node_lines_text (where_some count (NodeLine.Ignored reason count))) }
{
    append_some(alloc, into, count, NodeLine::Ignored { reason, count })
}

fn append_skips(alloc: Global, into: &mut Vec<u8>, skips: &SkipCounts) -> Result<(), NoMemory>
    ensures { OnOk result (into.new.items ≡ into.old.items ++ node_lines_text (skip_lines skips.now)) }
{
    append_skip(alloc, into, Skip::Fault(WireFault::Short), skips.short)?;
    append_skip(alloc, into, Skip::Fault(WireFault::Magic), skips.magic)?;
    append_skip(alloc, into, Skip::Fault(WireFault::Version), skips.version)?;
    append_skip(alloc, into, Skip::Fault(WireFault::Kind), skips.kind)?;
    append_skip(alloc, into, Skip::Fault(WireFault::Count), skips.count)?;
    append_skip(alloc, into, Skip::Fault(WireFault::Order), skips.order)?;
    append_skip(alloc, into, Skip::Fault(WireFault::Rest), skips.rest)?;
    append_skip(alloc, into, Skip::Tag, skips.tag)?;
    Ok(())
}

fn append_ignores(alloc: Global, into: &mut Vec<u8>, ignores: &IgnoreCounts) -> Result<(), NoMemory>
    ensures { OnOk result (into.new.items ≡ into.old.items ++ node_lines_text (ignore_lines ignores.now)) }
{
    append_ignore(alloc, into, Reason::Foreign, ignores.foreign)?;
    append_ignore(alloc, into, Reason::BadProc, ignores.bad_proc)?;
    append_ignore(alloc, into, Reason::BadGroup, ignores.bad_group)?;
    append_ignore(alloc, into, Reason::BadInputs, ignores.bad_inputs)?;
    append_ignore(alloc, into, Reason::NotHere, ignores.not_here)?;
    append_ignore(alloc, into, Reason::Late, ignores.late)?;
    append_ignore(alloc, into, Reason::Differs, ignores.differs)?;
    append_ignore(alloc, into, Reason::Stale, ignores.stale)?;
    append_ignore(alloc, into, Reason::Unfit, ignores.unfit)?;
    Ok(())
}

/// Adds the lines at the end of a server's turns; those of its counts only where they are asked for.
pub fn append_end(
    alloc: Global,
    into: &mut Vec<u8>,
    shard: Shard,
    stopped: bool,
    counts: bool,
    counted: &Counts,
) -> Result<(), NoMemory>
    ensures { OnOk result (into.new.items ≡ into.old.items ++ node_lines_text (end_lines shard stopped counts counted.now)) }
{
    let line = NodeLine::EndServe {
        shard,
        stopped,
        taken: counted.taken,
        skipped: counted.skipped,
    };
    append_line(alloc, into, line)?;
    if counts {
        append_skips(alloc, into, &counted.skips)?;
        append_ignores(alloc, into, &counted.ignores)?;
    }
    Ok(())
}
