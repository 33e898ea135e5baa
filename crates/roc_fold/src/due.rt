//! Lines that are due.
ghost use Rattle.std.specs.Prelude.{◌≡◌, ◌↔◌, ◌<◌, ◌++◌, IsTrue, IfOk, OnOk, length};
ghost use Rattle.roc_log.specs.declared.line.LogLine.TheVariants.{Submit, In, Tick, Out, Answer};
ghost use Rattle.roc_plan.specs.Groups.{Plan as PlanValue};
ghost use Rattle.roc_wire.specs.declared.header.Header.{Header as HeaderValue};
ghost use Rattle.roc_wire.specs.Fits.{FitsHeader};
ghost use Rattle.roc_fold.specs.Fold.{Core, brought};
ghost use Rattle.roc_log.specs.Sent.{outs_logged};
ghost use Rattle.roc_fold.specs.Inner.Steps.{StepsBy, folding_of};

use roc_base::{NoMemory, Nums, TxnId};
use roc_log::{LogLine, has_spelling};
use roc_msg::{Msg, Outbox, Outgoing, Ran};
use roc_sequence::Sequence;
use roc_wire::{Header, WireFault, decode, encode};
use std::alloc::Global;

/// How far a fold is: the lines of the last event, how many of them came, and what was decided and what ran so far.
#[derive(Drop)]
pub(crate) struct Gathered {
    pub due: Vec<LogLine>,
    pub at: usize,
    pub decided: Sequence<TxnId>,
    pub ran: Sequence<Ran>,
}

/// Adds the lines of messages.
pub(crate) fn put_outs(
    alloc: Global,
    header: &Header,
    outs: &[Outgoing],
    due: &mut Vec<LogLine>,
) -> Result<(), NoMemory>
    requires { FitsHeader header.now }
    ensures { OnOk result (due.new.items ≡ due.old.items ++ outs_logged header.now outs.now) }
{
    for out in outs {
        if has_spelling(&out.msg) {
            let bytes = encode(alloc, header, &out.msg)?;
            due.push(LogLine::Out(Sequence::from_vec(bytes)))?;
        }
    }
    Ok(())
}

/// What comes of an event: its lines are due, and what it decided and what ran stands behind the rest.
pub(crate) fn take_outbox(
    alloc: Global,
    header: &Header,
    outbox: &Outbox,
    gathered: &mut Gathered,
) -> Result<(), NoMemory>
    requires { FitsHeader header.now }
    ensures due { OnOk result ((gathered.new.due.items ≡ outs_logged header.now outbox.now.messages) × (gathered.new.at ≡ 0)) }
    ensures decided { OnOk result (gathered.new.decided ≡ gathered.old.decided ++ outbox.now.decided) }
    ensures ran { OnOk result (gathered.new.ran ≡ gathered.old.ran ++ outbox.now.ran) }
{
    let mut due = Vec::new(alloc);
    put_outs(alloc, header, outbox.messages(), &mut due)?;
    gathered.decided.extend_from_slice(outbox.decided())?;
    gathered.ran.extend_from_slice(outbox.ran())?;
    gathered.due = due;
    gathered.at = 0;
    Ok(())
}

fn same_bytes(a: &[u8], b: &[u8]) -> bool
    ensures { IsTrue result ↔ (a.now ≡ b.now) }
{
    a == b
}

fn is_submit(line: &LogLine, proc: u16, args: &Nums) -> bool
    ensures { IsTrue result ↔ (line.now ≡ Submit proc args.now) }
{
    match line {
        LogLine::Submit {
            proc: of,
            args: with,
        } => *of == proc && *with == *args,
        _ => false,
    }
}

fn is_in(line: &LogLine, bytes: &[u8]) -> bool
    ensures { IsTrue result ↔ (line.now ≡ In bytes.now) }
{
    match line {
        LogLine::In(other) => same_bytes(other.as_slice(), bytes),
        _ => false,
    }
}

fn is_tick(line: &LogLine) -> bool
    ensures { IsTrue result ↔ (line.now ≡ Tick) }
{
    match line {
        LogLine::Tick => true,
        _ => false,
    }
}

fn is_out(line: &LogLine, bytes: &[u8]) -> bool
    ensures { IsTrue result ↔ (line.now ≡ Out bytes.now) }
{
    match line {
        LogLine::Out(other) => same_bytes(other.as_slice(), bytes),
        _ => false,
    }
}

fn is_answer(line: &LogLine, id: TxnId, reply: &Nums) -> bool
    ensures { IsTrue result ↔ (line.now ≡ Answer id reply.now) }
{
    match line {
        LogLine::Answer {
            id: of,
            reply: with,
        } => *of == id && *with == *reply,
        _ => false,
    }
}

fn is_same(line: &LogLine, due: &LogLine) -> bool
    ensures { IsTrue result ↔ (line.now ≡ due.now) }
{
    match due {
        LogLine::Submit { proc, args } => is_submit(line, *proc, args),
        LogLine::In(bytes) => is_in(line, bytes.as_slice()),
        LogLine::Tick => is_tick(line),
        LogLine::Out(bytes) => is_out(line, bytes.as_slice()),
        LogLine::Answer { id, reply } => is_answer(line, *id, reply),
    }
}

/// Whether a line is the next of those that are due, where one is; then it is due no longer.
pub(crate) fn take_due(gathered: &mut Gathered, line: &LogLine) -> bool
    requires { gathered.old.at < length gathered.old.due.items }
    ensures { (plan : PlanValue) (header : HeaderValue) (core : Core) → StepsBy plan header (folding_of core gathered.old) line.now (folding_of core gathered.new) result }
{
    if is_same(line, &gathered.due[gathered.at]) {
        gathered.at += 1;
        return true;
    }
    false
}

/// The message of a datagram with this tag.
pub(crate) fn brought(alloc: Global, tag: [u8; 8], bytes: &[u8]) -> Result<Option<Msg>, NoMemory>
    ensures { IfOk result (λ found. found ≡ brought tag bytes.now) }
{
    match decode(alloc, bytes) {
        Ok((header, msg)) => {
            if header.tag == tag {
                Ok(Some(msg))
            } else {
                Ok(None)
            }
        }
        Err(WireFault::NoMemory) => Err(NoMemory),
        Err(_) => Ok(None),
    }
}
