//! The text of a log, line by line. Each call adds exactly one line, or those of several messages, or leaves what is there as it was.
ghost use Rattle.std.specs.Prelude.{◌≡◌, [], ◌∷◌, ◌++◌, OnOk, OnErr};
ghost use Rattle.std.specs.List.{flat_map};
ghost use Rattle.std.specs.Fmt.{signed_decimal};
ghost use Rattle.std.specs.String.{string_bytes};
ghost use Rattle.hex.specs.Hex.{encode_lower};
ghost use Rattle.roc_program.specs.LookUps.{procedure_name};
ghost use Rattle.roc_program.specs.Program.{Workload as Program};
ghost use Rattle.roc_wire.specs.Fits.{FitsHeader};
ghost use Rattle.roc_log.specs.declared.line.LogLine.TheVariants.{Submit, In, Tick, Answer};
ghost use Rattle.roc_log.specs.LogLine.{log_line_text, node_line_text, lines_text};
ghost use Rattle.roc_log.specs.Sent.{outs_logged};
ghost use Rattle.roc_log.specs.Inner.Writing.{out_text};

use crate::spellable::has_spelling;
use roc_base::{NoMemory, Node, Nums, TxnId};
use roc_msg::Outgoing;
use roc_program::Workload;
use roc_wire::{Header, encode};
use std::alloc::{AllocError, Global};

/// Adds the first line of the log of a node. `NoMemory` leaves the text as it was.
pub fn append_node(alloc: Global, into: &mut Vec<u8>, node: Node) -> Result<(), NoMemory>
    ensures ok { OnOk result (into.new.items ≡ into.old.items ++ node_line_text node) }
    ensures err { OnErr result (into.new.items ≡ into.old.items) }
{
    let mut text = String::new(alloc);
    write!(&mut text, "node {node}")?;
    put(into, &mut text)
}

/// Adds the line of a submission that was taken. `NoMemory` leaves the text as it was.
#[tactic(auto, using(crate::proofs::Appended::numbers_are_words))]
pub fn append_submit(
    alloc: Global,
    into: &mut Vec<u8>,
    workload: &Workload,
    proc: u16,
    args: &Nums,
) -> Result<(), NoMemory>
    ensures ok { OnOk result (into.new.items ≡ into.old.items ++ log_line_text workload.now (Submit proc args.now)) }
    ensures err { OnErr result (into.new.items ≡ into.old.items) }
{
    let mut text = String::new(alloc);
    text.push_str("submit ")?;
    text.push_str(procedure_name(workload, proc))?;
    push_numbers(&mut text, args.as_slice())?;
    put(into, &mut text)
}

/// Adds the line of a datagram that was taken. `NoMemory` leaves the text as it was.
pub fn append_in(alloc: Global, into: &mut Vec<u8>, bytes: &[u8]) -> Result<(), NoMemory>
    ensures ok { (program : Program) → OnOk result (into.new.items ≡ into.old.items ++ log_line_text program (In bytes.now)) }
    ensures err { OnErr result (into.new.items ≡ into.old.items) }
{
    let mut text = String::new(alloc);
    push_datagram(alloc, &mut text, "in ", bytes)?;
    put(into, &mut text)
}

/// Adds the line of a tick. `NoMemory` leaves the text as it was.
pub fn append_tick(into: &mut Vec<u8>) -> Result<(), NoMemory>
    ensures ok { (program : Program) → OnOk result (into.new.items ≡ into.old.items ++ log_line_text program Tick) }
    ensures err { OnErr result (into.new.items ≡ into.old.items) }
{
    into.extend_from_slice(b"tick\n")?;
    Ok(())
}

/// Adds a line for each of these messages of this sender that has a spelling, in order, also for one that goes nowhere.
/// `NoMemory` leaves the text as it was.
pub fn append_outs(
    alloc: Global,
    into: &mut Vec<u8>,
    header: &Header,
    outs: &[Outgoing],
) -> Result<(), NoMemory>
    requires { FitsHeader header.now }
    ensures ok { (program : Program) → OnOk result (into.new.items ≡ into.old.items ++ lines_text program (outs_logged header.now outs.now)) }
    ensures err { OnErr result (into.new.items ≡ into.old.items) }
{
    let mut lines = String::new(alloc);
    for out in outs {
        push_out(alloc, &mut lines, header, out)?;
    }
    into.extend_from_slice(lines.as_bytes())?;
    Ok(())
}

/// Adds the line of a reply. `NoMemory` leaves the text as it was.
#[tactic(auto, using(crate::proofs::Appended::numbers_are_words))]
pub fn append_answer(
    alloc: Global,
    into: &mut Vec<u8>,
    id: TxnId,
    reply: &Nums,
) -> Result<(), NoMemory>
    ensures ok { (program : Program) → OnOk result (into.new.items ≡ into.old.items ++ log_line_text program (Answer id reply.now)) }
    ensures err { OnErr result (into.new.items ≡ into.old.items) }
{
    let mut text = String::new(alloc);
    write!(&mut text, "answer {id}")?;
    push_numbers(&mut text, reply.as_slice())?;
    put(into, &mut text)
}

// Ends a line, and adds it.
fn put(into: &mut Vec<u8>, text: &mut String) -> Result<(), NoMemory>
    ensures ok { OnOk result (into.new.items ≡ into.old.items ++ (string_bytes text.old ++ 10 ∷ [])) }
    ensures err { OnErr result (into.new.items ≡ into.old.items) }
{
    text.push('\n')?;
    into.extend_from_slice(text.as_bytes())?;
    Ok(())
}

// Adds numbers, a space before each.
fn push_numbers(text: &mut String, numbers: &[i64]) -> Result<(), AllocError>
    ensures { OnOk result (string_bytes text.new ≡ string_bytes text.old ++ flat_map (λ n. 32 ∷ signed_decimal n) numbers.now) }
{
    for number in numbers {
        write!(text, " {number}")?;
    }
    Ok(())
}

// Adds a word with a space behind it, and the digits of bytes.
fn push_datagram(
    alloc: Global,
    text: &mut String,
    word: &str,
    bytes: &[u8],
) -> Result<(), AllocError>
    ensures { OnOk result (string_bytes text.new ≡ string_bytes text.old ++ (word.now ++ encode_lower bytes.now)) }
{
    let digits = hex::encode(alloc, bytes)?;
    text.push_str(word)?;
    text.push_str(&digits)
}

// Adds the line of a message, if it has a spelling.
fn push_out(
    alloc: Global,
    lines: &mut String,
    header: &Header,
    out: &Outgoing,
) -> Result<(), NoMemory>
    requires { FitsHeader header.now }
    ensures { OnOk result (string_bytes lines.new ≡ string_bytes lines.old ++ out_text header.now out.now) }
{
    if has_spelling(&out.msg) {
        let bytes = encode(alloc, header, &out.msg)?;
        push_datagram(alloc, lines, "out ", &bytes)?;
        lines.push('\n')?;
    }
    Ok(())
}

// The name of a procedure, if it exists.
fn procedure_name(workload: &Workload, proc: u16) -> &str
    ensures { result.now ≡ procedure_name workload.now proc }
{
    if usize::from(proc) < workload.procedures().len() {
        workload.procedure_name(proc)
    } else {
        ""
    }
}
