//! The log of a server's node.
ghost use Rattle.std.specs.Prelude.{◌≡◌, ◌∷◌, ◌++◌, Bool, List, IfOk, OnOk, Some, option_map};
ghost use Rattle.roc_base.specs.declared.node.Node.TheVariants as node;
ghost use Rattle.roc_book.specs.Call.{book_call, book_view};
ghost use Rattle.roc_io.specs.Cause.{HasCause};
ghost use Rattle.roc_io.specs.Sink.{write_failed};
ghost use Rattle.roc_log.specs.declared.line.LogLine.{LogLine};
ghost use Rattle.roc_log.specs.LogLine.{lines_text, log_line_text, node_line_text};
ghost use Rattle.roc_log.specs.Sent.{outs_logged};
ghost use Rattle.roc_program.specs.Program.{Workload};
ghost use Rattle.roc_wire.specs.Fits.{FitsHeader};
ghost use Rattle.roc_node_serve.specs.Inner.LogTurn.{Begins, PutsText, event_line, start_failed, text_for};

use roc_base::{NoMemory, Node, Shard};
use roc_book::{Book, Opened};
use roc_io::Written;
use roc_log::{append_in, append_node, append_outs, append_tick};
use roc_msg::Outgoing;
use roc_node::Setting;
use std::alloc::Global;

/// How a log begins.
#[derive(Clone, Copy)]
pub enum BookStart {
    /// With all that was to be written, or there is to be none.
    Ready,
    /// Not at all, for want of memory.
    NoMemory,
    /// The book failed.
    Failed,
}

/// Begins the log of a shard's node where one is named: opens the book, and writes the node's line and these behind it.
pub fn begin_log<B: Book>(
    alloc: Global,
    shard: Shard,
    lines: &[u8],
    log: Option<&str>,
    book: &mut B,
) -> BookStart
    ensures cause { HasCause (start_failed result) (B.faults book.old) (B.faults book.new) }
    ensures begins { Begins (option_map (λ name. name.now) log.entry) (book_call B.Book book.old book.new) (node_line_text (node.Server shard) ++ lines.now) result }
{
    match log {
        None => BookStart::Ready,
        Some(name) => open_named(alloc, shard, lines, name, book),
    }
}

// The same under a name.
fn open_named<B: Book>(
    alloc: Global,
    shard: Shard,
    lines: &[u8],
    name: &str,
    book: &mut B,
) -> BookStart
    ensures cause { HasCause (start_failed result) (B.faults book.old) (B.faults book.new) }
    ensures begins { Begins (Some name.now) (book_call B.Book book.old book.new) (node_line_text (node.Server shard) ++ lines.now) result }
{
    let text = match node_text(alloc, shard, lines) {
        Ok(text) => text,
        Err(NoMemory) => return BookStart::NoMemory,
    };
    match book.open(name) {
        Opened::Failed => return BookStart::Failed,
        Opened::Ok => {}
    }
    match book.write(&text) {
        Written::Failed => BookStart::Failed,
        Written::Ok => BookStart::Ready,
    }
}

// The node's line, and these behind it.
fn node_text(alloc: Global, shard: Shard, lines: &[u8]) -> Result<Vec<u8>, NoMemory>
    ensures { IfOk result (λ text. text.items ≡ node_line_text (node.Server shard) ++ lines.now) }
{
    let mut text = Vec::new(alloc);
    append_node(alloc, &mut text, Node::Server(shard))?;
    text.extend_from_slice(lines)?;
    Ok(text)
}

// Adds the line of an event.
fn append_event(alloc: Global, into: &mut Vec<u8>, event: Option<&[u8]>) -> Result<(), NoMemory>
    ensures { (program : Workload) → OnOk result (into.new.items ≡ into.old.items ++ log_line_text program (event_line event.entry)) }
{
    match event {
        Some(bytes) => append_in(alloc, into, bytes),
        None => append_tick(into),
    }
}

/// The lines of an event, a datagram or silence, and of the messages that were sent for it, where a log is kept.
pub fn event_lines(
    alloc: Global,
    setting: Setting<'_>,
    event: Option<&[u8]>,
    outs: &[Outgoing],
) -> Result<Vec<u8>, NoMemory>
    requires { FitsHeader setting.header.now }
    ensures { (program : Workload) → IfOk result (λ text. text.items ≡ text_for setting.entry.logs program (event_line event.entry ∷ outs_logged setting.entry.header.now outs.now)) }
{
    let mut text = Vec::new(alloc);
    if !setting.logs {
        return Ok(text);
    }
    append_event(alloc, &mut text, event)?;
    append_outs(alloc, &mut text, setting.header, outs)?;
    Ok(text)
}

/// Puts a text into the book, if it is any.
pub fn put_text<B: Book>(text: &[u8], book: &mut B) -> Written
    ensures cause { HasCause (write_failed result) (B.faults book.old) (B.faults book.new) }
    ensures puts { (logs : Bool) (program : Workload) (lines : List LogLine) → text.now ≡ text_for logs program lines
        → PutsText logs (lines_text program lines) (book_view B.Book book.old) (book_view B.Book book.new) result }
{
    if text.is_empty() {
        return Written::Ok;
    }
    book.write(text)
}
