//! Serving from what a server keeps before any turn.
ghost use Rattle.std.specs.Prelude.{◌≡◌, false, ◌<◌, List, length, map, Some, IfOk, slice_get, option_map, is_some};
ghost use Rattle.roc_book.specs.Call.{book_call, book_view};
ghost use Rattle.roc_io.specs.declared.link.Addr.{Addr};
ghost use Rattle.roc_io.specs.Call.{link_call, sink_call};
ghost use Rattle.roc_io.specs.Cause.{HasCause};
ghost use Rattle.roc_io.specs.Link.{sending};
ghost use Rattle.roc_log.specs.declared.line.LogLine.{LogLine};
ghost use Rattle.roc_msg.specs.declared.outbox.Outgoing.{Outgoing};
ghost use Rattle.roc_wire.specs.Fits.{FitsHeader};
ghost use Rattle.roc_node.specs.NodeLine.{node_lines_text, end_lines};
ghost use Rattle.roc_node.specs.Setting.{setting_of};
ghost use Rattle.roc_node_serve.specs.Logging.{KeepsLog};
ghost use Rattle.roc_node_serve.specs.Pieces.{ClosesInPiece, WritesInPieces};
ghost use Rattle.roc_node_serve.specs.ServeEnd.{first_text, is_end_of_journal, serve_book_failed, serve_disk_failed, serve_link_failed, serve_refused, serve_sink_failed};
ghost use Rattle.roc_node_serve.specs.Inner.JournalTurn.{CallsDisk, IsOpen};
ghost use Rattle.roc_node_serve.specs.Inner.LogTurn.{TookSo, text_for};
ghost use Rattle.roc_node_serve.specs.Inner.ServerTurn.{ClosesServe, ComesOfServing, node_of};

use crate::ServeEnd;
use crate::logging::{BookStart, begin_log};
use crate::server_node::ServerNode;
use crate::server_turns::{RunEnd, run_turns};
use roc_base::{NoMemory, Shard};
use roc_book::Book;
use roc_disk::Disk;
use roc_io::{Bound, Datagram, Link, Sink, Written};
use roc_node::{NodeLine, Setting, append_end, append_line};
use std::alloc::Global;

/// Serves from what a server keeps before any turn, and what it is to send and to log then.
pub fn serve_from<L: Link, S: Sink, D: Disk, B: Book>(
    alloc: Global,
    setting: Setting<'_>,
    shard: Shard,
    server_node: &mut ServerNode,
    sends: &[Datagram],
    lines: &[u8],
    counts: bool,
    link: &mut L,
    turns: u32,
    out: &mut S,
    disk: &mut D,
    log: Option<&str>,
    book: &mut B,
) -> ServeEnd
    requires cluster { length setting.cluster.now ≡ setting.plan.now.program.shards }
    requires shard { shard.0 < setting.plan.now.program.shards }
    requires header { FitsHeader setting.header.now }
    requires named { setting.logs ≡ is_some log }
    requires ready { IsOpen (setting_of setting) server_node.old.server }
    ensures link_cause { HasCause (serve_link_failed result) (L.faults link.old) (L.faults link.new) }
    ensures opened { serve_refused result ≡ false }
    ensures sink_cause { HasCause (serve_sink_failed result) (S.faults out.old) (S.faults out.new) }
    ensures pieces { WritesInPieces shard counts (S.pieces out.old) (S.pieces out.new) result }
    ensures book_cause { HasCause (serve_book_failed result) (B.faults book.old) (B.faults book.new) }
    ensures calls { CallsDisk D.Disk disk.old disk.new server_node.old.server (serve_disk_failed result) (is_end_of_journal result) }
    ensures serves { (own : Addr) → slice_get setting.entry.cluster.now shard.0 ≡ Some own → (messages : List Outgoing) (logged : List LogLine)
        → lines.now ≡ text_for setting.entry.logs setting.entry.plan.now.program logged
        → ComesOfServing D.Disk disk.old disk.new (setting_of setting.entry) (node_of server_node.old messages (map sending sends.now) logged false)
        shard own turns counts server_node.old.server
        (record { link = link_call L.Link link.old link.new; out = sink_call S.Sink out.old out.new })
        (KeepsLog (option_map (λ name. name.now) log.entry) (book_call B.Book book.old book.new) (setting_of setting.entry) shard) result }
{
    let first = match first_text(alloc, shard) {
        Ok(first) => first,
        Err(_) => return ServeEnd::NoMemory,
    };
    match begin_log(alloc, shard, lines, log, book) {
        BookStart::NoMemory => return ServeEnd::NoMemory,
        BookStart::Failed => return ServeEnd::BookFault,
        BookStart::Ready => {}
    }
    serve_begun(
        alloc,
        setting,
        shard,
        server_node,
        sends,
        &first,
        counts,
        link,
        turns,
        out,
        disk,
        book,
    )
}

// Serves behind the first lines of the log, with the first line for the sink.
fn serve_begun<L: Link, S: Sink, D: Disk, B: Book>(
    alloc: Global,
    setting: Setting<'_>,
    shard: Shard,
    server_node: &mut ServerNode,
    sends: &[Datagram],
    first: &[u8],
    counts: bool,
    link: &mut L,
    turns: u32,
    out: &mut S,
    disk: &mut D,
    book: &mut B,
) -> ServeEnd
    requires cluster { length setting.cluster.now ≡ setting.plan.now.program.shards }
    requires shard { shard.0 < setting.plan.now.program.shards }
    requires header { FitsHeader setting.header.now }
    requires ready { IsOpen (setting_of setting) server_node.old.server }
    requires first { first.now ≡ first_text shard }
    ensures link_cause { HasCause (serve_link_failed result) (L.faults link.old) (L.faults link.new) }
    ensures opened { serve_refused result ≡ false }
    ensures sink_cause { HasCause (serve_sink_failed result) (S.faults out.old) (S.faults out.new) }
    ensures pieces { WritesInPieces shard counts (S.pieces out.old) (S.pieces out.new) result }
    ensures book_cause { HasCause (serve_book_failed result) (B.faults book.old) (B.faults book.new) }
    ensures calls { CallsDisk D.Disk disk.old disk.new server_node.old.server (serve_disk_failed result) (is_end_of_journal result) }
    ensures serves { (own : Addr) → slice_get setting.entry.cluster.now shard.0 ≡ Some own → (messages : List Outgoing) (logged : List LogLine)
        → ComesOfServing D.Disk disk.old disk.new (setting_of setting.entry) (node_of server_node.old messages (map sending sends.now) logged false)
        shard own turns counts server_node.old.server
        (record { link = link_call L.Link link.old link.new; out = sink_call S.Sink out.old out.new })
        (TookSo setting.entry.logs (book_view B.Book book.old) (book_view B.Book book.new) (setting_of setting.entry) (node_of server_node.old messages (map sending sends.now) logged false)) result }
{
    match link.bind(setting.cluster.addr(shard)) {
        Bound::Failed => return ServeEnd::LinkFault,
        Bound::Ok => {}
    }
    match out.write(first) {
        Written::Failed => return ServeEnd::SinkFault,
        Written::Ok => {}
    }
    match run_turns(alloc, setting, server_node, sends, link, turns, disk, book) {
        RunEnd::Over(stopped) => close(alloc, shard, stopped, counts, server_node, out),
        RunEnd::NoMemory => ServeEnd::NoMemory,
        RunEnd::LinkFault => ServeEnd::LinkFault,
        RunEnd::Full => ServeEnd::Full,
        RunEnd::Disk => ServeEnd::Disk,
        RunEnd::BookFault => ServeEnd::BookFault,
    }
}

// The text of the first line.
fn first_text(alloc: Global, shard: Shard) -> Result<Vec<u8>, NoMemory>
    ensures { IfOk result (λ text. text.items ≡ first_text shard) }
{
    let mut text = Vec::new(alloc);
    append_line(alloc, &mut text, NodeLine::Serving(shard))?;
    Ok(text)
}

// Writes the last lines.
fn close<S: Sink>(
    alloc: Global,
    shard: Shard,
    stopped: bool,
    counts: bool,
    server_node: &ServerNode,
    out: &mut S,
) -> ServeEnd
    ensures cause { HasCause (serve_sink_failed result) (S.faults out.old) (S.faults out.new) }
    ensures link { serve_link_failed result ≡ false }
    ensures opened { serve_refused result ≡ false }
    ensures journal { is_end_of_journal result ≡ false }
    ensures book { serve_book_failed result ≡ false }
    ensures closes { ClosesServe result (node_lines_text (end_lines shard stopped counts server_node.now.counts)) (S.taken out.old) (S.taken out.new) }
    ensures pieces { ClosesInPiece result (node_lines_text (end_lines shard stopped counts server_node.now.counts)) (S.pieces out.old) (S.pieces out.new) }
{
    let mut text = Vec::new(alloc);
    if append_end(
        alloc,
        &mut text,
        shard,
        stopped,
        counts,
        &server_node.counts,
    )
    .is_err()
    {
        return ServeEnd::NoMemory;
    }
    match out.write(&text) {
        Written::Ok => ServeEnd::Done,
        Written::Failed => ServeEnd::SinkFault,
    }
}
