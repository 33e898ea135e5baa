//! Serving a shard.
ghost use Rattle.std.specs.Prelude.{◌≡◌, true, false, ◌<◌, length, Some, None, slice_get, option_map, is_some};
ghost use Rattle.roc_base.specs.declared.node.Node.TheVariants as node;
ghost use Rattle.roc_book.specs.Call.{book_call};
ghost use Rattle.roc_io.specs.declared.link.Addr.{Addr};
ghost use Rattle.roc_io.specs.Call.{link_call, sink_call};
ghost use Rattle.roc_io.specs.Cause.{HasCause};
ghost use Rattle.roc_wire.specs.Fits.{FitsHeader};
ghost use Rattle.roc_node.specs.NodeEvent.{node_setting};
ghost use Rattle.roc_node.specs.Setting.{setting_of};
ghost use Rattle.roc_node_serve.specs.Keeping.{ServesKept, ServesUnkept, ServesWith};
ghost use Rattle.roc_node_serve.specs.Logging.{KeepsLog};
ghost use Rattle.roc_node_serve.specs.Pieces.{WritesInPieces};
ghost use Rattle.roc_node_serve.specs.ServerRun.{opened_node};
ghost use Rattle.roc_node_serve.specs.ServeEnd.{is_end_of_journal, serve_book_failed, serve_disk_failed, serve_link_failed, serve_refused, serve_sink_failed};
ghost use Rattle.roc_node_serve.specs.Inner.JournalTurn.{CallsDisk, IsOpen};
ghost use Rattle.roc_node_serve.specs.Inner.ServerTurn.{ComesOfServing, IsFirstNode, end_of};

use crate::ServeEnd;
use crate::server_node::{ServerNode, take_silence};
use crate::starting::serve_from;
use roc_base::{NoMemory, Node, Shard};
use roc_book::Book;
use roc_cluster::Cluster;
use roc_disk::Disk;
use roc_io::{Link, Sink};
use roc_kept::{KeptServer, OpenFault};
use roc_node::{Counts, Heard, Setting};
use roc_plan::Plan;
use roc_server::Server;
use roc_wire::Header;
use std::alloc::Global;

/// Serves a shard: opens the journal of the name, where one is given, binds the shard's address, writes that it serves, takes turns until a stop
/// comes or so many were taken, and writes what came of them; with `counts` also how often each word was the cause to skip a datagram or to ignore a
/// message.
///
/// A turn is one receive. The datagrams of a turn are sent behind it, and before the next one. A server that was opened from a journal sends one tick
/// before its first turn. What leaves a record is in the journal before anything is sent for it. Without a journal the disk is not touched.
///
/// Where a log is named the book is opened under that name, behind the journal and before the bind, and takes the node's line. Then it takes the lines
/// of each event in one piece, before anything is sent for the event: where memory is wanting it ends with an event. Without a log it is not touched.
pub fn serve<L: Link, S: Sink, D: Disk, B: Book>(
    alloc: Global,
    plan: &Plan,
    tag: [u8; 8],
    shard: Shard,
    cluster: &Cluster,
    counts: bool,
    link: &mut L,
    turns: u32,
    out: &mut S,
    journal: Option<&str>,
    disk: &mut D,
    log: Option<&str>,
    book: &mut B,
) -> ServeEnd
    requires cluster { length cluster.now ≡ plan.now.program.shards }
    requires shard { shard.0 < plan.now.program.shards }
    // A fault has its cause, and no other end comes where a count rose.
    ensures link_cause { HasCause (serve_link_failed result) (L.faults link.old) (L.faults link.new) }
    ensures link_stays { serve_refused result ≡ true → link.new ≡ link.old }
    ensures sink_cause { HasCause (serve_sink_failed result) (S.faults out.old) (S.faults out.new) }
    ensures book_cause { HasCause (serve_book_failed result) (B.faults book.old) (B.faults book.new) }
    ensures disk_cause { HasCause (serve_disk_failed result) (D.faults disk.old) (D.faults disk.new) }
    ensures disk_told { D.tells disk.new ≡ true → D.tells disk.old ≡ true }
    ensures disk_stays { journal.entry ≡ None → disk.new ≡ disk.old }
    // The first line goes out in one write, and all last lines in one.
    ensures pieces { WritesInPieces shard counts (S.pieces out.old) (S.pieces out.new) result }
    // What the node's run gives over the arrivals is what was sent and written, and what the journal and the log keep.
    ensures serves { (own : Addr) → slice_get cluster.now shard.0 ≡ Some own
        → ServesWith D.Disk disk.old disk.new (option_map (λ name. name.now) journal.entry) (option_map (λ name. name.now) log.entry)
        (node_setting plan.now tag (node.Server shard) cluster.now) shard own turns counts
        (record { link = link_call L.Link link.old link.new; out = sink_call S.Sink out.old out.new }) (book_call B.Book book.old book.new) result }
{
    let header = own_header(plan, tag, shard);
    let setting = Setting {
        plan,
        cluster,
        header: &header,
        logs: log.is_some(),
    };
    match journal {
        None => serve_unkept(
            alloc, setting, shard, counts, link, turns, out, disk, log, book,
        ),
        Some(name) => serve_kept(
            alloc, setting, shard, counts, link, turns, out, name, disk, log, book,
        ),
    }
}

// Serves without a journal.
fn serve_unkept<L: Link, S: Sink, D: Disk, B: Book>(
    alloc: Global,
    setting: Setting<'_>,
    shard: Shard,
    counts: bool,
    link: &mut L,
    turns: u32,
    out: &mut S,
    disk: &mut D,
    log: Option<&str>,
    book: &mut B,
) -> ServeEnd
    requires cluster { length setting.cluster.now ≡ setting.plan.now.program.shards }
    requires shard { shard.0 < setting.plan.now.program.shards }
    requires header { FitsHeader setting.header.now }
    requires named { setting.logs ≡ is_some log }
    ensures link_cause { HasCause (serve_link_failed result) (L.faults link.old) (L.faults link.new) }
    ensures opened { serve_refused result ≡ false }
    ensures sink_cause { HasCause (serve_sink_failed result) (S.faults out.old) (S.faults out.new) }
    ensures pieces { WritesInPieces shard counts (S.pieces out.old) (S.pieces out.new) result }
    ensures book_cause { HasCause (serve_book_failed result) (B.faults book.old) (B.faults book.new) }
    ensures disk_cause { HasCause (serve_disk_failed result) (D.faults disk.old) (D.faults disk.new) }
    ensures disk_stays { disk.new ≡ disk.old }
    ensures serves { (own : Addr) → slice_get setting.entry.cluster.now shard.0 ≡ Some own
        → ServesUnkept (option_map (λ name. name.now) log.entry) (setting_of setting.entry) shard own turns counts
        (record { link = link_call L.Link link.old link.new; out = sink_call S.Sink out.old out.new }) (book_call B.Book book.old book.new) result }
{
    match Server::new(alloc, setting.plan, shard) {
        Err(_) => ServeEnd::NoMemory,
        Ok(server) => {
            let mut server_node = first_node(KeptServer::unkept(server));
            serve_from(
                alloc,
                setting,
                shard,
                &mut server_node,
                &[],
                &[],
                counts,
                link,
                turns,
                out,
                disk,
                log,
                book,
            )
        }
    }
}

// Serves with the journal of a name.
fn serve_kept<L: Link, S: Sink, D: Disk, B: Book>(
    alloc: Global,
    setting: Setting<'_>,
    shard: Shard,
    counts: bool,
    link: &mut L,
    turns: u32,
    out: &mut S,
    name: &str,
    disk: &mut D,
    log: Option<&str>,
    book: &mut B,
) -> ServeEnd
    requires cluster { length setting.cluster.now ≡ setting.plan.now.program.shards }
    requires shard { shard.0 < setting.plan.now.program.shards }
    requires header { FitsHeader setting.header.now }
    requires named { setting.logs ≡ is_some log }
    ensures link_cause { HasCause (serve_link_failed result) (L.faults link.old) (L.faults link.new) }
    ensures link_stays { serve_refused result ≡ true → link.new ≡ link.old }
    ensures sink_cause { HasCause (serve_sink_failed result) (S.faults out.old) (S.faults out.new) }
    ensures pieces { WritesInPieces shard counts (S.pieces out.old) (S.pieces out.new) result }
    ensures book_cause { HasCause (serve_book_failed result) (B.faults book.old) (B.faults book.new) }
    ensures disk_cause { HasCause (serve_disk_failed result) (D.faults disk.old) (D.faults disk.new) }
    ensures disk_told { D.tells disk.new ≡ true → D.tells disk.old ≡ true }
    ensures serves { (own : Addr) → slice_get setting.entry.cluster.now shard.0 ≡ Some own
        → ServesKept D.Disk disk.old disk.new name.now (option_map (λ name. name.now) log.entry) (setting_of setting.entry) shard own turns counts
        (record { link = link_call L.Link link.old link.new; out = sink_call S.Sink out.old out.new }) (book_call B.Book book.old book.new) result }
{
    match KeptServer::open(alloc, setting.plan, setting.header.tag, shard, name, disk) {
        Err(fault) => end_of(fault),
        Ok(server) => {
            let mut server_node = first_node(server);
            serve_opened(
                alloc,
                setting,
                shard,
                &mut server_node,
                counts,
                link,
                turns,
                out,
                disk,
                log,
                book,
            )
        }
    }
}

// How serving ends where no journal was opened.
fn end_of(fault: OpenFault) -> ServeEnd
    ensures { result ≡ end_of fault }
{
    match fault {
        OpenFault::Journal(at) => ServeEnd::Journal(at),
        OpenFault::Disk => ServeEnd::Disk,
        OpenFault::NoMemory => ServeEnd::NoMemory,
    }
}

// Serves from what was opened: one tick is sent before the first turn.
fn serve_opened<L: Link, S: Sink, D: Disk, B: Book>(
    alloc: Global,
    setting: Setting<'_>,
    shard: Shard,
    server_node: &mut ServerNode,
    counts: bool,
    link: &mut L,
    turns: u32,
    out: &mut S,
    disk: &mut D,
    log: Option<&str>,
    book: &mut B,
) -> ServeEnd
    requires cluster { length setting.cluster.now ≡ setting.plan.now.program.shards }
    requires shard { shard.0 < setting.plan.now.program.shards }
    requires header { FitsHeader setting.header.now }
    requires named { setting.logs ≡ is_some log }
    requires ready { IsOpen (setting_of setting) server_node.old.server }
    requires first { IsFirstNode server_node.old }
    ensures link_cause { HasCause (serve_link_failed result) (L.faults link.old) (L.faults link.new) }
    ensures opened { serve_refused result ≡ false }
    ensures sink_cause { HasCause (serve_sink_failed result) (S.faults out.old) (S.faults out.new) }
    ensures pieces { WritesInPieces shard counts (S.pieces out.old) (S.pieces out.new) result }
    ensures book_cause { HasCause (serve_book_failed result) (B.faults book.old) (B.faults book.new) }
    ensures calls { CallsDisk D.Disk disk.old disk.new server_node.old.server (serve_disk_failed result) (is_end_of_journal result) }
    ensures serves { (own : Addr) → slice_get setting.entry.cluster.now shard.0 ≡ Some own
        → ComesOfServing D.Disk disk.old disk.new (setting_of setting.entry) (opened_node (setting_of setting.entry) server_node.old.server.server.state server_node.old.server.server.viewing)
        shard own turns counts server_node.old.server
        (record { link = link_call L.Link link.old link.new; out = sink_call S.Sink out.old out.new })
        (KeepsLog (option_map (λ name. name.now) log.entry) (book_call B.Book book.old book.new) (setting_of setting.entry) shard) result }
{
    match take_silence(alloc, setting, server_node, disk) {
        Err(NoMemory) => ServeEnd::NoMemory,
        Ok(output) => serve_from(
            alloc,
            setting,
            shard,
            server_node,
            &output.sends,
            &output.log,
            counts,
            link,
            turns,
            out,
            disk,
            log,
            book,
        ),
    }
}

// What stands before each message that a server sends.
fn own_header(plan: &Plan, tag: [u8; 8], shard: Shard) -> Header
    requires { shard.0 < plan.now.program.shards }
    ensures is { result ≡ record { tag = tag; from = node.Server shard } }
    ensures fits { FitsHeader result }
{
    let _shards = plan.workload().shards();
    Header {
        tag,
        from: Node::Server(shard),
    }
}

// What a server's node keeps before any turn.
fn first_node(server: KeptServer) -> ServerNode
    ensures server { result.server ≡ server }
    ensures first { IsFirstNode result }
{
    ServerNode {
        server,
        heard: Heard::new(),
        counts: Counts::new(),
    }
}
