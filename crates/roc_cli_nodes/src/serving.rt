//! The command that serves a shard, once its words are known.
ghost use Rattle.std.specs.Prelude.{◌≡◌, ◌<◌, ℕ, List, [], length, Some, None, slice_get, false, IsTrue, option_map, unwrap_or};
ghost use Rattle.roc_base.specs.declared.node.Node.TheVariants.{Server};
ghost use Rattle.roc_book.specs.Call.{book_call};
ghost use Rattle.roc_io.specs.declared.link.Addr.{Addr};
ghost use Rattle.roc_io.specs.Call.{link_call, sink_call};
ghost use Rattle.roc_io.specs.Cause.{HasCause};
ghost use Rattle.roc_cli_words.specs.Commands.{GrowsAlone, growth_of, serve_command_of};
ghost use Rattle.roc_cli_words.specs.Answer.{AreWordsOf};
ghost use Rattle.roc_node.specs.NodeEvent.{node_setting};
ghost use Rattle.roc_grown_node.specs.Setting.{grown_node_setting};
ghost use Rattle.roc_node_serve.specs.ServeEnd.{serve_refused, serve_link_failed, serve_sink_failed, serve_disk_failed, serve_book_failed};
ghost use Rattle.roc_cli_files.specs.Fault.{blames_file, blames_sink, blames_link, blames_disk, blames_book, fails_by, ReadsBut};
ghost use Rattle.roc_cli_nodes.specs.Call.{run_call, disk_call, LeavesBook};
ghost use Rattle.roc_cli_nodes.specs.NodeEnds.{end_of_serve};
ghost use Rattle.roc_cli_nodes.specs.Nodes.{IsServed};
ghost use Rattle.roc_cli_nodes.specs.Ends.{precedes_loop, precedes_journal, LaunchEnds, LoopEnded};
ghost use Rattle.roc_cli_nodes.specs.Inner.Running.{ByNext, ServesAs, ServesGrowingAs, named, no_child};

use roc_book::Book;
use roc_cli_files::{Fault, NodeNames, Nodes, nodes_of};
use roc_cli_words::Serving;
use roc_disk::Disk;
use roc_epoch::Next;
use roc_grown_serve::serve_growing;
use roc_io::{Files, Link, Sink};
use roc_node_serve::{ServeEnd, serve};
use std::alloc::Global;

/// Serves a shard of the named workload.
pub(crate) fn serve_files<'a, F: Files, S: Sink, L: Link, D: Disk, B: Book>(
    alloc: Global,
    asked: Serving<'a>,
    files: &mut F,
    out: &mut S,
    link: &mut L,
    disk: &mut D,
    book: &mut B,
) -> Result<(), Fault<'a>>
    requires alone { GrowsAlone (named asked.journal) (named asked.log) (growth_of asked.growth) }
    ensures ends { (words : List (List ℕ)) → AreWordsOf words (serve_command_of asked.entry)
        → LaunchEnds (run_call F.Files S.Sink words files.old files.new out.old out.new)
        (IsServed (run_call F.Files S.Sink words files.old files.new out.old out.new) (link_call L.Link link.old link.new) (disk_call D.Disk disk.old disk.new)
        (book_call B.Book book.old book.new)) no_child result }
    ensures untouched { IsTrue (fails_by precedes_loop result) → link.new ≡ link.old }
    ensures unopened { IsTrue (fails_by precedes_journal result) → disk.new ≡ disk.old }
    ensures unkept { named asked.entry.journal ≡ None → disk.new ≡ disk.old }
    ensures unbegun { IsTrue (fails_by precedes_loop result) → LeavesBook (book_call B.Book book.old book.new) }
    ensures unlogged { named asked.entry.log ≡ None → LeavesBook (book_call B.Book book.old book.new) }
    ensures failed { ReadsBut (F.failed_names files.old) (F.failed_names files.new) result }
    ensures file_faults { HasCause (fails_by blames_file result) (F.faults files.old) (F.faults files.new) }
    ensures sink_faults { HasCause (fails_by blames_sink result) (S.faults out.old) (S.faults out.new) }
    ensures link_faults { HasCause (fails_by blames_link result) (L.faults link.old) (L.faults link.new) }
    ensures disk_faults { HasCause (fails_by blames_disk result) (D.faults disk.old) (D.faults disk.new) }
    ensures book_faults { HasCause (fails_by blames_book result) (B.faults book.old) (B.faults book.new) }
    ensures content { (name : List ℕ) → F.content files.new name ≡ F.content files.old name }
{
    let names = NodeNames {
        workload: asked.workload,
        cluster: asked.cluster,
        requests: None,
        next: asked.growth,
        later: None,
        shard: Some(asked.shard),
    };
    match nodes_of(alloc, names, files, out) {
        Ok(nodes) => serve_nodes(alloc, &nodes, asked, out, link, disk, book),
        Err(fault) => Err(fault),
    }
}

// The same, once the files were read.
fn serve_nodes<'a, S: Sink, L: Link, D: Disk, B: Book>(
    alloc: Global,
    nodes: &Nodes,
    asked: Serving<'a>,
    out: &mut S,
    link: &mut L,
    disk: &mut D,
    book: &mut B,
) -> Result<(), Fault<'a>>
    requires cluster { length nodes.now.cluster ≡ nodes.now.plan.program.shards }
    requires shard { asked.shard.0 < nodes.now.plan.program.shards }
    ensures ends { (own : Addr) → slice_get nodes.now.cluster asked.entry.shard.0 ≡ Some own
        → LoopEnded (ByNext nodes.now.next (ServesAs (disk_call D.Disk disk.old disk.new) (named asked.entry.journal) (named asked.entry.log)
        (node_setting nodes.now.plan nodes.now.tag (Server asked.entry.shard) nodes.now.cluster) asked.entry.shard own asked.entry.turns asked.entry.counts
        (record { link = link_call L.Link link.old link.new; out = sink_call S.Sink out.old out.new }) (book_call B.Book book.old book.new))
        (λ next. ServesGrowingAs (grown_node_setting nodes.now.plan nodes.now.tag next (Server asked.entry.shard) nodes.now.cluster) asked.entry.shard own asked.entry.turns asked.entry.counts
        (record { link = link_call L.Link link.old link.new; out = sink_call S.Sink out.old out.new }))) no_child result }
    ensures files { fails_by blames_file result ≡ false }
    ensures late { fails_by precedes_journal result ≡ false }
    ensures untouched { IsTrue (fails_by precedes_loop result) → link.new ≡ link.old }
    ensures unkept { named asked.entry.journal ≡ None → disk.new ≡ disk.old }
    ensures unbegun { IsTrue (fails_by precedes_loop result) → LeavesBook (book_call B.Book book.old book.new) }
    ensures unlogged { named asked.entry.log ≡ None → LeavesBook (book_call B.Book book.old book.new) }
    ensures sink_faults { HasCause (fails_by blames_sink result) (S.faults out.old) (S.faults out.new) }
    ensures link_faults { HasCause (fails_by blames_link result) (L.faults link.old) (L.faults link.new) }
    ensures disk_faults { HasCause (fails_by blames_disk result) (D.faults disk.old) (D.faults disk.new) }
    ensures book_faults { HasCause (fails_by blames_book result) (B.faults book.old) (B.faults book.new) }
{
    match nodes.next.as_ref() {
        Some(next) => serve_grown(alloc, nodes, next, asked, out, link),
        None => serve_plain(alloc, nodes, asked, out, link, disk, book),
    }
}

// The same of a server that may go over to a grown workload, which keeps neither a journal nor a log.
fn serve_grown<'a, S: Sink, L: Link>(
    alloc: Global,
    nodes: &Nodes,
    next: &Next,
    asked: Serving<'a>,
    out: &mut S,
    link: &mut L,
) -> Result<(), Fault<'a>>
    requires cluster { length nodes.now.cluster ≡ nodes.now.plan.program.shards }
    requires shard { asked.shard.0 < nodes.now.plan.program.shards }
    ensures ends { (own : Addr) → slice_get nodes.now.cluster asked.entry.shard.0 ≡ Some own
        → LoopEnded (ServesGrowingAs (grown_node_setting nodes.now.plan nodes.now.tag next.now (Server asked.entry.shard) nodes.now.cluster) asked.entry.shard own asked.entry.turns asked.entry.counts
        (record { link = link_call L.Link link.old link.new; out = sink_call S.Sink out.old out.new })) no_child result }
    ensures files { fails_by blames_file result ≡ false }
    ensures late { fails_by precedes_loop result ≡ false }
    ensures early { fails_by precedes_journal result ≡ false }
    ensures sink_faults { HasCause (fails_by blames_sink result) (S.faults out.old) (S.faults out.new) }
    ensures link_faults { HasCause (fails_by blames_link result) (L.faults link.old) (L.faults link.new) }
    ensures no_disk { fails_by blames_disk result ≡ false }
    ensures no_book { fails_by blames_book result ≡ false }
{
    let end = serve_growing(
        alloc,
        &nodes.plan,
        nodes.tag,
        next,
        asked.shard,
        &nodes.cluster,
        asked.counts,
        link,
        asked.turns,
        out,
    );
    told(end, "", "")
}

// The same of one that does not.
fn serve_plain<'a, S: Sink, L: Link, D: Disk, B: Book>(
    alloc: Global,
    nodes: &Nodes,
    asked: Serving<'a>,
    out: &mut S,
    link: &mut L,
    disk: &mut D,
    book: &mut B,
) -> Result<(), Fault<'a>>
    requires cluster { length nodes.now.cluster ≡ nodes.now.plan.program.shards }
    requires shard { asked.shard.0 < nodes.now.plan.program.shards }
    ensures ends { (own : Addr) → slice_get nodes.now.cluster asked.entry.shard.0 ≡ Some own
        → LoopEnded (ServesAs (disk_call D.Disk disk.old disk.new) (named asked.entry.journal) (named asked.entry.log)
        (node_setting nodes.now.plan nodes.now.tag (Server asked.entry.shard) nodes.now.cluster) asked.entry.shard own asked.entry.turns asked.entry.counts
        (record { link = link_call L.Link link.old link.new; out = sink_call S.Sink out.old out.new }) (book_call B.Book book.old book.new)) no_child result }
    ensures files { fails_by blames_file result ≡ false }
    ensures late { fails_by precedes_journal result ≡ false }
    ensures untouched { IsTrue (fails_by precedes_loop result) → link.new ≡ link.old }
    ensures unkept { named asked.entry.journal ≡ None → disk.new ≡ disk.old }
    ensures unbegun { IsTrue (fails_by precedes_loop result) → LeavesBook (book_call B.Book book.old book.new) }
    ensures unlogged { named asked.entry.log ≡ None → LeavesBook (book_call B.Book book.old book.new) }
    ensures sink_faults { HasCause (fails_by blames_sink result) (S.faults out.old) (S.faults out.new) }
    ensures link_faults { HasCause (fails_by blames_link result) (L.faults link.old) (L.faults link.new) }
    ensures disk_faults { HasCause (fails_by blames_disk result) (D.faults disk.old) (D.faults disk.new) }
    ensures book_faults { HasCause (fails_by blames_book result) (B.faults book.old) (B.faults book.new) }
{
    let end = serve(
        alloc,
        &nodes.plan,
        nodes.tag,
        asked.shard,
        &nodes.cluster,
        asked.counts,
        link,
        asked.turns,
        out,
        asked.journal,
        disk,
        asked.log,
        book,
    );
    told(end, name_of(asked.journal), name_of(asked.log))
}

// How a server ended, whose journal and log have these names.
fn told<'a>(end: ServeEnd, file: &'a str, log: &'a str) -> Result<(), Fault<'a>>
    ensures told { LoopEnded (λ e. end_of_serve file.entry.now log.entry.now end ≡ e) no_child result }
    ensures files { fails_by blames_file result ≡ false }
    ensures late { fails_by precedes_journal result ≡ false }
    ensures refused { fails_by precedes_loop result ≡ serve_refused end }
    ensures sink { fails_by blames_sink result ≡ serve_sink_failed end }
    ensures link { fails_by blames_link result ≡ serve_link_failed end }
    ensures disk { fails_by blames_disk result ≡ serve_disk_failed end }
    ensures book { fails_by blames_book result ≡ serve_book_failed end }
{
    match end {
        ServeEnd::Done => Ok(()),
        ServeEnd::LinkFault => Err(Fault::Link),
        ServeEnd::SinkFault => Err(Fault::Sink),
        ServeEnd::NoMemory => Err(Fault::Memory),
        ServeEnd::Journal(_) => Err(Fault::Journal(file)),
        ServeEnd::Full => Err(Fault::Full(file)),
        ServeEnd::Disk => Err(Fault::Disk(file)),
        ServeEnd::BookFault => Err(Fault::Book(log)),
    }
}

/// A name, where there is one.
pub(crate) fn name_of<'a>(name: Option<&'a str>) -> &'a str
    ensures { result.now ≡ unwrap_or (option_map (λ text. text.now) name.entry) [] }
{
    match name {
        Some(text) => text,
        None => "",
    }
}
