//! Each other command with nodes, once its words are known.
ghost use Rattle.std.specs.Prelude.{◌≡◌, ◌≤◌, ℕ, List, length, None, IfSome, false, IsTrue};
ghost use Rattle.roc_base.specs.declared.node.Node.TheVariants.{Coord as Coordinator};
ghost use Rattle.roc_book.specs.Call.{book_call};
ghost use Rattle.roc_io.specs.Call.{children_call, link_call, sink_call};
ghost use Rattle.roc_io.specs.Cause.{HasCause};
ghost use Rattle.roc_cli_words.specs.Commands.{GrowsAlone, growth_of, later_of, submit_command_of, stop, local};
ghost use Rattle.roc_cli_words.specs.Answer.{AreWordsOf};
ghost use Rattle.roc_epoch.specs.Grown.{IsGrownFrom};
ghost use Rattle.roc_node.specs.NodeEvent.{node_setting};
ghost use Rattle.roc_grown_node.specs.Setting.{grown_node_setting};
ghost use Rattle.roc_node_submit.specs.SubmitEnd.{submit_link_failed, submit_sink_failed, submit_book_failed};
ghost use Rattle.roc_cli_nodes.specs.Call.{run_call, LeavesBook};
ghost use Rattle.roc_cli_nodes.specs.NodeEnds.{end_of_submit};
ghost use Rattle.roc_cli_nodes.specs.Nodes.{AreSubmitted, AreStopped};
ghost use Rattle.roc_cli_nodes.specs.Words.{later_to_submit, next_to_submit};
ghost use Rattle.roc_cli_files.specs.Fault.{blames_file, blames_sink, blames_link, blames_disk, blames_book, fails_by, ReadsBut};
ghost use Rattle.roc_cli_nodes.specs.Ends.{precedes_loop, LaunchEnds, LoopEnded, CountsChildren};
ghost use Rattle.roc_cli_nodes.specs.Inner.Running.{ByNext, SubmitsAs, SubmitsGrowingAs, StopsAs, LocalLaunched, LocalLoopEnded, named, no_child};
ghost use Rattle.roc_node_local.specs.Local.{local_ask};

use crate::serving::name_of;
use roc_book::Book;
use roc_cli_files::{Fault, NodeNames, Nodes, nodes_of};
use roc_cli_words::{Growth, Later, Submitting};
use roc_epoch::Next;
use roc_grown_submit::submit_growing;
use roc_io::{Files, Link, Sink, Spawner};
use roc_node_local::{LocalEnd, StopEnd, run_local, send_stops};
use roc_node_submit::{SubmitEnd, submit_all};
use std::alloc::Global;

/// Submits the named requests as a coordinator.
pub(crate) fn submit_files<'a, F: Files, S: Sink, L: Link, B: Book>(
    alloc: Global,
    asked: Submitting<'a>,
    files: &mut F,
    out: &mut S,
    link: &mut L,
    book: &mut B,
) -> Result<(), Fault<'a>>
    requires coord { asked.coord ≤ 15 }
    requires alone { GrowsAlone None (named asked.log) (later_of asked.growth) }
    ensures ends { (words : List (List ℕ)) → AreWordsOf words (submit_command_of asked.entry)
        → LaunchEnds (run_call F.Files S.Sink words files.old files.new out.old out.new)
        (AreSubmitted (run_call F.Files S.Sink words files.old files.new out.old out.new) (link_call L.Link link.old link.new)
        (book_call B.Book book.old book.new)) no_child result }
    ensures untouched { IsTrue (fails_by precedes_loop result) → link.new ≡ link.old }
    ensures unbegun { IsTrue (fails_by precedes_loop result) → LeavesBook (book_call B.Book book.old book.new) }
    ensures unlogged { named asked.entry.log ≡ None → LeavesBook (book_call B.Book book.old book.new) }
    ensures failed { ReadsBut (F.failed_names files.old) (F.failed_names files.new) result }
    ensures file_faults { HasCause (fails_by blames_file result) (F.faults files.old) (F.faults files.new) }
    ensures sink_faults { HasCause (fails_by blames_sink result) (S.faults out.old) (S.faults out.new) }
    ensures link_faults { HasCause (fails_by blames_link result) (L.faults link.old) (L.faults link.new) }
    ensures book_faults { HasCause (fails_by blames_book result) (B.faults book.old) (B.faults book.new) }
    ensures no_disk { fails_by blames_disk result ≡ false }
    ensures content { (name : List ℕ) → F.content files.new name ≡ F.content files.old name }
{
    let names = NodeNames {
        workload: asked.workload,
        cluster: asked.cluster,
        requests: Some(asked.requests),
        next: next_of(asked.growth),
        later: requests_behind(asked.growth),
        shard: None,
    };
    match nodes_of(alloc, names, files, out) {
        Ok(nodes) => submit_nodes(alloc, &nodes, asked, out, link, book),
        Err(fault) => Err(fault),
    }
}

// The workload to grow to of a coordinator, which asks for no count of coordinators.
fn next_of<'a>(growth: Option<Later<'a>>) -> Option<Growth<'a>>
    ensures { growth_of result ≡ next_to_submit (later_of growth.entry) }
{
    match growth {
        Some(growth) => Some(Growth {
            workload: growth.workload,
            coords: 16,
        }),
        None => None,
    }
}

// The requests to submit then.
fn requests_behind<'a>(growth: Option<Later<'a>>) -> Option<&'a str>
    ensures { named result ≡ later_to_submit (later_of growth.entry) }
{
    match growth {
        Some(growth) => Some(growth.requests),
        None => None,
    }
}

// The same, once the files were read.
fn submit_nodes<'a, S: Sink, L: Link, B: Book>(
    alloc: Global,
    nodes: &Nodes,
    asked: Submitting<'a>,
    out: &mut S,
    link: &mut L,
    book: &mut B,
) -> Result<(), Fault<'a>>
    requires cluster { length nodes.now.cluster ≡ nodes.now.plan.program.shards }
    requires coord { asked.coord ≤ 15 }
    requires grown { IfSome nodes.now.next (λ next. IsGrownFrom nodes.now.plan.program next.plan.program) }
    ensures ends { LoopEnded (ByNext nodes.now.next (SubmitsAs (node_setting nodes.now.plan nodes.now.tag (Coordinator asked.entry.coord) nodes.now.cluster) asked.entry.coord
        nodes.now.requests.items asked.entry.turns (named asked.entry.log)
        (record { link = link_call L.Link link.old link.new; out = sink_call S.Sink out.old out.new }) (book_call B.Book book.old book.new))
        (λ next. SubmitsGrowingAs (grown_node_setting nodes.now.plan nodes.now.tag next (Coordinator asked.entry.coord) nodes.now.cluster) asked.entry.coord nodes.now.requests.items
        nodes.now.later.items asked.entry.turns (record { link = link_call L.Link link.old link.new; out = sink_call S.Sink out.old out.new }))) no_child result }
    ensures files { fails_by blames_file result ≡ false }
    ensures late { fails_by precedes_loop result ≡ false }
    ensures unlogged { named asked.entry.log ≡ None → LeavesBook (book_call B.Book book.old book.new) }
    ensures sink_faults { HasCause (fails_by blames_sink result) (S.faults out.old) (S.faults out.new) }
    ensures link_faults { HasCause (fails_by blames_link result) (L.faults link.old) (L.faults link.new) }
    ensures book_faults { HasCause (fails_by blames_book result) (B.faults book.old) (B.faults book.new) }
    ensures no_disk { fails_by blames_disk result ≡ false }
{
    match nodes.next.as_ref() {
        Some(next) => submit_grown(alloc, nodes, next, asked, out, link),
        None => submit_plain(alloc, nodes, asked, out, link, book),
    }
}

// The same of a coordinator that goes over to a grown workload, and keeps no log.
fn submit_grown<'a, S: Sink, L: Link>(
    alloc: Global,
    nodes: &Nodes,
    next: &Next,
    asked: Submitting<'a>,
    out: &mut S,
    link: &mut L,
) -> Result<(), Fault<'a>>
    requires cluster { length nodes.now.cluster ≡ nodes.now.plan.program.shards }
    requires coord { asked.coord ≤ 15 }
    requires grown { IsGrownFrom nodes.now.plan.program next.now.plan.program }
    ensures ends { LoopEnded (SubmitsGrowingAs (grown_node_setting nodes.now.plan nodes.now.tag next.now (Coordinator asked.entry.coord) nodes.now.cluster) asked.entry.coord
        nodes.now.requests.items nodes.now.later.items asked.entry.turns (record { link = link_call L.Link link.old link.new; out = sink_call S.Sink out.old out.new })) no_child result }
    ensures files { fails_by blames_file result ≡ false }
    ensures late { fails_by precedes_loop result ≡ false }
    ensures sink_faults { HasCause (fails_by blames_sink result) (S.faults out.old) (S.faults out.new) }
    ensures link_faults { HasCause (fails_by blames_link result) (L.faults link.old) (L.faults link.new) }
    ensures no_disk { fails_by blames_disk result ≡ false }
    ensures no_book { fails_by blames_book result ≡ false }
{
    let end = submit_growing(
        alloc,
        &nodes.plan,
        nodes.tag,
        next,
        asked.coord,
        &nodes.cluster,
        &nodes.requests,
        &nodes.later,
        link,
        asked.turns,
        out,
    );
    submission_told(end, "")
}

// The same of one that does not.
fn submit_plain<'a, S: Sink, L: Link, B: Book>(
    alloc: Global,
    nodes: &Nodes,
    asked: Submitting<'a>,
    out: &mut S,
    link: &mut L,
    book: &mut B,
) -> Result<(), Fault<'a>>
    requires cluster { length nodes.now.cluster ≡ nodes.now.plan.program.shards }
    requires coord { asked.coord ≤ 15 }
    ensures ends { LoopEnded (SubmitsAs (node_setting nodes.now.plan nodes.now.tag (Coordinator asked.entry.coord) nodes.now.cluster) asked.entry.coord nodes.now.requests.items
        asked.entry.turns (named asked.entry.log)
        (record { link = link_call L.Link link.old link.new; out = sink_call S.Sink out.old out.new }) (book_call B.Book book.old book.new)) no_child result }
    ensures files { fails_by blames_file result ≡ false }
    ensures late { fails_by precedes_loop result ≡ false }
    ensures unlogged { named asked.entry.log ≡ None → LeavesBook (book_call B.Book book.old book.new) }
    ensures sink_faults { HasCause (fails_by blames_sink result) (S.faults out.old) (S.faults out.new) }
    ensures link_faults { HasCause (fails_by blames_link result) (L.faults link.old) (L.faults link.new) }
    ensures book_faults { HasCause (fails_by blames_book result) (B.faults book.old) (B.faults book.new) }
    ensures no_disk { fails_by blames_disk result ≡ false }
{
    let end = submit_all(
        alloc,
        &nodes.plan,
        nodes.tag,
        asked.coord,
        &nodes.cluster,
        &nodes.requests,
        link,
        asked.turns,
        out,
        asked.log,
        book,
    );
    submission_told(end, name_of(asked.log))
}

// How a coordinator ended, whose log has this name.
fn submission_told<'a>(end: SubmitEnd, log: &'a str) -> Result<(), Fault<'a>>
    ensures told { LoopEnded (λ e. end_of_submit log.entry.now end ≡ e) no_child result }
    ensures files { fails_by blames_file result ≡ false }
    ensures late { fails_by precedes_loop result ≡ false }
    ensures sink { fails_by blames_sink result ≡ submit_sink_failed end }
    ensures link { fails_by blames_link result ≡ submit_link_failed end }
    ensures book { fails_by blames_book result ≡ submit_book_failed end }
    ensures no_disk { fails_by blames_disk result ≡ false }
{
    match end {
        SubmitEnd::Done => Ok(()),
        SubmitEnd::Unanswered => Err(Fault::Unanswered),
        SubmitEnd::LinkFault => Err(Fault::Link),
        SubmitEnd::SinkFault => Err(Fault::Sink),
        SubmitEnd::BookFault => Err(Fault::Book(log)),
        SubmitEnd::NoMemory => Err(Fault::Memory),
    }
}

/// Stops the servers of the named workload.
pub(crate) fn stop_files<'a, F: Files, S: Sink, L: Link>(
    alloc: Global,
    workload: &'a str,
    cluster: &'a str,
    files: &mut F,
    out: &mut S,
    link: &mut L,
) -> Result<(), Fault<'a>>
    ensures ends { (words : List (List ℕ)) → AreWordsOf words (stop workload.entry.now cluster.entry.now)
        → LaunchEnds (run_call F.Files S.Sink words files.old files.new out.old out.new)
        (AreStopped (run_call F.Files S.Sink words files.old files.new out.old out.new) (link_call L.Link link.old link.new)) no_child result }
    ensures untouched { IsTrue (fails_by precedes_loop result) → link.new ≡ link.old }
    ensures failed { ReadsBut (F.failed_names files.old) (F.failed_names files.new) result }
    ensures file_faults { HasCause (fails_by blames_file result) (F.faults files.old) (F.faults files.new) }
    ensures sink_faults { HasCause (fails_by blames_sink result) (S.faults out.old) (S.faults out.new) }
    ensures link_faults { HasCause (fails_by blames_link result) (L.faults link.old) (L.faults link.new) }
    ensures no_disk { fails_by blames_disk result ≡ false }
    ensures no_book { fails_by blames_book result ≡ false }
    ensures content { (name : List ℕ) → F.content files.new name ≡ F.content files.old name }
{
    let names = NodeNames {
        workload,
        cluster,
        requests: None,
        next: None,
        later: None,
        shard: None,
    };
    match nodes_of(alloc, names, files, out) {
        Ok(nodes) => stop_nodes(alloc, &nodes, link),
        Err(fault) => Err(fault),
    }
}

// The same, once the files were read.
fn stop_nodes<'a, L: Link>(alloc: Global, nodes: &Nodes, link: &mut L) -> Result<(), Fault<'a>>
    ensures ends { LoopEnded (StopsAs nodes.now.tag nodes.now.cluster (link_call L.Link link.old link.new)) no_child result }
    ensures files { fails_by blames_file result ≡ false }
    ensures late { fails_by precedes_loop result ≡ false }
    ensures no_sink { fails_by blames_sink result ≡ false }
    ensures link_faults { HasCause (fails_by blames_link result) (L.faults link.old) (L.faults link.new) }
    ensures no_disk { fails_by blames_disk result ≡ false }
    ensures no_book { fails_by blames_book result ≡ false }
{
    match send_stops(alloc, nodes.tag, &nodes.cluster, link) {
        StopEnd::Done => Ok(()),
        StopEnd::LinkFault => Err(Fault::Link),
        StopEnd::NoMemory => Err(Fault::Memory),
    }
}

/// Starts the servers of the named workload, submits the named requests, and stops the servers.
pub(crate) fn local_files<'a, F: Files, S: Sink, L: Link, P: Spawner>(
    alloc: Global,
    workload: &'a str,
    cluster: &'a str,
    listed: &'a str,
    turns: u32,
    files: &mut F,
    out: &mut S,
    link: &mut L,
    children: &mut P,
) -> Result<(), Fault<'a>>
    ensures ends { (words : List (List ℕ)) → AreWordsOf words (local workload.entry.now cluster.entry.now listed.entry.now turns)
        → LocalLaunched (run_call F.Files S.Sink words files.old files.new out.old out.new) (link_call L.Link link.old link.new)
        (children_call P.Spawner children.old children.new) result }
    ensures children { CountsChildren result (P.faults children.old) (P.faults children.new) }
    ensures early { IsTrue (fails_by precedes_loop result) → children.new ≡ children.old }
    ensures untouched { IsTrue (fails_by precedes_loop result) → link.new ≡ link.old }
    ensures failed { ReadsBut (F.failed_names files.old) (F.failed_names files.new) result }
    ensures file_faults { HasCause (fails_by blames_file result) (F.faults files.old) (F.faults files.new) }
    ensures sink_faults { HasCause (fails_by blames_sink result) (S.faults out.old) (S.faults out.new) }
    ensures link_faults { HasCause (fails_by blames_link result) (L.faults link.old) (L.faults link.new) }
    ensures no_disk { fails_by blames_disk result ≡ false }
    ensures no_book { fails_by blames_book result ≡ false }
    ensures content { (name : List ℕ) → F.content files.new name ≡ F.content files.old name }
{
    let names = NodeNames {
        workload,
        cluster,
        requests: Some(listed),
        next: None,
        later: None,
        shard: None,
    };
    match nodes_of(alloc, names, files, out) {
        Ok(nodes) => local_nodes(alloc, &nodes, workload, cluster, turns, out, link, children),
        Err(fault) => Err(fault),
    }
}

// The same, once the files were read.
fn local_nodes<'a, S: Sink, L: Link, P: Spawner>(
    alloc: Global,
    nodes: &Nodes,
    workload: &str,
    cluster: &str,
    turns: u32,
    out: &mut S,
    link: &mut L,
    children: &mut P,
) -> Result<(), Fault<'a>>
    requires cluster { length nodes.now.cluster ≡ nodes.now.plan.program.shards }
    ensures ends { LocalLoopEnded (local_ask nodes.now.plan nodes.now.tag nodes.now.cluster nodes.now.requests.items workload.now cluster.now turns)
        (record {
          node = record { link = link_call L.Link link.old link.new; out = sink_call S.Sink out.old out.new };
          children = children_call P.Spawner children.old children.new;
        })
        result }
    ensures children { CountsChildren result (P.faults children.old) (P.faults children.new) }
    ensures files { fails_by blames_file result ≡ false }
    ensures late { fails_by precedes_loop result ≡ false }
    ensures sink_faults { HasCause (fails_by blames_sink result) (S.faults out.old) (S.faults out.new) }
    ensures link_faults { HasCause (fails_by blames_link result) (L.faults link.old) (L.faults link.new) }
    ensures no_disk { fails_by blames_disk result ≡ false }
    ensures no_book { fails_by blames_book result ≡ false }
{
    match run_local(
        alloc,
        &nodes.plan,
        nodes.tag,
        workload,
        cluster,
        &nodes.cluster,
        &nodes.requests,
        link,
        children,
        turns,
        out,
    ) {
        LocalEnd::Done => Ok(()),
        LocalEnd::Unanswered => Err(Fault::Unanswered),
        LocalEnd::LinkFault => Err(Fault::Link),
        LocalEnd::SinkFault => Err(Fault::Sink),
        LocalEnd::ChildFault { shard, status } => Err(Fault::Child { shard, status }),
        LocalEnd::NoMemory => Err(Fault::Memory),
    }
}
