//! A run with the servers of its cluster as children.
ghost use Rattle.std.specs.Prelude.{◌≡◌, ◌≤◌, false, ℕ, List, [], length, map, None, IfOk};
ghost use Rattle.roc_io.specs.Call.{children_call, link_call, link_view, sink_call};
ghost use Rattle.roc_io.specs.Cause.{HasCause};
ghost use Rattle.roc_io.specs.Link.{sending};
ghost use Rattle.roc_io.specs.Spawner.{command_words};
ghost use Rattle.roc_node.specs.Moves.{Moves};
ghost use Rattle.roc_node_submit.specs.SubmitEnd.{submit_book_failed};
ghost use Rattle.roc_node_local.specs.Stops.{stop_bytes};
ghost use Rattle.roc_node_local.specs.Children.{serve_commands};
ghost use Rattle.roc_node_local.specs.Local.{BlamesChild, RunsLocal, RunsServers, Works, local_ask, local_end_of, local_link_failed, local_sink_failed, stops_behind, with_child};

use crate::children::{ChildEnd, await_all, serve_commands};
use crate::stops::{ANY, send_to_each, stop_bytes};
use roc_base::{NoMemory, Shard};
use roc_book::NoBook;
use roc_cluster::Cluster;
use roc_io::{AllStarted, Bound, Child, Link, Sink, Spawner, start_all};
use roc_node_submit::{SubmitEnd, submit_turns};
use roc_plan::Plan;
use roc_sched::Request;
use std::alloc::Global;

/// How a run with servers of its own ends; of several that apply the first in time.
#[derive(Clone, Copy, Debug, PartialEq, Eq)]
pub enum LocalEnd {
    /// All requests are answered, all lines are written, and each server ended with status 0.
    Done,
    /// All turns were taken and a request is unanswered or was not submitted, and all lines are written.
    Unanswered,
    /// The bind or a receive failed.
    LinkFault,
    /// A write failed.
    SinkFault,
    /// The server of a shard could not be started or awaited, or ended with another status than 0.
    ChildFault {
        /// The shard that it serves.
        shard: Shard,
        /// The status with which it ended, where it did.
        status: Option<u8>,
    },
    /// No memory.
    NoMemory,
}

// What is made before the first start, so that no server runs on for want of memory: the datagram that stops a server, and the words of each.
#[derive(Drop)]
struct Orders {
    stop: Vec<u8>,
    commands: Vec<Vec<String>>,
    children: Vec<Child>,
}

fn orders_for(
    alloc: Global,
    tag: [u8; 8],
    workload: &str,
    cluster: &str,
    turns: u32,
    shards: u8,
) -> Result<Orders, NoMemory>
    ensures stop { IfOk result (λ orders. orders.stop.items ≡ stop_bytes tag) }
    ensures commands { IfOk result (λ orders. map command_words orders.commands.items ≡ serve_commands workload.now cluster.now turns shards) }
    ensures few { IfOk result (λ orders. length orders.commands.items ≤ 255) }
    ensures children { IfOk result (λ orders. orders.children.items ≡ []) }
{
    let stop = stop_bytes(alloc, tag)?;
    let commands = serve_commands(alloc, workload, cluster, turns, shards)?;
    let children = Vec::with_capacity(alloc, usize::from(shards))?;
    Ok(Orders {
        stop,
        commands,
        children,
    })
}

// Without a log the book, which is none, does not fail.
fn end_of(submitted: SubmitEnd) -> LocalEnd
    requires { submit_book_failed submitted ≡ false }
    ensures { result ≡ local_end_of submitted }
{
    match submitted {
        SubmitEnd::Done => LocalEnd::Done,
        SubmitEnd::Unanswered => LocalEnd::Unanswered,
        SubmitEnd::LinkFault => LocalEnd::LinkFault,
        SubmitEnd::SinkFault => LocalEnd::SinkFault,
        SubmitEnd::BookFault => unreachable!(),
        SubmitEnd::NoMemory => LocalEnd::NoMemory,
    }
}

// What is done once so many servers run, and starts ended so.
fn work<L: Link, S: Sink>(
    alloc: Global,
    plan: &Plan,
    tag: [u8; 8],
    cluster: &Cluster,
    requests: &[Request],
    link: &mut L,
    turns: u32,
    out: &mut S,
    starts: AllStarted,
    running: u8,
) -> LocalEnd
    requires { length cluster.now ≡ plan.now.program.shards }
    ensures works { (workload cluster_name : List ℕ) → Works
        (local_ask plan.now tag cluster.now requests.now workload cluster_name turns)
        (record { old = link_view L.Link link.old; new = link_view L.Link link.new; out = sink_call S.Sink out.old out.new })
        starts running result }
    ensures link_cause { HasCause (local_link_failed result) (L.faults link.old) (L.faults link.new) }
    ensures sink_cause { HasCause (local_sink_failed result) (S.faults out.old) (S.faults out.new) }
    ensures bound { L.bound link.new ≡ L.bound link.old }
{
    match starts {
        AllStarted::Ok => end_of(submit_turns(
            alloc,
            plan,
            tag,
            0,
            cluster,
            requests,
            link,
            turns,
            out,
            false,
            &mut NoBook,
        )),
        AllStarted::NoMemory => LocalEnd::NoMemory,
        AllStarted::Failed => LocalEnd::ChildFault {
            shard: Shard(running),
            status: None,
        },
    }
}

fn stop_started<L: Link>(link: &mut L, cluster: &Cluster, stop: &[u8], children: &[Child])
    ensures moves { Moves (link_view L.Link link.old) (link_view L.Link link.new) (map sending (stops_behind children.now stop.now cluster.now)) }
    ensures faults { L.faults link.new ≡ L.faults link.old }
    ensures bound { L.bound link.new ≡ L.bound link.old }
{
    if !children.is_empty() {
        send_to_each(link, cluster, stop);
    }
}

fn with_child(end: LocalEnd, bad: Option<ChildEnd>) -> LocalEnd
    ensures { result ≡ with_child end bad }
{
    match (end, bad) {
        (LocalEnd::Done, Some(ChildEnd { shard, status })) => LocalEnd::ChildFault {
            shard,
            status,
        },
        _ => end,
    }
}

// The servers, the requests, the stops and the ends of the servers, over a link that is bound.
fn run_servers<L: Link, P: Spawner, S: Sink>(
    alloc: Global,
    plan: &Plan,
    tag: [u8; 8],
    cluster: &Cluster,
    requests: &[Request],
    orders: &mut Orders,
    link: &mut L,
    spawner: &mut P,
    turns: u32,
    out: &mut S,
) -> LocalEnd
    requires cluster { length cluster.now ≡ plan.now.program.shards }
    requires stop { orders.old.stop.items ≡ stop_bytes tag }
    requires few { length orders.old.commands.items ≤ 255 }
    requires children { orders.old.children.items ≡ [] }
    ensures runs { (workload cluster_name : List ℕ) → map command_words orders.old.commands.items ≡ serve_commands workload cluster_name turns (length cluster.now) → RunsServers
        (local_ask plan.now tag cluster.now requests.now workload cluster_name turns)
        (record {
          node = record { link = link_call L.Link link.old link.new; out = sink_call S.Sink out.old out.new };
          children = children_call P.Spawner spawner.old spawner.new;
        })
        result }
    ensures link_cause { HasCause (local_link_failed result) (L.faults link.old) (L.faults link.new) }
    ensures sink_cause { HasCause (local_sink_failed result) (S.faults out.old) (S.faults out.new) }
    ensures child_cause { BlamesChild result (P.faults spawner.old) (P.faults spawner.new) }
    ensures bound { L.bound link.new ≡ L.bound link.old }
{
    let starts = start_all(spawner, &orders.commands, &mut orders.children);
    let running = orders.children.as_slice().len() as u8;
    let first = work(
        alloc, plan, tag, cluster, requests, link, turns, out, starts, running,
    );
    stop_started(link, cluster, &orders.stop, &orders.children);
    let bad = await_all(spawner, &orders.children, link);
    with_child(first, bad)
}

/// Runs the requests of a cluster with servers of its own: binds any free port, starts for each shard, in order, a child with the words
/// `serve WORKLOAD CLUSTER --shard N --turns T`, submits the requests as coordinator 0 for so many turns, stops the servers and awaits each
/// child that was started. Where a child does not start, nothing is submitted. Stops are sent and children awaited whatever went wrong before.
pub fn run_local<L: Link, P: Spawner, S: Sink>(
    alloc: Global,
    plan: &Plan,
    tag: [u8; 8],
    workload_name: &str,
    cluster_name: &str,
    cluster: &Cluster,
    requests: &[Request],
    link: &mut L,
    spawner: &mut P,
    turns: u32,
    out: &mut S,
) -> LocalEnd
    requires { length cluster.now ≡ plan.now.program.shards }
    ensures runs { RunsLocal
        (local_ask plan.now tag cluster.now requests.now workload_name.now cluster_name.now turns)
        (record {
          node = record { link = link_call L.Link link.old link.new; out = sink_call S.Sink out.old out.new };
          children = children_call P.Spawner spawner.old spawner.new;
        })
        result }
    // A fault has its cause, and where all is done no failure was counted.
    ensures link_cause { HasCause (local_link_failed result) (L.faults link.old) (L.faults link.new) }
    ensures sink_cause { HasCause (local_sink_failed result) (S.faults out.old) (S.faults out.new) }
    ensures child_cause { BlamesChild result (P.faults spawner.old) (P.faults spawner.new) }
{
    let shards = plan.workload().shards();
    let mut orders = match orders_for(alloc, tag, workload_name, cluster_name, turns, shards) {
        Ok(orders) => orders,
        Err(NoMemory) => return LocalEnd::NoMemory,
    };
    match link.bind(ANY) {
        Bound::Ok => run_servers(
            alloc,
            plan,
            tag,
            cluster,
            requests,
            &mut orders,
            link,
            spawner,
            turns,
            out,
        ),
        Bound::Failed => LocalEnd::LinkFault,
    }
}
