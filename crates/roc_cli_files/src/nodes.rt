//! The files of a command with nodes: read and judged in the order of the words, each before the next is read.
ghost use Rattle.std.specs.Prelude.{◌≡◌, ℕ, List, Option, false, IfOk, IfErr};
ghost use Rattle.roc_io.specs.Cause.{HasCause};
ghost use Rattle.roc_check.specs.Checked.{IsPlanOfText};
ghost use Rattle.roc_lang.specs.Grammar.{text_limit};
ghost use Rattle.roc_cli_files.specs.Held.{Holds, HoldsCluster};
ghost use Rattle.roc_cli_files.specs.Fault.{blames_file, blames_sink, blames_link, fails_by, ReadsBut};
ghost use Rattle.roc_cli_files.specs.Input.{HoldsWithin};
ghost use Rattle.roc_cli_files.specs.NodeNames.{tag_of_bytes, files_named, HoldsGrowth, HoldsAll, NodesFail};
ghost use Rattle.roc_cli_files.specs.Inner.First.{HoldsFirst};
ghost use Rattle.roc_cli_files.specs.Inner.Shards.{lacks_shard, IsJudgedShard};

use crate::fault::Fault;
use crate::grown::next_named;
use crate::input::{bytes_of, checked};
use crate::listed::{cluster_of, requests_named};
use roc_base::Shard;
use roc_cli_words::Growth;
use roc_cluster::Cluster;
use roc_epoch::{Next, last_plan};
use roc_io::{Files, Sink};
use roc_lang::limits::TEXT_BYTES;
use roc_plan::Plan;
use roc_sched::Request;
use roc_wire::tag;
use std::alloc::Global;

/// The names of the files of a command with nodes, and the shard that it serves. Those of the workload to grow to and of the requests to submit then
/// stand behind the others, wherever the words have them.
#[derive(Clone, Copy)]
pub struct NodeNames<'a> {
    pub workload: &'a str,
    pub cluster: &'a str,
    pub requests: Option<&'a str>,
    pub next: Option<Growth<'a>>,
    pub later: Option<&'a str>,
    pub shard: Option<Shard>,
}

/// What they hold.
#[derive(Drop)]
pub struct Nodes {
    pub plan: Plan,
    pub tag: [u8; 8],
    pub cluster: Cluster,
    pub requests: Vec<Request>,
    pub next: Option<Next>,
    /// The requests to submit once the workload has grown.
    pub later: Vec<Request>,
}

/// Reads the files of a command with nodes.
pub fn nodes_of<'a, F: Files, S: Sink>(
    alloc: Global,
    names: NodeNames<'a>,
    files: &mut F,
    out: &mut S,
) -> Result<Nodes, Fault<'a>>
    ensures held { IfOk result (HoldsAll (F.content files.old) (files_named names.entry)) }
    ensures untouched { IfOk result (λ nodes. S.taken out.new ≡ S.taken out.old) }
    ensures fails { IfErr result (NodesFail (F.content files.old) (files_named names.entry) (S.taken out.old) (S.taken out.new)) }
    ensures failed { ReadsBut (F.failed_names files.old) (F.failed_names files.new) result }
    ensures file_faults { HasCause (fails_by blames_file result) (F.faults files.old) (F.faults files.new) }
    ensures sink_faults { HasCause (fails_by blames_sink result) (S.faults out.old) (S.faults out.new) }
    ensures content { (name : List ℕ) → F.content files.new name ≡ F.content files.old name }
    ensures no_link { fails_by blames_link result ≡ false }
{
    match first_of(alloc, names, files, out) {
        Ok(nodes) => grown_of(alloc, names, nodes, files, out),
        Err(fault) => Err(fault),
    }
}

// The same, once those up to the requests were read.
fn grown_of<'a, F: Files, S: Sink>(
    alloc: Global,
    names: NodeNames<'a>,
    mut nodes: Nodes,
    files: &mut F,
    out: &mut S,
) -> Result<Nodes, Fault<'a>>
    ensures held { HoldsFirst (F.content files.old) (files_named names.entry) nodes → IfOk result (HoldsAll (F.content files.old) (files_named names.entry)) }
    ensures untouched { IfOk result (λ nodes. S.taken out.new ≡ S.taken out.old) }
    ensures fails { HoldsFirst (F.content files.old) (files_named names.entry) nodes
        → IfErr result (NodesFail (F.content files.old) (files_named names.entry) (S.taken out.old) (S.taken out.new)) }
    ensures failed { ReadsBut (F.failed_names files.old) (F.failed_names files.new) result }
    ensures file_faults { HasCause (fails_by blames_file result) (F.faults files.old) (F.faults files.new) }
    ensures sink_faults { HasCause (fails_by blames_sink result) (S.faults out.old) (S.faults out.new) }
    ensures content { (name : List ℕ) → F.content files.new name ≡ F.content files.old name }
    ensures no_link { fails_by blames_link result ≡ false }
{
    match next_named(alloc, files, names.next, &nodes.plan, &nodes.tag, out) {
        Ok(next) => {
            nodes.next = next;
            later_of(alloc, names, nodes, files)
        }
        Err(fault) => Err(fault),
    }
}

// The same, once it is known what comes next.
fn later_of<'a, F: Files>(
    alloc: Global,
    names: NodeNames<'a>,
    mut nodes: Nodes,
    files: &mut F,
) -> Result<Nodes, Fault<'a>>
    ensures held { HoldsFirst (F.content files.old) (files_named names.entry) nodes
        → HoldsGrowth (F.content files.old) (files_named names.entry).next nodes.plan.program nodes.tag nodes.next
        → IfOk result (HoldsAll (F.content files.old) (files_named names.entry)) }
    ensures fails { (out : Option (List ℕ)) → HoldsFirst (F.content files.old) (files_named names.entry) nodes
        → HoldsGrowth (F.content files.old) (files_named names.entry).next nodes.plan.program nodes.tag nodes.next
        → IfErr result (NodesFail (F.content files.old) (files_named names.entry) out out) }
    ensures failed { ReadsBut (F.failed_names files.old) (F.failed_names files.new) result }
    ensures file_faults { HasCause (fails_by blames_file result) (F.faults files.old) (F.faults files.new) }
    ensures no_sink { fails_by blames_sink result ≡ false }
    ensures content { (name : List ℕ) → F.content files.new name ≡ F.content files.old name }
    ensures no_link { fails_by blames_link result ≡ false }
{
    let last = last_plan(&nodes.plan, nodes.next.as_ref());
    match requests_named(alloc, files, names.later, last) {
        Ok(later) => {
            nodes.later = later;
            with_shard(names.shard, nodes)
        }
        Err(fault) => Err(fault),
    }
}

// Reads those up to the requests.
fn first_of<'a, F: Files, S: Sink>(
    alloc: Global,
    names: NodeNames<'a>,
    files: &mut F,
    out: &mut S,
) -> Result<Nodes, Fault<'a>>
    ensures held { IfOk result (HoldsFirst (F.content files.old) (files_named names.entry)) }
    ensures untouched { IfOk result (λ nodes. S.taken out.new ≡ S.taken out.old) }
    ensures fails { IfErr result (NodesFail (F.content files.old) (files_named names.entry) (S.taken out.old) (S.taken out.new)) }
    ensures failed { ReadsBut (F.failed_names files.old) (F.failed_names files.new) result }
    ensures file_faults { HasCause (fails_by blames_file result) (F.faults files.old) (F.faults files.new) }
    ensures sink_faults { HasCause (fails_by blames_sink result) (S.faults out.old) (S.faults out.new) }
    ensures content { (name : List ℕ) → F.content files.new name ≡ F.content files.old name }
    ensures no_link { fails_by blames_link result ≡ false }
{
    match bytes_of(alloc, files, names.workload, TEXT_BYTES) {
        Ok(bytes) => first_of_bytes(alloc, names, &bytes, files, out),
        Err(fault) => Err(fault),
    }
}

// The same, once the workload was read.
fn first_of_bytes<'a, F: Files, S: Sink>(
    alloc: Global,
    names: NodeNames<'a>,
    bytes: &[u8],
    files: &mut F,
    out: &mut S,
) -> Result<Nodes, Fault<'a>>
    ensures held { HoldsWithin (F.content files.old) names.entry.workload.now text_limit bytes.now → IfOk result (HoldsFirst (F.content files.old) (files_named names.entry)) }
    ensures untouched { IfOk result (λ nodes. S.taken out.new ≡ S.taken out.old) }
    ensures fails { HoldsWithin (F.content files.old) names.entry.workload.now text_limit bytes.now
        → IfErr result (NodesFail (F.content files.old) (files_named names.entry) (S.taken out.old) (S.taken out.new)) }
    ensures failed { ReadsBut (F.failed_names files.old) (F.failed_names files.new) result }
    ensures file_faults { HasCause (fails_by blames_file result) (F.faults files.old) (F.faults files.new) }
    ensures sink_faults { HasCause (fails_by blames_sink result) (S.faults out.old) (S.faults out.new) }
    ensures content { (name : List ℕ) → F.content files.new name ≡ F.content files.old name }
    ensures no_link { fails_by blames_link result ≡ false }
{
    match checked(alloc, names.workload, bytes, out) {
        Ok(plan) => first_of_plan(alloc, names, plan, tag(bytes), files),
        Err(fault) => Err(fault),
    }
}

// The same, once the workload has a plan.
fn first_of_plan<'a, F: Files>(
    alloc: Global,
    names: NodeNames<'a>,
    plan: Plan,
    tag: [u8; 8],
    files: &mut F,
) -> Result<Nodes, Fault<'a>>
    ensures held { (bytes : List ℕ) → Holds (F.content files.old) names.entry.workload.now bytes → IsPlanOfText bytes plan → tag ≡ tag_of_bytes bytes
        → IfOk result (HoldsFirst (F.content files.old) (files_named names.entry)) }
    ensures fails { (bytes : List ℕ) (out : Option (List ℕ)) → Holds (F.content files.old) names.entry.workload.now bytes → IsPlanOfText bytes plan
        → IfErr result (NodesFail (F.content files.old) (files_named names.entry) out out) }
    ensures failed { ReadsBut (F.failed_names files.old) (F.failed_names files.new) result }
    ensures file_faults { HasCause (fails_by blames_file result) (F.faults files.old) (F.faults files.new) }
    ensures no_sink { fails_by blames_sink result ≡ false }
    ensures content { (name : List ℕ) → F.content files.new name ≡ F.content files.old name }
    ensures no_link { fails_by blames_link result ≡ false }
{
    match cluster_of(alloc, files, names.cluster, plan.workload().shards()) {
        Ok(cluster) => first_of_cluster(alloc, names, plan, tag, cluster, files),
        Err(fault) => Err(fault),
    }
}

// The same, once the cluster file was read.
fn first_of_cluster<'a, F: Files>(
    alloc: Global,
    names: NodeNames<'a>,
    plan: Plan,
    tag: [u8; 8],
    cluster: Cluster,
    files: &mut F,
) -> Result<Nodes, Fault<'a>>
    ensures held { (bytes : List ℕ) → Holds (F.content files.old) names.entry.workload.now bytes → IsPlanOfText bytes plan → tag ≡ tag_of_bytes bytes
        → HoldsCluster (F.content files.old) names.entry.cluster.now plan.program.shards cluster → IfOk result (HoldsFirst (F.content files.old) (files_named names.entry)) }
    ensures fails { (bytes : List ℕ) (out : Option (List ℕ)) → Holds (F.content files.old) names.entry.workload.now bytes → IsPlanOfText bytes plan
        → HoldsCluster (F.content files.old) names.entry.cluster.now plan.program.shards cluster → IfErr result (NodesFail (F.content files.old) (files_named names.entry) out out) }
    ensures failed { ReadsBut (F.failed_names files.old) (F.failed_names files.new) result }
    ensures file_faults { HasCause (fails_by blames_file result) (F.faults files.old) (F.faults files.new) }
    ensures no_sink { fails_by blames_sink result ≡ false }
    ensures content { (name : List ℕ) → F.content files.new name ≡ F.content files.old name }
    ensures no_link { fails_by blames_link result ≡ false }
{
    match requests_named(alloc, files, names.requests, &plan) {
        Ok(requests) => Ok(Nodes {
            plan,
            tag,
            cluster,
            requests,
            next: None,
            later: Vec::new(alloc),
        }),
        Err(fault) => Err(fault),
    }
}

// The same, once all files were read: only now the shard is judged that is to be served.
fn with_shard<'a>(shard: Option<Shard>, nodes: Nodes) -> Result<Nodes, Fault<'a>>
    ensures { IsJudgedShard shard nodes result }
{
    if lacks(shard, nodes.plan.workload().shards()) {
        return Err(Fault::NoShard);
    }
    Ok(nodes)
}

// Whether a shard is asked for that is not one of so many.
fn lacks(shard: Option<Shard>, shards: u8) -> bool
    ensures { result ≡ lacks_shard shard shards }
{
    match shard {
        Some(shard) => shard.0 >= shards,
        None => false,
    }
}
