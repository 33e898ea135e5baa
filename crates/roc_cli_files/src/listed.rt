//! Cluster files and request files.
ghost use Rattle.std.specs.Prelude.{◌≡◌, ℕ, List, false, option_map};
ghost use Rattle.roc_io.specs.Cause.{HasCause};
ghost use Rattle.roc_cli_files.specs.Fault.{blames_file, blames_sink, blames_link, fails_by, ReadsBut};
ghost use Rattle.roc_cli_files.specs.Inner.Listed.{ClusterEnds, ClusterTextEnds, ListedEnd, RequestsEnd, RequestsTextEnd};

use crate::fault::Fault;
use crate::input::bytes_of;
use crate::requests::requests_in;
use roc_cluster::{Cluster, ClusterFault, parse_cluster};
use roc_io::Files;
use roc_lang::limits::TEXT_BYTES;
use roc_plan::Plan;
use roc_sched::{Request, TextFault};
use std::alloc::Global;

/// How many bytes a schedule or a request file may have.
pub const MOST_LISTED_BYTES: usize = 8_388_608;

/// The cluster that a file holds, of so many shards.
pub(crate) fn cluster_of<'a, F: Files>(
    alloc: Global,
    files: &mut F,
    name: &'a str,
    shards: u8,
) -> Result<Cluster, Fault<'a>>
    ensures ends { ClusterEnds (F.content files.old) name.entry.now shards result }
    ensures failed { ReadsBut (F.failed_names files.old) (F.failed_names files.new) result }
    ensures file_faults { HasCause (fails_by blames_file result) (F.faults files.old) (F.faults files.new) }
    ensures no_sink { fails_by blames_sink result ≡ false }
    ensures unchanged { (other : List ℕ) → F.content files.new other ≡ F.content files.old other }
    ensures no_link { fails_by blames_link result ≡ false }
{
    match bytes_of(alloc, files, name, TEXT_BYTES) {
        Ok(bytes) => cluster_in(alloc, name, &bytes, shards),
        Err(fault) => Err(fault),
    }
}

// The cluster of these bytes, of the file of this name.
fn cluster_in<'a>(
    alloc: Global,
    name: &'a str,
    bytes: &[u8],
    shards: u8,
) -> Result<Cluster, Fault<'a>>
    ensures ends { ClusterTextEnds bytes.now name.entry.now shards result }
    ensures no_file { fails_by blames_file result ≡ false }
    ensures no_sink { fails_by blames_sink result ≡ false }
    ensures no_link { fails_by blames_link result ≡ false }
{
    match parse_cluster(alloc, bytes, shards) {
        Ok(cluster) => Ok(cluster),
        Err(ClusterFault::Toml) => Err(no_cluster(name, ClusterFault::Toml)),
        Err(ClusterFault::Field(field)) => Err(no_cluster(name, ClusterFault::Field(field))),
        Err(ClusterFault::Twice(shard)) => Err(no_cluster(name, ClusterFault::Twice(shard))),
        Err(ClusterFault::Gap(shard)) => Err(no_cluster(name, ClusterFault::Gap(shard))),
        Err(ClusterFault::NoMemory) => Err(Fault::Memory),
    }
}

fn no_cluster(file: &str, fault: ClusterFault) -> Fault<'_>
    ensures { result ≡ Fault.Cluster file.entry fault }
{
    Fault::Cluster { file, fault }
}

/// The requests of the file of this name, where there is a name.
pub(crate) fn requests_named<'a, F: Files>(
    alloc: Global,
    files: &mut F,
    name: Option<&'a str>,
    plan: &Plan,
) -> Result<Vec<Request>, Fault<'a>>
    ensures ends { ListedEnd (F.content files.old) (option_map (λ n. n.now) name.entry) plan.now.program result }
    ensures failed { ReadsBut (F.failed_names files.old) (F.failed_names files.new) result }
    ensures file_faults { HasCause (fails_by blames_file result) (F.faults files.old) (F.faults files.new) }
    ensures no_sink { fails_by blames_sink result ≡ false }
    ensures unchanged { (other : List ℕ) → F.content files.new other ≡ F.content files.old other }
    ensures no_link { fails_by blames_link result ≡ false }
{
    match name {
        Some(name) => requests_of(alloc, files, name, plan),
        None => Ok(Vec::new(alloc)),
    }
}

// The requests that a file holds, all of which fit the plan.
fn requests_of<'a, F: Files>(
    alloc: Global,
    files: &mut F,
    name: &'a str,
    plan: &Plan,
) -> Result<Vec<Request>, Fault<'a>>
    ensures ends { RequestsEnd (F.content files.old) name.entry.now plan.now.program result }
    ensures failed { ReadsBut (F.failed_names files.old) (F.failed_names files.new) result }
    ensures file_faults { HasCause (fails_by blames_file result) (F.faults files.old) (F.faults files.new) }
    ensures no_sink { fails_by blames_sink result ≡ false }
    ensures unchanged { (other : List ℕ) → F.content files.new other ≡ F.content files.old other }
    ensures no_link { fails_by blames_link result ≡ false }
{
    match bytes_of(alloc, files, name, MOST_LISTED_BYTES) {
        Ok(bytes) => requests_at(alloc, name, &bytes, plan),
        Err(fault) => Err(fault),
    }
}

// The requests of these bytes, of the file of this name.
fn requests_at<'a>(
    alloc: Global,
    name: &'a str,
    bytes: &[u8],
    plan: &Plan,
) -> Result<Vec<Request>, Fault<'a>>
    ensures ends { RequestsTextEnd bytes.now name.entry.now plan.now.program result }
    ensures no_file { fails_by blames_file result ≡ false }
    ensures no_sink { fails_by blames_sink result ≡ false }
    ensures no_link { fails_by blames_link result ≡ false }
{
    match requests_in(alloc, plan, bytes) {
        Ok(requests) => Ok(requests),
        Err(TextFault::At { line, what }) => Err(Fault::At {
            file: name,
            line,
            what: what.as_str(),
        }),
        Err(TextFault::NoMemory) => Err(Fault::Memory),
    }
}
