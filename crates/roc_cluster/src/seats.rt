//! From tables to entries, and from entries to the addresses of all shards.

ghost use Rattle.std.specs.Prelude.{◌≡◌, ◌==◌, List, [], find, option_copied, IfOk, IfErr};
ghost use Rattle.std.specs.List.{list_any};
ghost use Rattle.toml.specs.Data.{Members};
ghost use Rattle.roc_cluster.specs.Entries.{AreEntries};
ghost use Rattle.roc_cluster.specs.Rules.{rules_of_entries, rules_of_shards};
ghost use Rattle.roc_cluster.specs.Inner.Judged.{Names, table_views, AreRead, Seats};

use crate::cluster::Cluster;
use crate::entry::{Entry, entry_of};
use crate::fault::ClusterFault;
use roc_base::Shard;
use roc_sequence::Sequence;
use std::alloc::Global;
use toml::Table;

fn is_numbered(entries: &[Entry], shard: Shard) -> bool
    ensures { result ≡ list_any (λ entry. entry.shard.0 == shard.0) entries.now }
{
    entries.iter().any(|entry| entry.shard == shard)
}

fn entry_at(entries: &[Entry], shard: Shard) -> Option<&Entry>
    ensures { option_copied result ≡ find (λ entry. entry.shard.0 == shard.0) entries.now }
{
    entries.iter().find(|entry| entry.shard == shard)
}

/// The entries that tables are, of which no two have one shard.
pub(crate) fn entries_of(
    alloc: Global,
    tables: &[&Table],
    shards: u8,
) -> Result<Sequence<Entry>, ClusterFault>
    ensures ok { IfOk result (AreRead shards (table_views tables.now)) }
    ensures err { IfErr result (Names shards (rules_of_entries [] (table_views tables.now))) }
{
    let mut entries = Sequence::new(alloc);
    for table in tables {
        let entry = match entry_of(table, shards) {
            Ok(entry) => entry,
            Err(fault) => return Err(fault),
        };
        if is_numbered(entries.as_slice(), entry.shard) {
            return Err(ClusterFault::Twice(entry.shard));
        }
        entries.push(entry)?;
    }
    Ok(entries)
}

/// The cluster of entries that have each shard.
pub(crate) fn cluster_of(
    alloc: Global,
    entries: &[Entry],
    shards: u8,
) -> Result<Cluster, ClusterFault>
    ensures ok { IfOk result (Seats shards entries.now) }
    ensures err { IfErr result (λ fault. (tables : List Members) → AreEntries shards tables entries.now → Names shards (rules_of_shards shards tables) fault) }
{
    let mut addrs = Sequence::new(alloc);
    for number in 0..shards {
        match entry_at(entries, Shard(number)) {
            Some(entry) => addrs.push(entry.addr)?,
            None => return Err(ClusterFault::Gap(Shard(number))),
        }
    }
    Ok(Cluster::new(addrs))
}
