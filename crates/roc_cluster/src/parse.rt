//! `parse_cluster`: from the bytes of a cluster file to its addresses.

ghost use Rattle.std.specs.Prelude.{List, IfOk, IfErr};
ghost use Rattle.toml.specs.View.{table_view};
ghost use Rattle.roc_io.specs.declared.link.Addr.{Addr};
ghost use Rattle.roc_cluster.specs.File.{IsDocument, IsClusterOf, IsClusterFile};
ghost use Rattle.roc_cluster.specs.Rules.{rules_of};
ghost use Rattle.roc_cluster.specs.Answer.{IsReadAs, IsClusterFault};
ghost use Rattle.roc_cluster.specs.Inner.Judged.{Names, NoDocument};

use crate::cluster::Cluster;
use crate::document::{has_only_top_keys, listed};
use crate::fault::{ClusterFault, FieldName};
use crate::seats::{cluster_of, entries_of};
use std::alloc::Global;
use toml::Table;

fn document_of(alloc: Global, text: &[u8]) -> Result<Table, ClusterFault>
    ensures ok { IfOk result (λ document. IsDocument text.now (table_view document)) }
    ensures err { IfErr result (NoDocument text.now) }
{
    match toml::table_from_slice(alloc, text) {
        Ok(document) => Ok(document),
        Err(error) => {
            if error.is_memory() {
                Err(ClusterFault::NoMemory)
            } else {
                Err(ClusterFault::Toml)
            }
        }
    }
}

/// The cluster of a document.
fn cluster_in(alloc: Global, document: &Table, shards: u8) -> Result<Cluster, ClusterFault>
    ensures ok { IfOk result (IsClusterOf shards (table_view document.now)) }
    ensures err { IfErr result (Names shards (rules_of shards (table_view document.now))) }
{
    if !has_only_top_keys(document) {
        return Err(ClusterFault::Field(FieldName::Other));
    }
    let tables = listed(alloc, document)?;
    let entries = entries_of(alloc, &tables, shards)?;
    cluster_of(alloc, entries.as_slice(), shards)
}

/// The cluster of a cluster file for this many shards: `docs/FORMATS.md` says what that is.
///
/// A fault is the first that the rules of that page name. `NoMemory` leaves nothing behind.
pub fn parse_cluster(alloc: Global, text: &[u8], shards: u8) -> Result<Cluster, ClusterFault>
    // What is taken is a cluster file of this cluster.
    ensures found { IfOk result (IsClusterFile shards text.now) }
    // A cluster file is taken, unless memory runs out.
    ensures only { (cluster : List Addr) → IsClusterFile shards text.now cluster → IsReadAs cluster result }
    // A fault is the first of the bytes.
    ensures fault { IfErr result (IsClusterFault shards text.now) }
{
    let document = document_of(alloc, text)?;
    cluster_in(alloc, &document, shards)
}
