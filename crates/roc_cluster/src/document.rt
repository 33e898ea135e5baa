//! The tables of a document.

ghost use Rattle.std.specs.Prelude.{◌≡◌, Some, IfOk, IfErr, option_map, option_and_then};
ghost use Rattle.std.specs.List.{list_any};
ghost use Rattle.std.specs.Str.{bytes_eq};
ghost use Rattle.toml.specs.Data.{get_member, as_array};
ghost use Rattle.toml.specs.View.{array_view, items_view, table_view};
ghost use Rattle.roc_cluster.specs.Entries.{top_keys, has_only, tables_of, listed_tables};
ghost use Rattle.roc_cluster.specs.Inner.Judged.{table_views, NoTables};

use crate::fault::{ClusterFault, FieldName};
use std::alloc::Global;
use toml::value::Array;
use toml::{Table, Value};

fn is_top_key(key: &str) -> bool
    ensures { result ≡ list_any (bytes_eq key.now) top_keys }
{
    key == "shard"
}

pub(crate) fn has_only_top_keys(document: &Table) -> bool
    ensures { result ≡ has_only top_keys (table_view document.now) }
{
    document.keys().all(|key| is_top_key(key.as_str()))
}

fn array_at<'a>(document: &'a Table, key: &str) -> Option<&'a Array>
    ensures { option_map (λ items. array_view items.now) result ≡ option_and_then as_array (get_member key.now (table_view document.now)) }
{
    match document.get(key) {
        Some(value) => value.as_array(),
        None => None,
    }
}

/// The tables that the items are.
fn all_tables(alloc: Global, items: &[Value]) -> Result<Vec<&Table>, ClusterFault>
    ensures ok { IfOk result (λ tables. tables_of (items_view items.now) ≡ Some (table_views tables.items)) }
    ensures err { IfErr result (NoTables (tables_of (items_view items.now))) }
{
    let mut tables = Vec::new(alloc);
    for item in items {
        match item.as_table() {
            Some(table) => tables.push(table)?,
            None => return Err(ClusterFault::Field(FieldName::Shard)),
        }
    }
    Ok(tables)
}

/// The tables under `shard`.
pub(crate) fn listed(alloc: Global, document: &Table) -> Result<Vec<&Table>, ClusterFault>
    ensures ok { IfOk result (λ tables. listed_tables (table_view document.now) ≡ Some (table_views tables.items)) }
    ensures err { IfErr result (NoTables (listed_tables (table_view document.now))) }
{
    match array_at(document, "shard") {
        Some(items) => all_tables(alloc, items.as_slice()),
        None => Err(ClusterFault::Field(FieldName::Shard)),
    }
}
