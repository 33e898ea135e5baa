//! One entry of a cluster file.

ghost use Rattle.std.specs.Prelude.{◌≡◌, ℕ, List, IfSome, IfOk, IfErr, IsNone, option_and_then, option_copied};
ghost use Rattle.std.specs.List.{list_any};
ghost use Rattle.std.specs.Str.{bytes_eq};
ghost use Rattle.std.specs.Net.Grammar.{IsDotted};
ghost use Rattle.toml.specs.Data.{get_member, as_integer, as_str};
ghost use Rattle.toml.specs.View.{table_view};
ghost use Rattle.roc_cluster.specs.Entries.{entry_keys, has_only, number_of, HasHost, port_of, IsEntry};
ghost use Rattle.roc_cluster.specs.Rules.{rules_of_fields};
ghost use Rattle.roc_cluster.specs.Inner.Judged.{Names};

use crate::fault::{ClusterFault, FieldName};
use roc_base::Shard;
use roc_io::Addr;
use std::net::Ipv4Addr;
use toml::{Table, Value};

/// A shard, and where its server is.
#[derive(Clone, Copy)]
pub(crate) struct Entry {
    pub(crate) shard: Shard,
    pub(crate) addr: Addr,
}

/// The integer under a key.
fn integer_at(table: &Table, key: &str) -> Option<i64>
    ensures { result ≡ option_and_then as_integer (get_member key.now (table_view table.now)) }
{
    match table.get(key) {
        Some(value) => value.as_integer(),
        None => None,
    }
}

/// The text under a key.
fn text_at<'a>(table: &'a Table, key: &str) -> Option<&'a str>
    ensures { option_copied result ≡ option_and_then as_str (get_member key.now (table_view table.now)) }
{
    match table.get(key) {
        Some(value) => value.as_str(),
        None => None,
    }
}

fn number_of(table: &Table, shards: u8) -> Option<u8>
    ensures { result ≡ number_of shards (table_view table.now) }
{
    let number = u8::try_from(integer_at(table, "number")?).ok()?;
    if number < shards { Some(number) } else { None }
}

fn port_of(table: &Table) -> Option<u16>
    ensures { result ≡ port_of (table_view table.now) }
{
    let port = u16::try_from(integer_at(table, "port")?).ok()?;
    if port > 0 { Some(port) } else { None }
}

/// The address that a text is.
fn address_of(text: &str) -> Option<[u8; 4]>
    ensures some { IfSome result (IsDotted text.now) }
    ensures none { IsNone result → (bytes : List ℕ) → ¬ IsDotted text.now bytes }
{
    match Ipv4Addr::parse_ascii(text.as_bytes()) {
        Ok(host) => Some(host.octets()),
        Err(_) => None,
    }
}

fn host_of(table: &Table) -> Option<[u8; 4]>
    ensures some { IfSome result (HasHost (table_view table.now)) }
    ensures none { IsNone result → (bytes : List ℕ) → ¬ HasHost (table_view table.now) bytes }
{
    match text_at(table, "host") {
        Some(text) => address_of(text),
        None => None,
    }
}

fn is_entry_key(key: &str) -> bool
    ensures { result ≡ list_any (bytes_eq key.now) entry_keys }
{
    key == "number" || key == "host" || key == "port"
}

fn has_only_entry_keys(table: &Table) -> bool
    ensures { result ≡ has_only entry_keys (table_view table.now) }
{
    table.keys().all(|key| is_entry_key(key.as_str()))
}

/// The entry that a table is.
pub(crate) fn entry_of(table: &Table, shards: u8) -> Result<Entry, ClusterFault>
    ensures ok { IfOk result (IsEntry shards (table_view table.now)) }
    ensures err { IfErr result (Names shards (rules_of_fields (table_view table.now))) }
{
    let Some(number) = number_of(table, shards) else {
        return Err(ClusterFault::Field(FieldName::Number));
    };
    let Some(host) = host_of(table) else {
        return Err(ClusterFault::Field(FieldName::Host));
    };
    let Some(port) = port_of(table) else {
        return Err(ClusterFault::Field(FieldName::Port));
    };
    if !has_only_entry_keys(table) {
        return Err(ClusterFault::Field(FieldName::Other));
    }
    Ok(Entry {
        shard: Shard(number),
        addr: Addr { host, port },
    })
}
