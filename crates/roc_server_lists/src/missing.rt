//! What new lists name: whose entries are done, and whose lists are missing.
ghost use Rattle.std.specs.Prelude.{◌≡◌, not, ◌&&◌, map, filter, IfOk};
ghost use Rattle.std.specs.List.Sorted.{IsStrictlySortedBy};
ghost use Rattle.roc_base.specs.TxnId.{is_txn, txn_cmp};
ghost use Rattle.roc_sequence.specs.Places.{is_listed};
ghost use Rattle.roc_depgraph.specs.Deps.{is_known};
ghost use Rattle.roc_step.specs.Waits.{was_asked_for};
ghost use Rattle.roc_server_lists.specs.ListsNow.{is_missing_at};
ghost use Rattle.roc_server_lists.specs.Inner.Finding.{asked_by, is_done_with, AreIdsSame};

use crate::parts::ListParts;
use roc_await::{OpenFetch, Waits};
use roc_base::{Edge, NoMemory, Shard, TxnId};
use roc_depgraph::is_among_rising;
use roc_server_groups::{StartedGroups, is_here};
use roc_server_table::ListTable;
use roc_server_taken::Marks;
use std::alloc::Global;

// Of the transactions that entries name, those of which the entries are done as they are learnt.
pub(crate) fn done_of(
    alloc: Global,
    shard: Shard,
    parts: &ListParts,
    started: &StartedGroups,
    edges: &[Edge],
) -> Result<Vec<TxnId>, NoMemory>
    ensures { IfOk result (λ done. done.items ≡ map (λ d. d.from) (filter (is_done_with shard started.now.groups parts.now.marks parts.now.table.known) edges.now)) }
{
    let mut done = Vec::new(alloc);
    for edge in edges {
        if is_done_with(shard, parts, started, *edge) {
            done.push(edge.from())?;
        }
    }
    Ok(done)
}

// Whether the entries of a transaction are done as they are learnt, where this is what they and those of known lists say together.
fn is_done_with(shard: Shard, parts: &ListParts, started: &StartedGroups, edge: Edge) -> bool
    ensures { result ≡ is_done_with shard started.now.groups parts.now.marks parts.now.table.known edge }
{
    let id = edge.from();
    let own = u16::from(shard.0);
    let told = u16::from(edge.at().0);
    // The least is no higher, and the lists need not be looked through for it.
    if told < own {
        return false;
    }
    parts.marks.is_ended(id)
        && !is_here(started, id)
        && parts.table.least_naming(id, told.min(own + 1)) == own
}

// What entries name and is missing, by id, each with the shard that is to be asked. Those that are done, which rise, are left out.
pub(crate) fn missing_from(
    alloc: Global,
    parts: &ListParts,
    started: &StartedGroups,
    edges: &[Edge],
    done: &[TxnId],
) -> Result<Vec<OpenFetch>, NoMemory>
    requires rising { IsStrictlySortedBy txn_cmp done.now }
    requires same { AreIdsSame parts.now.table }
    ensures { IfOk result (λ asks. asks.items ≡ map (asked_by parts.now.marks parts.now.table.known)
        (filter (λ d. not (is_listed is_txn done.now d.from) && is_missing_at started.now.groups parts.now.table.links parts.now.waits.waiting.asked d) edges.now)) }
{
    let mut asks = Vec::new(alloc);
    for edge in edges {
        if is_lacking(parts, started, done, *edge) {
            asks.push(ask_for(&parts.marks, &parts.table, *edge))?;
        }
    }
    Ok(asks)
}

// Whether an entry is followed, and what it names is missing.
fn is_lacking(parts: &ListParts, started: &StartedGroups, done: &[TxnId], edge: Edge) -> bool
    requires rising { IsStrictlySortedBy txn_cmp done.now }
    requires same { AreIdsSame parts.now.table }
    ensures { result ≡ (not (is_listed is_txn done.now edge.from) && is_missing_at started.now.groups parts.now.table.links parts.now.waits.waiting.asked edge) }
{
    !is_among_rising(done, edge.from()) && is_missing(&parts.table, started, &parts.waits, edge)
}

// What is asked for, and of which shard: the least that entries tell. What is missing and not ended is named by no list that was known before.
fn ask_for(marks: &Marks, table: &ListTable, edge: Edge) -> OpenFetch
    ensures { result ≡ asked_by marks.now table.now.known edge }
{
    let id = edge.from();
    let at = edge.at();
    if marks.is_ended(id) {
        return OpenFetch {
            id,
            at: Shard(table.least_naming(id, u16::from(at.0)) as u8),
        };
    }
    OpenFetch { id, at }
}

// Whether what an entry names is missing.
fn is_missing(table: &ListTable, started: &StartedGroups, waits: &Waits, edge: Edge) -> bool
    requires { AreIdsSame table.now }
    ensures { result ≡ is_missing_at started.now.groups table.now.links waits.now.waiting.asked edge }
{
    let id = edge.from();
    !is_known(table, id) && !is_here(started, id) && !was_asked_for(waits, id)
}

// Whether the list of a transaction is known, and so what is followed of it.
fn is_known(table: &ListTable, id: TxnId) -> bool
    requires { AreIdsSame table.now }
    ensures { result ≡ is_known table.now.links id }
{
    table.list(id).is_some()
}

// Whether the list of a transaction was asked for.
pub(crate) fn was_asked_for(waits: &Waits, id: TxnId) -> bool
    ensures { result ≡ was_asked_for id waits.now.waiting.asked }
{
    waits.asked(id).is_some()
}
