//! Messages that teach lists: commits, and answers to fetches.
ghost use Rattle.std.specs.Prelude.{◌≡◌, Some, None, if◌then◌else◌, IfOk, OnOk};
ghost use Rattle.roc_base.specs.TxnId.{is_txn};
ghost use Rattle.roc_base.specs.declared.node.Shard.{Shard as At};
ghost use Rattle.roc_msg.specs.Facts.{AreFacts};
ghost use Rattle.roc_sequence.specs.Places.{is_listed};
ghost use Rattle.roc_msg.specs.declared.reason.Reason.TheVariants.{NotHere};
ghost use Rattle.roc_step.specs.Below.{is_ended};
ghost use Rattle.roc_step.specs.Fits.{AreGroupsOf};
ghost use Rattle.roc_step.specs.declared.handled.Handled.TheVariants.{Gone, Ignored};
ghost use Rattle.roc_server.specs.Inner.Parts.{state_behind, state_of, CanRelease, IsIdle, IsSound, Keeps};
ghost use Rattle.roc_server.specs.Inner.Taught.{Commits, Knows};
ghost use Rattle.roc_step.specs.Lists.{commit_refusal, known_refusal};
ghost use Rattle.roc_step.specs.State.{ServerState};
ghost use Rattle.roc_server_lists.specs.ListsNow.{lists_of};

use crate::Handled;
use crate::parts::ServerParts;
use crate::teach::try_lists;
use roc_base::{Edges, NoMemory, Shard, TxnId};
use roc_depgraph::KnownList;
use roc_msg::{Outbox, Reason};
use roc_plan::Plan;
use roc_server_groups::is_here;
use roc_server_lists::ServerLists;
use roc_server_news::{commit_differs, is_unlike, news_of_commit, news_of_known};
use roc_server_table::ListTable;
use std::alloc::Global;

// Tries a commit, or ignores it.
pub(crate) fn try_commit(
    alloc: Global,
    plan: &Plan,
    shard: Shard,
    parts: &mut ServerParts,
    id: TxnId,
    edges: &Edges,
    facts: &[KnownList],
    sends: &mut Outbox,
) -> Result<Handled, NoMemory>
    requires fits { AreGroupsOf plan.now parts.old.groups.kept }
    requires sound { IsSound parts.old }
    requires idle { IsIdle parts.old }
    requires facts { AreFacts facts.now }
    ensures step { IfOk result (λ answer. Commits plan.now parts.old.lists.decided (state_of shard parts.old) (state_behind shard parts.new) sends.old sends.new id edges.now facts.now answer) }
    ensures fits { OnOk result (AreGroupsOf plan.now (state_behind shard parts.new).started) }
    ensures can { OnOk result (CanRelease parts.new) }
    ensures keeps { Keeps parts.old parts.new }
    ensures sound { IsSound parts.new }
{
    if let Some(answer) = commit_refusal(parts, id, edges, facts) {
        return Ok(answer);
    }
    let again = if_decided(parts.lists.table(), id);
    let news = news_of_commit(alloc, parts.lists.table(), id, edges, facts)?;
    try_lists(alloc, plan, shard, parts, news, again, sends)
}

// Tries a list that was asked for, or ignores it.
pub(crate) fn try_known(
    alloc: Global,
    plan: &Plan,
    shard: Shard,
    parts: &mut ServerParts,
    id: TxnId,
    edges: &Edges,
    sends: &mut Outbox,
) -> Result<Handled, NoMemory>
    requires fits { AreGroupsOf plan.now parts.old.groups.kept }
    requires sound { IsSound parts.old }
    requires idle { IsIdle parts.old }
    ensures step { IfOk result (λ answer. Knows plan.now (state_of shard parts.old) (state_behind shard parts.new) sends.old sends.new id edges.now answer) }
    ensures fits { OnOk result (AreGroupsOf plan.now (state_behind shard parts.new).started) }
    ensures can { OnOk result (CanRelease parts.new) }
    ensures keeps { Keeps parts.old parts.new }
    ensures sound { IsSound parts.new }
{
    if let Some(answer) = known_refusal(&parts.lists, id, edges) {
        return Ok(answer);
    }
    let news = news_of_known(alloc, parts.lists.table(), id, edges)?;
    try_lists(alloc, plan, shard, parts, news, None, sends)
}

// A transaction, where it is decided.
fn if_decided(table: &ListTable, id: TxnId) -> Option<TxnId>
    ensures { result ≡ (if is_listed is_txn table.now.decided id then Some id else None) }
{
    if table.is_decided(id) {
        return Some(id);
    }
    None
}

// What a commit is answered that is not taken.
fn commit_refusal(
    parts: &ServerParts,
    id: TxnId,
    edges: &Edges,
    facts: &[KnownList],
) -> Option<Handled>
    requires { IsIdle parts.now }
    ensures { (shard : At) → result ≡ commit_refusal (state_of shard parts.now) id edges.now facts.now }
{
    if !is_here(parts.groups.started(), id) {
        return Some(too_late(&parts.lists, id));
    }
    if commit_differs(parts.lists.table(), id, edges, facts) {
        return Some(Handled::Ignored(Reason::Differs));
    }
    None
}

// What an answer to a fetch is answered, where it is not taken.
fn known_refusal(lists: &ServerLists, id: TxnId, edges: &Edges) -> Option<Handled>
    requires { lists.now.tried ≡ None }
    ensures { (s : ServerState) → lists_of s ≡ lists.now.kept → result ≡ known_refusal s id edges.now }
{
    if !lists.was_asked_for(id) {
        return Some(too_late(lists, id));
    }
    if is_unlike(lists.table(), id, edges) {
        return Some(Handled::Ignored(Reason::Differs));
    }
    None
}

// What a message of a transaction that is not here is answered: it comes too late where that is ended.
fn too_late(lists: &ServerLists, id: TxnId) -> Handled
    ensures { result ≡ (if is_ended lists.now.kept.below id then Gone else Ignored NotHere) }
{
    if lists.is_ended(id) {
        return Handled::Gone;
    }
    Handled::Ignored(Reason::NotHere)
}
