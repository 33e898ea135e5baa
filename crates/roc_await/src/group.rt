//! Transactions that lack the same.
ghost use Rattle.std.specs.Prelude.{◌≡◌, ◌<◌, ◌++◌, not, filter, find, length, IsTrue, IfOk, IfSome, OnOk};
ghost use Rattle.std.specs.List.{HoldsAt, flat_map};
ghost use Rattle.std.specs.Option.{option_copied};
ghost use Rattle.roc_base.specs.TxnId.{is_txn};
ghost use Rattle.roc_depgraph.specs.Closure.{IsRisingListOf};
ghost use Rattle.roc_sequence.specs.Places.{IsListed, is_listed};
ghost use Rattle.roc_await.specs.Inner.Groups.{AreJoined, all_lacks, decided_of, lacks_of, misses_nothing};

use roc_base::{NoMemory, TxnId, is_among};
use roc_component::rising;
use roc_sequence::Sequence;
use std::alloc::Global;

/// Transactions whose lists are known and for which the same is missing; nothing, where they are decided.
#[derive(Drop)]
pub(crate) struct Group {
    pub of: Sequence<TxnId>,
    pub missing: Sequence<TxnId>,
}

// The first group that a transaction is in.
pub(crate) fn find_group(groups: &[Group], id: TxnId) -> Option<&Group>
    ensures { option_copied result ≡ find (λ g. is_listed is_txn g.of id) groups.now }
{
    groups
        .iter()
        .find(|group| is_among(group.of.as_slice(), id))
}

// The same groups.
pub(crate) fn copied(alloc: Global, groups: &[Group]) -> Result<Vec<Group>, NoMemory>
    ensures { IfOk result (λ copies. copies.items ≡ groups.now) }
{
    let mut copies = Vec::new(alloc);
    for group in groups {
        copies.push(copy(alloc, group)?)?;
    }
    Ok(copies)
}

fn copy(alloc: Global, group: &Group) -> Result<Group, NoMemory>
    ensures { IfOk result (λ other. other ≡ group.now) }
{
    let of = Sequence::from_slice(alloc, group.of.as_slice())?;
    let missing = Sequence::from_slice(alloc, group.missing.as_slice())?;
    Ok(Group { of, missing })
}

// Puts a group among others. Where the same is missing for one of these, the two become one.
pub(crate) fn put(groups: &mut Vec<Group>, group: Group) -> Result<(), NoMemory>
    ensures { OnOk result (AreJoined (all_lacks groups.old.items) (lacks_of group) (all_lacks groups.new.items)) }
{
    match place_of_same(groups, group.missing.as_slice()) {
        Some(at) => add_to(&mut groups[at], group.of.as_slice()),
        None => {
            groups.push(group)?;
            Ok(())
        }
    }
}

// More transactions are in a group.
fn add_to(group: &mut Group, ids: &[TxnId]) -> Result<(), NoMemory>
    ensures { OnOk result (group.new ≡ record group.old { of = group.old.of ++ ids.now }) }
{
    group.of.extend_from_slice(ids)?;
    Ok(())
}

// Where a group stands for which this is missing.
fn place_of_same(groups: &[Group], missing: &[TxnId]) -> Option<usize>
    ensures within { IfSome result (λ at. at < length groups.now) }
    ensures same { IfSome result (λ at. HoldsAt (λ g. g.missing ≡ missing.now) groups.now at) }
{
    for at in 0..groups.len() {
        if is_same(groups[at].missing.as_slice(), missing) {
            return Some(at);
        }
    }
    None
}

fn is_same(ids: &[TxnId], others: &[TxnId]) -> bool
    ensures { IsTrue result → ids.now ≡ others.now }
{
    ids == others
}

// The transactions for which nothing is missing, rising.
pub(crate) fn decided(alloc: Global, groups: &[Group]) -> Result<Vec<TxnId>, NoMemory>
    ensures { IfOk result (λ ids. IsRisingListOf (IsListed is_txn (flat_map decided_of groups.now)) ids.items) }
{
    let mut ids = Vec::new(alloc);
    for group in groups {
        push_decided(group, &mut ids)?;
    }
    let decided = rising(alloc, &ids)?;
    Ok(decided)
}

fn push_decided(group: &Group, ids: &mut Vec<TxnId>) -> Result<(), NoMemory>
    ensures { OnOk result (ids.new.items ≡ ids.old.items ++ decided_of group.now) }
{
    if !group.missing.is_empty() {
        return Ok(());
    }
    ids.extend_from_slice(group.of.as_slice())?;
    Ok(())
}

// The groups for which something is missing.
pub(crate) fn undecided(mut groups: Vec<Group>) -> Vec<Group>
    ensures { result.items ≡ filter (λ g. not (misses_nothing g)) groups.items }
{
    groups.retain(|group| !group.missing.is_empty());
    groups
}
