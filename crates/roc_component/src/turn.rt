//! What is taken at once: the members of a component one by one, and components.
ghost use Rattle.std.specs.Prelude.{◌≡◌, IfOk, map};
ghost use Rattle.std.specs.List.Sorted.{IsStrictlySortedBy};
ghost use Rattle.roc_base.specs.TxnId.{txn_cmp};
ghost use Rattle.roc_component.specs.Inner.Before.{leading_to};
ghost use Rattle.roc_component.specs.Components.{AreComponents};
ghost use Rattle.roc_component.specs.Inner.Turns.{AreComponentTurns, IsInside, turn_of};
ghost use Rattle.roc_depgraph.specs.Deps.{Precedes};

use crate::before::{immediate_among, leading_to};
use crate::queue::{AllTaken, take_all};
use roc_base::{NoMemory, TxnId};
use roc_depgraph::Deps;
use roc_sequence::Sequence;
use std::alloc::Global;

/// Ids that are taken one after another, known by one of them.
#[derive(Drop)]
pub(crate) struct Turn {
    pub key: TxnId,
    pub ids: Sequence<TxnId>,
    // What has to be taken before.
    pub before: Sequence<TxnId>,
}

// The turns of components, in any order.
pub(crate) fn turns(
    alloc: Global,
    lists: &Deps,
    ids: &[TxnId],
    components: &[Sequence<TxnId>],
) -> Result<Vec<Turn>, NoMemory>
    requires { AreComponents (Precedes lists.now) ids.now components.now }
    ensures { IfOk result (λ turns. AreComponentTurns lists.now components.now turns.items) }
{
    let mut turns = Vec::new(alloc);
    for component in components {
        if let Some(key) = component.as_slice().first() {
            turns.push(component_turn(alloc, lists, component.as_slice(), *key)?)?;
        }
    }
    Ok(turns)
}

// The turn of a component, whose members rise.
fn component_turn(alloc: Global, lists: &Deps, ids: &[TxnId], key: TxnId) -> Result<Turn, NoMemory>
    requires { IsStrictlySortedBy txn_cmp ids.now }
    ensures { IfOk result (λ turn. (turn.key ≡ key) × IsInside lists.now ids.now turn.ids × (turn.before ≡ leading_to lists.now ids.now ids.now)) }
{
    let inside = inside(alloc, lists, ids)?;
    let before = leading_to(alloc, lists, ids)?;
    Ok(Turn {
        key,
        ids: Sequence::from_vec(inside),
        before: Sequence::from_vec(before),
    })
}

// The members of a component in order: the least of those whose immediate predecessors there were
// taken, or else the least. Most components have one member, which waits for nothing.
fn inside(alloc: Global, lists: &Deps, ids: &[TxnId]) -> Result<Vec<TxnId>, NoMemory>
    requires { IsStrictlySortedBy txn_cmp ids.now }
    ensures { IfOk result (λ order. IsInside lists.now ids.now order.items) }
{
    if ids.len() < 2 {
        let mut order = Vec::new(alloc);
        order.extend_from_slice(ids)?;
        return Ok(order);
    }
    let turns = member_turns(alloc, lists, ids)?;
    let AllTaken { order, parts: _ } = take_all(alloc, turns)?;
    Ok(order)
}

fn member_turns(alloc: Global, lists: &Deps, ids: &[TxnId]) -> Result<Vec<Turn>, NoMemory>
    requires { IsStrictlySortedBy txn_cmp ids.now }
    ensures { IfOk result (λ turns. turns.items ≡ map (turn_of lists.now ids.now) ids.now) }
{
    let mut turns = Vec::new(alloc);
    for id in ids {
        turns.push(member_turn(alloc, lists, ids, *id)?)?;
    }
    Ok(turns)
}

fn member_turn(alloc: Global, lists: &Deps, ids: &[TxnId], id: TxnId) -> Result<Turn, NoMemory>
    requires { IsStrictlySortedBy txn_cmp ids.now }
    ensures { IfOk result (λ turn. turn ≡ turn_of lists.now ids.now id) }
{
    let before = immediate_among(alloc, lists, ids, id)?;
    let mut own = Sequence::new(alloc);
    own.push(id)?;
    Ok(Turn {
        key: id,
        ids: own,
        before: Sequence::from_vec(before),
    })
}
