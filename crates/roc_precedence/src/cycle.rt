//! The least cycle of pairs.
ghost use Rattle.std.specs.Prelude.{◌≡◌, ◌↔◌, List, [], ◌∷◌, ◌++◌, None, IfOk, IfSome, length};
ghost use Rattle.std.specs.List.Sorted.{IsStrictlySortedBy};
ghost use Rattle.std.specs.Option.{option_map};
ghost use Rattle.roc_base.specs.TxnId.{txn_cmp};
ghost use Rattle.roc_base.specs.declared.id.TxnId.{TxnId};
ghost use Rattle.roc_depgraph.specs.Deps.{Precedes};
ghost use Rattle.roc_precedence.specs.Cycles.{HasCycle, IsLeastCycle};
ghost use Rattle.roc_precedence.specs.Inner.Rounds.{IsLeastBehind, IsLeastOrNone, IsLeastWay, IsRound, IsWayFound, LeadsInto};
ghost use Rattle.roc_precedence.specs.Pairs.{IsPaired};

use crate::Pair;
use crate::lists::{lists_of, precedes};
use crate::rounds::{Round, best_round};
use roc_base::{NoMemory, TxnId};
use roc_component::rising;
use roc_depgraph::Deps;
use std::alloc::Global;

/// A shortest cycle of pairs among the ids, and of these the least of those that begin with their least id; nothing where no ids
/// are a cycle, which is where [`least_order`](crate::least_order) gives an order. An id that stands in `ids` more than once is
/// taken once, and a pair with another id counts for nothing. The time is at worst near that of reading the pairs once for each
/// id, which no clause says.
pub fn least_cycle(
    alloc: Global,
    ids: &[TxnId],
    pairs: &[Pair],
) -> Result<Option<Vec<TxnId>>, NoMemory>
    ensures cycle { IfOk result (λ found. IfSome found (λ cycle. IsLeastCycle (IsPaired pairs.now) ids.now cycle.items)) }
    ensures none { IfOk result (λ found. (found ≡ None) ↔ ¬ HasCycle (IsPaired pairs.now) ids.now) }
{
    let set = rising(alloc, ids)?;
    let lists = lists_of(alloc, &set, pairs)?;
    way_found(alloc, &lists, &set)
}

// The least way around from an id with a shortest one, the first of these.
fn way_found(alloc: Global, lists: &Deps, ids: &[TxnId]) -> Result<Option<Vec<TxnId>>, NoMemory>
    requires { IsStrictlySortedBy txn_cmp ids.now }
    ensures { IfOk result (λ found. IsWayFound (Precedes lists.now) ids.now (option_map (λ way. way.items) found)) }
{
    match best_round(alloc, lists, ids)? {
        None => Ok(None),
        Some(round) => {
            let way = way_along(alloc, lists, round)?;
            Ok(Some(way))
        }
    }
}

// Of the ways along the levels of a round the least.
fn way_along(alloc: Global, lists: &Deps, round: Round) -> Result<Vec<TxnId>, NoMemory>
    requires { IsRound (Precedes lists.now) round.of round.levels.items }
    ensures { IfOk result (λ way. IsLeastWay (Precedes lists.now) (length round.levels.items) round.of round.of way.items) }
{
    let Round { of, mut levels } = round;
    let mut way = Vec::new(alloc);
    let mut at = of;
    while let Some(level) = levels.pop() {
        way.push(at)?;
        at = least_behind(lists, at, level.as_slice());
    }
    Ok(way)
}

// Of the members of a level behind an id the least.
fn least_behind(lists: &Deps, id: TxnId, level: &[TxnId]) -> TxnId
    requires { LeadsInto (Precedes lists.now) level.now id }
    ensures { IsLeastBehind (Precedes lists.now) id level.now result }
{
    least_or_none(lists, id, level).unwrap_or(id)
}

fn least_or_none(lists: &Deps, id: TxnId, level: &[TxnId]) -> Option<TxnId>
    ensures { IsLeastOrNone (Precedes lists.now) id level.now result }
{
    let mut least = None;
    for other in level {
        least = lesser(lists, id, *other, least);
    }
    least
}

// The least so far, or another id, where it is behind the first and below the least.
fn lesser(lists: &Deps, id: TxnId, other: TxnId, least: Option<TxnId>) -> Option<TxnId>
    ensures { (level : List TxnId) → IsLeastOrNone (Precedes lists.now) id level least → IsLeastOrNone (Precedes lists.now) id (level ++ other ∷ []) result }
{
    if !precedes(lists, id, other) {
        return least;
    }
    match least {
        None => Some(other),
        Some(kept) => {
            if other < kept {
                Some(other)
            } else {
                Some(kept)
            }
        }
    }
}
