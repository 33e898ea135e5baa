//! Shortest ways from a transaction back to itself, by a search back along known lists.
ghost use Rattle.std.specs.Prelude.{◌≡◌, IfOk};
ghost use Rattle.std.specs.List.Sorted.{IsStrictlySortedBy};
ghost use Rattle.std.specs.Option.{option_map};
ghost use Rattle.roc_base.specs.TxnId.{txn_cmp};
ghost use Rattle.roc_depgraph.specs.Deps.{Precedes};
ghost use Rattle.roc_precedence.specs.Inner.Rounds.{IsBestRound, IsOver, IsRoundWithin, StepsBack, better, most_of};

use roc_base::{NoMemory, TxnId};
use roc_depgraph::{Deps, visit};
use roc_sequence::Sequence;
use std::alloc::Global;
use std::collections::BTreeSet;

/// A transaction, and level by level from which ids a shortest way leads to it, up to itself.
#[derive(Drop)]
pub(crate) struct Round {
    pub of: TxnId,
    pub levels: Vec<Sequence<TxnId>>,
}

// Of the shortest ways from one of the ids to itself that of the first id.
pub(crate) fn best_round(
    alloc: Global,
    lists: &Deps,
    ids: &[TxnId],
) -> Result<Option<Round>, NoMemory>
    requires { IsStrictlySortedBy txn_cmp ids.now }
    ensures { IfOk result (IsBestRound (Precedes lists.now) ids.now) }
{
    let mut best: Option<Round> = None;
    for id in ids {
        let found = levels_around(alloc, lists, *id, most_of(&best))?;
        best = better(*id, best, found);
    }
    Ok(best)
}

// The best round, once one more id was searched from.
fn better(id: TxnId, best: Option<Round>, found: Option<Vec<Sequence<TxnId>>>) -> Option<Round>
    ensures { result ≡ better id best found }
{
    match found {
        None => best,
        Some(levels) => Some(Round { of: id, levels }),
    }
}

// How long a shorter way may be.
fn most_of(best: &Option<Round>) -> Option<usize>
    ensures { result ≡ most_of best.now }
{
    match best {
        None => None,
        Some(round) => Some(round.levels.len().saturating_sub(1)),
    }
}

// The levels behind an id up to itself, where it is found within so many steps.
fn levels_around(
    alloc: Global,
    lists: &Deps,
    id: TxnId,
    most: Option<usize>,
) -> Result<Option<Vec<Sequence<TxnId>>>, NoMemory>
    ensures { IfOk result (λ found. IsRoundWithin (Precedes lists.now) id most (option_map (λ levels. levels.items) found)) }
{
    let mut found = BTreeSet::new(alloc);
    let mut levels = Vec::new(alloc);
    let mut level = Vec::from_slice(alloc, &[id])?;
    'search: while !is_over(&level, levels.len(), most) {
        let next = step_back(alloc, lists, &level, &mut found)?;
        levels.push(Sequence::from_vec(level))?;
        if found.contains(&id) {
            return Ok(Some(levels));
        }
        level = next;
    }
    Ok(None)
}

// Whether a search ends: nothing new was found, or more steps are not asked for.
fn is_over(level: &[TxnId], steps: usize, most: Option<usize>) -> bool
    ensures { IsOver level.now steps most result }
{
    if level.is_empty() {
        return true;
    }
    match most {
        None => false,
        Some(most) => most <= steps,
    }
}

// Puts what leads into a level among what was found. What is new is the next level.
fn step_back(
    alloc: Global,
    lists: &Deps,
    level: &[TxnId],
    found: &mut BTreeSet<TxnId>,
) -> Result<Vec<TxnId>, NoMemory>
    ensures { IfOk result (λ next. StepsBack (Precedes lists.now) level.now found.old.keys found.new.keys next.items) }
{
    let mut next = Vec::new(alloc);
    for id in level {
        if let Some(list) = lists.list(*id) {
            visit(list.as_slice(), found, &mut next)?;
        }
    }
    Ok(next)
}
