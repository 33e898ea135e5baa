//! `judge`.
ghost use Rattle.std.specs.Prelude.{◌≡◌, IfOk};
ghost use Rattle.roc_sequence.specs.Places.{IsListed};
ghost use Rattle.roc_base.specs.TxnId.{is_txn};
ghost use Rattle.roc_depgraph.specs.Closure.{IsRisingListOf};
ghost use Rattle.roc_precedence.specs.Cycles.{HasCycle};
ghost use Rattle.roc_precedence.specs.Orders.{HaveSameChains, IsLeastOrder};
ghost use Rattle.roc_precedence.specs.Pairs.{IsPaired};
ghost use Rattle.roc_judge.specs.Before.{GoesBefore, candidates};
ghost use Rattle.roc_judge.specs.Inner.Found.{AreCandidates, AreReady, IsCycleOf, IsLeastOrNone};
ghost use Rattle.roc_judge.specs.Judged.{AnsweredAreDecided, IsJudged, IsAnsweredUndecided, answers_told};

use crate::calls::{Called, calls_of, first_uncalled};
use crate::pairs::pairs_of;
use crate::replies::{judge_replies, serial_replies, wrong_replies};
use crate::sets::{all_answered, all_decided, first_outside};
use crate::whole::whole_pairs;
use crate::{Folded, Judgement};
use roc_base::{NoMemory, TxnId};
use roc_component::rising;
use roc_precedence::{Pair, least_cycle, least_order, on_circles};
use roc_program::Workload;
use roc_sequence::Sequence;
use std::alloc::Global;
use std::collections::BTreeMap;

// The judgement of an order.
fn judge_order(
    alloc: Global,
    workload: &Workload,
    folds: &[Folded],
    calls: &BTreeMap<TxnId, Called>,
    order: Vec<TxnId>,
    answered: usize,
) -> Result<Judgement, NoMemory>
    requires ready { AreReady folds.now calls.now.entries answered }
    requires least { IsLeastOrder (GoesBefore folds.now) (candidates folds.now) order.items }
    ensures { IfOk result (IsJudged workload.now folds.now) }
{
    let runs = serial_replies(alloc, workload, calls, &order)?;
    let wrong = wrong_replies(alloc, &runs, folds)?;
    judge_replies(alloc, &runs, &wrong, order, answered)
}

// The judgement where candidates go before one another, around.
fn judge_circle(
    alloc: Global,
    folds: &[Folded],
    all: &[TxnId],
    pairs: &[Pair],
) -> Result<Judgement, NoMemory>
    requires same { HaveSameChains (IsPaired pairs.now) (GoesBefore folds.now) all.now }
    requires cycle { HasCycle (IsPaired pairs.now) all.now }
    ensures { IfOk result (IsCycleOf (GoesBefore folds.now) all.now) }
{
    let on = on_circles(alloc, all, pairs)?;
    let whole = whole_pairs(alloc, &on, folds)?;
    match least_cycle(alloc, &on, &whole)? {
        Some(cycle) => Ok(Judgement::Cycle(Sequence::from_vec(cycle))),
        None => unreachable!(),
    }
}

// The judgement where all that was answered was decided, and all that was decided was submitted.
fn judge_ready(
    alloc: Global,
    workload: &Workload,
    folds: &[Folded],
    all: &[TxnId],
    ids: &[TxnId],
    calls: &BTreeMap<TxnId, Called>,
    answered: usize,
) -> Result<Judgement, NoMemory>
    requires members { AreCandidates folds.now all.now ids.now }
    requires ready { AreReady folds.now calls.now.entries answered }
    ensures { IfOk result (IsJudged workload.now folds.now) }
{
    let pairs = pairs_of(alloc, ids, folds)?;
    match least_order(alloc, all, &pairs)? {
        Some(order) => judge_order(alloc, workload, folds, calls, order, answered),
        None => judge_circle(alloc, folds, all, &pairs),
    }
}

// The judgement where all that was answered was decided.
fn judge_decided(
    alloc: Global,
    workload: &Workload,
    folds: &[Folded],
    all: &[TxnId],
    ids: &[TxnId],
    answered: usize,
) -> Result<Judgement, NoMemory>
    requires members { AreCandidates folds.now all.now ids.now }
    requires decided { AnsweredAreDecided folds.now }
    requires counted { answered ≡ answers_told folds.now }
    ensures { IfOk result (IsJudged workload.now folds.now) }
{
    let calls = calls_of(alloc, folds)?;
    if let Some(id) = first_uncalled(&calls, ids) {
        return Ok(Judgement::Unsubmitted(id));
    }
    judge_ready(alloc, workload, folds, all, ids, &calls, answered)
}

// The least that was answered and is no candidate, if there is one, and how many answers there are.
fn missing(
    alloc: Global,
    folds: &[Folded],
    ids: &[TxnId],
) -> Result<(Option<TxnId>, usize), NoMemory>
    requires { IsRisingListOf (IsListed is_txn (candidates folds.now)) ids.now }
    ensures missing { IfOk result (λ found. IsLeastOrNone (IsAnsweredUndecided folds.now) found.0) }
    ensures counted { IfOk result (λ found. found.1 ≡ answers_told folds.now) }
{
    let answered = all_answered(alloc, folds)?;
    let answered_rising = rising(alloc, &answered)?;
    Ok((first_outside(&answered_rising, ids), answered.len()))
}

/// What is found of logs that were folded. The time is near that of sorting what they tell and of running the transactions one after
/// another; where some go before one another, around, it is at worst near the square of the accesses of those that do. No clause says so.
pub fn judge(alloc: Global, workload: &Workload, folds: &[Folded]) -> Result<Judgement, NoMemory>
    ensures { IfOk result (IsJudged workload.now folds.now) }
{
    let all = all_decided(alloc, folds)?;
    let ids = rising(alloc, &all)?;
    let (found, answered) = missing(alloc, folds, &ids)?;
    match found {
        Some(id) => Ok(Judgement::Missing(id)),
        None => judge_decided(alloc, workload, folds, &all, &ids, answered),
    }
}
