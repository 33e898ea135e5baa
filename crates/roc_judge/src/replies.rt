//! Serial runs, and the replies that are not theirs.
ghost use Rattle.std.specs.Prelude.{◌≡◌, [], unwrap_or, IfOk, OnOk};
ghost use Rattle.std.specs.List.{filter_map};
ghost use Rattle.roc_audit.specs.Witness.{reply_in};
ghost use Rattle.roc_base.specs.declared.id.TxnId.{TxnId as Id};
ghost use Rattle.roc_whole.specs.Run.{whole_run};
ghost use Rattle.roc_whole.specs.Serial.{procedure_at, serial_run};
ghost use Rattle.roc_judge.specs.declared.judgement.Judgement.TheVariants.{Reply};
ghost use Rattle.roc_judge.specs.Before.{told};
ghost use Rattle.roc_judge.specs.Inner.Sets.{call_in, first_of, found_at, only_at};
ghost use Rattle.roc_judge.specs.Inner.Replies.{IsFirstWrong, IsReplied, RunsOne, first_wrong, is_right, runs_in, wrong_at, wrong_of};

use crate::calls::Called;
use crate::{Folded, Judgement};
use roc_audit::Entry;
use roc_base::{NoMemory, Nums, TxnId};
use roc_program::Workload;
use roc_rows::Rows;
use roc_sequence::Sequence;
use roc_whole::{run_whole, start_rows};
use std::alloc::Global;
use std::collections::BTreeMap;

// Puts a reply where there is none of its id.
fn put_reply(replies: &mut BTreeMap<TxnId, Nums>, id: TxnId, reply: Nums) -> Result<(), NoMemory>
    ensures { OnOk result ((t : Id) → found_at t replies.new.entries ≡ first_of (found_at t replies.old.entries) (only_at id reply t)) }
{
    if replies.contains_key(&id) {
        return Ok(());
    }
    replies.insert(id, reply)?;
    Ok(())
}

// The reply of a procedure that runs on the cells; one that is not there gives nothing and changes nothing.
fn run_call(
    alloc: Global,
    workload: &Workload,
    called: &Called,
    rows: &mut Rows,
) -> Result<Nums, NoMemory>
    ensures store { IfOk result (λ reply. rows.new.store ≡ (whole_run (procedure_at workload.now called.now.proc) called.now.args rows.old.store).store) }
    ensures reply { IfOk result (λ reply. reply ≡ (whole_run (procedure_at workload.now called.now.proc) called.now.args rows.old.store).reply) }
{
    let mut reply = Nums::new(alloc);
    if (called.proc as usize) >= workload.procedures().len() {
        return Ok(reply);
    }
    let args = called.args.as_slice();
    run_whole(alloc, workload, rows, called.proc, args, &mut reply)?;
    Ok(reply)
}

fn run_one(
    alloc: Global,
    workload: &Workload,
    calls: &BTreeMap<TxnId, Called>,
    id: TxnId,
    rows: &mut Rows,
    runs: &mut BTreeMap<TxnId, Nums>,
) -> Result<(), NoMemory>
    ensures { OnOk result (RunsOne workload.now (call_in calls.now.entries id) rows.old.store runs.old.entries rows.new.store runs.new.entries) }
{
    match calls.get(&id) {
        None => Ok(()),
        Some(called) => {
            let reply = run_call(alloc, workload, called, rows)?;
            put_reply(runs, id, reply)
        }
    }
}

/// The replies of an order's transactions that run whole, one after another, from the start.
pub(crate) fn serial_replies(
    alloc: Global,
    workload: &Workload,
    calls: &BTreeMap<TxnId, Called>,
    order: &[TxnId],
) -> Result<BTreeMap<TxnId, Nums>, NoMemory>
    ensures { IfOk result (λ runs. (t : Id) → found_at t runs.entries ≡ reply_in t (serial_run workload.now (filter_map (call_in calls.now.entries) order.now))) }
{
    let mut rows = start_rows(alloc, workload)?;
    let mut runs = BTreeMap::new(alloc);
    for id in order {
        run_one(alloc, workload, calls, *id, &mut rows, &mut runs)?;
    }
    Ok(runs)
}

fn is_right(runs: &BTreeMap<TxnId, Nums>, id: TxnId, logged: &Nums) -> bool
    ensures { result ≡ is_right (runs_in runs.now.entries id) logged.now }
{
    match runs.get(&id) {
        None => false,
        Some(run) => *run == *logged,
    }
}

fn take_answer(
    wrong: &mut BTreeMap<TxnId, Nums>,
    runs: &BTreeMap<TxnId, Nums>,
    id: TxnId,
    logged: &Nums,
) -> Result<(), NoMemory>
    ensures { OnOk result ((t : Id) → found_at t wrong.new.entries ≡ first_of (found_at t wrong.old.entries) (wrong_at (is_right (runs_in runs.now.entries id) logged.now) id logged.now t)) }
{
    if is_right(runs, id, logged) {
        return Ok(());
    }
    let logged = logged.clone()?;
    put_reply(wrong, id, logged)
}

fn take_entry(
    wrong: &mut BTreeMap<TxnId, Nums>,
    runs: &BTreeMap<TxnId, Nums>,
    entry: &Entry,
) -> Result<(), NoMemory>
    ensures { OnOk result ((t : Id) → found_at t wrong.new.entries ≡ first_of (found_at t wrong.old.entries) (wrong_of (runs_in runs.now.entries) t entry.now)) }
{
    match entry {
        Entry::Submitted {
            id: _,
            proc: _,
            args: _,
        } => Ok(()),
        Entry::Answered { id, reply } => take_answer(wrong, runs, *id, reply),
    }
}

fn take_told(
    wrong: &mut BTreeMap<TxnId, Nums>,
    runs: &BTreeMap<TxnId, Nums>,
    told: &[Entry],
) -> Result<(), NoMemory>
    ensures { OnOk result ((t : Id) → found_at t wrong.new.entries ≡ first_of (found_at t wrong.old.entries) (first_wrong (runs_in runs.now.entries) t told.now)) }
{
    for entry in told {
        take_entry(wrong, runs, entry)?;
    }
    Ok(())
}

/// Of each id the first logged reply that is not that of its run.
pub(crate) fn wrong_replies(
    alloc: Global,
    runs: &BTreeMap<TxnId, Nums>,
    folds: &[Folded],
) -> Result<BTreeMap<TxnId, Nums>, NoMemory>
    ensures { IfOk result (λ wrong. (t : Id) → found_at t wrong.entries ≡ first_wrong (runs_in runs.now.entries) t (told folds.now)) }
{
    let mut wrong = BTreeMap::new(alloc);
    for fold in folds {
        take_told(&mut wrong, runs, fold.told.as_slice())?;
    }
    Ok(wrong)
}

fn run_of(alloc: Global, runs: &BTreeMap<TxnId, Nums>, id: TxnId) -> Result<Nums, NoMemory>
    ensures { IfOk result (λ run. run ≡ unwrap_or (found_at id runs.now.entries) []) }
{
    match runs.get(&id) {
        None => Ok(Nums::new(alloc)),
        Some(run) => Ok(run.clone()?),
    }
}

fn wrong_reply(
    alloc: Global,
    runs: &BTreeMap<TxnId, Nums>,
    id: TxnId,
    logged: &Nums,
) -> Result<Judgement, NoMemory>
    ensures { IfOk result (λ j. j ≡ Reply id logged.now (unwrap_or (found_at id runs.now.entries) [])) }
{
    let logged = logged.clone()?;
    let run = run_of(alloc, runs, id)?;
    Ok(Judgement::Reply { id, logged, run })
}

// The first of an order with a wrong reply.
fn first_wrong(
    alloc: Global,
    runs: &BTreeMap<TxnId, Nums>,
    wrong: &BTreeMap<TxnId, Nums>,
    order: &[TxnId],
) -> Result<Option<Judgement>, NoMemory>
    ensures { IfOk result (IsFirstWrong (runs_in runs.now.entries) (runs_in wrong.now.entries) order.now) }
{
    for id in order {
        if let Some(logged) = wrong.get(id) {
            let found = wrong_reply(alloc, runs, *id, logged)?;
            return Ok(Some(found));
        }
    }
    Ok(None)
}

/// What is found of the replies of an order.
pub(crate) fn judge_replies(
    alloc: Global,
    runs: &BTreeMap<TxnId, Nums>,
    wrong: &BTreeMap<TxnId, Nums>,
    order: Vec<TxnId>,
    answered: usize,
) -> Result<Judgement, NoMemory>
    ensures { IfOk result (IsReplied (runs_in runs.now.entries) (runs_in wrong.now.entries) order.items answered) }
{
    match first_wrong(alloc, runs, wrong, &order)? {
        Some(found) => Ok(found),
        None => Ok(Judgement::Yes {
            order: Sequence::from_vec(order),
            answered,
        }),
    }
}
