//! Pairs of one log's answers and submissions.
ghost use Rattle.std.specs.Prelude.{◌≡◌, ◌++◌, ◌∷◌, [], List, OnOk, length, map, drop};
ghost use Rattle.roc_audit.specs.declared.entry.Entry.{Entry as EntryValue};
ghost use Rattle.roc_base.specs.declared.id.TxnId.{TxnId as Id};
ghost use Rattle.roc_judge.specs.Inner.Times.{pair_of, greater, opened, open_in, time_walk, walk_from};

use roc_audit::Entry;
use roc_base::{NoMemory, TxnId};
use roc_precedence::Pair;
use std::alloc::Global;
use std::collections::BTreeMap;

/// How far a log's answers are.
#[derive(Drop)]
pub(crate) struct Timing {
    // How many answers stand before the submission of each id.
    pub begun: BTreeMap<TxnId, usize>,
    pub answers: Vec<TxnId>,
    // All answers before this one stand before the submission of another answered one.
    pub low: usize,
}

fn behind(answers: &[TxnId], low: usize) -> &[TxnId]
    ensures { result.now ≡ drop low answers.now }
{
    if low < answers.len() {
        &answers[low..]
    } else {
        &[]
    }
}

pub(crate) fn pair_each(
    pairs: &mut Vec<Pair>,
    later: TxnId,
    answers: &[TxnId],
) -> Result<(), NoMemory>
    ensures { OnOk result (pairs.new.items ≡ pairs.old.items ++ map (pair_of later) answers.now) }
{
    for earlier in answers {
        pairs.push(Pair {
            later,
            earlier: *earlier,
        })?;
    }
    Ok(())
}

fn open_at(begun: &BTreeMap<TxnId, usize>, id: TxnId) -> usize
    ensures { result ≡ open_in begun.now.entries id }
{
    match begun.get(&id) {
        None => 0,
        Some(count) => *count,
    }
}

fn greater(a: usize, b: usize) -> usize
    ensures { result ≡ greater a b }
{
    if a < b { b } else { a }
}

fn put_open(begun: &mut BTreeMap<TxnId, usize>, id: TxnId, count: usize) -> Result<(), NoMemory>
    ensures { OnOk result ((t : Id) → open_in begun.new.entries t ≡ opened (open_in begun.old.entries) id count t) }
{
    begun.insert(id, count)?;
    Ok(())
}

// Takes a submission.
fn submit(timing: &mut Timing, pairs: &mut Vec<Pair>, id: TxnId) -> Result<(), NoMemory>
    ensures pairs { OnOk result (pairs.new.items ≡ pairs.old.items ++ map (pair_of id) (drop timing.old.low timing.old.answers.items)) }
    ensures begun { OnOk result ((t : Id) → open_in timing.new.begun.entries t ≡ opened (open_in timing.old.begun.entries) id (length timing.old.answers.items) t) }
    ensures rest { OnOk result ((timing.new.answers.items ≡ timing.old.answers.items) × (timing.new.low ≡ timing.old.low)) }
{
    pair_each(pairs, id, behind(&timing.answers, timing.low))?;
    put_open(&mut timing.begun, id, timing.answers.len())
}

// Takes an answer.
fn answer(timing: &mut Timing, id: TxnId) -> Result<(), NoMemory>
    ensures { OnOk result ((timing.new.answers.items ≡ timing.old.answers.items ++ id ∷ [])
        × ((timing.new.low ≡ greater timing.old.low (open_in timing.old.begun.entries id)) × (timing.new.begun ≡ timing.old.begun))) }
{
    timing.answers.push(id)?;
    timing.low = greater(timing.low, open_at(&timing.begun, id));
    Ok(())
}

fn take_entry(timing: &mut Timing, pairs: &mut Vec<Pair>, entry: &Entry) -> Result<(), NoMemory>
    ensures { OnOk result ((es : List EntryValue) → pairs.new.items ++ walk_from timing.new es ≡ pairs.old.items ++ walk_from timing.old (entry.now ∷ es)) }
{
    match entry {
        Entry::Submitted {
            id,
            proc: _,
            args: _,
        } => submit(timing, pairs, *id),
        Entry::Answered { id, reply: _ } => answer(timing, *id),
    }
}

/// Adds the pairs of one log's answers and submissions.
pub(crate) fn pair_times(
    alloc: Global,
    pairs: &mut Vec<Pair>,
    told: &[Entry],
) -> Result<(), NoMemory>
    ensures { OnOk result (pairs.new.items ≡ pairs.old.items ++ time_walk (λ t. 0) [] 0 told.now) }
{
    let mut timing = Timing {
        begun: BTreeMap::new(alloc),
        answers: Vec::new(alloc),
        low: 0,
    };
    for entry in told {
        take_entry(&mut timing, pairs, entry)?;
    }
    Ok(())
}
