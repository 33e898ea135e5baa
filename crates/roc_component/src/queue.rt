//! Turns that are taken in order of their keys as they become due.
ghost use Rattle.std.specs.Prelude.{◌≡◌, ◌++◌, ◌∷◌, [], IfOk, OnOk, Some, Option, List};
ghost use Rattle.roc_base.specs.declared.id.TxnId.{TxnId as Id};
ghost use Rattle.roc_component.specs.Inner.Queue.{IsOpenAt, IsQueueOf, IsTakenOut, left_of};
ghost use Rattle.roc_component.specs.Inner.Turns.{AreAllTaken, ArePartsOf, AreTurns};
ghost use Rattle.roc_component.specs.declared.queue.Waiting.{Waiting as Held};
ghost use Rattle.roc_component.specs.declared.turn.Turn.{Turn as Taking};

use crate::taken::Taken;
use crate::turn::Turn;
use roc_base::{NoMemory, TxnId};
use roc_sequence::Sequence;
use std::alloc::Global;
use std::collections::{BTreeMap, BTreeSet};

/// A turn that waits, and what of all that comes before it was not looked at.
#[derive(Drop)]
struct Waiting {
    key: TxnId,
    rest: Vec<TxnId>,
}

/// The turns that are left, by their keys.
#[derive(Drop)]
struct Queue {
    // Those that are due.
    ready: BTreeSet<TxnId>,
    // The others, each under an id that comes before it and was not taken.
    waiting: BTreeMap<TxnId, Sequence<Waiting>>,
}

/// The ids of turns as they were taken.
#[derive(Drop)]
pub(crate) struct AllTaken {
    // One after another.
    pub order: Vec<TxnId>,
    // Turn by turn.
    pub parts: Vec<Sequence<TxnId>>,
}

// The ids of turns: at each time the turn with the least key is taken of those that are due, or
// else of all that are left.
pub(crate) fn take_all(alloc: Global, turns: Vec<Turn>) -> Result<AllTaken, NoMemory>
    requires { AreTurns turns.items }
    ensures { IfOk result (λ all. AreAllTaken turns.items all.order.items × ArePartsOf turns.items all.order.items all.parts.items) }
{
    let mut taken = Taken::new(alloc);
    let mut parts = Vec::new(alloc);
    let mut left = BTreeMap::new(alloc);
    let mut queue = Queue {
        ready: BTreeSet::new(alloc),
        waiting: BTreeMap::new(alloc),
    };
    queue.fill(alloc, turns, &mut left, &taken)?;
    'take: while let Some(ids) = queue.next(&mut left) {
        taken.extend(ids.as_slice())?;
        queue.release(alloc, ids.as_slice(), &left, &taken)?;
        parts.push(ids)?;
    }
    let order = taken.into_vec();
    Ok(AllTaken { order, parts })
}

impl Queue {
    // Lets turns wait, before any is taken.
    fn fill(
        &mut self,
        alloc: Global,
        turns: Vec<Turn>,
        left: &mut BTreeMap<TxnId, Sequence<TxnId>>,
        taken: &Taken,
    ) -> Result<(), NoMemory>
        requires turns { AreTurns turns.items }
        requires none { taken.now ≡ [] }
        requires empty { IsQueueOf [] [] [] [] (left_of left.old) self.old }
        ensures { OnOk result (IsQueueOf turns.items [] [] [] (left_of left.new) self.new) }
    {
        let mut rest = turns;
        'fill: while let Some(turn) = rest.pop() {
            let Turn { key, ids, before } = turn;
            left.insert(key, ids)?;
            let waiting = Waiting {
                key,
                rest: before.into_vec(),
            };
            self.settle(alloc, waiting, taken)?;
        }
        Ok(())
    }

    // Takes out the turn that comes next.
    fn next(&mut self, left: &mut BTreeMap<TxnId, Sequence<TxnId>>) -> Option<Sequence<TxnId>>
        ensures { (turns : List Taking) (taken : List Id) → AreTurns turns → IsQueueOf turns taken [] [] (left_of left.old) self.old → IsTakenOut turns taken left.old left.new self.new result }
    {
        match self.ready.pop_first() {
            Some(key) => left.remove(&key),
            None => match left.pop_first() {
                Some((_, ids)) => Some(ids),
                None => None,
            },
        }
    }

    // Lets those go on that waited for ids that were taken.
    fn release(
        &mut self,
        alloc: Global,
        ids: &[TxnId],
        left: &BTreeMap<TxnId, Sequence<TxnId>>,
        taken: &Taken,
    ) -> Result<(), NoMemory>
        ensures { (turns : List Taking) → AreTurns turns → IsQueueOf turns taken.now ids.now [] (left_of left.now) self.old
            → OnOk result (IsQueueOf turns taken.now [] [] (left_of left.now) self.new) }
    {
        for id in ids {
            if let Some(held) = self.waiting.remove(id) {
                self.settle_all(alloc, held.into_vec(), left, taken)?;
            }
        }
        Ok(())
    }

    // Settles those of some turns that are left.
    fn settle_all(
        &mut self,
        alloc: Global,
        held: Vec<Waiting>,
        left: &BTreeMap<TxnId, Sequence<TxnId>>,
        taken: &Taken,
    ) -> Result<(), NoMemory>
        ensures { (turns : List Taking) (due : List Id) → AreTurns turns → IsQueueOf turns taken.now due held.items (left_of left.now) self.old
            → OnOk result (IsQueueOf turns taken.now due [] (left_of left.now) self.new) }
    {
        let mut pending = held;
        'settle: while let Some(waiting) = pending.pop() {
            if left.contains_key(&waiting.key) {
                self.settle(alloc, waiting, taken)?;
            }
        }
        Ok(())
    }

    // Makes a turn ready, or lets it wait under an id that comes before it and was not taken.
    fn settle(&mut self, alloc: Global, waiting: Waiting, taken: &Taken) -> Result<(), NoMemory>
        ensures { (turns : List Taking) (due : List Id) (pending : List Held) (left : Id → Option (List Id)) (ids : List Id) → AreTurns turns → left waiting.key ≡ Some ids
            → IsQueueOf turns taken.now due (pending ++ waiting ∷ []) left self.old → OnOk result (IsQueueOf turns taken.now due pending left self.new) }
    {
        let Waiting { key, mut rest } = waiting;
        match open_at(&mut rest, taken) {
            None => {
                self.ready.insert(key)?;
            }
            Some(id) => {
                let mut under = match self.waiting.remove(&id) {
                    Some(under) => under,
                    None => Sequence::new(alloc),
                };
                under.push(Waiting { key, rest })?;
                self.waiting.insert(id, under)?;
            }
        }
        Ok(())
    }
}

// Takes out ids up to the first from behind that was not taken.
fn open_at(rest: &mut Vec<TxnId>, taken: &Taken) -> Option<TxnId>
    ensures { IsOpenAt rest.old.items taken.now rest.new.items result }
{
    'look: while let Some(id) = rest.pop() {
        if !taken.contains(id) {
            return Some(id);
        }
    }
    None
}
