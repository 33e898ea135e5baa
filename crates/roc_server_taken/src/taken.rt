//! The components that were taken, and are not forgotten.
ghost use Rattle.std.specs.Prelude.{◌≡◌, ◌≢◌, ◌+◌, ◌<◌, ◌≤◌, ◌++◌, ◌∷◌, [], length, not, filter, IfOk, OnOk};
ghost use Rattle.std.specs.List.{flat_map, list_any, AllByRecursion};
ghost use Rattle.roc_step.specs.Below.{is_ended};
ghost use Rattle.roc_step.specs.Forgets.{is_over, over};
ghost use Rattle.roc_server_taken.specs.Components.{AreOver};
ghost use Rattle.roc_server_taken.specs.Inner.Over.{AddsAll};

use crate::components::push_if_over;
use crate::lent_components::{LentComponents, push_over};
use crate::marks::Marks;
use crate::standing::Standing;
use roc_base::{NoMemory, Steps, TxnId};
use roc_component::rising;
use roc_sequence::Sequence;
use std::alloc::Global;
use std::marker::{Brand, Model};
use std::sync::ledger::{Blank, Ledger};

/// The components, in the order in which they were taken, each in its order inside. Those that may be over are found without a look at the others.
#[derive(Drop)]
pub struct Taken {
    standing: Standing,
    turn: u64,
}

impl Model for Taken {
    ghost use Rattle.std.specs.Prelude.{min};
    ghost use Rattle.roc_server_taken.specs.Components.{TakenComponents};
    ghost use Rattle.roc_server_taken.specs.Inner.Over.{members_by_turn, turns_left, AreBefore};
    ghost use Rattle.roc_server_taken.specs.Inner.Standing.{components_of};

    ghost Value = { TakenComponents };

    ghost view = { λ t. record { components = members_by_turn (components_of t.standing); spare = min t.standing.room (turns_left t.turn) } };

    ghost invariant = { λ t. AreBefore t.turn (components_of t.standing) };
}

impl Taken {
    /// None was taken. Takes no memory.
    pub fn new(alloc: Global) -> Taken
        ensures { result.components ≡ [] }
    {
        Taken {
            standing: Standing::new(alloc),
            turn: 0,
        }
    }

    /// Takes memory ahead, so that this many more find room. What was taken stays, whether there is memory or not. Beyond 2^64 - 1 components in all there are
    /// no turns: that is `NoMemory`, too.
    pub fn reserve(&mut self, more: usize) -> Result<(), NoMemory>
        ensures components { self.new.components ≡ self.old.components }
        ensures ok { OnOk result (more ≤ self.new.spare) }
    {
        if u64::MAX - self.turn < more as u64 {
            return Err(NoMemory);
        }
        self.standing.reserve(more)
    }

    /// Takes more, where there is room. Takes no memory.
    pub fn add(&mut self, marks: &Marks, more: Vec<Sequence<TxnId>>)
        requires room { length more.items ≤ self.old.spare }
        requires some { AllByRecursion (λ c. c ≢ []) more.items }
        ensures { self.new.components ≡ self.old.components ++ more.items }
    {
        for members in more {
            self.add_one(marks, members);
        }
    }

    // Takes one more, of the last turn.
    fn add_one(&mut self, marks: &Marks, members: Sequence<TxnId>)
        requires room { 0 < self.old.spare }
        requires some { members ≢ [] }
        ensures components { self.new.components ≡ self.old.components ++ members ∷ [] }
        ensures spare { self.new.spare + 1 ≡ self.old.spare }
    {
        self.standing.add(marks, self.turn, members);
        self.turn += 1;
    }

    /// Forgets those that are over. Takes no memory.
    pub fn forget(&mut self, marks: &Marks)
        ensures { self.new.components ≡ filter (λ c. not (is_over marks.now c)) self.old.components }
    {
        self.standing.forget(marks);
    }

    // Adds the transactions of those that are over, in any order. A step is one look at a component.
    fn push_over<L: Ledger>(
        &self,
        marks: &Marks,
        ids: &mut Vec<TxnId>,
        steps: &mut Steps<L>,
    ) -> Result<(), NoMemory>
        ensures added { OnOk result (AddsAll (over marks.now self.now.components) ids.old.items ids.new.items) }
        ensures steps { steps.new ≤ steps.old + length (filter (list_any (is_ended marks.now)) self.now.components) }
    {
        let lent = LentComponents::new(&self.standing);
        push_over(&lent, marks, ids, steps)
    }
}

// Adds the transactions of those of the components that are over.
fn push_those_over(
    marks: &Marks,
    components: &[Sequence<TxnId>],
    ids: &mut Vec<TxnId>,
) -> Result<(), NoMemory>
    ensures { OnOk result (ids.new.items ≡ ids.old.items ++ over marks.now components.now) }
{
    for component in components {
        push_if_over(marks, component.as_slice(), ids)?;
    }
    Ok(())
}

/// The transactions of components that are over, by id.
pub fn over_within(
    alloc: Global,
    marks: &Marks,
    components: &[Sequence<TxnId>],
) -> Result<Vec<TxnId>, NoMemory>
    ensures { IfOk result (λ ids. AreOver marks.now components.now ids.items) }
{
    let mut ids = Vec::new(alloc);
    push_those_over(marks, components, &mut ids)?;
    rising(alloc, &ids)
}

/// The transactions of components that are over, by id: of those that were taken, and of more ([`over_counted`], where nobody counts).
pub fn over_among(
    alloc: Global,
    marks: &Marks,
    taken: &Taken,
    more: &[Sequence<TxnId>],
) -> Result<Vec<TxnId>, NoMemory>
    ensures { IfOk result (λ ids. AreOver marks.now (taken.now.components ++ more.now) ids.items) }
{
    let blank = Blank::new(1);
    over_with::<Brand>(alloc, marks, taken, more, blank)
}

// The same where no steps are counted before.
fn over_with<L: Ledger>(
    alloc: Global,
    marks: &Marks,
    taken: &Taken,
    more: &[Sequence<TxnId>],
    blank: Blank,
) -> Result<Vec<TxnId>, NoMemory>
    requires name { blank.name ≡ L.name }
    requires parts { blank.parts ≡ L.parts }
    requires some { 0 < blank.parts }
    ensures { IfOk result (λ ids. AreOver marks.now (taken.now.components ++ more.now) ids.items) }
{
    let mut steps = Steps::<L>::new(blank);
    over_counted(alloc, marks, taken, more, &mut steps)
}

/// The transactions of components that are over, by id: of those that were taken, and of more. A step is one look at one that was taken: there are no more
/// than have an ended transaction.
pub fn over_counted<L: Ledger>(
    alloc: Global,
    marks: &Marks,
    taken: &Taken,
    more: &[Sequence<TxnId>],
    steps: &mut Steps<L>,
) -> Result<Vec<TxnId>, NoMemory>
    ensures over { IfOk result (λ ids. AreOver marks.now (taken.now.components ++ more.now) ids.items) }
    ensures steps { steps.new ≤ steps.old + length (filter (list_any (is_ended marks.now)) taken.now.components) }
{
    let mut ids = Vec::new(alloc);
    taken.push_over(marks, &mut ids, steps)?;
    push_those_over(marks, more, &mut ids)?;
    rising(alloc, &ids)
}

/// The transactions of these components, one after another.
pub fn members_of(alloc: Global, components: &[Sequence<TxnId>]) -> Result<Vec<TxnId>, NoMemory>
    ensures { IfOk result (λ ids. ids.items ≡ flat_map (λ c. c) components.now) }
{
    let mut ids = Vec::new(alloc);
    for component in components {
        ids.extend_from_slice(component.as_slice())?;
    }
    Ok(ids)
}
