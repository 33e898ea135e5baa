//! Components that are reached by counted steps alone: those that are over are found with no look at one that has no ended member.
ghost use Rattle.std.specs.Prelude.{◌≡◌, ◌+◌, ◌<◌, ◌≤◌, ◌++◌, Some, length, take, slice_get, filter, map, OnOk};
ghost use Rattle.std.specs.List.{list_any};
ghost use Rattle.roc_step.specs.Below.{is_ended};
ghost use Rattle.roc_step.specs.Forgets.{over};
ghost use Rattle.roc_server_taken.specs.declared.components.Component.{Component as Seen};
ghost use Rattle.roc_server_taken.specs.Inner.Over.{is_under, members_by_turn, AddsAll, AreStanding};
ghost use Rattle.roc_server_taken.specs.Inner.Standing.{components_of, part_at};

use crate::components::push_if_over;
use crate::marks::Marks;
use crate::standing::Standing;
use roc_base::{NoMemory, Steps, TxnId};
use std::marker::PhantomData;
use std::sync::ledger::Ledger;

// Components as they stand, lent so that the members of one are reached by a step of this ledger alone.
#[derive(Drop)]
pub(crate) struct LentComponents<'a, L: Ledger> {
    standing: &'a Standing,
    ledger: PhantomData<L>,
}

impl<'a, L: Ledger> LentComponents<'a, L> {
    pub(crate) fn new(standing: &'a Standing) -> LentComponents<'a, L>
        ensures same { result.standing.now ≡ standing.now }
        ensures standing { AreStanding (components_of standing.now) }
    {
        standing.see();
        LentComponents {
            standing,
            ledger: PhantomData,
        }
    }

    // How many of the part of a coordinator stand under ended members of it: they come first.
    fn count_ended(&self, marks: &Marks, coord: u16) -> usize
        requires { coord < 16 }
        ensures within { result ≤ length (part_at self.now.standing.now.parts coord) }
        ensures first { take result (part_at self.now.standing.now.parts coord) ≡ filter (is_under marks.now coord) (components_of self.now.standing.now) }
    {
        self.standing.count_ended(marks, coord)
    }

    // The members of one of the part of a coordinator: a step.
    fn look(&self, coord: u16, at: usize, steps: &mut Steps<L>) -> &[TxnId]
        requires coord { coord < 16 }
        requires at { at < length (part_at self.now.standing.now.parts coord) }
        ensures members { (c : Seen) → slice_get (part_at self.now.standing.now.parts coord) at ≡ Some c → result.now ≡ c.members }
        ensures steps { steps.new ≡ steps.old + 1 }
    {
        steps.tick();
        self.standing.members(coord, at)
    }
}

// Adds the transactions of those that are over.
pub(crate) fn push_over<L: Ledger>(
    components: &LentComponents<'_, L>,
    marks: &Marks,
    ids: &mut Vec<TxnId>,
    steps: &mut Steps<L>,
) -> Result<(), NoMemory>
    requires { AreStanding (components_of components.now.standing.now) }
    ensures added { OnOk result (AddsAll (over marks.now (members_by_turn (components_of components.now.standing.now))) ids.old.items ids.new.items) }
    ensures steps { steps.new ≤ steps.old + length (filter (list_any (is_ended marks.now)) (members_by_turn (components_of components.now.standing.now))) }
{
    for coord in 0..marks.count() {
        push_over_under(components, marks, coord, ids, steps)?;
    }
    Ok(())
}

// Adds the transactions of those that are over and stand under members of a coordinator.
fn push_over_under<L: Ledger>(
    components: &LentComponents<'_, L>,
    marks: &Marks,
    coord: u16,
    ids: &mut Vec<TxnId>,
    steps: &mut Steps<L>,
) -> Result<(), NoMemory>
    requires { coord < 16 }
    ensures added { OnOk result (ids.new.items ≡ ids.old.items ++ over marks.now (map (λ c. c.members) (filter (is_under marks.now coord) (components_of components.now.standing.now)))) }
    ensures steps { steps.new ≤ steps.old + length (filter (is_under marks.now coord) (components_of components.now.standing.now)) }
{
    for at in 0..components.count_ended(marks, coord) {
        let members = components.look(coord, at, steps);
        push_if_over(marks, members, ids)?;
    }
    Ok(())
}
