//! Started groups that are reached by counted steps alone.
ghost use Rattle.std.specs.Prelude.{◌≡◌, ◌+◌, Some, IsSome};
ghost use Rattle.roc_server_index.specs.GroupRefs.{group_refs_at};
ghost use Rattle.roc_step.specs.State.{find_group};

use crate::groups::find_group;
use crate::started_groups::StartedGroups;
use roc_base::Steps;
use roc_rows::Cell;
use roc_server_index::{GroupRef, Index};
use roc_step::StartedGroup;
use std::marker::PhantomData;
use std::sync::ledger::Ledger;

// Groups and their index, lent so that a started group is reached by a step of this ledger alone: nothing else leads from here to one.
#[derive(Drop)]
pub(crate) struct LentGroups<'a, L: Ledger> {
    started: &'a StartedGroups,
    index: &'a Index,
    ledger: PhantomData<L>,
}

impl<'a, L: Ledger> LentGroups<'a, L> {
    pub(crate) fn new(started: &'a StartedGroups, index: &'a Index) -> LentGroups<'a, L>
        ensures started { result.started.now ≡ started.now }
        ensures index { result.index.now ≡ index.now }
    {
        LentGroups {
            started,
            index,
            ledger: PhantomData,
        }
    }

    // The references at a cell.
    pub(crate) fn refs_at(&self, cell: Cell) -> &[GroupRef]
        ensures { result.now ≡ group_refs_at cell self.now.index.now }
    {
        self.index.at(cell)
    }

    // The group of a reference: a step.
    pub(crate) fn look(&self, group_ref: GroupRef, steps: &mut Steps<L>) -> &StartedGroup
        requires { IsSome (find_group group_ref.id group_ref.group self.now.started.now.groups) }
        ensures group { find_group group_ref.id group_ref.group self.now.started.now.groups ≡ Some result.now }
        ensures steps { steps.new ≡ steps.old + 1 }
    {
        steps.tick();
        match find_group(self.started, group_ref.id, group_ref.group) {
            Some(group) => group,
            None => unreachable!(),
        }
    }
}
