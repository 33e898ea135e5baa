//! The groups of a server, of which one step at a time is tried.
ghost use Rattle.std.specs.Prelude.{◌≡◌, ◌∷◌, ◌++◌, [], List, None, Some, OnOk};
ghost use Rattle.std.specs.Option.{option_to_list};
ghost use Rattle.std.specs.List.Sorted.{IsStrictlySortedBy};
ghost use Rattle.roc_sequence.specs.Lists.{Has};
ghost use Rattle.roc_sequence.specs.Places.{NoneTwice};
ghost use Rattle.roc_base.specs.TxnId.{txn_cmp};
ghost use Rattle.roc_base.specs.declared.id.TxnId.{TxnId as Id};
ghost use Rattle.roc_step.specs.Fits.{AreGroupsOf};
ghost use Rattle.roc_step.specs.State.{find_group};
ghost use Rattle.roc_step.specs.declared.started.StartedGroup.{StartedGroup as Group};
ghost use Rattle.roc_server_index.specs.GroupRefs.{HaveSameRefs};
ghost use Rattle.roc_server_groups.specs.Groups.{is_same_group};
ghost use Rattle.roc_server_groups.specs.GroupsNow.{groups_behind, groups_without, AreDecidedBehind, AreOnce, AreUndecided, IsUntried, RunsDecided};
ghost use Rattle.roc_server_groups.specs.Indexed.{group_ref_of, AreGroupRefsOf, IsIndexOf};
ghost use Rattle.roc_server_groups.specs.Inner.Changes.{IsAddedAt};
ghost use Rattle.roc_server_groups.specs.Inner.Tried.{CanEnter, HasRoomToEnter};
ghost use Rattle.roc_server_groups.specs.Inner.Restored.{restored};

use crate::indexed::{add_group, reserve_group, take_out};
use crate::ran::note_all;
use crate::runs::{Earlier, put_back, run_all};
use crate::started_groups::StartedGroups;
use roc_base::{NoMemory, TxnId};
use roc_msg::Outbox;
use roc_plan::Plan;
use roc_rows::Rows;
use roc_server_index::Index;
use roc_step::StartedGroup;
use std::alloc::Global;
use std::marker::Model;
use std::{mem, slice};

/// The groups that started on a server, with an index from cells to the undecided ones. A step is tried by [`ServerGroups::run`] or [`ServerGroups::start`]
/// and then released or rolled back, which takes no memory and cannot fail. Until then what was kept before stays to be seen.
#[derive(Drop)]
pub struct ServerGroups {
    alloc: Global,
    started: StartedGroups,
    index: Index,
    // What the groups that ran in the step had given before.
    earlier: Vec<Earlier>,
    // The group that starts in it, for which there is room.
    starting: Option<StartedGroup>,
}

impl Model for ServerGroups {
    ghost use Rattle.std.specs.Option.{option_to_list};
    ghost use Rattle.roc_server_groups.specs.GroupsNow.{GroupsNow};
    ghost use Rattle.roc_server_groups.specs.Inner.Restored.{restored};
    ghost use Rattle.roc_server_groups.specs.Inner.Tried.{AreTried};

    ghost Value = { GroupsNow };

    ghost view = { λ s. record { kept = restored s.earlier.items s.started.groups; ran = s.started.groups; starting = option_to_list s.starting; index = s.index } };

    ghost invariant = { λ s. AreTried (restored s.earlier.items s.started.groups) s.started.spare (option_to_list s.starting) s.index };
}

impl ServerGroups {
    /// No groups. Takes no memory.
    pub fn new(alloc: Global) -> ServerGroups
        ensures kept { result.kept ≡ [] }
        ensures untried { IsUntried result }
        ensures index { (decided : List Id) → IsIndexOf result.index decided [] }
        ensures once { AreOnce result }
    {
        ServerGroups {
            alloc,
            started: StartedGroups::new(alloc),
            index: Index::new(alloc),
            earlier: Vec::new(alloc),
            starting: None,
        }
    }

    /// The groups before the step, in the order of their arrival, those that ran in it with what they gave.
    pub fn started(&self) -> &StartedGroups
        ensures groups { result.now.groups ≡ self.now.ran }
        ensures once { NoneTwice is_same_group self.now.ran }
    {
        &self.started
    }

    /// The index of those of the groups that were undecided before the step.
    pub fn index(&self) -> &Index
        ensures { result.now ≡ self.now.index }
    {
        &self.index
    }

    /// The group that starts in the step, where one does.
    pub fn starting(&self) -> &[StartedGroup]
        ensures { result.now ≡ self.now.starting }
    {
        listed(&self.starting)
    }

    /// Tries that these are decided, one after another: what is buffered of them runs, and both are noted in the outbox. `NoMemory` leaves the groups that
    /// were kept.
    pub fn run(
        &mut self,
        plan: &Plan,
        ids: &[TxnId],
        rows: &mut Rows,
        sends: &mut Outbox,
    ) -> Result<(), NoMemory>
        requires fits { AreGroupsOf plan.now self.old.ran }
        ensures ok { OnOk result (RunsDecided plan.now self.old.ran self.new.ran rows.old.store rows.new.store sends.old sends.new ids.now) }
        ensures kept { self.new.kept ≡ self.old.kept }
        ensures starting { self.new.starting ≡ self.old.starting }
        ensures index { self.new.index ≡ self.old.index }
        ensures once { AreOnce self.new }
        ensures saved { rows.new.saved ≡ rows.old.saved }
    {
        run_decided(
            self.alloc,
            plan,
            ids,
            &mut self.started,
            rows,
            &mut self.earlier,
            sends,
        )
    }

    /// Tries that a group starts. `NoMemory` leaves the groups that were kept.
    pub fn start(&mut self, group: StartedGroup) -> Result<(), NoMemory>
        requires absent { find_group group.id group.group self.old.kept ≡ None }
        ensures ok { OnOk result (self.new.starting ≡ group ∷ []) }
        ensures kept { self.new.kept ≡ self.old.kept }
        ensures ran { self.new.ran ≡ self.old.ran }
        ensures index { HaveSameRefs self.old.index self.new.index }
        ensures once { AreOnce self.new }
    {
        set_starting(&mut self.starting, Some(group));
        match make_room(&mut self.started, &mut self.index, &self.starting) {
            Ok(()) => Ok(()),
            Err(NoMemory) => {
                set_starting(&mut self.starting, None);
                Err(NoMemory)
            }
        }
    }

    /// What was tried is kept, where something was: with it these are newly decided, and the groups of these, which rise, are forgotten. Takes no memory.
    pub fn release(&mut self, newly: &[TxnId], over: &[TxnId])
        requires refs { AreGroupRefsOf self.old.kept self.old.index }
        requires rising { IsStrictlySortedBy txn_cmp over.now }
        ensures kept { self.new.kept ≡ groups_behind over.now self.old }
        ensures untried { IsUntried self.new }
        ensures index { (before after : List Id) → IsIndexOf self.old.index before self.old.kept → AreDecidedBehind before newly.now over.now after
            → AreUndecided before self.old.starting → IsIndexOf self.new.index after self.new.kept }
        ensures once { AreOnce self.new }
    {
        let starting = mem::replace(&mut self.starting, None);
        keep_tried(&mut self.started, &mut self.index, starting, newly, over);
        self.earlier.clear();
    }

    /// What was tried is given up, where something was. Takes no memory.
    pub fn rollback(&mut self)
        ensures kept { self.new.kept ≡ self.old.kept }
        ensures untried { IsUntried self.new }
        ensures index { self.new.index ≡ self.old.index }
        ensures once { AreOnce self.new }
    {
        let earlier = mem::replace(&mut self.earlier, Vec::new(self.alloc));
        put_back(&mut self.started, earlier);
        set_starting(&mut self.starting, None);
    }

    /// All groups go, and what was tried. Takes no memory.
    pub fn renew(&mut self)
        ensures kept { self.new.kept ≡ [] }
        ensures untried { IsUntried self.new }
        ensures index { (decided : List Id) → IsIndexOf self.new.index decided [] }
        ensures once { AreOnce self.new }
    {
        drop(mem::replace(self, ServerGroups::new(self.alloc)));
    }
}

// The group that starts, where one does.
fn listed(starting: &Option<StartedGroup>) -> &[StartedGroup]
    ensures { result.now ≡ option_to_list starting.now }
{
    match starting {
        Some(group) => slice::from_ref(group),
        None => &[],
    }
}

// This one starts, or none, in place of the one that was to.
fn set_starting(starting: &mut Option<StartedGroup>, next: Option<StartedGroup>)
    ensures { starting.new ≡ next }
{
    *starting = next;
}

// Takes these, which are decided: what is buffered of them is noted and runs, and they are noted themselves.
fn run_decided(
    alloc: Global,
    plan: &Plan,
    ids: &[TxnId],
    started: &mut StartedGroups,
    rows: &mut Rows,
    earlier: &mut Vec<Earlier>,
    sends: &mut Outbox,
) -> Result<(), NoMemory>
    requires fits { AreGroupsOf plan.now started.old.groups }
    requires once { NoneTwice is_same_group started.old.groups }
    ensures ok { OnOk result (RunsDecided plan.now started.old.groups started.new.groups rows.old.store rows.new.store sends.old sends.new ids.now) }
    ensures restored { restored earlier.new.items started.new.groups ≡ restored earlier.old.items started.old.groups }
    ensures spare { started.new.spare ≡ started.old.spare }
    ensures saved { rows.new.saved ≡ rows.old.saved }
{
    note_all(plan, ids, started, sends)?;
    run_all(alloc, plan, ids, started, rows, earlier)?;
    sends.decide_all(ids)
}

// Takes memory ahead for the group that starts and its references, where one does.
fn make_room(
    started: &mut StartedGroups,
    index: &mut Index,
    starting: &Option<StartedGroup>,
) -> Result<(), NoMemory>
    ensures ok { OnOk result ((e : Group) → starting.now ≡ Some e → HasRoomToEnter e started.new.spare index.new) }
    ensures groups { started.new.groups ≡ started.old.groups }
    ensures refs { HaveSameRefs index.old index.new }
{
    match starting {
        Some(group) => make_room_for(started, index, group),
        None => Ok(()),
    }
}

// The same for a group.
fn make_room_for(
    started: &mut StartedGroups,
    index: &mut Index,
    group: &StartedGroup,
) -> Result<(), NoMemory>
    ensures ok { OnOk result (HasRoomToEnter group.now started.new.spare index.new) }
    ensures groups { started.new.groups ≡ started.old.groups }
    ensures refs { HaveSameRefs index.old index.new }
{
    started.reserve(1)?;
    reserve_group(index, group)
}

// The group that starts enters, these are newly decided, and the groups of those that are over go. It enters first: the room that was taken for its
// references is let go where the last one of a cell is taken out.
fn keep_tried(
    started: &mut StartedGroups,
    index: &mut Index,
    starting: Option<StartedGroup>,
    newly: &[TxnId],
    over: &[TxnId],
)
    requires refs { AreGroupRefsOf started.old.groups index.old }
    requires enters { (e : Group) → Has e (option_to_list starting) → CanEnter e started.old.groups started.old.spare index.old }
    requires rising { IsStrictlySortedBy txn_cmp over.now }
    ensures groups { started.new.groups ≡ groups_without over.now (started.old.groups ++ option_to_list starting) }
    ensures index { (before after : List Id) → IsIndexOf index.old before started.old.groups → AreDecidedBehind before newly.now over.now after
        → AreUndecided before (option_to_list starting) → IsIndexOf index.new after started.new.groups }
{
    enter_starting(started, index, starting);
    take_out(index, started, newly);
    forget_over(started, over);
}

// The group that starts enters, where one does.
fn enter_starting(started: &mut StartedGroups, index: &mut Index, starting: Option<StartedGroup>)
    requires refs { AreGroupRefsOf started.old.groups index.old }
    requires enters { (e : Group) → Has e (option_to_list starting) → CanEnter e started.old.groups started.old.spare index.old }
    ensures groups { started.new.groups ≡ started.old.groups ++ option_to_list starting }
    ensures refs { AreGroupRefsOf started.new.groups index.new }
    ensures index { (before : List Id) → IsIndexOf index.old before started.old.groups → AreUndecided before (option_to_list starting) → IsIndexOf index.new before started.new.groups }
{
    match starting {
        Some(group) => enter(started, index, group),
        None => {}
    }
}

// A group stands behind the others, with its references.
fn enter(started: &mut StartedGroups, index: &mut Index, group: StartedGroup)
    requires refs { AreGroupRefsOf started.old.groups index.old }
    requires enters { CanEnter group started.old.groups started.old.spare index.old }
    ensures groups { started.new.groups ≡ started.old.groups ++ group ∷ [] }
    ensures added { IsAddedAt (group_ref_of group) group.cells index.old index.new }
{
    add_group(index, &group).unwrap();
    started.enter(group);
}

// Forgets the groups of these transactions, which rise, where there are any.
fn forget_over(started: &mut StartedGroups, over: &[TxnId])
    requires { IsStrictlySortedBy txn_cmp over.now }
    ensures { started.new.groups ≡ groups_without over.now started.old.groups }
{
    if over.is_empty() {
        return;
    }
    started.forget(over);
}
