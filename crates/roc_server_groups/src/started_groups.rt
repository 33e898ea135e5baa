//! The groups that have started on a server, found by their transactions and numbers.
ghost use Rattle.std.specs.Prelude.{◌≡◌, ◌<◌, ◌≤◌, ◌++◌, ◌∷◌, [], List, length, not, map, filter, position, slice_get, slice_set, None, Some, OnOk};
ghost use Rattle.indexmap.specs.IndexMap.{keys, values, index_map_len, spare};
ghost use Rattle.std.specs.List.Sorted.{IsStrictlySortedBy};
ghost use Rattle.roc_base.specs.TxnId.{is_txn, txn_cmp};
ghost use Rattle.roc_sequence.specs.Places.{is_listed};
ghost use Rattle.roc_step.specs.declared.started.StartedGroup.{StartedGroup as Group};
ghost use Rattle.roc_sequence.specs.Lists.{Has};
ghost use Rattle.roc_server_groups.specs.declared.group_key.GroupKey.{GroupKey as Key};
ghost use Rattle.roc_server_groups.specs.GroupsNow.{groups_without};
ghost use Rattle.roc_server_groups.specs.Inner.Keyed.{HaveNumbersBelow, AreFirsts, AreKeyed, IsOnceHere, group_key_of, is_key};
ghost use Rattle.roc_step.specs.State.{find_group, is_group, is_here};

use crate::group_key::GroupKey;
use indexmap::IndexMap;
use roc_base::{NoMemory, Nums, TxnId};
use roc_depgraph::is_among_rising;
use roc_step::StartedGroup;
use std::alloc::Global;
use std::collections::HashMap;
use std::marker::Model;

/// The groups in the order of their arrival.
#[derive(Drop)]
pub struct StartedGroups {
    groups: IndexMap<GroupKey, StartedGroup>,
    // The number of the first group of each transaction that has one.
    firsts: HashMap<TxnId, usize>,
    // The numbers of all groups are below: those of one transaction are looked for by number.
    numbers: usize,
}

impl Model for StartedGroups {
    ghost use Rattle.std.specs.Prelude.{min};
    ghost use Rattle.indexmap.specs.IndexMap.{values, spare};
    ghost use Rattle.roc_server_groups.specs.Inner.Keyed.{AreFoundBy};
    ghost use Rattle.roc_server_groups.specs.Entered.{Entered};

    ghost Value = { Entered };

    ghost view = { λ s. record { groups = values s.groups; spare = min (spare s.groups) (spare s.firsts) } };

    ghost invariant = { λ s. AreFoundBy s.groups.entries s.firsts.entries s.numbers };
}

impl StartedGroups {
    // No groups.
    pub(crate) fn new(alloc: Global) -> StartedGroups
        ensures { result.groups ≡ [] }
    {
        StartedGroups {
            groups: IndexMap::new(alloc),
            firsts: HashMap::new(alloc),
            numbers: 0,
        }
    }

    /// The groups.
    pub fn as_slice(&self) -> &[StartedGroup]
        ensures { result.now ≡ self.now.groups }
    {
        self.groups.values().as_slice()
    }

    // What the numbers of all groups are below.
    pub(crate) fn numbers(&self) -> usize
        ensures { HaveNumbersBelow result self.now.groups }
    {
        self.numbers
    }

    // Takes memory ahead, so that this many more groups find room. No group changes, whether there is memory or not.
    pub(crate) fn reserve(&mut self, more: usize) -> Result<(), NoMemory>
        ensures groups { self.new.groups ≡ self.old.groups }
        ensures ok { OnOk result (more ≤ self.new.spare) }
    {
        self.groups.reserve(more)?;
        self.firsts.reserve(more)?;
        Ok(())
    }

    // Adds a group at the end, where there is room.
    pub(crate) fn enter(&mut self, group: StartedGroup)
        requires absent { find_group group.id group.group self.old.groups ≡ None }
        requires room { 0 < self.old.spare }
        ensures { self.new.groups ≡ self.old.groups ++ group ∷ [] }
    {
        note_first(&mut self.firsts, &group);
        put(&mut self.groups, &mut self.numbers, group);
    }

    // Forgets the groups of these transactions, which rise. Takes no memory. What stands behind them moves, or all groups are gone through once, whichever is less.
    pub(crate) fn forget(&mut self, ids: &[TxnId])
        requires { IsStrictlySortedBy txn_cmp ids.now }
        ensures { self.new.groups ≡ filter (λ e. not (is_listed is_txn ids.now e.id)) self.old.groups }
    {
        leave_others(&mut self.groups, self.numbers, ids);
        keep_other_firsts(&mut self.firsts, ids);
    }

    // Where a group of a transaction stands.
    pub(crate) fn place(&self, id: TxnId, number: usize) -> Option<usize>
        ensures place { result ≡ position (is_group id number) self.now.groups }
        ensures once { IsOnceHere id number self.now.groups }
    {
        self.groups.get_index_of(&GroupKey { id, number })
    }

    // Whether a transaction has a group: one look.
    pub(crate) fn has(&self, id: TxnId) -> bool
        ensures { result ≡ is_here id self.now.groups }
    {
        self.firsts.contains_key(&id)
    }

    // Where the first group of a transaction stands: two looks.
    pub(crate) fn first(&self, id: TxnId) -> Option<usize>
        ensures { result ≡ position (λ e. is_txn e.id id) self.now.groups }
    {
        match self.firsts.get(&id) {
            Some(number) => self.place(id, *number),
            None => None,
        }
    }

    // Keeps with the group at an index what it gave, where it gave something. Gives what was kept of this before.
    pub(crate) fn keep_later(&mut self, at: usize, later: Option<Nums>) -> Option<Nums>
        requires { at < length self.old.groups }
        ensures later { (e : Group) → slice_get self.old.groups at ≡ Some e → self.new.groups ≡ slice_set self.old.groups at (record e { later = later }) }
        ensures before { (e : Group) → slice_get self.old.groups at ≡ Some e → result ≡ e.later }
        ensures spare { self.new.spare ≡ self.old.spare }
    {
        set_later(&mut self.groups, at, later)
    }
}

// Notes the number of a group that arrives, where it is the first of its transaction. There is room.
fn note_first(firsts: &mut HashMap<TxnId, usize>, group: &StartedGroup)
    requires room { 0 < spare firsts.old }
    ensures { (es : List Group) → AreFirsts firsts.old.entries es → AreFirsts firsts.new.entries (es ++ group.now ∷ []) }
{
    if firsts.contains_key(&group.id) {
        return;
    }
    let noted: Result<_, _> = firsts.insert(group.id, group.group as usize);
    noted.unwrap();
}

// Puts a group at the end, where there is room.
fn put(groups: &mut IndexMap<GroupKey, StartedGroup>, numbers: &mut usize, group: StartedGroup)
    requires room { 0 < spare groups.old }
    requires keyed { AreKeyed groups.old.entries numbers.old }
    requires absent { find_group group.id group.group (values groups.old) ≡ None }
    ensures keyed { AreKeyed groups.new.entries numbers.new }
    ensures groups { values groups.new ≡ values groups.old ++ group ∷ [] }
{
    let (id, number) = (group.id, group.group as usize);
    groups.insert(GroupKey { id, number }, group).unwrap();
    if *numbers <= number {
        *numbers = number + 1;
    }
}

// The groups of other transactions than these, which rise, stay.
fn leave_others(groups: &mut IndexMap<GroupKey, StartedGroup>, numbers: usize, ids: &[TxnId])
    requires rising { IsStrictlySortedBy txn_cmp ids.now }
    requires below { (k : Key) → Has k (keys groups.old) → k.number < numbers }
    ensures entries { groups.new.entries ≡ filter (λ e. not (is_listed is_txn ids.now e.0.id)) groups.old.entries }
{
    if are_near_end(groups, numbers, ids) {
        take_out_each(groups, numbers, ids);
        return;
    }
    keep_others(groups, ids);
}

// Whether few groups stand behind those of these transactions, so that it takes less to move them than to go through all. It says only what is cheaper.
fn are_near_end(groups: &IndexMap<GroupKey, StartedGroup>, numbers: usize, ids: &[TxnId]) -> bool {
    let few = groups.len() / 16;
    let mut behind: usize = 0;
    for id in ids {
        for number in 0..numbers {
            let key = GroupKey { id: *id, number };
            if let Some(at) = groups.get_index_of(&key) {
                behind = behind.saturating_add(groups.len() - at);
            }
        }
        if few < behind {
            return false;
        }
    }
    true
}

// Takes out the groups of transactions one by one. What stands behind them moves.
fn take_out_each(groups: &mut IndexMap<GroupKey, StartedGroup>, numbers: usize, ids: &[TxnId])
    requires { (k : Key) → Has k (keys groups.old) → k.number < numbers }
    ensures { groups.new.entries ≡ filter (λ e. not (is_listed is_txn ids.now e.0.id)) groups.old.entries }
{
    for id in ids {
        take_out_of(groups, numbers, *id);
    }
}

// Takes out the groups of a transaction.
fn take_out_of(groups: &mut IndexMap<GroupKey, StartedGroup>, numbers: usize, id: TxnId)
    requires { (k : Key) → Has k (keys groups.old) → k.number < numbers }
    ensures { groups.new.entries ≡ filter (λ e. not (is_txn e.0.id id)) groups.old.entries }
{
    for number in 0..numbers {
        take_out_one(groups, &GroupKey { id, number });
    }
}

// Takes out the group of a key, where there is one.
fn take_out_one(groups: &mut IndexMap<GroupKey, StartedGroup>, key: &GroupKey)
    ensures { groups.new.entries ≡ filter (λ e. not (is_key key.now e.0)) groups.old.entries }
{
    if groups.get_index_of(key).is_some() {
        groups.shift_remove(key);
    }
}

// The groups of other transactions than these, which rise, stay. All are gone through.
fn keep_others(groups: &mut IndexMap<GroupKey, StartedGroup>, ids: &[TxnId])
    requires { IsStrictlySortedBy txn_cmp ids.now }
    ensures entries { groups.new.entries ≡ filter (λ e. not (is_listed is_txn ids.now e.0.id)) groups.old.entries }
{
    groups.retain(|key, _| !is_among_rising(ids, key.id));
}

// The numbers of these transactions go.
fn keep_other_firsts(firsts: &mut HashMap<TxnId, usize>, ids: &[TxnId])
    ensures { (es : List Group) → AreFirsts firsts.old.entries es → AreFirsts firsts.new.entries (groups_without ids.now es) }
{
    for id in ids {
        firsts.remove(id);
    }
}

// Keeps with the group at an index what it gave, where it gave something. Gives what was kept of this before.
fn set_later(
    groups: &mut IndexMap<GroupKey, StartedGroup>,
    at: usize,
    later: Option<Nums>,
) -> Option<Nums>
    requires { at < index_map_len groups.old }
    ensures later { (e : Group) → slice_get (values groups.old) at ≡ Some e → values groups.new ≡ slice_set (values groups.old) at (record e { later = later }) }
    ensures before { (e : Group) → slice_get (values groups.old) at ≡ Some e → result ≡ e.later }
    ensures spare { spare groups.new ≡ spare groups.old }
    ensures keys { keys groups.new ≡ keys groups.old }
    ensures keyed { map group_key_of (values groups.new) ≡ map group_key_of (values groups.old) }
{
    let group = &mut groups[at];
    std::mem::replace(&mut group.later, later)
}
