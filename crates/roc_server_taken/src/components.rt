//! Components as they stand in one part: rising by a member of each, so that those that may be over come first.
ghost use Rattle.std.specs.Prelude.{◌≡◌, ◌≢◌, ◌+◌, ◌<◌, ◌≤◌, ◌++◌, ◌∷◌, [], List, false, true, length, take, drop, filter};
ghost use Rattle.std.specs.Prelude.{IfNone, IfSome, OnOk, if◌then◌else◌};
ghost use Rattle.std.specs.List.{AllByRecursion};
ghost use Rattle.std.specs.VecDeque.{deque_len, deque_capacity};
ghost use Rattle.roc_sequence.specs.Lists.{Has};
ghost use Rattle.roc_sequence.specs.Rising.{IsRising};
ghost use Rattle.roc_base.specs.TxnId.{txn_lt};
ghost use Rattle.roc_step.specs.Below.{is_ended};
ghost use Rattle.roc_step.specs.Forgets.{is_over};
ghost use Rattle.roc_server_taken.specs.declared.components.Component.{Component as Seen};
ghost use Rattle.roc_server_taken.specs.Inner.Over.{is_not_ahead, is_under, IsPutBetween};
ghost use Rattle.roc_server_taken.specs.Inner.Standing.{StandAt};

use crate::marks::Marks;
use roc_base::{NoMemory, TxnId};
use roc_sequence::Sequence;
use std::collections::VecDeque;

// A component: the member under which it stands, its turn among those that were taken, and its members.
#[derive(Drop)]
pub(crate) struct Component {
    pub under: TxnId,
    pub turn: u64,
    pub members: Sequence<TxnId>,
}

// How many stand under members that come before an id.
fn count_before(components: &VecDeque<Component>, id: TxnId) -> usize
    requires { IsRising is_not_ahead components.now.items }
    ensures within { result ≤ deque_len components.now }
    ensures before { AllByRecursion (λ c. txn_lt c.under id ≡ true) (take result components.now.items) }
    ensures behind { AllByRecursion (λ c. txn_lt c.under id ≡ false) (drop result components.now.items) }
{
    components.partition_point(|component| component.under < id)
}

// Puts one into its place, where there is room for it. Of those that stand there, the fewer move: before it or behind it.
pub(crate) fn put(components: &mut VecDeque<Component>, component: Component)
    requires rising { IsRising is_not_ahead components.old.items }
    requires room { deque_len components.old < deque_capacity components.old }
    ensures put { IsPutBetween component components.old.items components.new.items }
    ensures rising { IsRising is_not_ahead components.new.items }
    ensures capacity { deque_capacity components.old ≤ deque_capacity components.new }
{
    let at = count_before(components, component.under);
    components.insert(at, component).unwrap();
}

// How many stand under ended members of a coordinator: they come first.
pub(crate) fn count_ended(components: &VecDeque<Component>, marks: &Marks, coord: u16) -> usize
    requires coord { coord < 16 }
    requires part { StandAt coord components.now.items }
    ensures within { result ≤ deque_len components.now }
    ensures first { take result components.now.items ≡ filter (is_under marks.now coord) components.now.items }
{
    components.partition_point(|component| is_under(component, marks, coord))
}

// Takes out the first, where it stands under an ended member of a coordinator. Where it does not, none does.
pub(crate) fn take_ended(
    components: &mut VecDeque<Component>,
    marks: &Marks,
    coord: u16,
) -> Option<Component>
    requires coord { coord < 16 }
    requires part { StandAt coord components.old.items }
    ensures some { IfSome result (λ c. (components.old.items ≡ c ∷ components.new.items) × (is_under marks.now coord c ≡ true)) }
    ensures none { IfNone result ((components.new.items ≡ components.old.items) × AllByRecursion (λ c. is_under marks.now coord c ≡ false) components.old.items) }
    ensures capacity { deque_capacity components.new ≡ deque_capacity components.old }
{
    if !starts_ended(components, marks, coord) {
        return None;
    }
    components.pop_front()
}

// Whether the first stands under an ended member of a coordinator.
fn starts_ended(components: &VecDeque<Component>, marks: &Marks, coord: u16) -> bool
    requires coord { coord < 16 }
    requires part { StandAt coord components.now.items }
    ensures first { (c : Seen) (rest : List Seen) → components.now.items ≡ c ∷ rest → is_under marks.now coord c ≡ result }
    ensures none { result ≡ false → AllByRecursion (λ c. is_under marks.now coord c ≡ false) components.now.items }
{
    match components.front() {
        Some(component) => is_under(component, marks, coord),
        None => false,
    }
}

// Whether it stands under an ended member of this coordinator.
fn is_under(component: &Component, marks: &Marks, coord: u16) -> bool
    ensures { result ≡ is_under marks.now coord component.now }
{
    component.under.coord == coord && marks.is_ended(component.under)
}

// A member that is not ended, where there is one.
pub(crate) fn open_member(marks: &Marks, members: &[TxnId]) -> Option<TxnId>
    ensures some { IfSome result (λ id. Has id members.now × (is_ended marks.now id ≡ false)) }
    ensures none { IfNone result (is_over marks.now members.now ≡ true) }
{
    for id in members {
        if !marks.is_ended(*id) {
            return Some(*id);
        }
    }
    None
}

// A member that is not ended, where there is one, and else the first.
pub(crate) fn open_or_first(marks: &Marks, members: &[TxnId]) -> TxnId
    requires { members.now ≢ [] }
    ensures { Has result members.now }
{
    match open_member(marks, members) {
        Some(id) => id,
        None => members[0],
    }
}

// Whether all of a component are below the watermarks.
pub(crate) fn is_over(marks: &Marks, component: &[TxnId]) -> bool
    ensures { result ≡ is_over marks.now component.now }
{
    component.iter().all(|id| marks.is_ended(*id))
}

// Adds the transactions of a component, where it is over.
pub(crate) fn push_if_over(
    marks: &Marks,
    component: &[TxnId],
    ids: &mut Vec<TxnId>,
) -> Result<(), NoMemory>
    ensures { OnOk result (ids.new.items ≡ ids.old.items ++ (if is_over marks.now component.now then component.now else [])) }
{
    if !is_over(marks, component) {
        return Ok(());
    }
    ids.extend_from_slice(component)?;
    Ok(())
}
