//! Look-ups among the groups that have started on a server.
ghost use Rattle.std.specs.Prelude.{◌≡◌, ◌&&◌, not, ◌==◌, false, find, position, slice_get};
ghost use Rattle.std.specs.Option.{option_and_then, option_copied, option_map_or};
ghost use Rattle.std.specs.List.{list_any};
ghost use Rattle.roc_base.specs.TxnId.{is_txn};
ghost use Rattle.roc_base.specs.Equality.{is_nums};
ghost use Rattle.roc_step.specs.Runs.{count_of_groups};
ghost use Rattle.roc_step.specs.Fits.{AreGroupsOf};
ghost use Rattle.roc_step.specs.State.{is_group, find_group, is_here};

use crate::started_groups::StartedGroups;
use roc_base::{Nums, TxnId};
use roc_plan::Plan;
use roc_step::StartedGroup;

/// A group of a transaction, by its number.
pub fn find_group(started: &StartedGroups, id: TxnId, group: u16) -> Option<&StartedGroup>
    ensures { option_copied result ≡ find_group id group started.now.groups }
{
    group_at(started, place_of_group(started, id, group))
}

// Where it stands.
pub(crate) fn place_of_group(started: &StartedGroups, id: TxnId, group: u16) -> Option<usize>
    ensures { result ≡ position (is_group id group) started.now.groups }
{
    started.place(id, group as usize)
}

/// Whether a group of the transaction has started: one look.
pub fn is_here(started: &StartedGroups, id: TxnId) -> bool
    ensures { result ≡ is_here id started.now.groups }
{
    started.has(id)
}

/// Whether a group of the transaction has started with another procedure or other arguments.
pub fn differs(started: &StartedGroups, id: TxnId, proc: u16, args: &Nums) -> bool
    ensures { result ≡ list_any (λ e. is_txn e.id id && not (e.proc == proc && is_nums e.args args.now)) started.now.groups }
{
    if !started.has(id) {
        return false;
    }
    for number in 0..started.numbers() {
        let group = group_at(started, started.place(id, number));
        if is_other(group, proc, args) {
            return true;
        }
    }
    false
}

// The first group of a transaction.
fn first_group(started: &StartedGroups, id: TxnId) -> Option<&StartedGroup>
    ensures { option_copied result ≡ find (λ e. is_txn e.id id) started.now.groups }
{
    group_at(started, started.first(id))
}

// How many groups the transaction's procedure has; none where the transaction is not here.
pub(crate) fn count_of_groups(plan: &Plan, started: &StartedGroups, id: TxnId) -> u16
    requires { AreGroupsOf plan.now started.now.groups }
    ensures { result ≡ count_of_groups plan.now (find (λ e. is_txn e.id id) started.now.groups) }
{
    match first_group(started, id) {
        Some(e) => plan.groups(e.proc),
        None => 0,
    }
}

// The group at a place.
pub(crate) fn group_at(started: &StartedGroups, place: Option<usize>) -> Option<&StartedGroup>
    ensures { option_copied result ≡ option_and_then (slice_get started.now.groups) place }
{
    match place {
        Some(at) => started.as_slice().get(at),
        None => None,
    }
}

// Whether there is a group, with another procedure or other arguments.
fn is_other(group: Option<&StartedGroup>, proc: u16, args: &Nums) -> bool
    ensures { result ≡ option_map_or (λ e. not (e.proc == proc && is_nums e.args args.now)) (option_copied group.entry) false }
{
    match group {
        Some(e) => !(e.proc == proc && e.args == *args),
        None => false,
    }
}
