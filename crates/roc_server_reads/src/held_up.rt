//! Which group holds a read up.
ghost use Rattle.std.specs.Prelude.{◌≡◌, ◌≤◌, ◌+◌, ◌&&◌, not, length};
ghost use Rattle.roc_group.specs.Accesses.{do_write};
ghost use Rattle.roc_server_groups.specs.Indexed.{group_refs_of, undecided_refs};
ghost use Rattle.roc_server_reads.specs.Behind.{decided_behind, writes_one, IsHolder};
ghost use Rattle.roc_server_reads.specs.Inner.Holders.{count_of_hint, holds_at, is_hint_right, IsFoundAt, IsStartedHolder, IsStartingHolder};
ghost use Rattle.roc_server_reads.specs.Looks.{is_held_by, looks_over, refs_over};

use crate::behind::Behind;
use roc_base::Steps;
use roc_group::Access;
use roc_rows::Cell;
use roc_server_index::GroupRef;
use roc_step::StartedGroup;
use std::sync::ledger::Ledger;

// A group that is not decided, neither before a step nor newly, and writes one of these cells: that of the hint, where it does, else one that started, or
// one that starts. Of the hint nothing is known.
pub(crate) fn holder_among<L: Ledger>(
    behind: &Behind<'_, L>,
    uses: &[Access],
    hint: Option<GroupRef>,
    steps: &mut Steps<L>,
) -> Option<GroupRef>
    ensures holder { IsHolder behind.now uses.now result }
    ensures steps { steps.new ≤ steps.old + looks_over behind.now uses.now hint }
{
    if is_hint_right(behind, uses, hint, steps) {
        return hint;
    }
    match started_holder(behind, uses, steps) {
        Some(group_ref) => Some(group_ref),
        None => starting_holder(behind, uses, steps),
    }
}

// Whether there is a hint, and its group does.
fn is_hint_right<L: Ledger>(
    behind: &Behind<'_, L>,
    uses: &[Access],
    hint: Option<GroupRef>,
    steps: &mut Steps<L>,
) -> bool
    ensures is { result ≡ is_hint_right behind.now uses.now hint }
    ensures steps { steps.new ≤ steps.old + count_of_hint hint }
{
    match hint {
        Some(group_ref) => is_held_by(behind, uses, group_ref, steps),
        None => false,
    }
}

// Whether the group of a reference had started, is not decided, and writes one of these cells.
fn is_held_by<L: Ledger>(
    behind: &Behind<'_, L>,
    uses: &[Access],
    group_ref: GroupRef,
    steps: &mut Steps<L>,
) -> bool
    ensures is { result ≡ is_held_by behind.now uses.now group_ref }
    ensures steps { steps.new ≤ steps.old + 1 }
{
    if behind.is_decided(group_ref.id) {
        return false;
    }
    match behind.look(group_ref, steps) {
        Some(group) => writes_one(group, uses),
        None => false,
    }
}

// One that started and writes one of these cells: the index leads to those that were not decided before.
fn started_holder<L: Ledger>(
    behind: &Behind<'_, L>,
    uses: &[Access],
    steps: &mut Steps<L>,
) -> Option<GroupRef>
    ensures holder { IsStartedHolder behind.now uses.now result }
    ensures steps { steps.new ≤ steps.old + refs_over behind.now uses.now }
{
    behind.has_each_once();
    for access in uses {
        let holder = holder_at(behind, access, steps);
        if let Some(group_ref) = holder {
            return Some(group_ref);
        }
    }
    None
}

// One of the groups that the index has at the cell of a use, which holds reads of it up.
fn holder_at<L: Ledger>(
    behind: &Behind<'_, L>,
    access: &Access,
    steps: &mut Steps<L>,
) -> Option<GroupRef>
    ensures holder { IsFoundAt behind.now access.now.cell result }
    ensures steps { steps.new ≤ steps.old + length (undecided_refs behind.now.decided (group_refs_of access.now.cell behind.now.started)) }
{
    let group_refs = behind.refs_at(access.cell);
    for group_ref in group_refs {
        if holds_at(behind, group_ref, access, steps) {
            return Some(*group_ref);
        }
    }
    None
}

// Whether the group of a reference is not newly decided and writes the cell of a use.
fn holds_at<L: Ledger>(
    behind: &Behind<'_, L>,
    group_ref: &GroupRef,
    access: &Access,
    steps: &mut Steps<L>,
) -> bool
    ensures holds { result ≡ holds_at behind.now.started behind.now.newly access.now.cell group_ref.now }
    ensures steps { steps.new ≤ steps.old + 1 }
{
    if behind.is_newly_decided(group_ref.id) {
        return false;
    }
    match behind.look(*group_ref, steps) {
        Some(group) => does_write(group.cells.as_slice(), access.cell),
        None => false,
    }
}

// One that starts and writes one of these cells.
fn starting_holder<L: Ledger>(
    behind: &Behind<'_, L>,
    uses: &[Access],
    steps: &mut Steps<L>,
) -> Option<GroupRef>
    ensures holder { IsStartingHolder behind.now uses.now result }
    ensures steps { steps.new ≤ steps.old + length behind.now.starting }
{
    let starts = behind.starts();
    for at in 0..starts {
        let group = behind.look_at_start(at, steps);
        if holds_up(behind, group, uses) {
            return Some(GroupRef {
                id: group.id,
                proc: group.proc,
                group: group.group,
            });
        }
    }
    None
}

// Whether a group is not decided, neither before nor newly, and writes one of these cells.
fn holds_up<L: Ledger>(behind: &Behind<'_, L>, group: &StartedGroup, uses: &[Access]) -> bool
    ensures { result ≡ (not (decided_behind behind.now group.now.id) && writes_one uses.now group.now) }
{
    if behind.is_decided(group.id) {
        return false;
    }
    writes_one(group, uses)
}

// Whether a group writes one of these cells.
fn writes_one(group: &StartedGroup, uses: &[Access]) -> bool
    ensures { result ≡ writes_one uses.now group.now }
{
    uses.iter()
        .any(|access| does_write(group.cells.as_slice(), access.cell))
}

// Whether one of these uses writes the cell.
fn does_write(uses: &[Access], cell: Cell) -> bool
    ensures { result ≡ do_write uses.now cell }
{
    uses.iter()
        .any(|access| access.writes && access.cell == cell)
}
