//! What a step leaves that reads see.
ghost use Rattle.std.specs.Prelude.{◌≡◌, ◌∷◌, ◌+◌, ◌<◌, drop, length};
ghost use Rattle.std.specs.Option.{option_copied};
ghost use Rattle.roc_base.specs.TxnId.{is_txn};
ghost use Rattle.roc_sequence.specs.Places.{NoneTwice, is_listed};
ghost use Rattle.roc_server_groups.specs.Groups.{is_same_group};
ghost use Rattle.roc_server_groups.specs.Indexed.{group_refs_of, undecided_refs, IsIndexOf};
ghost use Rattle.roc_server_reads.specs.Behind.{decided_behind};
ghost use Rattle.roc_step.specs.State.{find_group};

use roc_base::{Steps, TxnId, is_among};
use roc_rows::{Cell, Rows};
use roc_server_groups::{StartedGroups, find_group};
use roc_server_index::{GroupRef, Index};
use roc_server_table::ListTable;
use roc_step::StartedGroup;
use std::marker::{Model, PhantomData};
use std::sync::ledger::Ledger;

/// What a step leaves that reads see, lent: the cells, the groups that had started, with their index, what was decided before the step and what newly is,
/// and the group that starts, where one does. A group is reached by a step of this ledger alone: nothing else leads from here to one.
#[derive(Drop)]
pub struct Behind<'a, L: Ledger> {
    rows: &'a Rows,
    started: &'a StartedGroups,
    index: &'a Index,
    table: &'a ListTable,
    newly: &'a [TxnId],
    starting: &'a [StartedGroup],
    ledger: PhantomData<L>,
}

impl<'a, L: Ledger> Model for Behind<'a, L> {
    ghost use Rattle.std.specs.Coded.{codes};
    ghost use Rattle.roc_rows.specs.Codes.{coded_store};
    ghost use Rattle.roc_server_reads.specs.Behind.{LeftBehind};

    ghost Value = { LeftBehind };

    ghost coded = { Prim.hlevel (codes, coded_store) };

    ghost use Rattle.roc_sequence.specs.Places.{NoneTwice};
    ghost use Rattle.roc_server_groups.specs.Groups.{is_same_group};
    ghost use Rattle.roc_server_groups.specs.Indexed.{IsIndexOf};

    ghost view = { λ b. record {
      store = b.rows.now.store;
      decided = b.table.now.decided;
      newly = b.newly.now;
      started = b.started.now.groups;
      starting = b.starting.now;
    } };

    ghost invariant = { λ b. NoneTwice is_same_group b.started.now.groups × IsIndexOf b.index.now b.table.now.decided b.started.now.groups };
}

impl<'a, L: Ledger> Behind<'a, L> {
    /// What a step leaves, where `index` is of those of these groups that were not decided before it.
    pub fn new(
        rows: &'a Rows,
        started: &'a StartedGroups,
        index: &'a Index,
        table: &'a ListTable,
        newly: &'a [TxnId],
        starting: &'a [StartedGroup],
    ) -> Behind<'a, L>
        requires once { NoneTwice is_same_group started.now.groups }
        requires refs { IsIndexOf index.now table.now.decided started.now.groups }
        ensures { result ≡ record { store = rows.now.store; decided = table.now.decided; newly = newly.now; started = started.now.groups; starting = starting.now } }
    {
        Behind {
            rows,
            started,
            index,
            table,
            newly,
            starting,
            ledger: PhantomData,
        }
    }

    // The cells.
    pub(crate) fn rows(&self) -> &Rows
        ensures { result.now.store ≡ self.now.store }
    {
        self.rows
    }

    // Each group that had started is there once, which a `Behind` knows of itself.
    pub(crate) fn has_each_once(&self)
        ensures { NoneTwice is_same_group self.now.started }
    {
        let _started = self.started;
    }

    // Whether a transaction is decided then.
    pub(crate) fn is_decided(&self, id: TxnId) -> bool
        ensures { result ≡ decided_behind self.now id }
    {
        if self.table.is_decided(id) {
            return true;
        }
        is_among(self.newly, id)
    }

    // Whether it newly is.
    pub(crate) fn is_newly_decided(&self, id: TxnId) -> bool
        ensures { result ≡ is_listed is_txn self.now.newly id }
    {
        is_among(self.newly, id)
    }

    // The references of the groups that use a cell and were not decided before.
    pub(crate) fn refs_at(&self, cell: Cell) -> &[GroupRef]
        ensures { result.now ≡ undecided_refs self.now.decided (group_refs_of cell self.now.started) }
    {
        self.index.at(cell)
    }

    // The group of a reference, where it had started: a step.
    pub(crate) fn look(&self, group_ref: GroupRef, steps: &mut Steps<L>) -> Option<&StartedGroup>
        ensures group { option_copied result ≡ find_group group_ref.id group_ref.group self.now.started }
        ensures steps { steps.new ≡ steps.old + 1 }
    {
        steps.tick();
        find_group(self.started, group_ref.id, group_ref.group)
    }

    // How many groups start.
    pub(crate) fn starts(&self) -> usize
        ensures { result ≡ length self.now.starting }
    {
        self.starting.len()
    }

    // One of those that start: a step.
    pub(crate) fn look_at_start(&self, at: usize, steps: &mut Steps<L>) -> &StartedGroup
        requires { at < length self.now.starting }
        ensures group { drop at self.now.starting ≡ result.now ∷ drop (at + 1) self.now.starting }
        ensures steps { steps.new ≡ steps.old + 1 }
    {
        steps.tick();
        group_at(self.starting, at)
    }
}

// One of these groups.
fn group_at(groups: &[StartedGroup], at: usize) -> &StartedGroup
    requires { at < length groups.now }
    ensures { drop at groups.now ≡ result.now ∷ drop (at + 1) groups.now }
{
    &groups[at]
}
