//! The table.
ghost use Rattle.std.specs.Prelude.{◌≡◌, ◌≤◌, ◌++◌, [], false, not, map, filter, IfOk, OnOk, OnErr, option_copied};
ghost use Rattle.std.specs.List.Sorted.{IsStrictlySortedBy};
ghost use Rattle.roc_sequence.specs.Lists.{Has};
ghost use Rattle.roc_sequence.specs.Places.{IsListed, NoneTwice, is_listed};
ghost use Rattle.roc_base.specs.declared.id.TxnId.{TxnId as Id};
ghost use Rattle.roc_base.specs.TxnId.{is_txn, txn_cmp};
ghost use Rattle.roc_depgraph.specs.declared.known.KnownList.{KnownList as Known};
ghost use Rattle.roc_component.specs.Components.{AreTaken};
ghost use Rattle.roc_depgraph.specs.Closure.{IsRisingListOf};
ghost use Rattle.roc_depgraph.specs.Deps.{list_of, is_known};
ghost use Rattle.roc_step.specs.Learning.{AreLearnable};
ghost use Rattle.roc_step.specs.Led.{IsKnownAndLedTo};
ghost use Rattle.roc_server_reach.specs.Least.{AreLeastIds};
ghost use Rattle.roc_step.specs.Links.{all_entries, least_naming, without_links};
ghost use Rattle.roc_step.specs.New.{AreAllNew};

use crate::changes::{decide_all, end_all, is_decided, learn_all, settle_kept, unlearn_all};
use crate::components::taken_of;
use crate::finding::{new_ids, new_ids_without, taken_without};
use crate::leading::led_to;
use roc_base::{Edge, Edges, NoMemory, TxnId};
use roc_depgraph::KnownList;
use roc_sequence::Sequence;
use roc_server_reach::BitRows;
use roc_server_rows::{Mark, Parts, least_naming, list, none};
use std::alloc::Global;
use std::marker::Model;

/// The lists that a server keeps, what is followed of each, and which transactions are marked as decided.
#[derive(Drop)]
pub struct ListTable {
    parts: Parts,
    marks: Vec<Mark>,
    bits: BitRows,
}

impl Model for ListTable {
    ghost use Rattle.roc_server_table.specs.Kept.{TableLists};
    ghost use Rattle.roc_server_table.specs.Inner.Kept.{table_of};
    ghost use Rattle.roc_server_table.specs.Inner.Leading.{AreKept};

    ghost Value = { TableLists };

    ghost view = { λ t. table_of t.parts.rows.items t.marks.items };

    ghost invariant = { λ t. AreKept t.parts t.marks.items t.bits };
}

impl ListTable {
    /// No list, and none is decided. Takes no memory.
    pub fn new(alloc: Global) -> ListTable
        ensures known { result.known ≡ [] }
        ensures links { result.links ≡ [] }
        ensures decided { result.decided ≡ [] }
    {
        ListTable {
            parts: none(alloc),
            marks: Vec::new(alloc),
            bits: BitRows::new(alloc),
        }
    }

    /// The list that is known of a transaction, where one is. Takes no memory.
    pub fn list(&self, id: TxnId) -> Option<&Edges>
        ensures { option_copied result ≡ list_of id self.now.known }
    {
        let parts = &self.parts;
        list(&parts.numbers, &parts.rows, parts.stamp, id)
    }

    /// Whether a transaction is marked as decided. Takes no memory.
    pub fn is_decided(&self, id: TxnId) -> bool
        ensures { result ≡ is_listed is_txn self.now.decided id }
    {
        is_decided(&self.parts, &self.marks, id)
    }

    /// The least of a number and of the numbers of all shards at which entries of known lists name a transaction. So a number above all shards is
    /// given back where no entry names it. It looks at each list. Takes no memory.
    pub fn least_naming(&self, id: TxnId, at: u16) -> u16
        ensures least { result ≡ least_naming id at (all_entries self.now.known) }
        ensures bound { result ≤ at }
    {
        least_naming(&self.parts.rows, id, at)
    }

    /// Learns lists, each of a transaction of which none is known then. The entries that name one of `done`, which rise, are not followed. `NoMemory`,
    /// which comes also where births and turns are used up, leaves the table as it was. Of the lists that are known it looks at those alone that are not
    /// decided, and once at the bits of all rows where it names a row whose bits are stale (`BitRows::put`).
    pub fn learn(&mut self, news: &[KnownList], done: &[TxnId]) -> Result<(), NoMemory>
        requires learnable { AreLearnable self.old.known news.now }
        requires rising { IsStrictlySortedBy txn_cmp done.now }
        ensures known { OnOk result (self.new.known ≡ self.old.known ++ news.now) }
        ensures links { OnOk result (self.new.links ≡ self.old.links ++ map (without_links (is_listed is_txn done.now)) news.now) }
        ensures decided { OnOk result (self.new.decided ≡ self.old.decided) }
        ensures err { OnErr result (self.new ≡ self.old) }
    {
        learn_all(&mut self.parts, &mut self.marks, &mut self.bits, news, done)
    }

    /// Takes the lists of the transactions of these back, where they are known. None of them is decided. Entries of others that name them stay
    /// followed. Of lists that were learnt last, those are left that were known before. Takes no memory.
    pub fn unlearn(&mut self, news: &[KnownList])
        requires { (k : Known) → Has k news.now → is_listed is_txn self.old.decided k.of ≡ false }
        ensures known { self.new.known ≡ filter (λ k. not (is_known news.now k.of)) self.old.known }
        ensures links { self.new.links ≡ filter (λ k. not (is_known news.now k.of)) self.old.links }
        ensures decided { self.new.decided ≡ self.old.decided }
    {
        unlearn_all(&mut self.parts, &mut self.marks, &mut self.bits, news);
    }

    /// What is decided by what is followed and is not marked so, each once, in any order. It looks at the lists alone that are not decided, and at the
    /// entries alone of those that are not known to wait for others. The lists and what is marked as decided stay, whether there is memory or not:
    /// `NoMemory` comes where there is none for what it looks at and for what is decided.
    pub fn newly(&mut self) -> Result<Vec<TxnId>, NoMemory>
        ensures same { self.new ≡ self.old }
        ensures new { IfOk result (λ ids. AreAllNew (IsListed is_txn self.old.decided) self.old.links ids.items) }
        ensures once { IfOk result (λ ids. NoneTwice is_txn ids.items) }
    {
        new_ids(&self.parts, &mut self.marks, None)
    }

    /// The same where entries that name one transaction are not followed, as after [`ListTable::settle`]. `NoMemory` comes where it does there.
    pub fn newly_without(&mut self, id: TxnId) -> Result<Vec<TxnId>, NoMemory>
        ensures same { self.new ≡ self.old }
        ensures new { IfOk result (λ ids. AreAllNew (IsListed is_txn self.old.decided) (map (without_links (λ t. is_txn t id)) self.old.links) ids.items) }
        ensures once { IfOk result (λ ids. NoneTwice is_txn ids.items) }
    {
        new_ids_without(&self.parts, &mut self.marks, id)
    }

    /// The components of transactions in the order in which they are taken, by what is followed of their lists. `NoMemory` comes where there is
    /// none for these and for what is followed among the transactions.
    pub fn components(&self, ids: &[TxnId]) -> Result<Vec<Sequence<TxnId>>, NoMemory>
        ensures { IfOk result (λ components. AreTaken self.now.links ids.now components.items) }
    {
        let parts = &self.parts;
        taken_of(
            parts.alloc,
            &parts.numbers,
            &parts.rows,
            parts.stamp,
            ids,
            None,
        )
    }

    /// The same where entries that name one transaction are not followed, as after [`ListTable::settle`]. `NoMemory` comes where it does there.
    pub fn components_without(
        &self,
        id: TxnId,
        ids: &[TxnId],
    ) -> Result<Vec<Sequence<TxnId>>, NoMemory>
        ensures { IfOk result (λ components. AreTaken (map (without_links (λ t. is_txn t id)) self.now.links) ids.now components.items) }
    {
        taken_without(&self.parts, id, ids)
    }

    /// Marks as decided all that is so by what is followed, and was not marked. Takes no memory.
    pub fn decide(&mut self, ids: &[TxnId])
        requires { AreAllNew (IsListed is_txn self.old.decided) self.old.links ids.now }
        ensures known { self.new.known ≡ self.old.known }
        ensures links { self.new.links ≡ self.old.links }
        ensures decided { IsRisingListOf (IsListed is_txn (self.old.decided ++ ids.now)) self.new.decided }
    {
        decide_all(&mut self.parts, &mut self.marks, ids);
    }

    /// The entries that name a transaction are done from now on. Its own list, where one is known, stays. Takes no memory. It looks at all other lists
    /// where its own is known, and else at those alone that are not decided.
    pub fn settle(&mut self, id: TxnId)
        ensures known { self.new.known ≡ self.old.known }
        ensures links { self.new.links ≡ map (without_links (λ t. is_txn t id)) self.old.links }
        ensures decided { self.new.decided ≡ self.old.decided }
    {
        settle_kept(&mut self.parts, &mut self.marks, &mut self.bits, id);
    }

    /// Takes the lists of decided transactions out. Each entry that names one of them is done from then on. Takes no memory, and looks at no other
    /// list.
    pub fn forget(&mut self, ids: &[TxnId])
        requires { (t : Id) → IsListed is_txn ids.now t → IsListed is_txn self.old.decided t }
        ensures known { self.new.known ≡ filter (λ k. not (is_listed is_txn ids.now k.of)) self.old.known }
        ensures links { self.new.links ≡ map (without_links (is_listed is_txn ids.now)) (filter (λ k. not (is_listed is_txn ids.now k.of)) self.old.links) }
        ensures decided { IsRisingListOf (λ t. IsListed is_txn self.old.decided t × (is_listed is_txn ids.now t ≡ false)) self.new.decided }
    {
        end_all(&mut self.parts, &mut self.marks, &mut self.bits, ids);
    }

    /// The transactions with known lists to which entries lead by what is followed: the sixteen least of them by id. What it costs grows with how
    /// many transactions entries lead to and with the greatest number of a row, not with how many entries their lists have. `NoMemory` comes where
    /// there is none for these.
    pub fn led_to(&self, edges: &[Edge]) -> Result<Vec<TxnId>, NoMemory>
        ensures { IfOk result (λ ids. AreLeastIds (IsKnownAndLedTo self.now.links edges.now) ids.items) }
    {
        led_to(&self.parts, &self.bits, edges)
    }
}
