//! The known lists, and what follows from them.
ghost use Rattle.std.specs.Prelude.{◌≡◌, [], None, not, IfOk, OnOk, OnErr, filter};
ghost use Rattle.std.specs.Option.{option_copied};
ghost use Rattle.roc_base.specs.TxnId.{is_txn};
ghost use Rattle.roc_depgraph.specs.Closure.{IsClosure, IsRisingListOf};
ghost use Rattle.roc_depgraph.specs.Deps.{list_of, is_known, IsKnown, Precedes};
ghost use Rattle.roc_depgraph.specs.Learnt.{Learns};
ghost use Rattle.roc_depgraph.specs.Inner.Entries.{known_by};
ghost use Rattle.roc_depgraph.specs.Reach.{ReachesOrIs};
ghost use Rattle.roc_depgraph.specs.Visits.{Visits};

use crate::{Closure, Learnt};
use indexmap::IndexMap;
use roc_base::{Edge, Edges, NoMemory, TxnId};
use std::alloc::Global;
use std::collections::BTreeSet;
use std::marker::Model;

/// The dependency lists that one server knows, in the order in which it learnt them.
#[derive(Drop)]
pub struct Deps {
    alloc: Global,
    lists: IndexMap<TxnId, Edges>,
}

impl Model for Deps {
    ghost use Rattle.std.specs.Prelude.{List};
    ghost use Rattle.roc_depgraph.specs.declared.known.KnownList.{KnownList};
    ghost use Rattle.roc_depgraph.specs.Inner.Entries.{known_by};

    ghost Value = { List KnownList };

    ghost view = { λ d. known_by d.lists.entries };
}

impl Deps {
    /// No list is known. Takes no memory.
    pub fn new(alloc: Global) -> Deps
        ensures { result ≡ [] }
    {
        Deps {
            alloc,
            lists: IndexMap::new(alloc),
        }
    }

    /// The list that is known of a transaction, where one is. Takes no memory.
    pub fn list(&self, id: TxnId) -> Option<&Edges>
        ensures { option_copied result ≡ list_of id self.now }
    {
        self.lists.get(&id)
    }

    /// Learns a list, where none is known of its transaction. `NoMemory` comes only then, and
    /// leaves the lists as they were.
    pub fn learn(&mut self, id: TxnId, edges: &Edges) -> Result<Learnt, NoMemory>
        ensures ok { IfOk result (λ answer. Learns id edges.now self.old answer self.new) }
        ensures err { OnErr result ((list_of id self.old ≡ None) × (self.new ≡ self.old)) }
    {
        if let Some(kept) = self.list(id) {
            if *kept == *edges {
                return Ok(Learnt::Repeat);
            }
            return Ok(Learnt::Differs);
        }
        let edges = edges.clone()?;
        self.lists.insert(id, edges)?;
        Ok(Learnt::New)
    }

    /// Takes back a list. The others stay, in their order. Takes no memory.
    pub fn undo(&mut self, id: TxnId)
        requires { IsKnown self.old id }
        ensures { self.new ≡ filter (λ k. not (is_txn k.of id)) self.old }
    {
        self.lists.shift_remove(&id);
    }

    /// The transaction and its ancestors, where all their lists are known; else what is missing.
    /// `NoMemory` comes where there is none for what was found.
    pub fn closure(&self, id: TxnId) -> Result<Closure, NoMemory>
        ensures { IfOk result (IsClosure self.now id) }
    {
        let reached = self.reached(id)?;
        let missing = self.unknown(&reached)?;
        if missing.is_empty() {
            Ok(Closure::Whole(reached))
        } else {
            Ok(Closure::Missing(missing))
        }
    }

    // The id and all from which a chain of edges leads to it, rising.
    fn reached(&self, id: TxnId) -> Result<Vec<TxnId>, NoMemory>
        ensures { IfOk result (λ ids. IsRisingListOf (λ u. ReachesOrIs (Precedes self.now) u id) ids.items) }
    {
        let mut found = BTreeSet::new(self.alloc);
        let mut todo = Vec::new(self.alloc);
        found.insert(id)?;
        todo.push(id)?;
        'walk: while let Some(next) = todo.pop() {
            if let Some(list) = self.list(next) {
                visit(list.as_slice(), &mut found, &mut todo)?;
            }
        }
        Ok(found.into_iter().collect(self.alloc)?)
    }

    // Those of the ids whose lists are not known.
    fn unknown(&self, ids: &[TxnId]) -> Result<Vec<TxnId>, NoMemory>
        ensures { IfOk result (λ missing. missing.items ≡ filter (λ u. not (is_known self.now u)) ids.now) }
    {
        let mut missing = Vec::new(self.alloc);
        for id in ids {
            if self.list(*id).is_none() {
                missing.push(*id)?;
            }
        }
        Ok(missing)
    }
}

/// Puts the ids of entries among those that were found, and the new ones on the list of what is
/// still to be done.
pub fn visit(
    edges: &[Edge],
    found: &mut BTreeSet<TxnId>,
    todo: &mut Vec<TxnId>,
) -> Result<(), NoMemory>
    ensures { OnOk result (Visits edges.now found.old.keys todo.old.items found.new.keys todo.new.items) }
{
    for edge in edges {
        let id = edge.from();
        if found.insert(id)? {
            todo.push(id)?;
        }
    }
    Ok(())
}
