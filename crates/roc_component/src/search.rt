//! Strongly connected components, by one search along what comes before each id.
ghost use Rattle.std.specs.Prelude.{◌≡◌, ◌<◌, ◌||◌, ◌++◌, ◌∷◌, [], IfOk, OnOk, List, length, nat_le};
ghost use Rattle.roc_base.specs.declared.id.TxnId.{TxnId as Id};
ghost use Rattle.roc_base.specs.TxnId.{is_txn};
ghost use Rattle.roc_component.specs.Components.{AreComponents};
ghost use Rattle.roc_component.specs.Inner.Search.{IsAhead, IsComponentClosed, IsLess, ArePartsMerged, IsOpenable, IsOpened, IsSearchOf, IsSearchOver, IsStep, IsUnited, IsUnmet, met_of, weight};
ghost use Rattle.roc_depgraph.specs.declared.known.KnownList.{KnownList as Known};
ghost use Rattle.roc_depgraph.specs.Deps.{Precedes};
ghost use Rattle.roc_sequence.specs.Lists.{Has};
ghost use Rattle.roc_sequence.specs.Places.{is_listed};

use crate::before::before;
use crate::taken::Taken;
use crate::within::rising;
use roc_base::{NoMemory, TxnId};
use roc_depgraph::Deps;
use roc_sequence::Sequence;
use std::alloc::Global;
use std::collections::BTreeMap;

/// Some ids of one component.
#[derive(Drop)]
struct Part {
    // How many ids had been met before.
    start: usize,
    members: Vec<TxnId>,
    // What comes before the members and was not looked at.
    todo: Vec<TxnId>,
}

/// A search under way.
#[derive(Drop)]
struct Search {
    // From each part chains lead to the one before.
    path: Vec<Part>,
    // The ids of whole components.
    done: Taken,
    components: Vec<Sequence<TxnId>>,
}

// The components of ids, where all that comes before one is among them. The members of each rise.
pub(crate) fn components(
    alloc: Global,
    lists: &Deps,
    ids: &[TxnId],
) -> Result<Vec<Sequence<TxnId>>, NoMemory>
    requires { (u t : Id) → Precedes lists.now u t → Has u ids.now }
    ensures { IfOk result (λ components. AreComponents (Precedes lists.now) ids.now components.items) }
{
    let mut met = BTreeMap::new(alloc);
    let mut search = Search {
        path: Vec::new(alloc),
        done: Taken::new(alloc),
        components: Vec::new(alloc),
    };
    for id in ids {
        let mut new = unmet(&met, *id);
        'walk: while let Some(next) = new {
            search.open(alloc, lists, &mut met, next)?;
            new = search.advance(alloc, &met)?;
        }
    }
    let Search {
        path: _,
        done: _,
        components,
    } = search;
    Ok(components)
}

// An id, unless it was met.
fn unmet(met: &BTreeMap<TxnId, usize>, id: TxnId) -> Option<TxnId>
    ensures { IsUnmet (met_of met.now) id result }
{
    if met.contains_key(&id) {
        return None;
    }
    Some(id)
}

impl Search {
    // Meets an id.
    fn open(
        &mut self,
        alloc: Global,
        lists: &Deps,
        met: &mut BTreeMap<TxnId, usize>,
        id: TxnId,
    ) -> Result<(), NoMemory>
        ensures { (S : List Id) → ((u t : Id) → Precedes lists.now u t → Has u S) → IsSearchOf lists.now S met.old self.old
            → IsOpenable (Precedes lists.now) S (met_of met.old) self.old.path.items id → OnOk result (IsOpened lists.now S id met.old met.new self.new) }
    {
        let start = met.len();
        let todo = before(alloc, lists, id)?;
        let mut members = Vec::new(alloc);
        members.push(id)?;
        met.insert(id, start)?;
        self.path.push(Part {
            start,
            members,
            todo,
        })?;
        Ok(())
    }

    // Goes on until an id is met for the first time, or the path has ended.
    fn advance(
        &mut self,
        alloc: Global,
        met: &BTreeMap<TxnId, usize>,
    ) -> Result<Option<TxnId>, NoMemory>
        ensures { (known : List Known) (S : List Id) → IsSearchOf known S met.now self.old → IfOk result (λ new. IsSearchOf known S met.now self.new × IsAhead known S met.now self.new new) }
    {
        'steps: while let Some(part) = self.path.pop() {
            if let Some(new) = self.step(alloc, met, part)? {
                return Ok(Some(new));
            }
        }
        Ok(None)
    }

    // Looks at one id that comes before the last part, which was taken off the path.
    fn step(
        &mut self,
        alloc: Global,
        met: &BTreeMap<TxnId, usize>,
        part: Part,
    ) -> Result<Option<TxnId>, NoMemory>
        ensures search { (known : List Known) (S : List Id) → IsSearchOver known S met.now self.old (self.old.path.items ++ part ∷ [])
            → IfOk result (λ new. IsStep known S met.now self.new new) }
        ensures less { IfOk result (λ new. IsLess (self.old.path.items ++ part ∷ []) self.new.path.items new) }
    {
        let (start, members, mut todo) = (part.start, part.members, part.todo);
        let Some(id) = todo.pop() else {
            self.close(alloc, &members)?;
            return Ok(None);
        };
        let Some(number) = met.get(&id).copied() else {
            todo.push(id)?;
            self.path.push(Part {
                start,
                members,
                todo,
            })?;
            return Ok(Some(id));
        };
        if self.is_settled(start, id, number) {
            self.path.push(Part {
                start,
                members,
                todo,
            })?;
            return Ok(None);
        }
        todo.push(id)?;
        self.merge(Part {
            start,
            members,
            todo,
        })?;
        Ok(None)
    }

    // Whether an id that was met is of the last part, or done.
    fn is_settled(&self, start: usize, id: TxnId, number: usize) -> bool
        ensures { result ≡ (nat_le start number || is_listed is_txn self.now.done id) }
    {
        start <= number || self.done.contains(id)
    }

    // Joins a part to the last one of the path.
    fn merge(&mut self, part: Part) -> Result<(), NoMemory>
        ensures merged { 0 < length self.old.path.items → OnOk result (ArePartsMerged self.old part self.new) }
        ensures less { OnOk result (weight self.new.path.items < weight (self.old.path.items ++ part ∷ [])) }
    {
        let Some(last) = self.path.pop() else {
            return Ok(());
        };
        let members = united(last.members, part.members)?;
        let todo = united(last.todo, part.todo)?;
        self.path.push(Part {
            start: last.start,
            members,
            todo,
        })?;
        Ok(())
    }

    // Ends a component.
    fn close(&mut self, alloc: Global, members: &[TxnId]) -> Result<(), NoMemory>
        ensures { OnOk result (IsComponentClosed members.now self.old self.new) }
    {
        let ids = rising(alloc, members)?;
        self.done.extend(&ids)?;
        self.components.push(Sequence::from_vec(ids))?;
        Ok(())
    }
}

// The ids of both, where the fewer are moved.
fn united(some: Vec<TxnId>, others: Vec<TxnId>) -> Result<Vec<TxnId>, NoMemory>
    ensures { IfOk result (λ all. IsUnited some.items others.items all.items) }
{
    if some.len() < others.len() {
        return appended(others, some);
    }
    appended(some, others)
}

fn appended(some: Vec<TxnId>, others: Vec<TxnId>) -> Result<Vec<TxnId>, NoMemory>
    ensures { IfOk result (λ all. all.items ≡ some.items ++ others.items) }
{
    let mut all = some;
    let mut more = others;
    all.append(&mut more)?;
    Ok(all)
}
