//! Which transactions are not decided, and for want of which lists.
ghost use Rattle.std.specs.Prelude.{◌≡◌, List, [], OnOk, OnErr, IfOk};
ghost use Rattle.std.specs.List.Sorted.{IsStrictlySortedBy};
ghost use Rattle.roc_base.specs.TxnId.{txn_cmp};
ghost use Rattle.roc_depgraph.specs.declared.closure.Closure.{Closure as Reached};
ghost use Rattle.roc_depgraph.specs.declared.known.KnownList.{KnownList as Told};
ghost use Rattle.roc_depgraph.specs.Closure.{IsClosure};
ghost use Rattle.roc_depgraph.specs.Deps.{IsKnown};
ghost use Rattle.roc_await.specs.Lacks.{AreLacks, AreDecidedBy, count_of_missing};
ghost use Rattle.roc_await.specs.Learning.{AreLacksBefore};
ghost use Rattle.roc_await.specs.Released.{AreReleased};

use crate::group::{Group, decided, find_group, undecided};
use crate::released::released;
use crate::taught::taught;
use roc_base::{NoMemory, TxnId};
use roc_depgraph::Deps;
use std::alloc::Global;
use std::marker::Model;

/// The transactions whose lists are known and that are not decided, each with what is missing for it. So what new lists decide is
/// found from what waits for them, and not from all that is known.
#[derive(Drop)]
pub struct Lacks {
    alloc: Global,
    // Most that wait, wait for the same.
    groups: Vec<Group>,
}

impl Model for Lacks {
    ghost use Rattle.std.specs.Prelude.{List};
    ghost use Rattle.roc_await.specs.declared.lack.Lack.{Lack};
    ghost use Rattle.roc_await.specs.Inner.Groups.{all_lacks};

    ghost Value = { List Lack };

    ghost view = { λ l. all_lacks l.groups.items };
}

/// What comes of new lists: the transactions that they decide, and what the others lack then.
#[derive(Drop)]
pub struct NextLacks {
    decided: Vec<TxnId>,
    groups: Vec<Group>,
}

impl Model for NextLacks {
    ghost use Rattle.roc_await.specs.Lacks.{NextLacks as Next};
    ghost use Rattle.roc_await.specs.Inner.Groups.{all_lacks};

    ghost Value = { Next };

    ghost view = { λ n. record { decided = n.decided.items; lacks = all_lacks n.groups.items } };
}

impl NextLacks {
    ghost use Rattle.std.specs.Prelude.{◌≡◌};

    /// The transactions that become decided, by id rising. Takes no memory.
    pub fn decided(&self) -> &[TxnId]
        ensures { result.now ≡ self.now.decided }
    {
        self.decided.as_slice()
    }
}

impl Lacks {
    /// Where no list is known. Takes no memory.
    pub fn new(alloc: Global) -> Lacks
        ensures none { result ≡ [] }
        ensures lacks { AreLacks [] result }
    {
        Lacks {
            alloc,
            groups: Vec::new(alloc),
        }
    }

    /// What `learnt` gives and leaves, where new lists are known: those of `ids`, which `deps` has learnt last. `take` does the rest.
    pub fn ready(&self, deps: &Deps, ids: &[TxnId]) -> Result<NextLacks, NoMemory>
        requires { AreLacksBefore deps.now ids.now self.now }
        ensures lacks { IfOk result (λ next. AreLacks deps.now next.lacks) }
        ensures decided { IfOk result (λ next. (were : AreLacksBefore deps.now ids.now self.now) → AreDecidedBy were.before deps.now next.decided) }
        ensures rising { IfOk result (λ next. IsStrictlySortedBy txn_cmp next.decided) }
    {
        let groups = taught(self.alloc, deps, &self.groups, ids)?;
        let decided = decided(self.alloc, &groups)?;
        let groups = undecided(groups);
        Ok(NextLacks { decided, groups })
    }

    /// What these lists decide without the entries that name some transactions of unknown lists, and what is lacking then
    /// (`AreReleased`). Nothing is looked for in lists: it takes these out of what is missing. `take` does the rest.
    pub fn without(&self, gone: &[TxnId]) -> Result<NextLacks, NoMemory>
        ensures lacks { IfOk result (λ next. (known left : List Told) → AreReleased known left gone.now → AreLacks known self.now → AreLacks left next.lacks) }
        ensures decided { IfOk result (λ next. (known left : List Told) → AreReleased known left gone.now → AreLacks known self.now → AreDecidedBy known left next.decided) }
        ensures rising { IfOk result (λ next. IsStrictlySortedBy txn_cmp next.decided) }
    {
        let groups = released(self.alloc, &self.groups, gone)?;
        let decided = decided(self.alloc, &groups)?;
        let groups = undecided(groups);
        Ok(NextLacks { decided, groups })
    }

    /// What `ready` or `without` found is so. Gives the transactions that became decided by them, rising. Takes no memory.
    pub fn take(&mut self, next: NextLacks) -> Vec<TxnId>
        ensures lacks { self.new ≡ next.lacks }
        ensures decided { result.items ≡ next.decided }
    {
        let NextLacks { decided, groups } = next;
        self.groups = groups;
        decided
    }

    /// New lists are known: those of `ids`, which `deps` has learnt last. Gives the transactions that became decided by them, rising.
    /// `NoMemory` leaves all as it was.
    pub fn learnt(&mut self, deps: &Deps, ids: &[TxnId]) -> Result<Vec<TxnId>, NoMemory>
        requires { AreLacksBefore deps.now ids.now self.old }
        ensures lacks { OnOk result (AreLacks deps.now self.new) }
        ensures decided { IfOk result (λ found. (were : AreLacksBefore deps.now ids.now self.old) → AreDecidedBy were.before deps.now found.items) }
        ensures rising { IfOk result (λ found. IsStrictlySortedBy txn_cmp found.items) }
        ensures err { OnErr result (self.new ≡ self.old) }
    {
        let next = self.ready(deps, ids)?;
        Ok(self.take(next))
    }

    /// How many ids are missing for a transaction whose list is known: as many as its closure finds, and none where it is decided.
    /// Takes no memory.
    pub fn missing(&self, id: TxnId) -> usize
        ensures { (known : List Told) (closure : Reached) → AreLacks known self.now → IsKnown known id → IsClosure known id closure → result ≡ count_of_missing closure }
    {
        match find_group(&self.groups, id) {
            Some(group) => group.missing.len(),
            None => 0,
        }
    }
}
