//! The serial order, as it grows.
ghost use Rattle.std.specs.Prelude.{◌≡◌, ◌<◌, ◌≤◌, ◌+◌, [], vec_len, OnOk, OnErr};
ghost use Rattle.std.specs.HashSet.{spare};
ghost use Rattle.std.specs.Vec.{vec_capacity};
ghost use Rattle.roc_audit.specs.Inner.Members.{AreMembers};
ghost use Rattle.roc_audit.specs.Order.{noted, noted_one};

use roc_base::{NoMemory, TxnId};
use std::alloc::Global;
use std::collections::HashSet;
use std::marker::Model;

/// Transactions in the order of their first decision. It only grows, at its end.
#[derive(Drop)]
pub struct Order {
    ids: Vec<TxnId>,
    /// The same ids, so that one is found without a walk through the order.
    members: HashSet<TxnId>,
}

impl Model for Order {
    ghost use Rattle.std.specs.Prelude.{List};
    ghost use Rattle.roc_base.specs.declared.id.TxnId.{TxnId};
    ghost use Rattle.roc_audit.specs.Inner.Members.{AreMembers};

    ghost Value = { List TxnId };

    ghost view = { λ o. o.ids.items };

    ghost invariant = { λ o. AreMembers o.members o.ids.items };
}

impl Order {
    /// No transactions. Takes no memory.
    pub fn new(alloc: Global) -> Order
        ensures { result ≡ [] }
    {
        Order {
            ids: Vec::new(alloc),
            members: HashSet::new(alloc),
        }
    }

    /// The transactions, the earliest first.
    pub fn as_slice(&self) -> &[TxnId]
        ensures { result.now ≡ self.now }
    {
        self.ids.as_slice()
    }

    /// Puts those of `ids` that are not in the order at its end, as they stand. Memory for all of
    /// them is taken before the first; without it the order stays as it was.
    #[tactic(auto, using(crate::proofs::Noted::noted_more))]
    pub fn note(&mut self, ids: &[TxnId]) -> Result<(), NoMemory>
        ensures ok { OnOk result (self.new ≡ noted self.old ids.now) }
        ensures err { OnErr result (self.new ≡ self.old) }
    {
        self.ids.reserve(ids.len())?;
        self.members.reserve(ids.len())?;
        for id in ids {
            note_one(&mut self.ids, &mut self.members, *id);
        }
        Ok(())
    }
}

// Puts one at the end, where it is not there yet; there is room for it in both.
fn note_one(ids: &mut Vec<TxnId>, members: &mut HashSet<TxnId>, id: TxnId)
    requires room { vec_len ids.old < vec_capacity ids.old }
    requires spare { 0 < spare members.old }
    requires members { AreMembers members.old ids.old.items }
    ensures items { ids.new.items ≡ noted_one ids.old.items id }
    ensures members { AreMembers members.new ids.new.items }
    ensures len { vec_len ids.new ≤ vec_len ids.old + 1 }
    ensures capacity { vec_capacity ids.old ≤ vec_capacity ids.new }
    ensures spare { spare members.old ≤ spare members.new + 1 }
{
    let is_new = members.insert(id).unwrap();
    if is_new {
        ids.push(id).unwrap();
    }
}
