//! The members that were taken so far.
ghost use Rattle.std.specs.Prelude.{◌≡◌, ◌++◌, ◌∷◌, [], OnOk};
ghost use Rattle.roc_base.specs.TxnId.{is_txn};
ghost use Rattle.roc_sequence.specs.Places.{is_listed};

use roc_base::{NoMemory, TxnId};
use std::alloc::Global;
use std::collections::BTreeSet;
use std::marker::Model;

/// Ids in the order in which they were taken, with a quick test of whether one was.
#[derive(Drop)]
pub(crate) struct Taken {
    order: Vec<TxnId>,
    ids: BTreeSet<TxnId>,
}

impl Model for Taken {
    ghost use Rattle.std.specs.Prelude.{◌≡◌, List};
    ghost use Rattle.roc_base.specs.declared.id.TxnId.{TxnId};
    ghost use Rattle.roc_base.specs.TxnId.{is_txn, txn_cmp};
    ghost use Rattle.roc_sequence.specs.Places.{is_listed};
    ghost use Rattle.std.specs.BTreeSet.{contains};

    ghost Value = { List TxnId };

    ghost view = { λ t. t.order.items };

    ghost invariant = { λ t. (u : TxnId) → contains txn_cmp t.ids u ≡ is_listed is_txn t.order.items u };
}

impl Taken {
    // None was taken.
    pub(crate) fn new(alloc: Global) -> Taken
        ensures { result ≡ [] }
    {
        Taken {
            order: Vec::new(alloc),
            ids: BTreeSet::new(alloc),
        }
    }

    // Whether an id was taken.
    pub(crate) fn contains(&self, id: TxnId) -> bool
        ensures { result ≡ is_listed is_txn self.now id }
    {
        self.ids.contains(&id)
    }

    // Takes ids one after another.
    pub(crate) fn extend(&mut self, ids: &[TxnId]) -> Result<(), NoMemory>
        ensures { OnOk result (self.new ≡ self.old ++ ids.now) }
    {
        for id in ids {
            self.push(*id)?;
        }
        Ok(())
    }

    // Takes an id.
    fn push(&mut self, id: TxnId) -> Result<(), NoMemory>
        ensures { OnOk result (self.new ≡ self.old ++ id ∷ []) }
    {
        self.order.reserve(1)?;
        self.ids.insert(id)?;
        self.order.push(id).unwrap();
        Ok(())
    }

    // The ids in the order in which they were taken.
    pub(crate) fn into_vec(self) -> Vec<TxnId>
        ensures { result.items ≡ self }
    {
        let Taken { order, ids: _ } = self;
        order
    }
}
