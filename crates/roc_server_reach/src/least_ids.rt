//! The least of transactions by id.
ghost use Rattle.std.specs.Prelude.{◌++◌, ◌∷◌, [], List, IfOk, OnOk};
ghost use Rattle.roc_base.specs.declared.id.TxnId.{TxnId as Id};
ghost use Rattle.roc_base.specs.TxnId.{is_txn};
ghost use Rattle.roc_sequence.specs.Places.{IsListed};
ghost use Rattle.roc_server_reach.specs.Least.{AreLeastIds};

use roc_base::{NoMemory, TxnId};
use std::alloc::Global;

/// How many are the least.
const MOST_LEAST: usize = 16;

/// The least of these, sixteen at most, rising; each once, however often it is there. `NoMemory` comes where there is none for them.
pub fn least(alloc: Global, met: &[TxnId]) -> Result<Vec<TxnId>, NoMemory>
    ensures { IfOk result (λ ids. AreLeastIds (IsListed is_txn met.now) ids.items) }
{
    let mut ids = Vec::new(alloc);
    for id in met {
        take_in(&mut ids, *id)?;
    }
    Ok(ids)
}

// Takes one more in among the least, if it is one of them.
fn take_in(ids: &mut Vec<TxnId>, id: TxnId) -> Result<(), NoMemory>
    ensures { (met : List Id) → AreLeastIds (IsListed is_txn met) ids.old.items → OnOk result (AreLeastIds (IsListed is_txn (met ++ id ∷ [])) ids.new.items) }
{
    // Mostly sixteen are kept already, and the id is greater than all of them.
    if let Some(last) = ids.get(MOST_LEAST - 1) {
        if *last < id {
            return Ok(());
        }
    }
    if let Err(at) = ids.binary_search(&id) {
        if at < MOST_LEAST {
            ids.insert(at, id)?;
            ids.truncate(MOST_LEAST);
        }
    }
    Ok(())
}
