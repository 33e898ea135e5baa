//! The ids that a coordinator has given.
ghost use Rattle.std.specs.Prelude.{◌≡◌, ◌∷◌, ◌++◌, ◌+◌, ◌<◌, [], not, filter, OnOk, OnErr};
ghost use Rattle.roc_base.specs.TxnId.{is_txn};
ghost use Rattle.roc_msg.specs.Outbox.{HoldsSame, HoldsAlso};
ghost use Rattle.roc_coord.specs.Inner.Kept.{AreSameIds};

use roc_base::{NoMemory, TxnId};
use roc_msg::Outbox;

/// A coordinator's number, the sequence that it gives next, and the ids without a reply, rising.
#[derive(Drop)]
pub(crate) struct Ids {
    pub number: u16,
    pub next: u32,
    pub unanswered: Vec<TxnId>,
}

/// Gives an id, the next one: keeps it with what is of it, and adds what that sends to an outbox. `NoMemory` leaves all as it was.
pub(crate) fn give<T: Drop>(
    ids: &mut Ids,
    id: TxnId,
    items: &mut Vec<T>,
    item: T,
    sends: Outbox,
    outbox: &mut Outbox,
) -> Result<(), NoMemory>
    requires { ids.old.next < 4294967295 }
    ensures number { ids.new.number ≡ ids.old.number }
    ensures next { OnOk result (ids.new.next ≡ ids.old.next + 1) }
    ensures unanswered { OnOk result (ids.new.unanswered.items ≡ ids.old.unanswered.items ++ id ∷ []) }
    ensures items { OnOk result (items.new.items ≡ items.old.items ++ item ∷ []) }
    ensures sent { OnOk result (HoldsAlso outbox.old outbox.new sends) }
    ensures ids { OnErr result (AreSameIds ids.old ids.new) }
    ensures others { OnErr result ((items.new.items ≡ items.old.items) × HoldsSame outbox.old outbox.new) }
{
    ids.unanswered.reserve(1)?;
    items.reserve(1)?;
    outbox.append(sends)?;
    ids.next += 1;
    ids.unanswered.push(id).unwrap();
    items.push(item).unwrap();
    Ok(())
}

/// The ids without one that has its reply now.
pub(crate) fn drop_id(ids: &mut Vec<TxnId>, id: TxnId)
    ensures { ids.new.items ≡ filter (λ u. not (is_txn u id)) ids.old.items }
{
    ids.retain(|u| *u != id);
}
