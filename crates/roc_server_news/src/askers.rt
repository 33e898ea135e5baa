//! Who asked for lists that are new.
ghost use Rattle.std.specs.Prelude.{◌≡◌, ◌≤◌, not, map, filter, OnOk};
ghost use Rattle.std.specs.List.{list_any, flat_map};
ghost use Rattle.roc_base.specs.TxnId.{is_txn};
ghost use Rattle.roc_msg.specs.Outbox.{HasSent};
ghost use Rattle.roc_step.specs.Asking.{known_to, knowns_for};

use crate::fetches::send_known;
use roc_await::{Asker, Waits};
use roc_base::NoMemory;
use roc_depgraph::KnownList;
use roc_msg::Outbox;

/// Tells each of the lists to those who asked for it. `NoMemory` leaves `outbox` with a part of these messages.
pub fn tell_all(waits: &Waits, news: &[KnownList], outbox: &mut Outbox) -> Result<(), NoMemory>
    ensures { OnOk result (HasSent outbox.old outbox.new (flat_map (knowns_for waits.now.waiting.askers) news.now)) }
{
    for k in news {
        tell(waits.askers(k.of), k, outbox)?;
    }
    Ok(())
}

// Tells a list to these, who asked for it.
fn tell(askers: &[Asker], k: &KnownList, outbox: &mut Outbox) -> Result<(), NoMemory>
    ensures { OnOk result (HasSent outbox.old outbox.new (map (known_to k.now) askers.now)) }
{
    for a in askers {
        send_known(a.shard, k.of, &k.edges, outbox)?;
    }
    Ok(())
}

// Those who asked for the lists wait no longer, and no fetch of them is open.
pub(crate) fn drop_all(waits: &mut Waits, news: &[KnownList])
    ensures waiting { waits.new.waiting ≡ record waits.old.waiting { askers = filter (λ a. not (list_any (λ k. is_txn k.of a.id) news.now)) waits.old.waiting.askers } }
    ensures fetches { waits.new.fetches ≡ filter (λ a. not (list_any (λ k. is_txn k.of a.id) news.now)) waits.old.fetches }
    ensures spare { waits.old.spare ≤ waits.new.spare }
{
    for k in news {
        waits.drop_askers(k.of);
        waits.took(k.of);
    }
}
