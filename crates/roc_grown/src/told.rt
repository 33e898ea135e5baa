//! What a coordinator tells shards as it drains, and what they tell it as they go over.
ghost use Rattle.std.specs.Prelude.{◌≡◌, ◌==◌, ◌≤◌, map, IsOk, OnOk};
ghost use Rattle.std.specs.List.{list_any, range_with_len};
ghost use Rattle.roc_msg.specs.Outbox.{HasSent};
ghost use Rattle.roc_grown.specs.Coord.{drained_to, drained_sends, was_told, have_all_switched};

use roc_base::{NoMemory, Node, Shard, TxnId};
use roc_msg::{Msg, Outbox};
use roc_plan::Plan;

// Tells the first so many shards, by number. `NoMemory` may leave some sent, and comes only where there is no room for all.
fn send_to_first(count: u8, upto: TxnId, outbox: &mut Outbox) -> Result<(), NoMemory>
    ensures sent { OnOk result (HasSent outbox.old outbox.new (map (drained_to upto) (range_with_len 0 count))) }
    ensures succeeds { count ≤ outbox.old.room.messages → IsOk result }
{
    for shard in 0..count {
        outbox.send(Node::Server(Shard(shard)), Msg::Drained { upto })?;
    }
    Ok(())
}

/// Tells each shard that all before an id is answered. `NoMemory` may leave some sent, and comes only where there is no room for all.
pub(crate) fn send_drained(plan: &Plan, upto: TxnId, outbox: &mut Outbox) -> Result<(), NoMemory>
    ensures sent { OnOk result (HasSent outbox.old outbox.new (drained_sends plan.now upto)) }
    ensures succeeds { plan.now.program.shards ≤ outbox.old.room.messages → IsOk result }
{
    send_to_first(plan.workload().shards(), upto, outbox)
}

/// Whether a drained told this.
pub(crate) fn was_told(upto: TxnId, told: Option<TxnId>) -> bool
    ensures { result ≡ was_told upto told }
{
    match told {
        None => false,
        Some(told) => upto == told,
    }
}

/// Whether a shard's switched was taken.
pub(crate) fn has_switched(at: &[Shard], shard: Shard) -> bool
    ensures { result ≡ list_any (λ told. told.0 == shard.0) at.now }
{
    at.iter().any(|told| *told == shard)
}

/// Whether the first so many shards are all among these.
pub(crate) fn have_all_switched(shards: u8, at: &[Shard]) -> bool
    ensures { result ≡ have_all_switched shards at.now }
{
    (0..shards).all(|shard| has_switched(at, Shard(shard)))
}
