//! Fetches, and what answers them.
ghost use Rattle.std.specs.Prelude.{◌∷◌, [], map, OnOk, OnErr};
ghost use Rattle.roc_msg.specs.Outbox.{HasSent, HoldsSame};
ghost use Rattle.roc_step.specs.Asking.{known_to, fetch_from};
ghost use Rattle.roc_step.specs.Carried.{list_with};

use roc_await::OpenFetch;
use roc_base::{Edges, NoMemory, Node, Shard, TxnId};
use roc_msg::{Msg, Outbox};

/// Tells a list to one who asked for it. `NoMemory` leaves what `outbox` holds.
pub fn send_known(
    asker: Shard,
    id: TxnId,
    edges: &Edges,
    outbox: &mut Outbox,
) -> Result<(), NoMemory>
    ensures sent { OnOk result (HasSent outbox.old outbox.new (known_to (list_with id edges.now) (record { id = id; shard = asker }) ∷ [])) }
    ensures err { OnErr result (HoldsSame outbox.old outbox.new) }
{
    let edges = edges.clone()?;
    outbox.send(Node::Server(asker), Msg::Known { id, edges })
}

/// Asks for these lists. `NoMemory` leaves `outbox` with a part of these messages.
pub fn send_fetches(shard: Shard, asks: &[OpenFetch], outbox: &mut Outbox) -> Result<(), NoMemory>
    ensures { OnOk result (HasSent outbox.old outbox.new (map (fetch_from shard) asks.now)) }
{
    for a in asks {
        send_fetch(shard, *a, outbox)?;
    }
    Ok(())
}

// Asks for a list.
fn send_fetch(shard: Shard, asked: OpenFetch, outbox: &mut Outbox) -> Result<(), NoMemory>
    ensures { OnOk result (HasSent outbox.old outbox.new (fetch_from shard asked ∷ [])) }
{
    let fetch = Msg::Fetch {
        id: asked.id,
        asker: shard,
    };
    outbox.send(Node::Server(asked.at), fetch)
}
