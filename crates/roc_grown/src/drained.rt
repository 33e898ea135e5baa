//! What a server keeps of what coordinators told as drained, and what it tells them when it goes over.
ghost use Rattle.std.specs.Prelude.{◌≡◌, map, take, OnOk, OnErr};
ghost use Rattle.std.specs.List.{filter_map};
ghost use Rattle.roc_msg.specs.Outbox.{HasSent, HoldsSame};
ghost use Rattle.roc_grown.specs.Inner.Told.{told_back};
ghost use Rattle.roc_grown.specs.Server.{with_drained, have_all_drained, switched_to};

use roc_base::{NoMemory, Node, Shard, TxnId};
use roc_msg::{Msg, Outbox};

/// Coordinators have lower numbers than this.
pub(crate) const COORDS: usize = 16;

/// With what a coordinator tells: of two that it told the first stands, and of a coordinator past the last one nothing is kept.
pub(crate) fn with_drained(
    upto: TxnId,
    drained: &[Option<TxnId>; COORDS],
) -> [Option<TxnId>; COORDS]
    ensures { result ≡ with_drained upto drained.now }
{
    let mut with = *drained;
    let coord = usize::from(upto.coord);
    if coord < COORDS && with[coord].is_none() {
        with[coord] = Some(upto);
    }
    with
}

/// What the first so many coordinators told.
pub(crate) fn first(coords: u16, drained: &[Option<TxnId>]) -> &[Option<TxnId>]
    ensures { result.now ≡ take coords drained.now }
{
    let count = usize::from(coords).min(drained.len());
    &drained[..count]
}

/// Whether each of the first so many coordinators has told.
pub(crate) fn have_all_drained(coords: u16, drained: &[Option<TxnId>]) -> bool
    ensures { result ≡ have_all_drained coords drained.now }
{
    first(coords, drained).iter().all(|told| told.is_some())
}

/// Tells a coordinator that has told something what it told. `NoMemory` leaves what is held.
pub(crate) fn send_one(
    shard: Shard,
    told: &Option<TxnId>,
    outbox: &mut Outbox,
) -> Result<(), NoMemory>
    ensures ok { OnOk result (HasSent outbox.old outbox.new (told_back shard told.now)) }
    ensures err { OnErr result (HoldsSame outbox.old outbox.new) }
{
    match told {
        None => Ok(()),
        Some(upto) => {
            let switched = Msg::Switched { upto: *upto, shard };
            outbox.send(Node::Coord(upto.coord), switched)
        }
    }
}

/// Tells each coordinator that has told something, in this order, what it told. `NoMemory` may leave some sent.
pub(crate) fn send_switched(
    shard: Shard,
    drained: &[Option<TxnId>],
    outbox: &mut Outbox,
) -> Result<(), NoMemory>
    ensures { OnOk result (HasSent outbox.old outbox.new (map (switched_to shard) (filter_map (λ told. told) drained.now))) }
{
    for told in drained {
        send_one(shard, told, outbox)?;
    }
    Ok(())
}
