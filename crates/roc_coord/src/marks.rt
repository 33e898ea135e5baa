//! The watermark of a coordinator, and how the shards are told.
ghost use Rattle.std.specs.Prelude.{◌≡◌, not, filter, map, OnOk, OnErr};
ghost use Rattle.std.specs.List.{range_with_len};
ghost use Rattle.roc_base.specs.TxnId.{is_txn};
ghost use Rattle.roc_msg.specs.Outbox.{HoldsSame, HasSent, KeepsRoom};
ghost use Rattle.roc_coord.specs.Marks.{least_seq};
ghost use Rattle.roc_coord.specs.Inner.Rises.{ended_with, ended_by, rise_of, rise_sends};

use crate::ids::Ids;
use roc_base::{NoMemory, Node, Shard, TxnId};
use roc_msg::{Msg, Outbox};
use roc_plan::Plan;
use std::alloc::Global;

/// An answer tells the watermark where it reaches or passes a multiple of this.
const MARK_STEP: u32 = 64;

/// The watermarks of the coordinator of a number, before and behind an answer.
#[derive(Clone, Copy, Drop)]
pub(crate) struct Rise {
    pub number: u16,
    pub old: u32,
    pub new: u32,
}

/// The watermark of a coordinator with these ids unanswered and this sequence next.
pub(crate) fn least_seq(ids: &[TxnId], next: u32) -> u32
    ensures { result ≡ least_seq ids.now next }
{
    let mut least = next;
    for id in ids {
        least = least.min(id.seq);
    }
    least
}

// The same without an id.
fn least_seq_without(ids: &[TxnId], id: TxnId, next: u32) -> u32
    ensures { result ≡ least_seq (filter (λ u. not (is_txn u id)) ids.now) next }
{
    let mut least = next;
    for other in ids {
        if *other != id {
            least = least.min(other.seq);
        }
    }
    least
}

/// The watermarks around the answer of an id. Takes no memory.
pub(crate) fn rise_of(ids: &Ids, id: TxnId) -> Rise
    ensures { result ≡ rise_of ids.now.number ids.now.next ids.now.unanswered.items id }
{
    let unanswered = ids.unanswered.as_slice();
    Rise {
        number: ids.number,
        old: least_seq(unanswered, ids.next),
        new: least_seq_without(unanswered, id, ids.next),
    }
}

// Tells the first so many shards, by number. `NoMemory` may leave some sent.
fn send_to_first(count: u8, number: u16, mark: u32, outbox: &mut Outbox) -> Result<(), NoMemory>
    ensures { OnOk result (HasSent outbox.old outbox.new (map (ended_with number mark) (range_with_len 0 count))) }
{
    for shard in 0..count {
        let ended = Msg::Ended {
            coord: number,
            below: mark,
        };
        outbox.send(Node::Server(Shard(shard)), ended)?;
    }
    Ok(())
}

/// Tells each shard the watermark of the coordinator of a number; none while it is 0. `NoMemory` may leave some sent.
pub(crate) fn send_ended(
    plan: &Plan,
    number: u16,
    mark: u32,
    outbox: &mut Outbox,
) -> Result<(), NoMemory>
    ensures { OnOk result (HasSent outbox.old outbox.new (ended_by plan.now number mark)) }
{
    if mark == 0 {
        return Ok(());
    }
    send_to_first(plan.workload().shards(), number, mark, outbox)
}

/// Tells each shard the watermark behind an answer that brings it to or past a multiple of the step. `NoMemory` leaves all as it was.
pub(crate) fn send_rise(
    alloc: Global,
    plan: &Plan,
    rise: Rise,
    outbox: &mut Outbox,
) -> Result<(), NoMemory>
    ensures sent { OnOk result (HasSent outbox.old outbox.new (rise_sends plan.now rise)) }
    ensures err { OnErr result (HoldsSame outbox.old outbox.new) }
    ensures room { OnOk result (KeepsRoom outbox.old outbox.new) }
{
    if rise.old / MARK_STEP >= rise.new / MARK_STEP {
        return Ok(());
    }
    let mut sends = Outbox::new(alloc);
    send_ended(plan, rise.number, rise.new, &mut sends)?;
    outbox.append(sends)
}
