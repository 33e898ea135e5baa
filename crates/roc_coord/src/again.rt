//! What a coordinator sends again at a tick.
ghost use Rattle.std.specs.Prelude.{OnOk, OnErr};
ghost use Rattle.std.specs.List.{flat_map, AllByRecursion};
ghost use Rattle.roc_msg.specs.Outbox.{HoldsSame, HasSent};
ghost use Rattle.roc_readonly.specs.Fits.{IsViewOf};
ghost use Rattle.roc_coord.specs.Fits.{IsTransactionOf};
ghost use Rattle.roc_coord.specs.Tick.{tick_sends};
ghost use Rattle.roc_coord.specs.Inner.Kept.{kept_state};
ghost use Rattle.roc_coord.specs.Inner.Again.{again_in};

use crate::Transaction;
use crate::ids::Ids;
use crate::marks::{least_seq, send_ended};
use crate::pending::send_transaction_again;
use crate::views::send_view_again;
use roc_base::{NoMemory, TxnId};
use roc_msg::Outbox;
use roc_plan::Plan;
use roc_readonly::View;
use std::alloc::Global;

// Sends again what has no answer, of each id. `NoMemory` may leave some sent.
fn send_each_again(
    alloc: Global,
    plan: &Plan,
    ids: &[TxnId],
    pending: &[Transaction],
    views: &[View],
    outbox: &mut Outbox,
) -> Result<(), NoMemory>
    requires pending { AllByRecursion (IsTransactionOf plan.now) pending.now }
    requires views { AllByRecursion (IsViewOf plan.now) views.now }
    ensures { OnOk result (HasSent outbox.old outbox.new (flat_map (again_in plan.now pending.now views.now) ids.now)) }
{
    for id in ids {
        send_transaction_again(alloc, plan, pending, *id, outbox)?;
        send_view_again(alloc, plan, views, *id, outbox)?;
    }
    Ok(())
}

/// Sends again what has no answer of each id without a reply, and behind it the watermark. `NoMemory` leaves all as it was.
pub(crate) fn send_all_again(
    alloc: Global,
    plan: &Plan,
    ids: &Ids,
    pending: &[Transaction],
    views: &[View],
    outbox: &mut Outbox,
) -> Result<(), NoMemory>
    requires pending { AllByRecursion (IsTransactionOf plan.now) pending.now }
    requires views { AllByRecursion (IsViewOf plan.now) views.now }
    ensures sent { OnOk result (HasSent outbox.old outbox.new (tick_sends plan.now (kept_state ids.now pending.now views.now))) }
    ensures err { OnErr result (HoldsSame outbox.old outbox.new) }
{
    let unanswered = ids.unanswered.as_slice();
    let mark = least_seq(unanswered, ids.next);
    let mut sends = Outbox::new(alloc);
    send_each_again(alloc, plan, unanswered, pending, views, &mut sends)?;
    send_ended(plan, ids.number, mark, &mut sends)?;
    outbox.append(sends)
}
