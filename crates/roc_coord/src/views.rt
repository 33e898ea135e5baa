//! The views of a coordinator that have no reply yet, by id rising.
ghost use Rattle.std.specs.Prelude.{◌≡◌, List, not, filter, position, IfOk, OnOk, OnErr};
ghost use Rattle.std.specs.Option.{option_copied};
ghost use Rattle.std.specs.List.{AllByRecursion};
ghost use Rattle.roc_base.specs.TxnId.{is_txn, txn_lt};
ghost use Rattle.roc_msg.specs.Outbox.{HoldsSame, HasSent, KeepsRoom};
ghost use Rattle.roc_sequence.specs.Rising.{IsRising};
ghost use Rattle.roc_readonly.specs.Fits.{IsViewOf};
ghost use Rattle.roc_readonly.specs.Round.{round_of, with_readok};
ghost use Rattle.roc_coord.specs.declared.transaction.Transaction.{Transaction};
ghost use Rattle.roc_coord.specs.State.{find_transaction, find_view};
ghost use Rattle.roc_coord.specs.Ids.{view_ids};
ghost use Rattle.roc_coord.specs.Step.{IsOutcome, after_readok, unasked, unread};
ghost use Rattle.roc_coord.specs.Tick.{view_again};
ghost use Rattle.roc_coord.specs.Inner.Kept.{kept_state, AreKept};
ghost use Rattle.roc_coord.specs.Inner.Reads.{view_after, round_reply, round_sends};

use crate::Handled;
use crate::ids::{Ids, drop_id};
use crate::marks::{Rise, rise_of, send_rise};
use roc_base::{NoMemory, Nums, Shard, TxnId};
use roc_msg::{Outbox, Reason};
use roc_plan::Plan;
use roc_readonly::{Round, TakenRead, View};
use std::alloc::Global;

// The place of a view.
fn place_of(views: &[View], id: TxnId) -> Option<usize>
    ensures { result ≡ position (λ v. is_txn v.id id) views.now }
{
    views.iter().position(|v| v.id == id)
}

// The view of an id.
fn find(views: &[View], id: TxnId) -> Option<&View>
    ensures { option_copied result ≡ find_view id views.now }
{
    views.iter().find(|v| v.id == id)
}

// The views without the one of an id.
fn drop_view(views: &mut Vec<View>, id: TxnId)
    ensures { views.new.items ≡ filter (λ v. not (is_txn v.id id)) views.old.items }
{
    views.retain(|v| v.id != id);
}

/// Why a startok or commitok is ignored whose id is of no transaction: it is unfit where a view has the id.
pub(crate) fn unasked(views: &[View], id: TxnId) -> Reason
    ensures { result ≡ unasked (find_view id views.now) }
{
    match find(views, id) {
        Some(_) => Reason::Unfit,
        None => Reason::Stale,
    }
}

// What is due behind an answer that was taken: the watermark with the reply, or the reads of the next round. `NoMemory` leaves all as it was.
fn send_after_readok(
    alloc: Global,
    plan: &Plan,
    v: &mut View,
    rise: Rise,
    outbox: &mut Outbox,
) -> Result<Option<Nums>, NoMemory>
    requires { IsViewOf plan.now v.old }
    ensures kept { OnOk result (v.new ≡ view_after (round_of plan.now v.old) v.old) }
    ensures reply { IfOk result (λ reply. reply ≡ round_reply (round_of plan.now v.old)) }
    ensures sent { OnOk result (HasSent outbox.old outbox.new (round_sends plan.now rise (round_of plan.now v.old) v.old)) }
    ensures err { OnErr result ((v.new ≡ v.old) × HoldsSame outbox.old outbox.new) }
    ensures room { OnOk result (KeepsRoom outbox.old outbox.new) }
{
    match v.round(alloc, plan)? {
        Round::Waits => Ok(None),
        Round::Ends(reply) => {
            send_rise(alloc, plan, rise, outbox)?;
            Ok(Some(reply))
        }
        Round::GoesOn => {
            v.go_on(alloc, plan, outbox)?;
            Ok(None)
        }
    }
}

// Takes a readok: the reply, once two rounds found the same, and the watermark to the shards where it is to be told; or the reads of the
// next round behind a full one. `NoMemory` leaves all as it was.
fn take_readok(
    alloc: Global,
    plan: &Plan,
    v: &mut View,
    ok: TakenRead,
    rise: Rise,
    outbox: &mut Outbox,
) -> Result<Option<Nums>, NoMemory>
    requires { IsViewOf plan.now v.old }
    ensures kept { OnOk result (v.new ≡ view_after (round_of plan.now (with_readok v.old ok)) (with_readok v.old ok)) }
    ensures reply { IfOk result (λ reply. reply ≡ round_reply (round_of plan.now (with_readok v.old ok))) }
    ensures sent { OnOk result (HasSent outbox.old outbox.new (round_sends plan.now rise (round_of plan.now (with_readok v.old ok)) (with_readok v.old ok))) }
    ensures err { OnErr result ((v.new ≡ v.old) × HoldsSame outbox.old outbox.new) }
    ensures room { OnOk result (KeepsRoom outbox.old outbox.new) }
    ensures id { v.new.id ≡ v.old.id }
    ensures fits { IsViewOf plan.now v.new }
{
    v.take(ok)?;
    match send_after_readok(alloc, plan, v, rise, outbox) {
        Ok(reply) => Ok(reply),
        Err(NoMemory) => {
            v.take_back(alloc);
            Err(NoMemory)
        }
    }
}

/// What comes of a readok of a round, which is ignored for the reason at hand where no view has its id. `NoMemory` leaves all as it was.
pub(crate) fn readok(
    alloc: Global,
    plan: &Plan,
    ids: &mut Ids,
    views: &mut Vec<View>,
    absent: Reason,
    id: TxnId,
    round: u32,
    ok: TakenRead,
    shard: Shard,
    outbox: &mut Outbox,
) -> Result<Handled, NoMemory>
    requires fits { AllByRecursion (IsViewOf plan.now) views.old.items }
    requires rising { IsRising txn_lt (view_ids views.old.items) }
    ensures step { IfOk result (λ answer. (pending : List Transaction) → unread (find_transaction id pending) ≡ absent
        → IsOutcome (after_readok plan.now (kept_state ids.old pending views.old.items) id (find_view id views.old.items) round ok shard)
        answer (kept_state ids.new pending views.new.items) outbox.old outbox.new) }
    ensures err { OnErr result ((ids.new ≡ ids.old) × (views.new.items ≡ views.old.items) × HoldsSame outbox.old outbox.new) }
    ensures room { OnOk result (KeepsRoom outbox.old outbox.new) }
    ensures kept { (pending : List Transaction) → AreKept ids.old pending views.old.items → AreKept ids.new pending views.new.items }
    ensures fits { AllByRecursion (IsViewOf plan.now) views.new.items }
{
    let Some(at) = place_of(views, id) else {
        return Ok(Handled::Ignored(absent));
    };
    if let Some(reason) = views[at].readok_refusal(alloc, plan, round, &ok, shard)? {
        return Ok(Handled::Ignored(reason));
    }
    let rise = rise_of(ids, id);
    match take_readok(alloc, plan, &mut views[at], ok, rise, outbox)? {
        None => Ok(Handled::Done),
        Some(reply) => {
            drop_view(views, id);
            drop_id(&mut ids.unanswered, id);
            Ok(Handled::Answered { id, reply })
        }
    }
}

/// Sends again what has no answer of the view of an id, where there is one. `NoMemory` may leave some sent.
pub(crate) fn send_view_again(
    alloc: Global,
    plan: &Plan,
    views: &[View],
    id: TxnId,
    outbox: &mut Outbox,
) -> Result<(), NoMemory>
    requires { AllByRecursion (IsViewOf plan.now) views.now }
    ensures { OnOk result (HasSent outbox.old outbox.new (view_again plan.now (find_view id views.now))) }
{
    match place_of(views, id) {
        None => Ok(()),
        Some(at) => views[at].send_again(alloc, plan, outbox),
    }
}
