//! The transactions of a coordinator that have no reply yet, by id rising.
ghost use Rattle.std.specs.Prelude.{◌≡◌, List, not, filter, position, IfOk, OnOk, OnErr};
ghost use Rattle.std.specs.Option.{option_copied};
ghost use Rattle.std.specs.List.{AllByRecursion};
ghost use Rattle.roc_base.specs.TxnId.{is_txn, txn_lt};
ghost use Rattle.roc_msg.specs.Outbox.{HoldsSame, HasSent, KeepsRoom};
ghost use Rattle.roc_sequence.specs.Rising.{IsRising};
ghost use Rattle.roc_readonly.specs.declared.view.View.{View};
ghost use Rattle.roc_coord.specs.declared.ids.Ids.{Ids as GivenIds};
ghost use Rattle.roc_coord.specs.State.{find_transaction, find_view};
ghost use Rattle.roc_coord.specs.Fits.{IsTransactionOf};
ghost use Rattle.roc_coord.specs.Ids.{ids_of};
ghost use Rattle.roc_coord.specs.Step.{IsOutcome, after_startok, after_commitok, unasked, unread};
ghost use Rattle.roc_coord.specs.Tick.{transaction_again};
ghost use Rattle.roc_coord.specs.Inner.Kept.{kept_state, AreKept};

use crate::ids::{Ids, drop_id};
use crate::marks::rise_of;
use crate::take::{commitok_refusal, send_again, startok_refusal, take_commitok, take_startok};
use crate::{Handled, TakenCommit, TakenStart, Transaction};
use roc_base::{NoMemory, Shard, TxnId};
use roc_msg::{Outbox, Reason};
use roc_plan::Plan;
use std::alloc::Global;

// The place of a transaction.
fn place_of(pending: &[Transaction], id: TxnId) -> Option<usize>
    ensures { result ≡ position (λ x. is_txn x.id id) pending.now }
{
    pending.iter().position(|x| x.id == id)
}

// The transaction of an id.
fn find(pending: &[Transaction], id: TxnId) -> Option<&Transaction>
    ensures { option_copied result ≡ find_transaction id pending.now }
{
    pending.iter().find(|x| x.id == id)
}

// The transactions without the one of an id.
fn drop_transaction(pending: &mut Vec<Transaction>, id: TxnId)
    ensures { pending.new.items ≡ filter (λ x. not (is_txn x.id id)) pending.old.items }
{
    pending.retain(|x| x.id != id);
}

/// Why a readok is ignored whose id is of no view: it is unfit where a transaction has the id.
pub(crate) fn unread(pending: &[Transaction], id: TxnId) -> Reason
    ensures { result ≡ unread (find_transaction id pending.now) }
{
    match find(pending, id) {
        Some(_) => Reason::Unfit,
        None => Reason::Stale,
    }
}

/// What comes of a startok, which is ignored for the reason at hand where no transaction has its id. `NoMemory` leaves all as it was.
pub(crate) fn startok(
    alloc: Global,
    plan: &Plan,
    pending: &mut Vec<Transaction>,
    absent: Reason,
    id: TxnId,
    ok: TakenStart,
    shard: Shard,
    outbox: &mut Outbox,
) -> Result<Handled, NoMemory>
    requires fits { AllByRecursion (IsTransactionOf plan.now) pending.old.items }
    requires rising { IsRising txn_lt (ids_of pending.old.items) }
    ensures step { IfOk result (λ answer. (ids : GivenIds) (views : List View) → unasked (find_view id views) ≡ absent
        → IsOutcome (after_startok plan.now (kept_state ids pending.old.items views) id (find_transaction id pending.old.items) ok shard)
        answer (kept_state ids pending.new.items views) outbox.old outbox.new) }
    ensures err { OnErr result ((pending.new.items ≡ pending.old.items) × HoldsSame outbox.old outbox.new) }
    ensures room { OnOk result (KeepsRoom outbox.old outbox.new) }
    ensures kept { (ids : GivenIds) (views : List View) → AreKept ids pending.old.items views → AreKept ids pending.new.items views }
    ensures fits { AllByRecursion (IsTransactionOf plan.now) pending.new.items }
{
    let Some(at) = place_of(pending, id) else {
        return Ok(Handled::Ignored(absent));
    };
    if let Some(reason) = startok_refusal(plan, &pending[at], &ok, shard) {
        return Ok(Handled::Ignored(reason));
    }
    take_startok(alloc, plan, &mut pending[at], ok, outbox)?;
    Ok(Handled::Done)
}

/// What comes of a commitok, which is ignored for the reason at hand where no transaction has its id. `NoMemory` leaves all as it was.
pub(crate) fn commitok(
    alloc: Global,
    plan: &Plan,
    ids: &mut Ids,
    pending: &mut Vec<Transaction>,
    absent: Reason,
    id: TxnId,
    ok: TakenCommit,
    outbox: &mut Outbox,
) -> Result<Handled, NoMemory>
    requires fits { AllByRecursion (IsTransactionOf plan.now) pending.old.items }
    requires rising { IsRising txn_lt (ids_of pending.old.items) }
    ensures step { IfOk result (λ answer. (views : List View) → unasked (find_view id views) ≡ absent
        → IsOutcome (after_commitok plan.now (kept_state ids.old pending.old.items views) id (find_transaction id pending.old.items) ok)
        answer (kept_state ids.new pending.new.items views) outbox.old outbox.new) }
    ensures err { OnErr result ((ids.new ≡ ids.old) × (pending.new.items ≡ pending.old.items) × HoldsSame outbox.old outbox.new) }
    ensures room { OnOk result (KeepsRoom outbox.old outbox.new) }
    ensures kept { (views : List View) → AreKept ids.old pending.old.items views → AreKept ids.new pending.new.items views }
    ensures fits { AllByRecursion (IsTransactionOf plan.now) pending.new.items }
{
    let Some(at) = place_of(pending, id) else {
        return Ok(Handled::Ignored(absent));
    };
    if let Some(reason) = commitok_refusal(alloc, plan, &pending[at], &ok)? {
        return Ok(Handled::Ignored(reason));
    }
    let rise = rise_of(ids, id);
    match take_commitok(alloc, plan, &mut pending[at], ok, rise, outbox)? {
        None => Ok(Handled::Done),
        Some(reply) => {
            drop_transaction(pending, id);
            drop_id(&mut ids.unanswered, id);
            Ok(Handled::Answered { id, reply })
        }
    }
}

/// Sends again what has no answer of the transaction of an id, where there is one. `NoMemory` may leave some sent.
pub(crate) fn send_transaction_again(
    alloc: Global,
    plan: &Plan,
    pending: &[Transaction],
    id: TxnId,
    outbox: &mut Outbox,
) -> Result<(), NoMemory>
    requires { AllByRecursion (IsTransactionOf plan.now) pending.now }
    ensures { OnOk result (HasSent outbox.old outbox.new (transaction_again plan.now (find_transaction id pending.now))) }
{
    match place_of(pending, id) {
        None => Ok(()),
        Some(at) => send_again(alloc, plan, &pending[at], outbox),
    }
}
