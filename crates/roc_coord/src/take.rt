//! What an answer to one of a coordinator's requests does to its transaction.
ghost use Rattle.std.specs.Prelude.{◌≡◌, ◌<◌, length, take, IfOk, IfNone, OnOk, OnErr};
ghost use Rattle.std.specs.Bool.{OnTrue};
ghost use Rattle.roc_msg.specs.Outbox.{HoldsSame, HasSent, KeepsRoom};
ghost use Rattle.roc_plan.specs.Groups.{groups_of};
ghost use Rattle.roc_coord.specs.Fits.{IsTransactionOf};
ghost use Rattle.roc_coord.specs.Starts.{bound_count, out_count, with_starts};
ghost use Rattle.roc_coord.specs.Commits.{reply_of};
ghost use Rattle.roc_coord.specs.Inner.MoreStarts.{HasMoreStarts};
ghost use Rattle.roc_coord.specs.Inner.Rises.{rise_sends, reply_sends};
ghost use Rattle.roc_coord.specs.Step.{is_fit_startok, startok_refusal, with_startok, with_commits, sends_after, is_asked, is_fit_commitok, commitok_refusal, with_commitok, reply_now};
ghost use Rattle.roc_coord.specs.Tick.{sent_again};

use crate::commits::{all_committed, has_commitok, send_commits, send_commits_again};
use crate::marks::{Rise, send_rise};
use crate::reply::{places_on, reply_of, was_asked};
use crate::starts::{all_started, has_startok, send_starts, send_starts_again};
use crate::{TakenCommit, TakenStart, Transaction};
use roc_base::{NoMemory, Nums, Shard};
use roc_msg::{Outbox, Reason};
use roc_plan::{Class, Plan};
use roc_sequence::Sequence;
use std::alloc::{AllocError, Global};
use std::mem;

// How many values a group binds and gives when it starts.
fn bound_count(plan: &Plan, proc: u16, group: u16) -> usize
    requires { group < length (groups_of plan.now proc) }
    ensures { result ≡ bound_count plan.now proc group }
{
    match plan.class(proc, group) {
        Class::Immediate => usize::from(plan.bound(proc, group)),
        Class::Deferrable => 0,
    }
}

// How many values a group adds to the reply when it starts.
fn out_count(plan: &Plan, proc: u16, group: u16) -> usize
    requires { group < length (groups_of plan.now proc) }
    ensures { result ≡ out_count plan.now proc group }
{
    match plan.class(proc, group) {
        Class::Immediate => plan.outs(proc, group).len(),
        Class::Deferrable => 0,
    }
}

// Whether a startok is one that was asked for, with the plan's counts.
fn is_fit_startok(plan: &Plan, x: &Transaction, ok: &TakenStart, shard: Shard) -> bool
    requires { IsTransactionOf plan.now x.now }
    ensures fit { result ≡ is_fit_startok plan.now x.now ok.now shard }
    ensures group { OnTrue result (ok.now.group < length (groups_of plan.now x.now.proc)) }
{
    if !was_asked(x, ok.group, shard) {
        return false;
    }
    let bound = bound_count(plan, x.proc, ok.group);
    let outs = out_count(plan, x.proc, ok.group);
    ok.bound.len() == bound && ok.outs.len() == outs
}

/// Why a startok is not taken, if it is not.
pub(crate) fn startok_refusal(
    plan: &Plan,
    x: &Transaction,
    ok: &TakenStart,
    shard: Shard,
) -> Option<Reason>
    requires { IsTransactionOf plan.now x.now }
    ensures reason { result ≡ startok_refusal plan.now x.now ok.now shard }
    ensures group { IfNone result (ok.now.group < length (groups_of plan.now x.now.proc)) }
{
    if has_startok(x.startoks.as_slice(), ok.group) {
        Some(Reason::Stale)
    } else if !is_fit_startok(plan, x, ok, shard) {
        Some(Reason::Unfit)
    } else {
        None
    }
}

// Keeps the first so many elements. Takes no memory.
fn cut<T: Drop>(alloc: Global, list: &mut Sequence<T>, count: usize)
    ensures { list.new ≡ take count list.old }
{
    let mut items = mem::replace(list, Sequence::new(alloc)).into_vec();
    items.truncate(count);
    *list = Sequence::from_vec(items);
}

// Sends what is due with a startok that was put to the others: the starts that became ready, and once every group has started, the
// commits. `NoMemory` may leave starts as sent that were not, and nothing else.
fn send_after_startok(
    alloc: Global,
    plan: &Plan,
    x: &mut Transaction,
    outbox: &mut Outbox,
) -> Result<(), NoMemory>
    requires { IsTransactionOf plan.now x.old }
    ensures kept { OnOk result (x.new ≡ with_commits plan.now (with_starts plan.now x.old)) }
    ensures sent { OnOk result (HasSent outbox.old outbox.new (sends_after plan.now x.old)) }
    ensures more { OnErr result (HasMoreStarts x.old x.new) }
    ensures unsent { OnErr result (HoldsSame outbox.old outbox.new) }
    ensures room { OnOk result (KeepsRoom outbox.old outbox.new) }
    ensures id { x.new.id ≡ x.old.id }
    ensures fits { IsTransactionOf plan.now x.new }
{
    let mut sends = Outbox::new(alloc);
    send_starts(alloc, plan, x, &mut sends)?;
    if all_started(plan, x) {
        let asked = send_commits(alloc, x, &mut sends)?;
        outbox.append(sends)?;
        x.asked = asked;
    } else {
        outbox.append(sends)?;
    }
    Ok(())
}

/// Takes a startok: sends the starts that became ready, and once every group has started, the
/// commits. `NoMemory` leaves all as it was.
pub(crate) fn take_startok(
    alloc: Global,
    plan: &Plan,
    x: &mut Transaction,
    ok: TakenStart,
    outbox: &mut Outbox,
) -> Result<(), NoMemory>
    requires transaction { IsTransactionOf plan.now x.old }
    requires group { ok.group < length (groups_of plan.now x.old.proc) }
    ensures kept { OnOk result (x.new ≡ with_commits plan.now (with_starts plan.now (with_startok x.old ok))) }
    ensures sent { OnOk result (HasSent outbox.old outbox.new (sends_after plan.now (with_startok x.old ok))) }
    ensures err { OnErr result ((x.new ≡ x.old) × HoldsSame outbox.old outbox.new) }
    ensures room { OnOk result (KeepsRoom outbox.old outbox.new) }
    ensures id { x.new.id ≡ x.old.id }
    ensures fits { IsTransactionOf plan.now x.new }
{
    let starts = x.starts.len();
    let startoks = x.startoks.len();
    x.startoks.push(ok)?;
    match send_after_startok(alloc, plan, x, outbox) {
        Ok(()) => Ok(()),
        Err(NoMemory) => {
            cut(alloc, &mut x.starts, starts);
            cut(alloc, &mut x.startoks, startoks);
            Err(NoMemory)
        }
    }
}

// Whether a shard was asked to commit.
fn is_asked(x: &Transaction, shard: Shard) -> bool
    ensures { result ≡ is_asked x.now shard }
{
    x.asked.as_slice().iter().any(|asked| *asked == shard)
}

// Whether a commitok is of a shard that was asked to commit, with the plan's count.
fn is_fit_commitok(
    alloc: Global,
    plan: &Plan,
    x: &Transaction,
    ok: &TakenCommit,
) -> Result<bool, AllocError>
    requires { IsTransactionOf plan.now x.now }
    ensures { IfOk result (λ fit. fit ≡ is_fit_commitok plan.now x.now ok.now) }
{
    let places = places_on(alloc, plan, x, ok.shard)?;
    Ok(is_asked(x, ok.shard) && ok.outs.len() == places.len())
}

/// Why a commitok is not taken, if it is not.
pub(crate) fn commitok_refusal(
    alloc: Global,
    plan: &Plan,
    x: &Transaction,
    ok: &TakenCommit,
) -> Result<Option<Reason>, AllocError>
    requires { IsTransactionOf plan.now x.now }
    ensures { IfOk result (λ reason. reason ≡ commitok_refusal plan.now x.now ok.now) }
{
    if has_commitok(x.commitoks.as_slice(), ok.shard) {
        Ok(Some(Reason::Stale))
    } else if !is_fit_commitok(alloc, plan, x, ok)? {
        Ok(Some(Reason::Unfit))
    } else {
        Ok(None)
    }
}

// The reply of a transaction whose shards have all answered, and the watermark to the shards where it is to be told. `NoMemory` leaves all
// as it was.
fn answer(
    alloc: Global,
    plan: &Plan,
    x: &Transaction,
    rise: Rise,
    outbox: &mut Outbox,
) -> Result<Nums, NoMemory>
    requires { IsTransactionOf plan.now x.now }
    ensures reply { IfOk result (λ reply. reply ≡ reply_of plan.now x.now) }
    ensures sent { OnOk result (HasSent outbox.old outbox.new (rise_sends plan.now rise)) }
    ensures err { OnErr result (HoldsSame outbox.old outbox.new) }
    ensures room { OnOk result (KeepsRoom outbox.old outbox.new) }
{
    let reply = reply_of(alloc, plan, x)?;
    send_rise(alloc, plan, rise, outbox)?;
    Ok(reply)
}

/// Takes a commitok: the reply, once each shard that was asked has answered, and the watermark to the shards where it is to be told.
/// `NoMemory` leaves all as it was.
pub(crate) fn take_commitok(
    alloc: Global,
    plan: &Plan,
    x: &mut Transaction,
    ok: TakenCommit,
    rise: Rise,
    outbox: &mut Outbox,
) -> Result<Option<Nums>, NoMemory>
    requires { IsTransactionOf plan.now x.old }
    ensures kept { OnOk result (x.new ≡ with_commitok x.old ok) }
    ensures reply { IfOk result (λ reply. reply ≡ reply_now plan.now (with_commitok x.old ok)) }
    ensures sent { IfOk result (λ reply. HasSent outbox.old outbox.new (reply_sends plan.now rise reply)) }
    ensures err { OnErr result ((x.new ≡ x.old) × HoldsSame outbox.old outbox.new) }
    ensures room { OnOk result (KeepsRoom outbox.old outbox.new) }
    ensures id { x.new.id ≡ x.old.id }
    ensures fits { IsTransactionOf plan.now x.new }
{
    let commitoks = x.commitoks.len();
    x.commitoks.push(ok)?;
    if !all_committed(x) {
        return Ok(None);
    }
    match answer(alloc, plan, x, rise, outbox) {
        Ok(reply) => Ok(Some(reply)),
        Err(NoMemory) => {
            cut(alloc, &mut x.commitoks, commitoks);
            Err(NoMemory)
        }
    }
}

/// Sends a transaction's starts without a startok again; or, once every group has started, its
/// commits without a commitok. `NoMemory` may leave some sent.
pub(crate) fn send_again(
    alloc: Global,
    plan: &Plan,
    x: &Transaction,
    outbox: &mut Outbox,
) -> Result<(), NoMemory>
    requires { IsTransactionOf plan.now x.now }
    ensures { OnOk result (HasSent outbox.old outbox.new (sent_again plan.now x.now)) }
{
    if all_started(plan, x) {
        send_commits_again(alloc, x, outbox)
    } else {
        send_starts_again(alloc, plan, x, outbox)
    }
}
