//! A message is taken, or what comes of it is made ahead.
ghost use Rattle.std.specs.Prelude.{◌≡◌, true, None, Some, IsOk, IsSome, IsTrue, IfOk, IfSome, OnOk, OnErr};
ghost use Rattle.roc_base.specs.declared.node.Shard.{Shard as At};
ghost use Rattle.roc_msg.specs.declared.msg.Msg.{Msg as Message};
ghost use Rattle.roc_msg.specs.Outbox.{HasRoomFor, HoldsAlso, HoldsSame};
ghost use Rattle.roc_server.specs.Ahead.{needs_room, HasAllMade, HasRoom, IsMadeFor, IsReady, ServingFits};
ghost use Rattle.roc_step.specs.Fits.{AreGroupsOf, AreReadsOf};
ghost use Rattle.roc_server.specs.Inner.AtOnce.{at_once};
ghost use Rattle.roc_server.specs.Inner.Held.{made_of, serving, CanCount, IsHeld, IsServed};
ghost use Rattle.roc_server_reads.specs.Views.{viewing_of, viewing_then, HasRoomToCount};
ghost use Rattle.roc_plan.specs.Groups.{Plan as Groups};
ghost use Rattle.roc_server.specs.Inner.Parts.{state_behind, state_of, CanRelease, IsIdle, IsSound};
ghost use Rattle.roc_step.specs.State.{ServerState, ServerStep};
ghost use Rattle.roc_step.specs.Step.{Handles};

use crate::Handled;
use crate::ahead::{Ahead, Outcome};
use crate::parts::{ServerParts, release, roll_back};
use crate::reads::answer_reads;
use crate::trying::try_message;
use roc_base::{NoMemory, Shard};
use roc_msg::{Msg, Outbox, Reason};
use roc_plan::Plan;
use roc_server_reads::{Views, keep_views};
use std::alloc::Global;
use std::rc::Rc;

// Makes ahead what comes of a message, with the room in the outbox: what the message will be answered. Where there is no memory, nothing is made
// ahead then.
pub(crate) fn ready(
    alloc: Global,
    plan: &Plan,
    shard: Shard,
    parts: &mut ServerParts,
    views: &mut Views,
    ahead: &mut Option<Ahead>,
    msg: &Msg,
    outbox: &mut Outbox,
) -> Result<Handled, NoMemory>
    requires fits { ServingFits plan.now (serving shard parts.old views.old ahead.old) }
    requires held { IsHeld parts.old ahead.old }
    requires count { CanCount views.old ahead.old }
    ensures answer { IfOk result (λ answer. (r : ServerStep) × Handles plan.now (serving shard parts.old views.old ahead.old).state msg.now r × (r.answer ≡ answer)) }
    ensures fits { ServingFits plan.now (serving shard parts.new views.new ahead.new) }
    ensures ready { OnOk result (IsReady (serving shard parts.new views.new ahead.new) outbox.new msg.now) }
    ensures again { HasRoom (serving shard parts.old views.old ahead.old) outbox.old msg.now → IsOk result }
    ensures none { OnErr result (ahead.new ≡ None) }
    ensures state { (serving shard parts.new views.new ahead.new).state ≡ (serving shard parts.old views.old ahead.old).state }
    ensures views { viewing_of views.new ≡ viewing_of views.old }
    ensures same { HoldsSame outbox.old outbox.new }
    ensures held { IsHeld parts.new ahead.new }
    ensures count { CanCount views.new ahead.new }
{
    if !needs_room(msg) {
        let_go(parts, ahead);
        return Ok(foreign());
    }
    match make_ready(alloc, plan, shard, parts, views, ahead, msg, outbox) {
        Ok(answer) => Ok(answer),
        Err(NoMemory) => {
            let_go(parts, ahead);
            Err(NoMemory)
        }
    }
}

// The same of a message of a kind that takes memory. Where there is none, something may be made ahead.
fn make_ready(
    alloc: Global,
    plan: &Plan,
    shard: Shard,
    parts: &mut ServerParts,
    views: &mut Views,
    ahead: &mut Option<Ahead>,
    msg: &Msg,
    outbox: &mut Outbox,
) -> Result<Handled, NoMemory>
    requires kind { needs_room msg.now ≡ true }
    requires fits { ServingFits plan.now (serving shard parts.old views.old ahead.old) }
    requires held { IsHeld parts.old ahead.old }
    requires count { CanCount views.old ahead.old }
    ensures answer { IfOk result (λ answer. (r : ServerStep) × Handles plan.now (serving shard parts.old views.old ahead.old).state msg.now r × (r.answer ≡ answer)) }
    ensures fits { ServingFits plan.now (serving shard parts.new views.new ahead.new) }
    ensures made { OnOk result (HasAllMade (serving shard parts.new views.new ahead.new) outbox.new msg.now) }
    ensures again { HasRoom (serving shard parts.old views.old ahead.old) outbox.old msg.now → IsOk result }
    ensures state { (serving shard parts.new views.new ahead.new).state ≡ (serving shard parts.old views.old ahead.old).state }
    ensures views { viewing_of views.new ≡ viewing_of views.old }
    ensures same { HoldsSame outbox.old outbox.new }
    ensures held { IsHeld parts.new ahead.new }
    ensures count { CanCount views.new ahead.new }
{
    match make_once(alloc, plan, shard, parts, views, ahead, msg) {
        Ok(()) => make_room(ahead, outbox),
        Err(NoMemory) => Err(NoMemory),
    }
}

// Makes ahead what comes of a message, unless that stands already. What was made ahead for another one is given up.
fn make_once(
    alloc: Global,
    plan: &Plan,
    shard: Shard,
    parts: &mut ServerParts,
    views: &mut Views,
    ahead: &mut Option<Ahead>,
    msg: &Msg,
) -> Result<(), NoMemory>
    requires kind { needs_room msg.now ≡ true }
    requires fits { ServingFits plan.now (serving shard parts.old views.old ahead.old) }
    requires held { IsHeld parts.old ahead.old }
    requires count { CanCount views.old ahead.old }
    ensures made { OnOk result (IsSome ahead.new × IfSome ahead.new (λ made. made.msg.value ≡ msg.now)) }
    ensures again { IsSome ahead.old × IfSome ahead.old (λ made. made.msg.value ≡ msg.now) → IsOk result × (ahead.new ≡ ahead.old) }
    ensures fits { ServingFits plan.now (serving shard parts.new views.new ahead.new) }
    ensures state { (serving shard parts.new views.new ahead.new).state ≡ (serving shard parts.old views.old ahead.old).state }
    ensures views { viewing_of views.new ≡ viewing_of views.old }
    ensures held { IsHeld parts.new ahead.new }
    ensures count { CanCount views.new ahead.new }
{
    if is_made(ahead, msg) {
        return Ok(());
    }
    let_go(parts, ahead);
    make(alloc, plan, shard, parts, views, ahead, msg)
}

// Whether a message is of a kind that takes memory.
fn needs_room(msg: &Msg) -> bool
    ensures { result ≡ needs_room msg.now }
{
    match msg {
        Msg::Start { .. }
        | Msg::Commit { .. }
        | Msg::Fetch { .. }
        | Msg::Known { .. }
        | Msg::Ended { .. }
        | Msg::Settled { .. }
        | Msg::Read { .. } => true,
        _ => false,
    }
}

// Whether what comes of this message was made ahead.
fn is_made(ahead: &Option<Ahead>, msg: &Msg) -> bool
    ensures is { IsTrue result → IsSome ahead.now × IfSome ahead.now (λ made. made.msg.value ≡ msg.now) }
    ensures all { IfSome ahead.now (λ made. made.msg.value ≡ msg.now → IsTrue result) }
{
    match ahead {
        Some(made) => made.msg.as_ref().is(msg),
        None => false,
    }
}

// What was made ahead, if anything was, is given up.
pub(crate) fn let_go(parts: &mut ServerParts, ahead: &mut Option<Ahead>)
    requires { IsHeld parts.old ahead.old }
    ensures state { (shard : At) → state_of shard parts.new ≡ state_of shard parts.old }
    ensures none { ahead.new ≡ None }
    ensures held { IsHeld parts.new ahead.new }
{
    if ahead.take().is_some() {
        roll_back(parts);
    }
}

// What a message is answered that no server takes. Such a message takes no memory.
fn foreign() -> Handled
    ensures { (s : ServerState) → (at_once s).answer ≡ result }
{
    Handled::Ignored(Reason::Foreign)
}

// Takes what was made ahead, for which there is room in the outbox. Where nothing was, the message was of a kind that no server takes.
pub(crate) fn take_ready(
    parts: &mut ServerParts,
    views: &mut Views,
    ahead: &mut Option<Ahead>,
    outbox: &mut Outbox,
) -> Handled
    requires held { IsHeld parts.old ahead.old }
    requires count { CanCount views.old ahead.old }
    requires room { IfSome ahead.old (λ made. HasRoomFor outbox.old made.outcome.sends) }
    ensures step { (plan : Groups) (shard : At) (msg : Message) → ServingFits plan (serving shard parts.old views.old ahead.old) → IsReady (serving shard parts.old views.old ahead.old) outbox.old msg
        → IsServed plan (state_of shard parts.old) (viewing_of views.old) msg result (state_of shard parts.new) (viewing_of views.new) outbox.old outbox.new }
    ensures fits { (plan : Groups) (shard : At) → ServingFits plan (serving shard parts.old views.old ahead.old) → ServingFits plan (serving shard parts.new views.new ahead.new) }
    ensures none { ahead.new ≡ None }
    ensures held { IsHeld parts.new ahead.new }
{
    match ahead.take() {
        Some(Ahead { msg: _, outcome }) => finish(parts, views, outcome, outbox),
        None => foreign(),
    }
}

// What was tried is kept, and sent, for which there is room. What ran is counted from the outbox.
fn finish(
    parts: &mut ServerParts,
    views: &mut Views,
    outcome: Outcome,
    outbox: &mut Outbox,
) -> Handled
    requires sound { IsSound parts.old }
    requires can { CanRelease parts.old }
    requires count { HasRoomToCount outcome.sends.ran views.old }
    requires room { HasRoomFor outbox.old outcome.sends }
    ensures answer { outcome.answer ≡ result }
    ensures state { (shard : At) → state_of shard parts.new ≡ state_behind shard parts.old }
    ensures views { viewing_of views.new ≡ viewing_then (viewing_of views.old) outcome.answer outcome.sends.ran outcome.stays }
    ensures sent { HoldsAlso outbox.old outbox.new outcome.sends }
    ensures sound { IsSound parts.new }
    ensures idle { IsIdle parts.new }
{
    let Outcome {
        answer,
        sends,
        stays,
    } = outcome;
    let ran_before = outbox.ran().len();
    outbox.append(sends).unwrap();
    release(parts);
    keep_views(views, answer, &outbox.ran()[ran_before..], stays);
    answer
}

// Makes ahead what comes of a message, where nothing is made ahead. Where there is no memory, what was tried is taken back.
fn make(
    alloc: Global,
    plan: &Plan,
    shard: Shard,
    parts: &mut ServerParts,
    views: &mut Views,
    ahead: &mut Option<Ahead>,
    msg: &Msg,
) -> Result<(), NoMemory>
    requires kind { needs_room msg.now ≡ true }
    requires none { ahead.old ≡ None }
    requires fits { AreGroupsOf plan.now parts.old.groups.kept }
    requires reads { AreReadsOf plan.now views.old.reads.items }
    requires held { IsHeld parts.old ahead.old }
    ensures made { OnOk result (IfSome (serving shard parts.new views.new ahead.new).ahead (λ made. (made.msg ≡ msg.now) × IsMadeFor plan.now (state_of shard parts.old) (viewing_of views.old) made)) }
    ensures some { OnOk result (IsSome ahead.new) }
    ensures state { state_of shard parts.new ≡ state_of shard parts.old }
    ensures views { viewing_of views.new ≡ viewing_of views.old }
    ensures none { OnErr result (ahead.new ≡ None) }
    ensures held { IsHeld parts.new ahead.new }
    ensures count { CanCount views.new ahead.new }
{
    let copy = shared(alloc, msg)?;
    match try_step(alloc, plan, shard, parts, views, msg) {
        Ok(outcome) => {
            put(ahead, copy, outcome);
            Ok(())
        }
        Err(NoMemory) => {
            roll_back(parts);
            Err(NoMemory)
        }
    }
}

// Tries what comes of a message, and finds what comes of that for reads. No count and no kept read changes.
fn try_step(
    alloc: Global,
    plan: &Plan,
    shard: Shard,
    parts: &mut ServerParts,
    views: &mut Views,
    msg: &Msg,
) -> Result<Outcome, NoMemory>
    requires kind { needs_room msg.now ≡ true }
    requires fits { AreGroupsOf plan.now parts.old.groups.kept }
    requires reads { AreReadsOf plan.now views.old.reads.items }
    requires sound { IsSound parts.old }
    requires idle { IsIdle parts.old }
    ensures made { IfOk result (λ o. IsMadeFor plan.now (state_of shard parts.old) (viewing_of views.old) (made_of shard parts.new views.new msg.now o)) }
    ensures can { OnOk result (CanRelease parts.new) }
    ensures count { IfOk result (λ o. HasRoomToCount o.sends.ran views.new) }
    ensures views { viewing_of views.new ≡ viewing_of views.old }
    ensures state { state_of shard parts.new ≡ state_of shard parts.old }
    ensures sound { IsSound parts.new }
{
    let mut sends = Outbox::new(alloc);
    parts.rows.savepoint();
    let answer = try_message(alloc, plan, shard, parts, msg, &mut sends)?;
    let stays = answer_reads(alloc, plan, shard, parts, views, msg, answer, &mut sends)?;
    Ok(Outcome {
        answer,
        sends,
        stays,
    })
}

// A copy of a message, as one pointer.
fn shared(alloc: Global, msg: &Msg) -> Result<Rc<Msg>, NoMemory>
    ensures { IfOk result (λ copy. copy.value ≡ msg.now) }
{
    let copy = msg.clone()?;
    let copy: Result<_, _> = Rc::new(alloc, copy);
    match copy {
        Ok(copy) => Ok(copy),
        Err(_) => Err(NoMemory),
    }
}

// This is made ahead from now on.
fn put(ahead: &mut Option<Ahead>, msg: Rc<Msg>, outcome: Outcome)
    ensures { ahead.new ≡ Some (record { msg = msg; outcome = outcome }) }
{
    *ahead = Some(Ahead { msg, outcome });
}

// Takes the room in the outbox for what was made ahead: its answer.
fn make_room(ahead: &Option<Ahead>, outbox: &mut Outbox) -> Result<Handled, NoMemory>
    requires { IsSome ahead.now }
    ensures answer { IfOk result (λ answer. IfSome ahead.now (λ made. made.outcome.answer ≡ answer)) }
    ensures room { OnOk result (IfSome ahead.now (λ made. HasRoomFor outbox.new made.outcome.sends)) }
    ensures succeeds { IfSome ahead.now (λ made. HasRoomFor outbox.old made.outcome.sends) → IsOk result }
    ensures same { HoldsSame outbox.old outbox.new }
{
    match ahead {
        Some(made) => reserve(&made.outcome, outbox),
        None => unreachable!(),
    }
}

fn reserve(made: &Outcome, outbox: &mut Outbox) -> Result<Handled, NoMemory>
    ensures answer { IfOk result (λ answer. made.now.answer ≡ answer) }
    ensures room { OnOk result (HasRoomFor outbox.new made.now.sends) }
    ensures succeeds { HasRoomFor outbox.old made.now.sends → IsOk result }
    ensures same { HoldsSame outbox.old outbox.new }
{
    let sends = &made.sends;
    outbox.reserve(
        sends.messages().len(),
        sends.decided().len(),
        sends.ran().len(),
    )?;
    Ok(made.answer)
}
