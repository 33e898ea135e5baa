//! A coordinator that may go over to a grown workload.
ghost use Rattle.std.specs.Prelude.{◌≡◌, ◌≤◌, false, true, Option, IfOk, OnOk, OnErr};
ghost use Rattle.std.specs.Option.{option_copied};
ghost use Rattle.roc_sequence.specs.Rising.{IsRising};
ghost use Rattle.roc_base.specs.TxnId.{txn_lt};
ghost use Rattle.roc_msg.specs.Outbox.{HasSent, HoldsSame};
ghost use Rattle.roc_plan.specs.Groups.{Plan as Grouped};
ghost use Rattle.roc_epoch.specs.declared.next.Next.{Next as Second};
ghost use Rattle.roc_epoch.specs.Files.{is_for};
ghost use Rattle.roc_coord.specs.Fits.{CoordFits};
ghost use Rattle.roc_coord.specs.Step.{after_message};
ghost use Rattle.roc_grown.specs.Fits.{GrownCoordFits};
ghost use Rattle.roc_grown.specs.Coord.{first_grown_coord, after_drain, is_answer, tell_if_drained, told_behind, IsDrainStep, after_grown_submit, IsGrownSubmission};
ghost use Rattle.roc_grown.specs.Coord.{wants_memory, handled_so, of_core, after_filed, after_switched, switched_refusal, after_grown_message, IsGrownOutcome, grown_tick_sends};

use crate::told::{has_switched, have_all_switched, send_drained, was_told};
use crate::{GrownAnswer, GrownFault};
use roc_base::{Shard, TxnId};
use roc_coord::{Coord, Handled};
use roc_epoch::{File, Next, is_for, own_file, own_plan};
use roc_msg::{Msg, NodeFault, Outbox, Reason};
use roc_plan::Plan;
use std::alloc::Global;
use std::marker::Model;

/// A coordinator, of the first file's plan until it has switched, and of the second one's from then on.
#[derive(Drop)]
pub struct GrownCoord {
    alloc: Global,
    core: Coord,
    draining: bool,
    /// What its drained told, once one was sent.
    upto: Option<TxnId>,
    /// The shards whose switched was taken, as they came.
    at: Vec<Shard>,
    switched: bool,
}

impl Model for GrownCoord {
    ghost use Rattle.roc_grown.specs.Coord.{GrownCoordState};

    ghost Value = { GrownCoordState };

    ghost view = { λ c. record { core = c.core; draining = c.draining; upto = c.upto; at = c.at.items; switched = c.switched } };
}

impl GrownCoord {
    /// The coordinator of a number, before any submission. Takes no memory.
    pub fn new(alloc: Global, number: u16) -> GrownCoord
        ensures { result ≡ first_grown_coord number }
    {
        GrownCoord {
            alloc,
            core: Coord::new(alloc, number),
            draining: false,
            upto: None,
            at: Vec::new(alloc),
            switched: false,
        }
    }

    /// Takes no submission from now on until it has switched, and tells each shard so where nothing is unanswered. `plan` is the first file's. One that
    /// drains or has switched does nothing. `NoMemory` leaves the coordinator and what `outbox` holds as they were, so the same call may be made again.
    pub fn drain(&mut self, plan: &Plan, outbox: &mut Outbox) -> Result<(), NodeFault>
        ensures step { OnOk result (IsDrainStep (after_drain plan.now self.old) self.new outbox.old outbox.new) }
        ensures err { OnErr result ((self.new ≡ self.old) × HoldsSame outbox.old outbox.new) }
        ensures core { self.new.core ≡ self.old.core }
        ensures switched { self.new.switched ≡ self.old.switched }
    {
        if self.draining || self.switched {
            return Ok(());
        }
        outbox.reserve(usize::from(plan.workload().shards()), 0, 0)?;
        self.draining = true;
        self.tell_if_drained(plan, outbox);
        Ok(())
    }

    /// Submits a transaction or a view to the coordinator of its own file; one that drains refuses it. A refused submission leaves all as it was.
    /// `NoMemory` leaves the coordinator and what `outbox` holds as they were, so the same call may be made again.
    pub fn submit(
        &mut self,
        plan: &Plan,
        next: Option<&Next>,
        proc: u16,
        args: &[i64],
        outbox: &mut Outbox,
    ) -> Result<TxnId, GrownFault>
        requires fits { GrownCoordFits plan.now (option_copied next) self.old }
        ensures step { wants_memory result ≡ false → IsGrownSubmission (after_grown_submit plan.now (option_copied next.entry) self.old proc args.now) result self.new outbox.old outbox.new }
        ensures no_memory { wants_memory result ≡ true → (self.new ≡ self.old) × HoldsSame outbox.old outbox.new }
        ensures fits { GrownCoordFits plan.now (option_copied next.entry) self.new }
    {
        if self.draining {
            return Err(GrownFault::Draining);
        }
        let own = own_plan(plan, next, self.switched);
        match self.core.submit(own, proc, args, outbox) {
            Ok(id) => Ok(id),
            Err(fault) => Err(GrownFault::Plain(fault)),
        }
    }

    /// Takes a message of a file, skips it as one of another file than its own, or ignores it for the first reason that holds. `plan` is the first file's,
    /// and `next` the second one, where there is one. An answer that leaves nothing unanswered, where it drains, is followed by what tells each shard
    /// so. `NoMemory` leaves the coordinator and what `outbox` holds as they were, but for their room, so the same call may be made again.
    pub fn handle(
        &mut self,
        plan: &Plan,
        next: Option<&Next>,
        file: File,
        msg: &Msg,
        outbox: &mut Outbox,
    ) -> Result<GrownAnswer, NodeFault>
        requires fits { GrownCoordFits plan.now (option_copied next) self.old }
        ensures step { IfOk result (λ answer. IsGrownOutcome (after_grown_message plan.now (option_copied next.entry) self.old file msg.now) answer self.new outbox.old outbox.new) }
        ensures err { OnErr result ((self.new ≡ self.old) × HoldsSame outbox.old outbox.new) }
        ensures fits { GrownCoordFits plan.now (option_copied next.entry) self.new }
    {
        match msg {
            Msg::Drained { .. } => Ok(GrownAnswer::Ignored(Reason::Foreign)),
            Msg::Switched { upto, shard } => self.take_switched(plan, *upto, *shard),
            _ => self.take_filed(plan, next, file, msg, outbox),
        }
    }

    /// Sends again what has no answer, and the watermark, as a coordinator of its own file does; and behind these, while it drains, what it told the
    /// shards once nothing was unanswered. It changes nothing. `NoMemory` leaves what `outbox` holds, so the same call may be made again.
    pub fn tick(
        &mut self,
        plan: &Plan,
        next: Option<&Next>,
        outbox: &mut Outbox,
    ) -> Result<(), NodeFault>
        requires fits { GrownCoordFits plan.now (option_copied next) self.old }
        ensures sent { OnOk result (HasSent outbox.old outbox.new (grown_tick_sends plan.now (option_copied next.entry) self.old)) }
        ensures same { self.new ≡ self.old }
        ensures err { OnErr result (HoldsSame outbox.old outbox.new) }
        ensures fits { GrownCoordFits plan.now (option_copied next.entry) self.new }
    {
        let mut sends = Outbox::new(self.alloc);
        self.core
            .tick(own_plan(plan, next, self.switched), &mut sends)?;
        if self.draining {
            if let Some(upto) = self.upto {
                send_drained(plan, upto, &mut sends)?;
            }
        }
        outbox.append(sends)?;
        Ok(())
    }

    /// Whether [`GrownCoord::handle`] takes notice of a message of a file, and does not skip it. Takes no memory.
    pub fn takes(&self, file: File, msg: &Msg) -> bool
        ensures { result ≡ is_for self.now.switched file msg.now }
    {
        is_for(self.switched, file, msg)
    }

    /// The ids of the transactions and views without a reply, rising. Takes no memory.
    pub fn unanswered(&self) -> &[TxnId]
        ensures ids { result.now ≡ self.now.core.unanswered }
        ensures rising { IsRising txn_lt result.now }
    {
        self.core.unanswered()
    }

    /// Whether it has drained and not switched since. Takes no memory.
    pub fn draining(&self) -> bool
        ensures { result ≡ self.now.draining }
    {
        self.draining
    }

    /// Whether its own file is the second. Takes no memory.
    pub fn switched(&self) -> bool
        ensures { result ≡ self.now.switched }
    {
        self.switched
    }

    // Tells each shard that it is drained, where nothing is unanswered.
    fn tell_if_drained(&mut self, plan: &Plan, outbox: &mut Outbox)
        requires draining { self.old.draining ≡ true }
        requires room { plan.now.program.shards ≤ outbox.old.room.messages }
        ensures step { IsDrainStep (tell_if_drained plan.now self.old) self.new outbox.old outbox.new }
        ensures core { self.new.core ≡ self.old.core }
        ensures switched { self.new.switched ≡ self.old.switched }
    {
        if self.core.unanswered().is_empty() {
            let upto = self.core.next_id();
            send_drained(plan, upto, outbox).unwrap();
            self.upto = Some(upto);
        }
    }

    // Tells each shard that it is drained, where an answer leaves nothing unanswered.
    fn tell_behind(&mut self, plan: &Plan, answer: &Handled, outbox: &mut Outbox)
        requires draining { self.old.draining ≡ true }
        requires room { is_answer answer.now ≡ true → plan.now.program.shards ≤ outbox.old.room.messages }
        ensures step { IsDrainStep (told_behind plan.now self.old answer.now) self.new outbox.old outbox.new }
        ensures core { self.new.core ≡ self.old.core }
        ensures switched { self.new.switched ≡ self.old.switched }
    {
        match answer {
            Handled::Answered { .. } => self.tell_if_drained(plan, outbox),
            Handled::Done | Handled::Ignored(_) => (),
        }
    }

    // Why a switched is not taken, if it is not.
    fn switched_refusal(&self, plan: &Plan, upto: TxnId, shard: Shard) -> Option<Reason>
        ensures { result ≡ switched_refusal plan.now self.now upto shard }
    {
        if shard.0 >= plan.workload().shards() || !was_told(upto, self.upto) {
            Some(Reason::Foreign)
        } else if has_switched(self.at.as_slice(), shard) {
            Some(Reason::Stale)
        } else {
            None
        }
    }

    // Takes a switched, and goes over once all shards have told. `NoMemory` leaves all as it was.
    fn take_switched(
        &mut self,
        plan: &Plan,
        upto: TxnId,
        shard: Shard,
    ) -> Result<GrownAnswer, NodeFault>
        ensures answer { IfOk result (λ answer. answer ≡ (after_switched plan.now self.old upto shard).answer) }
        ensures state { OnOk result (self.new ≡ (after_switched plan.now self.old upto shard).state) }
        ensures err { OnErr result (self.new ≡ self.old) }
        ensures fits { (first : Grouped) (next : Option Second) → GrownCoordFits first next self.old → GrownCoordFits first next self.new }
    {
        if let Some(reason) = self.switched_refusal(plan, upto, shard) {
            return Ok(GrownAnswer::Ignored(reason));
        }
        self.at.reserve(1)?;
        self.at.push(shard).unwrap();
        if have_all_switched(plan.workload().shards(), self.at.as_slice()) {
            self.core.renew();
            self.draining = false;
            self.switched = true;
        }
        Ok(GrownAnswer::Done)
    }

    // Takes a message that is no drained or switched, or skips it. `NoMemory` leaves all as it was.
    fn take_filed(
        &mut self,
        plan: &Plan,
        next: Option<&Next>,
        file: File,
        msg: &Msg,
        outbox: &mut Outbox,
    ) -> Result<GrownAnswer, NodeFault>
        requires fits { GrownCoordFits plan.now (option_copied next) self.old }
        ensures step { IfOk result (λ answer. IsGrownOutcome (after_filed plan.now (option_copied next.entry) self.old file msg.now) answer self.new outbox.old outbox.new) }
        ensures err { OnErr result ((self.new ≡ self.old) × HoldsSame outbox.old outbox.new) }
        ensures fits { GrownCoordFits plan.now (option_copied next.entry) self.new }
    {
        if own_file(self.switched) != file {
            return Ok(GrownAnswer::Skipped);
        }
        let own = own_plan(plan, next, self.switched);
        if self.draining {
            self.take_draining(plan, own, msg, outbox)
        } else {
            self.take_plain(plan, own, msg, outbox)
        }
    }

    // Takes a message of its own file, of this plan, where it does not drain. `NoMemory` leaves all as it was.
    fn take_plain(
        &mut self,
        plan: &Plan,
        own: &Plan,
        msg: &Msg,
        outbox: &mut Outbox,
    ) -> Result<GrownAnswer, NodeFault>
        requires plain { self.old.draining ≡ false }
        requires fits { CoordFits own.now self.old.core }
        ensures step { IfOk result (λ answer. IsGrownOutcome (of_core plan.now self.old (after_message own.now self.old.core msg.now)) answer self.new outbox.old outbox.new) }
        ensures err { OnErr result ((self.new ≡ self.old) × HoldsSame outbox.old outbox.new) }
        ensures fits { CoordFits own.now self.new.core }
        ensures switched { self.new.switched ≡ self.old.switched }
    {
        match self.core.handle(own, msg, outbox) {
            Ok(answer) => Ok(handled_so(answer)),
            Err(fault) => Err(fault),
        }
    }

    // The same where it drains. What the message sends leaves the room for what may be told behind it.
    fn take_draining(
        &mut self,
        plan: &Plan,
        own: &Plan,
        msg: &Msg,
        outbox: &mut Outbox,
    ) -> Result<GrownAnswer, NodeFault>
        requires draining { self.old.draining ≡ true }
        requires fits { CoordFits own.now self.old.core }
        ensures step { IfOk result (λ answer. IsGrownOutcome (of_core plan.now self.old (after_message own.now self.old.core msg.now)) answer self.new outbox.old outbox.new) }
        ensures err { OnErr result ((self.new ≡ self.old) × HoldsSame outbox.old outbox.new) }
        ensures fits { CoordFits own.now self.new.core }
        ensures switched { self.new.switched ≡ self.old.switched }
    {
        let told = usize::from(plan.workload().shards());
        let sent = usize::from(own.workload().shards());
        outbox.reserve(sent + told, 0, 0)?;
        match self.core.handle(own, msg, outbox) {
            Ok(answer) => {
                self.tell_behind(plan, &answer, outbox);
                Ok(handled_so(answer))
            }
            Err(fault) => Err(fault),
        }
    }
}

// The same answer of a coordinator that may go over.
fn handled_so(answer: Handled) -> GrownAnswer
    ensures { result ≡ handled_so answer }
{
    match answer {
        Handled::Done => GrownAnswer::Done,
        Handled::Answered { id, reply } => GrownAnswer::Answered { id, reply },
        Handled::Ignored(why) => GrownAnswer::Ignored(why),
    }
}
