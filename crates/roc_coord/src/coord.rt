//! A coordinator: submissions and the answers to its requests.
ghost use Rattle.std.specs.Prelude.{◌≡◌, ◌<◌, true, length, None, IfOk, OnOk, OnErr};
ghost use Rattle.roc_msg.specs.Outbox.{HoldsSame, HasSent, KeepsRoom};
ghost use Rattle.roc_plan.specs.Groups.{procedure_of, is_view_of, Plan as Accepted};
ghost use Rattle.roc_readonly.specs.Fits.{IsViewOf};
ghost use Rattle.roc_readonly.specs.Round.{first_round, reads_of};
ghost use Rattle.roc_coord.specs.State.{first_coord};
ghost use Rattle.roc_sequence.specs.Rising.{IsRising};
ghost use Rattle.roc_base.specs.TxnId.{txn_lt};
ghost use Rattle.roc_coord.specs.Fits.{IsTransactionOf, CoordFits};
ghost use Rattle.roc_coord.specs.Renewed.{renewed_coord};
ghost use Rattle.roc_coord.specs.Starts.{with_starts, starts_of};
ghost use Rattle.roc_coord.specs.Submit.{after_submit, accepted, accepted_view, new_transaction, next_id, refusal_of, unstarted, IsSubmitted, UnlessNoMemory};
ghost use Rattle.roc_coord.specs.Step.{after_message, IsOutcome};
ghost use Rattle.roc_coord.specs.Tick.{tick_sends};

use crate::again::send_all_again;
use crate::ids::{Ids, give};
use crate::pending::{commitok, startok, unread};
use crate::starts::send_starts;
use crate::views::{readok, unasked};
use crate::{Handled, SubmitFault, TakenCommit, TakenStart, Transaction};
use roc_base::{NoMemory, Nums, TxnId};
use roc_msg::{Msg, NodeFault, Outbox, Reason};
use roc_plan::Plan;
use roc_readonly::{TakenRead, View};
use roc_sequence::Sequence;
use std::alloc::Global;
use std::marker::Model;

/// How many transactions and views a coordinator may submit.
const MOST_TRANSACTIONS: u32 = 4_294_967_295;

/// How many of these may be unanswered at a time.
const MOST_PENDING: usize = 16;

/// A coordinator of a plan's transactions, after ROCOCO (OSDI 2014).
#[derive(Drop)]
pub struct Coord {
    alloc: Global,
    ids: Ids,
    /// The transactions without a reply, by id rising.
    pending: Vec<Transaction>,
    /// The views without a reply, by id rising.
    views: Vec<View>,
}

impl Model for Coord {
    ghost use Rattle.roc_coord.specs.State.{CoordState};
    ghost use Rattle.roc_coord.specs.Inner.Kept.{kept_state, AreKept};

    ghost Value = { CoordState };

    ghost view = { λ c. kept_state c.ids c.pending.items c.views.items };

    ghost invariant = { λ c. AreKept c.ids c.pending.items c.views.items };
}

impl Coord {
    /// The coordinator of a number, before any submission. Takes no memory.
    pub fn new(alloc: Global, number: u16) -> Coord
        ensures { result ≡ first_coord number }
    {
        Coord {
            alloc,
            ids: Ids {
                number,
                next: 0,
                unanswered: Vec::new(alloc),
            },
            pending: Vec::new(alloc),
            views: Vec::new(alloc),
        }
    }

    /// Submits a transaction or a view: a call of a procedure with its arguments. It gets the next id, and
    /// the starts of the groups whose inputs are known, or the reads of its first round, go to the outbox. A refused submission
    /// leaves all as it was. `NoMemory` leaves the coordinator and the outbox as they were, but for their room, so that the same call may
    /// be made again.
    pub fn submit(
        &mut self,
        plan: &Plan,
        proc: u16,
        args: &[i64],
        outbox: &mut Outbox,
    ) -> Result<TxnId, SubmitFault>
        requires fits { CoordFits plan.now self.old }
        ensures step { UnlessNoMemory result (IsSubmitted (after_submit plan.now self.old proc args.now) result self.new outbox.old outbox.new) }
        ensures no_memory { result ≡ Err SubmitFault.NoMemory → (self.new ≡ self.old) × HoldsSame outbox.old outbox.new }
        ensures fits { CoordFits plan.now self.new }
    {
        if let Some(fault) = self.refusal(plan, proc, args) {
            return Err(fault);
        }
        match self.accept(plan, proc, args, outbox) {
            Ok(id) => Ok(id),
            Err(NoMemory) => Err(SubmitFault::NoMemory),
        }
    }

    /// Handles a message: what becomes of it, and what goes to the outbox. An answer that brings the watermark to or past a multiple of 64
    /// sends it to each shard. An ignored message leaves all as it was. `NoMemory` leaves the coordinator and the outbox as they were, but for their room, so that the same call may
    /// be made again.
    pub fn handle(
        &mut self,
        plan: &Plan,
        msg: &Msg,
        outbox: &mut Outbox,
    ) -> Result<Handled, NodeFault>
        requires fits { CoordFits plan.now self.old }
        ensures step { IfOk result (λ answer. IsOutcome (after_message plan.now self.old msg.now) answer self.new outbox.old outbox.new) }
        ensures err { OnErr result ((self.new ≡ self.old) × HoldsSame outbox.old outbox.new) }
        ensures room { OnOk result (KeepsRoom outbox.old outbox.new) }
        ensures fits { CoordFits plan.now self.new }
    {
        match self.take(plan, msg, outbox) {
            Ok(answer) => Ok(answer),
            Err(NoMemory) => Err(NodeFault::NoMemory),
        }
    }

    /// Sends again, for each id without a reply, rising, the starts without a startok, or the commits without a commitok, or the reads of its
    /// round without a readok; and behind these the watermark to each shard, where it is not 0. It changes nothing. `NoMemory` leaves the outbox as it was, but for its room, so that the same call may be made again.
    pub fn tick(&mut self, plan: &Plan, outbox: &mut Outbox) -> Result<(), NodeFault>
        requires { CoordFits plan.now self.old }
        ensures sent { OnOk result (HasSent outbox.old outbox.new (tick_sends plan.now self.old)) }
        ensures same { self.new ≡ self.old }
        ensures err { OnErr result (HoldsSame outbox.old outbox.new) }
        ensures fits { CoordFits plan.now self.new }
    {
        let pending = self.pending.as_slice();
        let views = self.views.as_slice();
        match send_all_again(self.alloc, plan, &self.ids, pending, views, outbox) {
            Ok(()) => Ok(()),
            Err(NoMemory) => Err(NodeFault::NoMemory),
        }
    }

    /// The ids of the transactions and views without a reply, rising. Takes no memory.
    pub fn unanswered(&self) -> &[TxnId]
        ensures ids { result.now ≡ self.now.unanswered }
        ensures rising { IsRising txn_lt result.now }
    {
        self.ids.unanswered.as_slice()
    }

    /// The id that is given next. Takes no memory.
    pub fn next_id(&self) -> TxnId
        ensures { result ≡ next_id self.now }
    {
        next_id(&self.ids)
    }

    /// Keeps the number and the next sequence, and drops all else, so that any plan may be gone on with. Takes no memory.
    pub fn renew(&mut self)
        ensures state { self.new ≡ renewed_coord self.old }
        ensures fits { (plan : Accepted) → CoordFits plan self.new }
    {
        self.ids.unanswered.clear();
        self.pending.clear();
        self.views.clear();
    }

    // Why a submission is refused, if it is.
    fn refusal(&self, plan: &Plan, proc: u16, args: &[i64]) -> Option<SubmitFault>
        ensures { result ≡ refusal_of plan.now self.now proc args.now }
    {
        if proc >= plan.procedures() {
            Some(SubmitFault::NoProc)
        } else if args.len() != usize::from(plan.args(proc)) {
            Some(SubmitFault::Args)
        } else if self.ids.next >= MOST_TRANSACTIONS {
            Some(SubmitFault::Spent)
        } else if self.ids.unanswered.len() >= MOST_PENDING {
            Some(SubmitFault::Busy)
        } else {
            None
        }
    }

    // Accepts a submission. `NoMemory` leaves all as it was.
    fn accept(
        &mut self,
        plan: &Plan,
        proc: u16,
        args: &[i64],
        outbox: &mut Outbox,
    ) -> Result<TxnId, NoMemory>
        requires fits { CoordFits plan.now self.old }
        requires accepted { refusal_of plan.now self.old proc args.now ≡ None }
        ensures step { IfOk result (λ id. IsSubmitted (after_submit plan.now self.old proc args.now) (Ok id) self.new outbox.old outbox.new) }
        ensures err { OnErr result ((self.new ≡ self.old) × HoldsSame outbox.old outbox.new) }
        ensures fits { CoordFits plan.now self.new }
    {
        if plan.is_view(proc) {
            self.accept_view(plan, proc, args, outbox)
        } else {
            self.accept_transaction(plan, proc, args, outbox)
        }
    }

    // Accepts a submission of a transaction. `NoMemory` leaves all as it was.
    fn accept_transaction(
        &mut self,
        plan: &Plan,
        proc: u16,
        args: &[i64],
        outbox: &mut Outbox,
    ) -> Result<TxnId, NoMemory>
        requires fits { CoordFits plan.now self.old }
        requires accepted { refusal_of plan.now self.old proc args.now ≡ None }
        ensures step { IfOk result (λ id. IsSubmitted (accepted plan.now self.old (new_transaction self.old proc args.now)) (Ok id) self.new outbox.old outbox.new) }
        ensures err { OnErr result ((self.new ≡ self.old) × HoldsSame outbox.old outbox.new) }
        ensures fits { CoordFits plan.now self.new }
    {
        let id = next_id(&self.ids);
        let mut sends = Outbox::new(self.alloc);
        let x = started(self.alloc, plan, id, proc, args, &mut sends)?;
        give(&mut self.ids, id, &mut self.pending, x, sends, outbox)?;
        Ok(id)
    }

    // Accepts a submission of a view. `NoMemory` leaves all as it was.
    fn accept_view(
        &mut self,
        plan: &Plan,
        proc: u16,
        args: &[i64],
        outbox: &mut Outbox,
    ) -> Result<TxnId, NoMemory>
        requires fits { CoordFits plan.now self.old }
        requires accepted { refusal_of plan.now self.old proc args.now ≡ None }
        requires is_view { is_view_of plan.now proc ≡ true }
        ensures step { IfOk result (λ id. IsSubmitted (accepted_view plan.now self.old (first_round (next_id self.old) proc args.now)) (Ok id) self.new outbox.old outbox.new) }
        ensures err { OnErr result ((self.new ≡ self.old) × HoldsSame outbox.old outbox.new) }
        ensures fits { CoordFits plan.now self.new }
    {
        let id = next_id(&self.ids);
        let mut sends = Outbox::new(self.alloc);
        let v = begun(self.alloc, plan, id, proc, args, &mut sends)?;
        give(&mut self.ids, id, &mut self.views, v, sends, outbox)?;
        Ok(id)
    }

    // Takes a message, or ignores it. `NoMemory` leaves all as it was.
    fn take(&mut self, plan: &Plan, msg: &Msg, outbox: &mut Outbox) -> Result<Handled, NoMemory>
        requires fits { CoordFits plan.now self.old }
        ensures step { IfOk result (λ answer. IsOutcome (after_message plan.now self.old msg.now) answer self.new outbox.old outbox.new) }
        ensures err { OnErr result ((self.new ≡ self.old) × HoldsSame outbox.old outbox.new) }
        ensures room { OnOk result (KeepsRoom outbox.old outbox.new) }
        ensures fits { CoordFits plan.now self.new }
    {
        match msg {
            Msg::StartOk {
                id,
                group,
                shard,
                bound,
                outs,
                edges,
                facts,
            } => {
                let ok = TakenStart {
                    group: *group,
                    bound: bound.clone()?,
                    outs: outs.clone()?,
                    edges: edges.clone()?,
                    facts: facts.clone()?,
                };
                let absent = unasked(self.views.as_slice(), *id);
                startok(
                    self.alloc,
                    plan,
                    &mut self.pending,
                    absent,
                    *id,
                    ok,
                    *shard,
                    outbox,
                )
            }
            Msg::CommitOk { id, shard, outs } => {
                let ok = TakenCommit {
                    shard: *shard,
                    outs: outs.clone()?,
                };
                let absent = unasked(self.views.as_slice(), *id);
                commitok(
                    self.alloc,
                    plan,
                    &mut self.ids,
                    &mut self.pending,
                    absent,
                    *id,
                    ok,
                    outbox,
                )
            }
            Msg::ReadOk {
                id,
                round,
                group,
                shard,
                versions,
                outs,
            } => {
                let ok = TakenRead {
                    group: *group,
                    versions: versions.clone()?,
                    outs: outs.clone()?,
                };
                let absent = unread(self.pending.as_slice(), *id);
                readok(
                    self.alloc,
                    plan,
                    &mut self.ids,
                    &mut self.views,
                    absent,
                    *id,
                    *round,
                    ok,
                    *shard,
                    outbox,
                )
            }
            _ => Ok(Handled::Ignored(Reason::Foreign)),
        }
    }
}

// A new transaction, with the starts of its ready groups sent.
fn started(
    alloc: Global,
    plan: &Plan,
    id: TxnId,
    proc: u16,
    args: &[i64],
    outbox: &mut Outbox,
) -> Result<Transaction, NoMemory>
    requires proc { proc < length plan.now.program.procedures }
    requires args { length args.now ≡ (procedure_of plan.now proc).arguments }
    ensures kept { IfOk result (λ x. x ≡ with_starts plan.now (unstarted id proc args.now)) }
    ensures sent { OnOk result (HasSent outbox.old outbox.new (starts_of plan.now (unstarted id proc args.now))) }
    ensures fits { IfOk result (IsTransactionOf plan.now) }
{
    let mut x = Transaction {
        id,
        proc,
        args: Nums::from_slice(alloc, args)?,
        starts: Sequence::new(alloc),
        startoks: Sequence::new(alloc),
        asked: Sequence::new(alloc),
        commitoks: Sequence::new(alloc),
    };
    send_starts(alloc, plan, &mut x, outbox)?;
    Ok(x)
}

// A new view, with the reads of its first round sent.
fn begun(
    alloc: Global,
    plan: &Plan,
    id: TxnId,
    proc: u16,
    args: &[i64],
    outbox: &mut Outbox,
) -> Result<View, NoMemory>
    requires is_view { is_view_of plan.now proc ≡ true }
    requires args { length args.now ≡ (procedure_of plan.now proc).arguments }
    ensures kept { IfOk result (λ v. v ≡ first_round id proc args.now) }
    ensures sent { OnOk result (HasSent outbox.old outbox.new (reads_of plan.now (first_round id proc args.now))) }
    ensures fits { IfOk result (IsViewOf plan.now) }
{
    let v = View::begin(alloc, id, proc, args)?;
    v.send_reads(alloc, plan, outbox)?;
    Ok(v)
}

// The id that is given next.
fn next_id(ids: &Ids) -> TxnId
    ensures { result ≡ record { coord = ids.now.number; seq = ids.now.next } }
{
    TxnId {
        coord: ids.number,
        seq: ids.next,
    }
}
