//! What a coordinator keeps of a view that has no reply yet, and what it does for it.
ghost use Rattle.std.specs.Prelude.{◌≡◌, ◌<◌, IfOk, OnOk, OnErr};
ghost use Rattle.roc_msg.specs.Outbox.{HoldsSame, HasSent, KeepsRoom};
ghost use Rattle.roc_readonly.specs.Fits.{IsViewOf};
ghost use Rattle.roc_readonly.specs.Round.{reads_of, reads_again, first_round, last_round, next_round, with_readok, is_fit_readok, readok_refusal, round_of};

use crate::reads::{has_read, read_shard, send_missing};
use crate::rounds::{is_full, is_steady, reply_of};
use roc_base::{NoMemory, Nums, Shard, TxnId};
use roc_msg::{CellVersions, Outbox, Reason};
use roc_plan::Plan;
use roc_sequence::Sequence;
use std::alloc::Global;
use std::mem;

/// The last round that a view may begin.
const LAST_ROUND: u32 = 4_294_967_295;

/// What a group has read in a round.
#[derive(Drop)]
pub struct TakenRead {
    pub group: u16,
    /// The versions of the cells that it reads, in the order in which it reads them.
    pub versions: CellVersions,
    /// What it adds to the reply.
    pub outs: Nums,
}

/// A view without a reply.
#[derive(Drop)]
pub struct View {
    pub id: TxnId,
    pub proc: u16,
    pub args: Nums,
    /// The round under way; the first is 1.
    pub round: u32,
    /// What was taken in the round before; nothing in the first.
    pub last: Sequence<TakenRead>,
    /// What was taken in this round.
    pub got: Sequence<TakenRead>,
}

/// What an answer that was taken makes of the round under way.
#[derive(Drop)]
pub enum Round {
    /// It waits for more answers; or it was the last one, and found no end.
    Waits,
    /// It found what the round before had found: this is the reply.
    Ends(Nums),
    /// The next round is to begin.
    GoesOn,
}

impl View {
    /// A view of which the first round begins.
    pub fn begin(alloc: Global, id: TxnId, proc: u16, args: &[i64]) -> Result<View, NoMemory>
        ensures { IfOk result (λ v. v ≡ first_round id proc args.now) }
    {
        Ok(View {
            id,
            proc,
            args: Nums::from_slice(alloc, args)?,
            round: 1,
            last: Sequence::new(alloc),
            got: Sequence::new(alloc),
        })
    }

    /// Sends all reads of the round under way, in group order. `NoMemory` may leave some sent.
    pub fn send_reads(
        &self,
        alloc: Global,
        plan: &Plan,
        outbox: &mut Outbox,
    ) -> Result<(), NoMemory>
        requires { IsViewOf plan.now self.now }
        ensures { OnOk result (HasSent outbox.old outbox.new (reads_of plan.now self.now)) }
    {
        send_missing(alloc, plan, self, self.round, &[], outbox)
    }

    /// Sends the reads of the round under way again that have no answer, in group order. `NoMemory` may leave some sent.
    pub fn send_again(
        &self,
        alloc: Global,
        plan: &Plan,
        outbox: &mut Outbox,
    ) -> Result<(), NoMemory>
        requires { IsViewOf plan.now self.now }
        ensures { OnOk result (HasSent outbox.old outbox.new (reads_again plan.now self.now)) }
    {
        send_missing(alloc, plan, self, self.round, self.got.as_slice(), outbox)
    }

    /// Why an answer is not taken, if it is not.
    pub fn readok_refusal(
        &self,
        alloc: Global,
        plan: &Plan,
        round: u32,
        ok: &TakenRead,
        shard: Shard,
    ) -> Result<Option<Reason>, NoMemory>
        requires { IsViewOf plan.now self.now }
        ensures { IfOk result (λ reason. reason ≡ readok_refusal plan.now self.now round ok.now shard) }
    {
        if round != self.round {
            Ok(Some(Reason::Stale))
        } else if has_read(self.got.as_slice(), ok.group) {
            Ok(Some(Reason::Stale))
        } else if !is_fit_readok(alloc, plan, self, ok, shard)? {
            Ok(Some(Reason::Unfit))
        } else {
            Ok(None)
        }
    }

    /// Takes an answer of the round under way.
    pub fn take(&mut self, ok: TakenRead) -> Result<(), NoMemory>
        ensures ok { OnOk result (self.new ≡ with_readok self.old ok) }
        ensures err { OnErr result (self.new ≡ self.old) }
    {
        self.got.push(ok)?;
        Ok(())
    }

    /// Takes back the answer that was taken last. Takes no memory.
    pub fn take_back(&mut self, alloc: Global)
        ensures { (v : View) (ok : TakenRead) → self.old ≡ with_readok v ok → self.new ≡ v }
    {
        let mut got = mem::replace(&mut self.got, Sequence::new(alloc)).into_vec();
        got.truncate(got.len().saturating_sub(1));
        self.got = Sequence::from_vec(got);
    }

    /// What the answers that were taken make of the round under way.
    pub fn round(&self, alloc: Global, plan: &Plan) -> Result<Round, NoMemory>
        requires { IsViewOf plan.now self.now }
        ensures round { IfOk result (λ round. round ≡ round_of plan.now self.now) }
        ensures another { IfOk result (λ round. round ≡ Round.GoesOn → self.now.round < last_round) }
    {
        if !is_full(plan, self) {
            Ok(Round::Waits)
        } else if is_steady(plan, self) {
            Ok(Round::Ends(reply_of(alloc, plan, self)?))
        } else if self.round == LAST_ROUND {
            Ok(Round::Waits)
        } else {
            Ok(Round::GoesOn)
        }
    }

    /// Begins the next round, and sends its reads. `NoMemory` leaves all as it was.
    pub fn go_on(&mut self, alloc: Global, plan: &Plan, outbox: &mut Outbox) -> Result<(), NoMemory>
        requires view { IsViewOf plan.now self.old }
        requires another { self.old.round < last_round }
        ensures kept { OnOk result (self.new ≡ next_round self.old) }
        ensures sent { OnOk result (HasSent outbox.old outbox.new (reads_of plan.now (next_round self.old))) }
        ensures err { OnErr result ((self.new ≡ self.old) × HoldsSame outbox.old outbox.new) }
        ensures room { OnOk result (KeepsRoom outbox.old outbox.new) }
    {
        let next = self.round + 1;
        let mut sends = Outbox::new(alloc);
        send_missing(alloc, plan, self, next, &[], &mut sends)?;
        outbox.append(sends)?;
        self.round = next;
        self.last = mem::replace(&mut self.got, Sequence::new(alloc));
        Ok(())
    }
}

// Whether an answer is of a group of the view, asked on this shard, with the plan's counts.
fn is_fit_readok(
    alloc: Global,
    plan: &Plan,
    v: &View,
    ok: &TakenRead,
    shard: Shard,
) -> Result<bool, NoMemory>
    requires { IsViewOf plan.now v.now }
    ensures { IfOk result (λ fit. fit ≡ is_fit_readok plan.now v.now ok.now shard) }
{
    if ok.group >= plan.groups(v.proc) {
        return Ok(false);
    }
    if read_shard(alloc, plan, v, ok.group)? != shard {
        return Ok(false);
    }
    let versions = usize::from(plan.bound(v.proc, ok.group));
    let outs = plan.outs(v.proc, ok.group).len();
    Ok(ok.versions.len() == versions && ok.outs.len() == outs)
}
