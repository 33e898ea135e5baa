//! A server that keeps what it took.
ghost use Rattle.std.specs.Prelude.{◌≡◌, ◌||◌, [], ℕ, List, Option, true, false, None, IfOk, OnOk, OnErr};
ghost use Rattle.roc_io.specs.Cause.{HasCause};
ghost use Rattle.roc_disk.specs.Over.{LeavesOnly};
ghost use Rattle.roc_msg.specs.Outbox.{HasSent, HoldsSame};
ghost use Rattle.roc_wire.specs.Fits.{IsSpellable};
ghost use Rattle.roc_server.specs.Ahead.{ServingFits};
ghost use Rattle.roc_step.specs.Reads.{AnswersReads, ReadStep};
ghost use Rattle.roc_step.specs.Restarts.{is_recorded};
ghost use Rattle.roc_step.specs.State.{ServerStep};
ghost use Rattle.roc_step.specs.Step.{Handles, Shows, tick_sends};
ghost use Rattle.roc_kept.specs.Opening.{opening_failed, LeftByOpening, RefusesRightly};
ghost use Rattle.roc_kept.specs.Kept.{kept_failed, is_broken, answers_full, is_lost, is_too_long, is_untried, KeepsTag, IsFrom, IsKeptOn, IsNewKeeper, RecoversEither, StandsForSome, StopsRecover};

use crate::keeper::{is_lost, keep};
use crate::opening::open_with;
use crate::{Keeper, KeptFault, OpenFault};
use roc_base::Shard;
use roc_disk::Disk;
use roc_msg::{Msg, NodeFault, Outbox};
use roc_plan::Plan;
use roc_server::{Handled, Server};
use roc_step::laws::{records_stand, step_is_one};
use roc_wire::Header;
use std::alloc::Global;

/// A server, and how it keeps what it takes: in a journal, or not at all.
#[derive(Drop)]
pub struct KeptServer {
    pub(crate) server: Server,
    pub(crate) keeper: Option<Keeper>,
}

impl KeptServer {
    /// A server without a journal. Its calls call no disk.
    pub fn unkept(server: Server) -> KeptServer
        ensures server { result.server ≡ server }
        ensures none { result.keeper ≡ None }
    {
        KeptServer {
            server,
            keeper: None,
        }
    }

    /// Opens the journal of a name and gives the server that its records give, without reads that wait. An empty file is made a journal. `Journal`
    /// comes at the first place at which the file is none that a server of this shard made, `Disk` only where the disk's count of failures rose,
    /// and `NoMemory` where there is none for the server or a record. The file may be opened again behind each of them.
    pub fn open<D: Disk>(
        alloc: Global,
        plan: &Plan,
        tag: [u8; 8],
        shard: Shard,
        name: &str,
        disk: &mut D,
    ) -> Result<KeptServer, OpenFault>
        ensures cause { HasCause (opening_failed result) (D.faults disk.old) (D.faults disk.new) }
        ensures told { D.tells disk.new ≡ true → D.tells disk.old ≡ true }
        ensures fits { IfOk result (λ kept. ServingFits plan.now kept.server) }
        ensures fresh { IfOk result (λ kept. IsNewKeeper tag kept.keeper × (kept.server.ahead ≡ None) × (kept.server.viewing.reads ≡ []) × (kept.server.state.shard ≡ shard)) }
        // Also of a disk that tells nothing: some messages that a server took give this.
        ensures stands { IfOk result (λ kept. StandsForSome plan.now shard kept.server.state kept.server.viewing) }
        ensures opened { D.tells disk.new ≡ true → IfOk result (λ kept. IsKeptOn D.Disk disk.new plan.now name.now tag kept.server.state kept.server.viewing kept.keeper
            × IsFrom plan.now tag shard (D.content disk.old name.now) kept.server.state kept.server.viewing) }
        ensures refused { D.tells disk.new ≡ true → RefusesRightly plan.now tag shard (D.content disk.old name.now) result }
        // A stop at any moment of the call leaves what it left before, the same records, or of an empty file one that was never used.
        ensures any_moment { D.tells disk.new ≡ true → LeavesOnly D.Disk disk.old disk.new name.now (LeftByOpening tag (D.content disk.old name.now) (D.may_leave disk.old name.now)) }
    {
        match Server::new(alloc, plan, shard) {
            Err(_) => Err(OpenFault::NoMemory),
            Ok(first) => open_with(alloc, plan, tag, first, name, disk),
        }
    }

    /// What serves, to look at.
    pub fn server(&self) -> &Server
        ensures { result.now ≡ self.now.server }
    {
        &self.server
    }

    /// Takes a message, as [`Server::handle`] does. One that leaves a record is in the journal before it is applied: a stop at any moment of the
    /// call leaves a file that gives the state before the message or behind it, and behind Ok the state behind it. `Broken` comes exactly behind a
    /// call that answered `Disk`, and `Full` exactly where a record is to be left and the file would be too long with it; `Disk` comes only where
    /// the disk's count of failures rose. Each fault leaves the server's state, what it keeps for views and what `outbox` holds, and all but `Disk`
    /// leave the journal too, so the call may be made again.
    pub fn handle<D: Disk>(
        &mut self,
        alloc: Global,
        plan: &Plan,
        header: &Header,
        msg: &Msg,
        outbox: &mut Outbox,
        disk: &mut D,
    ) -> Result<Handled, KeptFault>
        requires fits { ServingFits plan.now self.old.server }
        requires tag { KeepsTag header.now.tag self.old.keeper }
        requires spelling { IsSpellable header.now msg.now }
        ensures step { IfOk result (λ answer. (r : ServerStep) × (q : ReadStep) × Handles plan.now self.old.server.state msg.now r × AnswersReads plan.now self.old.server.viewing msg.now r q
            × Shows r q answer self.new.server.state self.new.server.viewing outbox.old outbox.new) }
        ensures err { OnErr result ((self.new.server.state ≡ self.old.server.state) × (self.new.server.viewing ≡ self.old.server.viewing) × HoldsSame outbox.old outbox.new) }
        ensures fits { ServingFits plan.now self.new.server }
        ensures shard { self.new.server.state.shard ≡ self.old.server.state.shard }
        ensures tag { (tag : List ℕ) → KeepsTag tag self.old.keeper → KeepsTag tag self.new.keeper }
        ensures unkept { self.old.keeper ≡ None → (self.new.keeper ≡ None) × (disk.new ≡ disk.old) × (kept_failed result ≡ false) }
        ensures cause { HasCause (kept_failed result) (D.faults disk.old) (D.faults disk.new) }
        ensures told { D.tells disk.new ≡ true → D.tells disk.old ≡ true }
        ensures broken { is_broken result ≡ is_lost self.old.keeper }
        ensures lost { is_lost self.new.keeper ≡ kept_failed result || is_lost self.old.keeper }
        ensures untried { is_untried result ≡ true → (disk.new ≡ disk.old) × (self.new.keeper ≡ self.old.keeper) }
        ensures untouched { (r : ServerStep) → Handles plan.now self.old.server.state msg.now r → is_recorded msg.now r.answer ≡ false → (disk.new ≡ disk.old) × (self.new.keeper ≡ self.old.keeper) }
        ensures full { answers_full result ≡ true → (is_too_long self.old.keeper (record { header = header.now; msg = msg.now }) ≡ true)
            × ((r : ServerStep) → Handles plan.now self.old.server.state msg.now r → is_recorded msg.now r.answer ≡ true) }
        ensures room { (r : ServerStep) → Handles plan.now self.old.server.state msg.now r → is_recorded msg.now r.answer ≡ true
            → is_too_long self.old.keeper (record { header = header.now; msg = msg.now }) ≡ true → is_untried result ≡ true }
        ensures kept { D.tells disk.new ≡ true → (name tag : List ℕ) → IsKeptOn D.Disk disk.old plan.now name tag self.old.server.state self.old.server.viewing self.old.keeper
            → OnOk result (IsKeptOn D.Disk disk.new plan.now name tag self.new.server.state self.new.server.viewing self.new.keeper) }
        ensures behind { D.tells disk.new ≡ true → (name tag : List ℕ) → IsKeptOn D.Disk disk.old plan.now name tag self.old.server.state self.old.server.viewing self.old.keeper
            → OnOk result (StopsRecover D.Disk disk.new plan.now name tag self.new.server.state self.new.server.viewing) }
        ensures any_moment { D.tells disk.new ≡ true → (name tag : List ℕ) → IsKeptOn D.Disk disk.old plan.now name tag self.old.server.state self.old.server.viewing self.old.keeper
            → LeavesOnly D.Disk disk.old disk.new name (RecoversEither plan.now tag msg.now self.old.server.state self.old.server.viewing) }
    {
        step_is_one();
        records_stand();
        if is_lost(&self.keeper) {
            return Err(KeptFault::Broken);
        }
        match self.server.ready(plan, msg, outbox) {
            Err(NodeFault::NoMemory) => Err(KeptFault::NoMemory),
            Ok(answer) => match keep(alloc, header, msg, answer, &mut self.keeper, disk) {
                Err(fault) => Err(fault),
                Ok(()) => Ok(self.server.take_ready(outbox)),
            },
        }
    }

    /// Sends again what was asked for and is not known yet. It changes nothing and leaves no record, so it calls no disk. `Broken` comes exactly
    /// behind a call that answered `Disk`; `NoMemory` leaves what `outbox` holds. No other fault comes.
    pub fn tick<D: Disk>(&mut self, outbox: &mut Outbox, disk: &mut D) -> Result<(), KeptFault>
        ensures sent { OnOk result (HasSent outbox.old outbox.new (tick_sends self.old.server.state)) }
        ensures same { self.new ≡ self.old }
        ensures untouched { disk.new ≡ disk.old }
        ensures err { OnErr result (HoldsSame outbox.old outbox.new) }
        ensures broken { is_broken result ≡ is_lost self.old.keeper }
        ensures no_disk { (kept_failed result ≡ false) × (answers_full result ≡ false) }
    {
        let _unused = disk;
        if is_lost(&self.keeper) {
            return Err(KeptFault::Broken);
        }
        match self.server.tick(outbox) {
            Ok(()) => Ok(()),
            Err(NodeFault::NoMemory) => Err(KeptFault::NoMemory),
        }
    }
}
