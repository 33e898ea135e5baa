//! A server that may go over to a grown workload.
ghost use Rattle.std.specs.Prelude.{◌≡◌, false, Some, IfOk, OnOk, OnErr};
ghost use Rattle.std.specs.Option.{option_copied};
ghost use Rattle.roc_epoch.specs.Files.{is_between, is_for};
ghost use Rattle.roc_msg.specs.Outbox.{HasSent, HoldsSame};
ghost use Rattle.roc_plan.specs.Groups.{Plan as Grouped};
ghost use Rattle.roc_rows.specs.Store.{entries};
ghost use Rattle.roc_step.specs.Fits.{AreReadsOf, ServerFits};
ghost use Rattle.roc_grown.specs.Fits.{GrownServerFits};
ghost use Rattle.roc_grown.specs.declared.handled.GrownHandled.TheVariants.{Done as done};
ghost use Rattle.roc_grown.specs.Server.{first_grown_server, switched_sends, gone_over, handled_so, grown_server_tick, restarted, after_drained, told_drained, GrownStep, GrownHandles, ShowsGrown};

use crate::GrownHandled;
use crate::drained::{COORDS, first, have_all_drained, send_one, send_switched, with_drained};
use roc_base::{NoMemory, Shard, TxnId};
use roc_epoch::{File, Next, is_for, own_plan};
use roc_msg::{Msg, NodeFault, Outbox, Reason};
use roc_plan::Plan;
use roc_rows::Cell;
use roc_server::{Handled, Server};
use std::alloc::Global;
use std::marker::Model;

/// The server of a shard, of the first file's plan until it has switched, and of the second one's from then on. It makes nothing ahead.
#[derive(Drop)]
pub struct GrownServer {
    alloc: Global,
    shard: Shard,
    core: Server,
    /// What each coordinator told first as drained, by number.
    drained: [Option<TxnId>; COORDS],
    switched: bool,
}

impl Model for GrownServer {
    ghost use Rattle.std.specs.Prelude.{◌≡◌, None};
    ghost use Rattle.std.specs.Coded.{codes};
    ghost use Rattle.roc_step.specs.Codes.{coded_state, coded_viewing};
    ghost use Rattle.roc_grown.specs.Server.{GrownServerState};

    ghost Value = { GrownServerState };

    ghost coded = { Prim.hlevel (codes, coded_state, coded_viewing) };

    ghost view = { λ s. record { core = s.core.state; viewing = s.core.viewing; drained = s.drained; switched = s.switched } };

    ghost invariant = { λ s. (s.core.ahead ≡ None) × (s.core.state.shard ≡ s.shard) };
}

impl GrownServer {
    /// A server of a shard with the start cells of its places, before any message. It keeps its allocator.
    pub fn new(alloc: Global, plan: &Plan, shard: Shard) -> Result<GrownServer, NoMemory>
        ensures first { IfOk result (λ server. server ≡ first_grown_server plan.now shard) }
    {
        let core = Server::new(alloc, plan, shard)?;
        Ok(GrownServer {
            alloc,
            shard,
            core,
            drained: [None; COORDS],
            switched: false,
        })
    }

    /// Takes a message of a file, finds that it came too late, skips it as one of another file than its own, or ignores it for the first reason that
    /// holds. `plan` is the first file's, and `next` the second one, where there is one. What it sends and what it newly decides is added to `outbox`,
    /// and behind that the answers to reads of views that are free then. `NoMemory` leaves the server and what `outbox` holds as they were, but for
    /// their room, so the same call may be made again.
    pub fn handle(
        &mut self,
        plan: &Plan,
        next: Option<&Next>,
        file: File,
        msg: &Msg,
        outbox: &mut Outbox,
    ) -> Result<GrownHandled, NodeFault>
        requires fits { GrownServerFits plan.now (option_copied next) self.old }
        ensures step { IfOk result (λ answer. (g : GrownStep) × GrownHandles plan.now (option_copied next.entry) self.old file msg.now g
            × ShowsGrown g answer self.new outbox.old outbox.new) }
        ensures err { OnErr result ((self.new ≡ self.old) × HoldsSame outbox.old outbox.new) }
        ensures fits { GrownServerFits plan.now (option_copied next.entry) self.new }
        ensures shard { self.new.core.shard ≡ self.old.core.shard }
    {
        match msg {
            Msg::Drained { upto } => self.take_drained(next, *upto, outbox),
            Msg::Switched { .. } => Ok(GrownHandled::Ignored(Reason::Foreign)),
            _ => self.take_filed(plan, next, file, msg, outbox),
        }
    }

    /// Sends again what was asked for and is not known yet. It changes nothing. `NoMemory` leaves what `outbox` holds, so the same call may be made
    /// again.
    pub fn tick(&mut self, outbox: &mut Outbox) -> Result<(), NodeFault>
        ensures sent { OnOk result (HasSent outbox.old outbox.new (grown_server_tick self.old)) }
        ensures same { self.new ≡ self.old }
        ensures err { OnErr result (HoldsSame outbox.old outbox.new) }
    {
        self.core.tick(outbox)
    }

    /// Gives up what a server does not keep over a stop: the reads of views that wait. What coordinators told as drained stays, and so does its file.
    /// Takes no memory.
    pub fn restart(&mut self)
        ensures { self.new ≡ restarted self.old }
    {
        self.core.restart();
    }

    /// Whether [`GrownServer::handle`] takes notice of a message of a file, and does not skip it. Takes no memory.
    pub fn takes(&self, file: File, msg: &Msg) -> bool
        ensures { result ≡ is_for self.now.switched file msg.now }
    {
        is_for(self.switched, file, msg)
    }

    /// Whether its own file is the second. Takes no memory.
    pub fn switched(&self) -> bool
        ensures { result ≡ self.now.switched }
    {
        self.switched
    }

    /// The cells that are not 0, each with its number, by cell rising.
    pub fn cells(&self) -> Result<Vec<(Cell, i64)>, NoMemory>
        ensures { IfOk result (λ cells. cells.items ≡ entries self.now.core.store) }
    {
        self.core.cells()
    }

    // Takes a drained, which is foreign where nothing comes next, or where it is of none of the first coordinators. `NoMemory` leaves all as it was.
    fn take_drained(
        &mut self,
        next: Option<&Next>,
        upto: TxnId,
        outbox: &mut Outbox,
    ) -> Result<GrownHandled, NodeFault>
        ensures step { IfOk result (λ answer. ShowsGrown (after_drained (option_copied next.entry) self.old upto) answer self.new outbox.old outbox.new) }
        ensures err { OnErr result ((self.new ≡ self.old) × HoldsSame outbox.old outbox.new) }
        ensures fits { (plan : Grouped) → GrownServerFits plan (option_copied next.entry) self.old → GrownServerFits plan (option_copied next.entry) self.new }
        ensures shard { self.new.core.shard ≡ self.old.core.shard }
    {
        match next {
            Some(next) if upto.coord < next.coords => self.hear_drained(next, upto, outbox),
            _ => Ok(GrownHandled::Ignored(Reason::Foreign)),
        }
    }

    // Keeps what a coordinator tells, and goes over once all have told; or tells it again that the server has gone over. `NoMemory` leaves all as it was.
    fn hear_drained(
        &mut self,
        next: &Next,
        upto: TxnId,
        outbox: &mut Outbox,
    ) -> Result<GrownHandled, NodeFault>
        ensures step { IfOk result (λ answer. ShowsGrown (told_drained next.now self.old upto) answer self.new outbox.old outbox.new) }
        ensures err { OnErr result ((self.new ≡ self.old) × HoldsSame outbox.old outbox.new) }
        ensures fits { (plan : Grouped) → GrownServerFits plan (Some next.now) self.old → GrownServerFits plan (Some next.now) self.new }
        ensures shard { self.new.core.shard ≡ self.old.core.shard }
    {
        if self.switched {
            send_one(self.shard, &Some(upto), outbox)?;
            return Ok(GrownHandled::Done);
        }
        let drained = with_drained(upto, &self.drained);
        if have_all_drained(next.coords, &drained) {
            return self.go_over(next.coords, drained, outbox);
        }
        self.drained = drained;
        Ok(GrownHandled::Done)
    }

    // Goes over to the second file with what the coordinators told, and tells each of the first so many what it had told. `NoMemory` leaves all as it was.
    fn go_over(
        &mut self,
        coords: u16,
        drained: [Option<TxnId>; COORDS],
        outbox: &mut Outbox,
    ) -> Result<GrownHandled, NodeFault>
        ensures answer { IfOk result (λ answer. answer ≡ done) }
        ensures state { OnOk result (self.new ≡ gone_over (record self.old { drained = drained })) }
        ensures sent { OnOk result (HasSent outbox.old outbox.new (switched_sends self.old.core.shard coords drained)) }
        ensures err { OnErr result ((self.new ≡ self.old) × HoldsSame outbox.old outbox.new) }
        ensures fits { OnOk result ((plan : Grouped) → ServerFits plan self.new.core × AreReadsOf plan self.new.viewing.reads) }
    {
        let mut sends = Outbox::new(self.alloc);
        send_switched(self.shard, first(coords, &drained), &mut sends)?;
        outbox.append(sends)?;
        self.core.renew();
        self.drained = drained;
        self.switched = true;
        Ok(GrownHandled::Done)
    }

    // Takes a message that is no drained or switched, or skips it. `NoMemory` leaves all as it was.
    fn take_filed(
        &mut self,
        plan: &Plan,
        next: Option<&Next>,
        file: File,
        msg: &Msg,
        outbox: &mut Outbox,
    ) -> Result<GrownHandled, NodeFault>
        requires filed { is_between msg.now ≡ false }
        requires fits { GrownServerFits plan.now (option_copied next) self.old }
        ensures step { IfOk result (λ answer. (g : GrownStep) × GrownHandles plan.now (option_copied next.entry) self.old file msg.now g
            × ShowsGrown g answer self.new outbox.old outbox.new) }
        ensures err { OnErr result ((self.new ≡ self.old) × HoldsSame outbox.old outbox.new) }
        ensures fits { GrownServerFits plan.now (option_copied next.entry) self.new }
        ensures shard { self.new.core.shard ≡ self.old.core.shard }
    {
        if !self.takes(file, msg) {
            return Ok(GrownHandled::Skipped);
        }
        let own = own_plan(plan, next, self.switched);
        let answer = self.core.handle(own, msg, outbox)?;
        Ok(handled_so(answer))
    }
}

// The same answer of a server that may go over.
fn handled_so(answer: Handled) -> GrownHandled
    ensures { result ≡ handled_so answer }
{
    match answer {
        Handled::Done => GrownHandled::Done,
        Handled::Gone => GrownHandled::Gone,
        Handled::Ignored(why) => GrownHandled::Ignored(why),
    }
}
