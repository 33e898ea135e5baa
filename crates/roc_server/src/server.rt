//! The server.
ghost use Rattle.std.specs.Prelude.{◌≡◌, ◌↔◌, ◌+◌, ◌≤◌, List, length, map, None, IsTrue, IsOk, IfOk, OnOk, OnErr};
ghost use Rattle.roc_base.specs.declared.id.TxnId.{TxnId as Id};
ghost use Rattle.roc_depgraph.specs.Deps.{IsDecided};
ghost use Rattle.roc_msg.specs.Outbox.{HasSent, HoldsSame};
ghost use Rattle.roc_step.specs.Asking.{fetch_from};
ghost use Rattle.roc_step.specs.New.{AreDecided};
ghost use Rattle.roc_rows.specs.Store.{entries};
ghost use Rattle.roc_msg.specs.declared.msg.Msg.{Msg as Message};
ghost use Rattle.roc_plan.specs.Groups.{Plan as Groups};
ghost use Rattle.roc_server.specs.Ahead.{HasRoom, HasRoomToTake, IsReady, ServingFits};
ghost use Rattle.roc_step.specs.Below.{is_ended};
ghost use Rattle.roc_step.specs.First.{first_server};
ghost use Rattle.roc_step.specs.Fits.{ServerFits};
ghost use Rattle.roc_step.specs.Reads.{first_viewing, AnswersReads, ReadStep};
ghost use Rattle.roc_step.specs.Renewed.{renewed, renewed_viewing};
ghost use Rattle.roc_step.specs.Restarts.{without_reads};
ghost use Rattle.roc_step.specs.Start.{is_immediate, entries_for, users};
ghost use Rattle.roc_step.specs.State.{ServerStep};
ghost use Rattle.roc_step.specs.Step.{Handles, Shows, tick_sends};
ghost use Rattle.roc_step.specs.Waiting.{waiting_groups};

use crate::ahead::Ahead;
use crate::first::first_rows;
use crate::handling::{let_go, ready, take_ready};
use crate::parts::{ServerParts, renew};
use crate::waiting::all_waiting;
use crate::{Handled, Waiting};
use roc_await::OpenFetch;
use roc_base::{Edges, NoMemory, Shard, Steps, TxnId};
use roc_group::Access;
use roc_msg::{Msg, NodeFault, Outbox};
use roc_plan::{Class, Plan};
use roc_rows::Cell;
use roc_server_groups::{Starting, entries};
use roc_server_news::send_fetches;
use roc_server_reads::{Views, drop_reads};
use std::alloc::Global;
use std::marker::Model;
use std::sync::ledger::Ledger;

/// The server of a shard, as ROCOCO (OSDI 2014, section 3) has it: it buffers a deferrable group
/// until its transaction is decided, and runs what is decided in component order. A read of a read-only
/// transaction waits here, as there, for the transactions that write its cells and are not decided.
#[derive(Drop)]
pub struct Server {
    alloc: Global,
    shard: Shard,
    parts: ServerParts,
    views: Views,
    ahead: Option<Ahead>,
}

impl Model for Server {
    ghost use Rattle.std.specs.Coded.{codes};
    ghost use Rattle.roc_step.specs.Codes.{coded_state, coded_viewing};
    ghost use Rattle.roc_server.specs.State.{Serving};

    ghost Value = { Serving };

    ghost coded = { Prim.hlevel (codes, coded_state, coded_viewing) };

    ghost use Rattle.roc_server.specs.Inner.Held.{serving, CanCount, IsHeld};

    ghost view = { λ s. serving s.shard s.parts s.views s.ahead };

    ghost invariant = { λ s. IsHeld s.parts s.ahead × CanCount s.views s.ahead };
}

impl Server {
    /// A server of a shard with the start cells of its places, before any message. It keeps its
    /// allocator.
    pub fn new(alloc: Global, plan: &Plan, shard: Shard) -> Result<Server, NoMemory>
        ensures first { IfOk result (λ server. server.state ≡ first_server plan.now shard) }
        ensures views { IfOk result (λ server. server.viewing ≡ first_viewing) }
        ensures none { IfOk result (λ server. server.ahead ≡ None) }
        ensures fits { IfOk result (ServingFits plan.now) }
    {
        let rows = first_rows(alloc, plan, shard)?;
        Ok(Server {
            alloc,
            shard,
            parts: ServerParts::new(alloc, rows),
            views: Views::new(alloc),
            ahead: None,
        })
    }

    /// Says what [`Server::handle`] will answer to a message, and takes all memory that it takes, the outbox's too: until the server or
    /// the outbox is given something else, that call cannot want memory, and [`Server::take_ready`] gives out what was made. Nothing that a caller
    /// sees changes. What was made ahead for another message is given up. It succeeds again where the room is there. `NoMemory` leaves the state,
    /// what is kept for views and what `outbox` holds, and nothing is made ahead then.
    pub fn ready(
        &mut self,
        plan: &Plan,
        msg: &Msg,
        outbox: &mut Outbox,
    ) -> Result<Handled, NodeFault>
        requires fits { ServingFits plan.now self.old }
        ensures answer { IfOk result (λ answer. (r : ServerStep) × Handles plan.now self.old.state msg.now r × (r.answer ≡ answer)) }
        ensures ready { OnOk result (IsReady self.new outbox.new msg.now) }
        ensures room { OnOk result (HasRoom self.new outbox.new msg.now) }
        ensures takes { OnOk result (HasRoomToTake self.new outbox.new) }
        ensures again { HasRoom self.old outbox.old msg.now → IsOk result }
        ensures none { OnErr result (self.new.ahead ≡ None) }
        ensures state { self.new.state ≡ self.old.state }
        ensures views { self.new.viewing ≡ self.old.viewing }
        ensures same { HoldsSame outbox.old outbox.new }
        ensures fits { ServingFits plan.now self.new }
    {
        let (alloc, shard) = (self.alloc, self.shard);
        let Ok(handled) = ready(
            alloc,
            plan,
            shard,
            &mut self.parts,
            &mut self.views,
            &mut self.ahead,
            msg,
            outbox,
        ) else {
            return Err(NodeFault::NoMemory);
        };
        Ok(handled)
    }

    /// Takes the message that was made ready, for which there is room in `outbox`. What it sends and what it newly decides is added there, and
    /// behind that the answers to reads of views that are free then. It cannot want memory. Nothing is made ahead then.
    pub fn take_ready(&mut self, outbox: &mut Outbox) -> Handled
        requires room { HasRoomToTake self.old outbox.old }
        ensures step { (plan : Groups) (msg : Message) → ServingFits plan self.old → IsReady self.old outbox.old msg
            → (r : ServerStep) × (q : ReadStep) × Handles plan self.old.state msg r × AnswersReads plan self.old.viewing msg r q
            × Shows r q result self.new.state self.new.viewing outbox.old outbox.new }
        ensures fits { (plan : Groups) → ServingFits plan self.old → ServingFits plan self.new }
        ensures none { self.new.ahead ≡ None }
        ensures shard { self.new.state.shard ≡ self.old.state.shard }
    {
        take_ready(&mut self.parts, &mut self.views, &mut self.ahead, outbox)
    }

    /// Gives up what was made ahead, where something was. Takes no memory.
    pub fn give_up(&mut self)
        ensures state { self.new.state ≡ self.old.state }
        ensures views { self.new.viewing ≡ self.old.viewing }
        ensures none { self.new.ahead ≡ None }
        ensures fits { (plan : Groups) → ServingFits plan self.old → ServingFits plan self.new }
    {
        let_go(&mut self.parts, &mut self.ahead);
    }

    /// Takes a message, finds that it came too late, or ignores it for the first reason that holds. What it sends and what it
    /// newly decides is added to `outbox`, and behind that the answers to reads of views that are free then. `NoMemory` leaves the state,
    /// what is kept for views and what `outbox` holds as they were, so the same call may be made again; it does not come where the room is
    /// there ([`Server::ready`]). Nothing is made ahead then.
    pub fn handle(
        &mut self,
        plan: &Plan,
        msg: &Msg,
        outbox: &mut Outbox,
    ) -> Result<Handled, NodeFault>
        requires fits { ServingFits plan.now self.old }
        ensures step { IfOk result (λ answer. (r : ServerStep) × (q : ReadStep) × Handles plan.now self.old.state msg.now r × AnswersReads plan.now self.old.viewing msg.now r q
            × Shows r q answer self.new.state self.new.viewing outbox.old outbox.new) }
        ensures err { OnErr result ((self.new.state ≡ self.old.state) × (self.new.viewing ≡ self.old.viewing) × HoldsSame outbox.old outbox.new) }
        ensures room { HasRoom self.old outbox.old msg.now → IsOk result }
        ensures none { self.new.ahead ≡ None }
        ensures fits { ServingFits plan.now self.new }
        ensures shard { self.new.state.shard ≡ self.old.state.shard }
    {
        match self.ready(plan, msg, outbox) {
            Ok(_) => Ok(self.take_ready(outbox)),
            Err(fault) => Err(fault),
        }
    }

    /// Sends again what was asked for and is not known yet. It changes nothing. `NoMemory` leaves what `outbox` holds, so the same
    /// call may be made again.
    pub fn tick(&mut self, outbox: &mut Outbox) -> Result<(), NodeFault>
        ensures sent { OnOk result (HasSent outbox.old outbox.new (tick_sends self.old.state)) }
        ensures same { self.new ≡ self.old }
        ensures err { OnErr result (HoldsSame outbox.old outbox.new) }
    {
        match fetch_again(
            self.alloc,
            self.shard,
            self.parts.lists.waits().open(),
            outbox,
        ) {
            Ok(()) => Ok(()),
            Err(NoMemory) => Err(NodeFault::NoMemory),
        }
    }

    /// Gives up what a server does not keep over a stop: the reads of views that wait, and what was made ahead. Takes no memory.
    pub fn restart(&mut self)
        ensures state { self.new.state ≡ self.old.state }
        ensures views { self.new.viewing ≡ without_reads self.old.viewing }
        ensures none { self.new.ahead ≡ None }
    {
        let_go(&mut self.parts, &mut self.ahead);
        drop_reads(&mut self.views);
    }

    /// Gives up all but the cells, how often each was written, and the watermarks: so the server can go on under any plan. Takes no memory.
    pub fn renew(&mut self)
        ensures state { self.new.state ≡ renewed self.old.state }
        ensures views { self.new.viewing ≡ renewed_viewing self.old.viewing }
        ensures none { self.new.ahead ≡ None }
        ensures fits { (plan : Groups) → ServingFits plan self.new }
    {
        let_go(&mut self.parts, &mut self.ahead);
        renew(&mut self.parts);
        drop_reads(&mut self.views);
    }

    /// Whether a transaction is decided here: its dependency list and those of all its ancestors are known, by the entries that are
    /// followed. One that was forgotten is not. Takes no memory.
    pub fn decided(&self, id: TxnId) -> bool
        ensures { IsTrue result ↔ IsDecided self.now.state.lists.links id }
    {
        self.parts.lists.table().is_decided(id)
    }

    /// Whether a transaction is below the highest watermark that was heard of its coordinator, and so was answered there. Takes no memory.
    pub fn ended(&self, id: TxnId) -> bool
        ensures { result ≡ is_ended self.now.state.below id }
    {
        self.parts.lists.is_ended(id)
    }

    /// The entries of a group of this class that would start now and use these cells. A step is one look at a started group. What is
    /// looked at are groups of this class that use one of the cells and whose transactions are not decided, each once for each of the
    /// cells; however many groups have started, no other one is.
    pub fn entries<L: Ledger>(
        &self,
        plan: &Plan,
        id: TxnId,
        class: Class,
        cells: &[Access],
        steps: &mut Steps<L>,
    ) -> Result<Edges, NoMemory>
        requires fits { ServerFits plan.now self.now.state }
        ensures entries { IfOk result (λ edges. (left_out : List Id) → AreDecided self.now.state.lists.links left_out
            → edges ≡ entries_for plan.now left_out self.now.state id (is_immediate class) cells.now) }
        ensures steps { (left_out : List Id) → AreDecided self.now.state.lists.links left_out
            → steps.new ≤ steps.old + length (users plan.now left_out (is_immediate class) cells.now self.now.state.started) }
    {
        let starting = Starting {
            shard: self.shard,
            id,
            immediate: is_immediate(class),
        };
        entries(
            self.alloc,
            plan,
            self.parts.groups.started(),
            self.parts.groups.index(),
            starting,
            cells,
            steps,
        )
    }

    /// The buffered groups of undecided transactions, in order of arrival, each as its transaction and the cells that it uses: what
    /// waits here, for an auditor.
    pub fn waiting(&self, plan: &Plan) -> Result<Vec<Waiting>, NoMemory>
        requires fits { ServerFits plan.now self.now.state }
        ensures { IfOk result (λ groups. (decided : List Id) → AreDecided self.now.state.lists.links decided → groups.items ≡ waiting_groups plan.now decided self.now.state) }
    {
        all_waiting(self.alloc, plan, &self.parts)
    }

    /// The cells that are not 0, each with its number, by cell rising.
    pub fn cells(&self) -> Result<Vec<(Cell, i64)>, NoMemory>
        ensures { IfOk result (λ cells. cells.items ≡ entries self.now.state.store) }
    {
        self.parts.rows.nonzero_saved()
    }
}

// Whether groups of a class are immediate.
fn is_immediate(class: Class) -> bool
    ensures { result ≡ is_immediate class }
{
    class == Class::Immediate
}

// Asks again for these lists, all or none.
fn fetch_again(
    alloc: Global,
    shard: Shard,
    asks: &[OpenFetch],
    outbox: &mut Outbox,
) -> Result<(), NoMemory>
    ensures sent { OnOk result (HasSent outbox.old outbox.new (map (fetch_from shard) asks.now)) }
    ensures err { OnErr result (HoldsSame outbox.old outbox.new) }
{
    let mut sends = Outbox::new(alloc);
    send_fetches(shard, asks, &mut sends)?;
    outbox.append(sends)
}
