//! The world.
ghost use Rattle.std.specs.Prelude.{◌≡◌, List, length, IfOk, OnOk};
ghost use Rattle.std.specs.Option.{option_copied};
ghost use Rattle.roc_base.specs.declared.id.TxnId.{TxnId};
ghost use Rattle.roc_law_protocol.specs.Happens.{RanAt};
ghost use Rattle.roc_epoch.specs.Files.{IsNextOf};
ghost use Rattle.roc_growth.specs.Fits.{FitsGrown};
ghost use Rattle.roc_growth.specs.Happens.{Happens};
ghost use Rattle.roc_growth.specs.Quiet.{messages_of};
ghost use Rattle.roc_growth.specs.Run.{AreCoordsOf, IsEventOf};
ghost use Rattle.roc_growth.specs.Witness.{witness_of};
ghost use Rattle.roc_growth.specs.World.{first_grown_world};
ghost use Rattle.roc_world.specs.Reads.{cells_of, files_of, unanswered_of};

use crate::happen::happen;
use crate::network::Network;
use crate::nodes::{first_coords, first_servers};
use crate::parts::Parts;
use crate::reads::{cells_of, unanswered_of};
use crate::witness::witness_of;
use crate::{Event, Seen};
use roc_audit::{Entry, Order};
use roc_base::{NoMemory, TxnId};
use roc_epoch::{File, Next};
use roc_growth::worlds::grown_worlds_fit;
use roc_msg::Envelope;
use roc_plan::Plan;
use roc_rows::Cell;
use roc_sequence::Sequence;
use std::alloc::Global;
use std::marker::Model;

/// All nodes and the network, and what was seen and decided. It keeps its allocator.
#[derive(Drop)]
pub struct World {
    alloc: Global,
    parts: Parts,
}

impl Model for World {
    ghost use Rattle.std.specs.Coded.{codes};
    ghost use Rattle.roc_step.specs.Codes.{coded_state, coded_viewing};
    ghost use Rattle.roc_growth.specs.World.{GrownWorld};

    ghost Value = { GrownWorld };

    ghost coded = { Prim.hlevel (codes, coded_state, coded_viewing) };

    ghost use Rattle.roc_world.specs.Inner.Parts.{world_of};

    ghost view = { λ w. world_of w.parts };
}

impl World {
    /// The first world of a plan with coordinators of the first numbers, as many as the file that comes next is for, where one does: each server holds
    /// the start cells of its places, and nothing was sent. Each node has the file of this plan.
    pub fn new(
        alloc: Global,
        plan: &Plan,
        next: Option<&Next>,
        coords: u16,
    ) -> Result<World, NoMemory>
        requires coords { AreCoordsOf (option_copied next) coords }
        ensures first { IfOk result (λ world. world ≡ first_grown_world plan.now coords) }
        ensures fits { IfOk result (FitsGrown plan.now (option_copied next.entry)) }
    {
        grown_worlds_fit();
        let servers = first_servers(alloc, plan, plan.workload().shards())?;
        let coords = first_coords(alloc, coords)?;
        Ok(World {
            alloc,
            parts: Parts {
                servers,
                coords,
                network: Network::new(alloc),
                history: Sequence::new(alloc),
                order: Order::new(alloc),
                looks: Vec::new(alloc),
            },
        })
    }

    /// An event happens: one node takes a submission, a message of the network, a tick or a drain, or a server stops and starts again, and what is sent goes
    /// into the network, with the file that the node has then. `plan` is the first file's, and `next` the second one, where there is one.
    /// `NoMemory` may leave a part of it done, so that the world is to be thrown away: nothing is promised of it.
    pub fn step(
        &mut self,
        plan: &Plan,
        next: Option<&Next>,
        event: &Event,
    ) -> Result<Seen, NoMemory>
        requires next { IsNextOf plan.now (option_copied next) }
        requires fits { FitsGrown plan.now (option_copied next) self.old }
        requires event { IsEventOf plan.now (option_copied next) self.old event.now }

        // The step that the definitions fix, with what it newly decides, by component and one after another, and what runs.
        ensures step { IfOk result (λ seen. (components : List (List TxnId)) × (decided : List TxnId) × (ran : List RanAt)
            × Happens plan.now (option_copied next.entry) self.old event.now (record { seen = seen; components = components; decided = decided; ran = ran; world = self.new })) }
        ensures fits { OnOk result (FitsGrown plan.now (option_copied next.entry) self.new) }
        ensures coords { OnOk result (length self.new.coords ≡ length self.old.coords) }
    {
        grown_worlds_fit();
        happen(self.alloc, plan, next, &mut self.parts, event)
    }

    /// Every message ever sent; the first has number 1. Takes no memory.
    pub fn sent(&self) -> &[Envelope]
        ensures { result.now ≡ messages_of self.now.sent }
    {
        self.parts.network.sent()
    }

    /// The file of each of them: that of its sender as it was sent. Takes no memory.
    pub fn files(&self) -> &[File]
        ensures { result.now ≡ files_of self.now.sent }
    {
        self.parts.network.files()
    }

    /// The numbers of the messages that were never delivered, rising. Takes no memory.
    pub fn undelivered(&self) -> &[u64]
        ensures { result.now ≡ self.now.undelivered }
    {
        self.parts.network.undelivered()
    }

    /// The accepted submissions and the answers, in the order in which they came. Takes no memory.
    pub fn history(&self) -> &[Entry]
        ensures { result.now ≡ self.now.history }
    {
        self.parts.history.as_slice()
    }

    /// The transactions in the order of their first decision on any server. Takes no memory.
    pub fn order(&self) -> &[TxnId]
        ensures { result.now ≡ self.now.order }
    {
        self.parts.order.as_slice()
    }

    /// The order, with each answered view put in behind as many transactions as it had where the view's last round began; views that began
    /// theirs at one place stand as they began them. It explains the whole history.
    pub fn witness(&self) -> Result<Vec<TxnId>, NoMemory>
        ensures { IfOk result (λ ids. ids.items ≡ witness_of self.now) }
    {
        witness_of(
            self.alloc,
            self.parts.history.as_slice(),
            self.parts.order.as_slice(),
            &self.parts.looks,
        )
    }

    /// The cells that are not 0, each with its number, shard by shard and by cell rising.
    pub fn cells(&self) -> Result<Vec<(Cell, i64)>, NoMemory>
        ensures { IfOk result (λ cells. cells.items ≡ cells_of self.now) }
    {
        cells_of(self.alloc, &self.parts.servers)
    }

    /// The transactions and views without a reply, coordinator by coordinator and by id rising.
    pub fn unanswered(&self) -> Result<Vec<TxnId>, NoMemory>
        ensures { IfOk result (λ ids. ids.items ≡ unanswered_of self.now) }
    {
        unanswered_of(self.alloc, &self.parts.coords)
    }
}
