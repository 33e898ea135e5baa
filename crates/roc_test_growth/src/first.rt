//! A run before its first event. All that it takes itself, it takes here.
ghost use Rattle.std.specs.Prelude.{IfOk};
ghost use Rattle.std.specs.List.{AllByRecursion};
ghost use Rattle.roc_coord.specs.Fits.{CoordFits};
ghost use Rattle.roc_server.specs.Ahead.{ServingFits};

use roc_base::{NoMemory, Nums, Shard, TxnId};
use roc_check::{CheckFault, check};
use roc_coord::Coord;
use roc_msg::{Outbox, Outgoing};
use roc_plan::Plan;
use roc_server::Server;
use std::alloc::{AllocError, Global};
use std::process::Abort;

// How many messages a run has room for.
const MESSAGES: usize = 128;

// How many transactions a run has room for.
const TRANSACTIONS: usize = 32;

/// The nodes, what is in their outbox, what was sent before, numbered from 1, and what came of it. The outbox is emptied only where a message of it is to
/// be delivered, so that most calls find something in it.
#[derive(Drop)]
pub(crate) struct Run {
    pub alloc: Global,
    pub servers: Vec<Server>,
    pub coords: Vec<Coord>,
    pub outbox: Outbox,
    pub sent: Vec<Outgoing>,
    pub order: Vec<TxnId>,
    pub replies: Vec<(TxnId, Nums)>,
}

fn first_servers(alloc: Global, plan: &Plan) -> Result<Vec<Server>, NoMemory>
    ensures { IfOk result (λ servers. AllByRecursion (ServingFits plan.now) servers.items) }
{
    let mut servers = Vec::new(alloc);
    for number in 0..plan.workload().shards() {
        servers.push(Server::new(alloc, plan, Shard(number))?)?;
    }
    Ok(servers)
}

fn first_coords(alloc: Global, plan: &Plan, count: u16) -> Result<Vec<Coord>, AllocError>
    ensures { IfOk result (λ coords. AllByRecursion (CoordFits plan.now) coords.items) }
{
    let mut coords = Vec::new(alloc);
    for number in 0..count {
        coords.push(Coord::new(alloc, number))?;
    }
    Ok(coords)
}

/// A run of a plan with so many coordinators.
pub(crate) fn first_run(alloc: Global, plan: &Plan, coords: u16) -> Result<Run, NoMemory>
    ensures servers { IfOk result (λ run. AllByRecursion (ServingFits plan.now) run.servers.items) }
    ensures coords { IfOk result (λ run. AllByRecursion (CoordFits plan.now) run.coords.items) }
{
    let sent = Vec::with_capacity(alloc, MESSAGES)?;
    let order = Vec::with_capacity(alloc, TRANSACTIONS)?;
    let replies = Vec::with_capacity(alloc, TRANSACTIONS)?;
    let coords = first_coords(alloc, plan, coords)?;
    let servers = first_servers(alloc, plan)?;
    Ok(Run {
        alloc,
        servers,
        coords,
        outbox: Outbox::new(alloc),
        sent,
        order,
        replies,
    })
}

/// The plan of a text, unless memory is wanting.
pub(crate) fn plan_of(rt: &impl Abort, alloc: Global, text: &[u8]) -> Option<Plan> {
    match check(alloc, text) {
        Ok(plan) => Some(plan),
        Err(CheckFault::NoMemory) => None,
        Err(_) => panic!(rt; "the text has no plan"),
    }
}
