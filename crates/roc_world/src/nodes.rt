//! The servers and the coordinators, of which one takes what comes. Behind a step each tells whether it has switched, as that is the file of what it sends.
ghost use Rattle.std.specs.Prelude.{◌≡◌, ◌<◌, false, length, map, IfOk};
ghost use Rattle.std.specs.List.{AllByRecursion, range_with_len};
ghost use Rattle.std.specs.Option.{option_copied};
ghost use Rattle.roc_grown.specs.Fits.{GrownServerFits, GrownCoordFits};
ghost use Rattle.roc_grown.specs.Server.{first_grown_server};
ghost use Rattle.roc_grown.specs.Coord.{first_grown_coord, wants_memory};
ghost use Rattle.roc_world.specs.Inner.Nodes.{answer_of, ServerTakes, CoordTakes, CoordSubmits, CoordDrains, ServerTicks, ServerRestarts, CoordTicks};

use roc_base::{NoMemory, Shard, TxnId};
use roc_epoch::{File, Next};
use roc_grown::{GrownAnswer, GrownCoord, GrownFault, GrownHandled, GrownServer};
use roc_msg::{Msg, Outbox};
use roc_plan::Plan;
use std::alloc::{AllocError, Global};

/// The servers of the first shards, before any message.
pub(crate) fn first_servers(
    alloc: Global,
    plan: &Plan,
    count: u8,
) -> Result<Vec<GrownServer>, NoMemory>
    ensures { IfOk result (λ servers. servers.items ≡ map (λ n. first_grown_server plan.now (record { 0 = n })) (range_with_len 0 count)) }
{
    let mut servers = Vec::new(alloc);
    for number in 0..count {
        servers.push(GrownServer::new(alloc, plan, Shard(number))?)?;
    }
    Ok(servers)
}

/// The first coordinators, before any submission.
pub(crate) fn first_coords(alloc: Global, count: u16) -> Result<Vec<GrownCoord>, AllocError>
    ensures { IfOk result (λ coords. coords.items ≡ map first_grown_coord (range_with_len 0 count)) }
{
    let mut coords = Vec::new(alloc);
    for number in 0..count {
        coords.push(GrownCoord::new(alloc, number))?;
    }
    Ok(coords)
}

/// A message of a file comes to the server of a shard.
pub(crate) fn handle_at_server(
    plan: &Plan,
    next: Option<&Next>,
    servers: &mut Vec<GrownServer>,
    shard: Shard,
    file: File,
    msg: &Msg,
    outbox: &mut Outbox,
) -> Result<(GrownHandled, bool), NoMemory>
    requires exists { shard.0 < length servers.old.items }
    requires fits { AllByRecursion (GrownServerFits plan.now (option_copied next)) servers.old.items }
    ensures { IfOk result (λ taken. ServerTakes plan.now (option_copied next.entry) shard.0 file msg.now taken.0 taken.1 servers.old.items servers.new.items outbox.old outbox.new) }
{
    let server = &mut servers[shard.0 as usize];
    let Ok(handled) = server.handle(plan, next, file, msg, outbox) else {
        return Err(NoMemory);
    };
    Ok((handled, server.switched()))
}

/// A message of a file comes to a coordinator.
pub(crate) fn handle_at_coord(
    plan: &Plan,
    next: Option<&Next>,
    coords: &mut Vec<GrownCoord>,
    number: u16,
    file: File,
    msg: &Msg,
    outbox: &mut Outbox,
) -> Result<(GrownAnswer, bool), NoMemory>
    requires exists { number < length coords.old.items }
    requires fits { AllByRecursion (GrownCoordFits plan.now (option_copied next)) coords.old.items }
    ensures { IfOk result (λ taken. CoordTakes plan.now (option_copied next.entry) number file msg.now taken.0 taken.1 coords.old.items coords.new.items outbox.old outbox.new) }
{
    let coord = &mut coords[number as usize];
    let Ok(answer) = coord.handle(plan, next, file, msg, outbox) else {
        return Err(NoMemory);
    };
    Ok((answer, coord.switched()))
}

/// A transaction or a view is submitted at a coordinator.
pub(crate) fn submit_at(
    plan: &Plan,
    next: Option<&Next>,
    coords: &mut Vec<GrownCoord>,
    number: u16,
    proc: u16,
    args: &[i64],
    outbox: &mut Outbox,
) -> Result<(TxnId, bool), GrownFault>
    requires exists { number < length coords.old.items }
    requires fits { AllByRecursion (GrownCoordFits plan.now (option_copied next)) coords.old.items }
    ensures { wants_memory (answer_of result) ≡ false → CoordSubmits plan.now (option_copied next.entry) number proc args.now result coords.old.items coords.new.items outbox.old outbox.new }
{
    let coord = &mut coords[number as usize];
    match coord.submit(plan, next, proc, args, outbox) {
        Ok(id) => Ok((id, coord.switched())),
        Err(fault) => Err(fault),
    }
}

/// A coordinator is told to drain.
pub(crate) fn drain_at(
    plan: &Plan,
    coords: &mut Vec<GrownCoord>,
    number: u16,
    outbox: &mut Outbox,
) -> Result<bool, NoMemory>
    requires exists { number < length coords.old.items }
    ensures { IfOk result (λ switched. CoordDrains plan.now number switched coords.old.items coords.new.items outbox.old outbox.new) }
{
    let coord = &mut coords[number as usize];
    let Ok(()) = coord.drain(plan, outbox) else {
        return Err(NoMemory);
    };
    Ok(coord.switched())
}

/// Time has passed for the server of a shard.
pub(crate) fn tick_server(
    servers: &mut Vec<GrownServer>,
    shard: Shard,
    outbox: &mut Outbox,
) -> Result<bool, NoMemory>
    requires exists { shard.0 < length servers.old.items }
    ensures { IfOk result (λ switched. ServerTicks shard.0 switched servers.old.items servers.new.items outbox.old outbox.new) }
{
    let server = &mut servers[shard.0 as usize];
    let Ok(()) = server.tick(outbox) else {
        return Err(NoMemory);
    };
    Ok(server.switched())
}

/// The server of a shard starts again.
pub(crate) fn restart_at_server(servers: &mut Vec<GrownServer>, shard: Shard)
    requires exists { shard.0 < length servers.old.items }
    ensures { ServerRestarts shard.0 servers.old.items servers.new.items }
{
    servers[shard.0 as usize].restart();
}

/// Time has passed for a coordinator.
pub(crate) fn tick_coord(
    plan: &Plan,
    next: Option<&Next>,
    coords: &mut Vec<GrownCoord>,
    number: u16,
    outbox: &mut Outbox,
) -> Result<bool, NoMemory>
    requires exists { number < length coords.old.items }
    requires fits { AllByRecursion (GrownCoordFits plan.now (option_copied next)) coords.old.items }
    ensures { IfOk result (λ switched. CoordTicks plan.now (option_copied next.entry) number switched coords.old.items coords.new.items outbox.old outbox.new) }
{
    let coord = &mut coords[number as usize];
    let Ok(()) = coord.tick(plan, next, outbox) else {
        return Err(NoMemory);
    };
    Ok(coord.switched())
}
