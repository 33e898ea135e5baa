//! `fold_log`.
ghost use Rattle.std.specs.Prelude.{◌≡◌, ◌≢◌, ◌+◌, [], true, false, IfOk, drop, length};
ghost use Rattle.roc_base.specs.declared.node.Node.TheVariants as node;
ghost use Rattle.roc_coord.specs.State.{first_coord};
ghost use Rattle.roc_server.specs.Ahead.{ServingFits};
ghost use Rattle.roc_wire.specs.Fits.{FitsHeader};
ghost use Rattle.roc_fold.specs.Fold.{Core, coordinating, first_core, nothing, serving};
ghost use Rattle.roc_fold.specs.Folded.{IsFound, IsFoundOf, header_of};
ghost use Rattle.roc_fold.specs.Inner.Steps.{folding_of};

use crate::due::Gathered;
use crate::told::told;
use crate::{coordinating, serving};
use roc_audit::Entry;
use roc_base::{NoMemory, Node, Shard};
use roc_coord::Coord;
use roc_judge::Folded;
use roc_log::{Log, LogLine};
use roc_msg::Ran;
use roc_plan::Plan;
use roc_sequence::Sequence;
use roc_server::Server;
use roc_wire::Header;
use std::alloc::Global;
use std::mem;

fn nothing(alloc: Global) -> Gathered
    ensures { (core : Core) → folding_of core result ≡ nothing core }
{
    Gathered {
        due: Vec::new(alloc),
        at: 0,
        decided: Sequence::new(alloc),
        ran: Sequence::new(alloc),
    }
}

// The number behind all lines.
fn past(lines: &[LogLine]) -> u64
    ensures { result ≡ 2 + length lines.now }
{
    lines.len() as u64 + 2
}

fn is_due(gathered: &Gathered) -> bool
    ensures due { result ≡ true → drop gathered.now.at gathered.now.due.items ≢ [] }
    ensures none { result ≡ false → drop gathered.now.at gathered.now.due.items ≡ [] }
{
    if gathered.at < gathered.due.len() {
        return true;
    }
    false
}

// What is told, with what was gathered, which is gone then.
fn with_gathered(
    alloc: Global,
    told: Sequence<Entry>,
    gathered: &mut Gathered,
    waits: Sequence<Ran>,
) -> Folded
    ensures { result ≡ record { told = told; decided = gathered.old.decided; ran = gathered.old.ran; waits = waits } }
{
    Folded {
        told,
        decided: mem::replace(&mut gathered.decided, Sequence::new(alloc)),
        ran: mem::replace(&mut gathered.ran, Sequence::new(alloc)),
        waits,
    }
}

// Folds all lines of a server that has taken none.
fn serve_all(
    alloc: Global,
    plan: &Plan,
    header: &Header,
    shard: Shard,
    lines: &[LogLine],
    server: &mut Server,
    gathered: &mut Gathered,
) -> Result<Result<Folded, u64>, NoMemory>
    requires header { FitsHeader header.now }
    requires fits { ServingFits plan.now server.old }
    requires first { serving server.old.state server.old.viewing ≡ first_core plan.now (node.Server shard) }
    requires begins { (core : Core) → folding_of core gathered.old ≡ nothing core }
    ensures { IfOk result (IsFoundOf plan.now header.now (node.Server shard) lines.now) }
{
    if let Some(number) = serving::all(alloc, plan, header, server, gathered, lines)? {
        return Ok(Err(number));
    }
    if is_due(gathered) {
        return Ok(Err(past(lines)));
    }
    let waits = Sequence::from_vec(serving::waiting(alloc, plan, server)?);
    Ok(Ok(with_gathered(alloc, Sequence::new(alloc), gathered, waits)))
}

// Lends the server and what is gathered, so that they are let go in one place.
fn serve(
    alloc: Global,
    plan: &Plan,
    header: &Header,
    shard: Shard,
    lines: &[LogLine],
    server: &mut Server,
) -> Result<Result<Folded, u64>, NoMemory>
    requires header { FitsHeader header.now }
    requires fits { ServingFits plan.now server.old }
    requires first { serving server.old.state server.old.viewing ≡ first_core plan.now (node.Server shard) }
    ensures { IfOk result (IsFoundOf plan.now header.now (node.Server shard) lines.now) }
{
    let mut gathered = nothing(alloc);
    serve_all(alloc, plan, header, shard, lines, server, &mut gathered)
}

fn fold_server(
    alloc: Global,
    plan: &Plan,
    header: &Header,
    shard: Shard,
    lines: &[LogLine],
) -> Result<Result<Folded, u64>, NoMemory>
    requires { FitsHeader header.now }
    ensures { IfOk result (IsFoundOf plan.now header.now (node.Server shard) lines.now) }
{
    let mut server = Server::new(alloc, plan, shard)?;
    serve(alloc, plan, header, shard, lines, &mut server)
}

// Folds all lines of a coordinator that has taken none.
fn coordinate_all(
    alloc: Global,
    plan: &Plan,
    header: &Header,
    number: u16,
    lines: &[LogLine],
    coord: &mut Coord,
    gathered: &mut Gathered,
) -> Result<Result<Folded, u64>, NoMemory>
    requires header { FitsHeader header.now }
    requires first { coord.old ≡ first_coord number }
    requires begins { (core : Core) → folding_of core gathered.old ≡ nothing core }
    ensures { IfOk result (IsFoundOf plan.now header.now (node.Coord number) lines.now) }
{
    if let Some(number) = coordinating::all(alloc, plan, header, coord, gathered, lines)? {
        return Ok(Err(number));
    }
    if is_due(gathered) {
        return Ok(Err(past(lines)));
    }
    let told = told(alloc, number, lines)?;
    Ok(Ok(with_gathered(alloc, told, gathered, Sequence::new(alloc))))
}

// Lends what is gathered, so that it is let go in one place.
fn coordinate(
    alloc: Global,
    plan: &Plan,
    header: &Header,
    number: u16,
    lines: &[LogLine],
    coord: &mut Coord,
) -> Result<Result<Folded, u64>, NoMemory>
    requires header { FitsHeader header.now }
    requires first { coord.old ≡ first_coord number }
    ensures { IfOk result (IsFoundOf plan.now header.now (node.Coord number) lines.now) }
{
    let mut gathered = nothing(alloc);
    coordinate_all(alloc, plan, header, number, lines, coord, &mut gathered)
}

fn fold_coord(
    alloc: Global,
    plan: &Plan,
    header: &Header,
    number: u16,
    lines: &[LogLine],
) -> Result<Result<Folded, u64>, NoMemory>
    requires { FitsHeader header.now }
    ensures { IfOk result (IsFoundOf plan.now header.now (node.Coord number) lines.now) }
{
    let mut coord = Coord::new(alloc, number);
    coordinate(alloc, plan, header, number, lines, &mut coord)
}

/// Folds the lines of a log by the step of its node: what they tell, or the number of the first line that does not stand next, where the
/// first line, which says the node, is line 1; one past the last, where a line is due at the end. That its node made the log, and that the log
/// is whole, is not said.
pub fn fold_log(alloc: Global, plan: &Plan, log: &Log) -> Result<Result<Folded, u64>, NoMemory>
    requires { FitsHeader (header_of log.now) }
    ensures { IfOk result (IsFound plan.now log.now) }
{
    let header = Header {
        tag: log.tag,
        from: log.node,
    };
    match log.node {
        Node::Server(shard) => fold_server(alloc, plan, &header, shard, log.lines.as_slice()),
        Node::Coord(number) => fold_coord(alloc, plan, &header, number, log.lines.as_slice()),
    }
}
