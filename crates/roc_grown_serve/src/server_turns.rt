//! The turns of a server's node that may go over to a grown workload.
ghost use Rattle.std.specs.Prelude.{◌≡◌, length};
ghost use Rattle.roc_io.specs.Call.{link_view};
ghost use Rattle.roc_io.specs.Cause.{HasCause};
ghost use Rattle.roc_wire.specs.Fits.{FitsHeader};
ghost use Rattle.roc_grown_node.specs.Setting.{grown_setting_of};
ghost use Rattle.roc_grown_serve.specs.Inner.GrownTurn.{GivesOut, IsReady, RunsTurns, TakesOne, TakesTurn, bare, event_failed, run_failed, turn_failed};

use crate::server_node::{GrownServerNode, TurnOutput, take_datagram, take_silence};
use roc_grown_node::GrownSetting;
use roc_io::{Arrival, Link, send_all};
use std::alloc::Global;

/// What comes of a turn.
#[derive(Clone, Copy)]
pub enum TurnEnd {
    /// The node goes on.
    Goes,
    /// It took a stop.
    Stopped,
    /// No memory.
    NoMemory,
    /// The receive failed.
    LinkFault,
}

// One receive, and what the node makes of it.
fn one_event<L: Link>(
    alloc: Global,
    setting: GrownSetting<'_>,
    server_node: &mut GrownServerNode,
    link: &mut L,
    buffer: &mut Vec<u8>,
) -> Result<TurnOutput, TurnEnd>
    requires ready { IsReady (grown_setting_of setting) server_node.old }
    requires header { FitsHeader setting.header.now }
    requires cluster { length setting.cluster.now ≡ setting.plan.now.program.shards }
    ensures cause { HasCause (event_failed result) (L.faults link.old) (L.faults link.new) }
    ensures takes { TakesOne (grown_setting_of setting.entry) server_node.old server_node.new (link_view L.Link link.old) (link_view L.Link link.new) result }
    ensures ready { IsReady (grown_setting_of setting.entry) server_node.new }
    ensures bound { L.bound link.new ≡ L.bound link.old }
{
    match link.receive(buffer) {
        Arrival::Datagram { from } => {
            match take_datagram(alloc, setting, server_node, from, buffer) {
                Ok(output) => Ok(output),
                Err(_) => Err(TurnEnd::NoMemory),
            }
        }
        Arrival::Quiet => match take_silence(alloc, setting, server_node) {
            Ok(output) => Ok(output),
            Err(_) => Err(TurnEnd::NoMemory),
        },
        Arrival::NoMemory => Err(TurnEnd::NoMemory),
        Arrival::Failed => Err(TurnEnd::LinkFault),
    }
}

// Gives out what the node made of an event.
fn give_out<L: Link>(output: &TurnOutput, link: &mut L) -> TurnEnd
    ensures cause { L.faults link.new ≡ L.faults link.old }
    ensures gives { GivesOut output.now (link_view L.Link link.old) (link_view L.Link link.new) result }
    ensures bound { L.bound link.new ≡ L.bound link.old }
{
    send_all(link, &output.sends);
    if output.stopped {
        TurnEnd::Stopped
    } else {
        TurnEnd::Goes
    }
}

/// One receive, what the node makes of it, and what it sends.
pub fn take_turn<L: Link>(
    alloc: Global,
    setting: GrownSetting<'_>,
    server_node: &mut GrownServerNode,
    link: &mut L,
    buffer: &mut Vec<u8>,
) -> TurnEnd
    requires ready { IsReady (grown_setting_of setting) server_node.old }
    requires header { FitsHeader setting.header.now }
    requires cluster { length setting.cluster.now ≡ setting.plan.now.program.shards }
    ensures cause { HasCause (turn_failed result) (L.faults link.old) (L.faults link.new) }
    ensures takes { TakesTurn (grown_setting_of setting.entry) server_node.old server_node.new (link_view L.Link link.old) (link_view L.Link link.new) result }
    ensures ready { IsReady (grown_setting_of setting.entry) server_node.new }
    ensures bound { L.bound link.new ≡ L.bound link.old }
{
    match one_event(alloc, setting, server_node, link, buffer) {
        Ok(output) => give_out(&output, link),
        Err(end) => end,
    }
}

/// Why a run of turns ended.
#[derive(Clone, Copy)]
pub enum RunEnd {
    /// All turns were taken, or the node was stopped: whether it was.
    Over(bool),
    /// No memory.
    NoMemory,
    /// A receive failed.
    LinkFault,
}

/// Turns, until one stops the node or so many were taken.
pub fn run_turns<L: Link>(
    alloc: Global,
    setting: GrownSetting<'_>,
    server_node: &mut GrownServerNode,
    link: &mut L,
    turns: u32,
) -> RunEnd
    requires ready { IsReady (grown_setting_of setting) server_node.old }
    requires header { FitsHeader setting.header.now }
    requires cluster { length setting.cluster.now ≡ setting.plan.now.program.shards }
    ensures cause { HasCause (run_failed result) (L.faults link.old) (L.faults link.new) }
    ensures runs { RunsTurns (grown_setting_of setting.entry) (bare server_node.old) turns server_node.new (link_view L.Link link.old) (link_view L.Link link.new) result }
    ensures bound { L.bound link.new ≡ L.bound link.old }
{
    let mut buffer = Vec::new(alloc);
    for _ in 0..turns {
        match take_turn(alloc, setting, server_node, link, &mut buffer) {
            TurnEnd::Goes => {}
            TurnEnd::Stopped => return RunEnd::Over(true),
            TurnEnd::NoMemory => return RunEnd::NoMemory,
            TurnEnd::LinkFault => return RunEnd::LinkFault,
        }
    }
    RunEnd::Over(false)
}
