//! The turns of a coordinator's node.
ghost use Rattle.std.specs.Prelude.{◌≡◌, ◌≤◌, false, Some, length, OnOk};
ghost use Rattle.roc_grown.specs.Fits.{GrownCoordFits};
ghost use Rattle.roc_grown_node.specs.Setting.{grown_setting_of};
ghost use Rattle.roc_grown_submit.specs.Inner.GrownTurn.{HalfSubmits, HalfTakes, PutsOut, TakesOneHalf, due_failed, due_book_failed, half_book_failed, half_link_failed, half_sink_failed, seen};
ghost use Rattle.roc_io.specs.Call.{link_view};
ghost use Rattle.roc_io.specs.Cause.{HasCause};
ghost use Rattle.roc_io.specs.Sink.{write_failed, Takes, WritesPiece};
ghost use Rattle.roc_wire.specs.Fits.{FitsHeader};

use crate::coord_node::{CoordNode, TurnOutput, make_submissions};
use crate::events::{take_datagram, take_silence};
use roc_grown_node::GrownSetting;
use roc_io::{Arrival, Link, Sink, Written, send_all};
use roc_node_submit::SubmitEnd;
use roc_sched::Request;
use std::alloc::Global;

// Writes a text in one piece, unless it is empty.
fn write_text<S: Sink>(out: &mut S, text: &[u8]) -> Written
    ensures cause { HasCause (write_failed result) (S.faults out.old) (S.faults out.new) }
    ensures taken { Takes result (S.taken out.old) (S.taken out.new) text.now }
    ensures pieces { WritesPiece result (S.pieces out.old) (S.pieces out.new) text.now }
{
    if text.is_empty() {
        return Written::Ok;
    }
    out.write(text)
}

// Puts out what is due: onto the sink first, and then over the link, until one fails.
fn put_out<L: Link, S: Sink>(
    output: &TurnOutput,
    link: &mut L,
    out: &mut S,
) -> Result<(), SubmitEnd>
    ensures link_cause { HasCause (half_link_failed result) (L.faults link.old) (L.faults link.new) }
    ensures sink_cause { HasCause (half_sink_failed result) (S.faults out.old) (S.faults out.new) }
    ensures unlogged { half_book_failed result ≡ false }
    ensures puts { PutsOut result output.now (seen L.Link S.Sink link.old out.old) (seen L.Link S.Sink link.new out.new) }
    ensures bound { L.bound link.new ≡ L.bound link.old }
{
    match write_text(out, &output.text) {
        Written::Ok => {
            send_all(link, &output.sends);
            Ok(())
        }
        Written::Failed => Err(SubmitEnd::SinkFault),
    }
}

/// The drain and the submissions before a turn.
pub fn submit_half<L: Link, S: Sink>(
    alloc: Global,
    setting: GrownSetting<'_>,
    coord_node: &mut CoordNode,
    requests: &[Request],
    later: &[Request],
    link: &mut L,
    out: &mut S,
) -> Result<(), SubmitEnd>
    requires fits { GrownCoordFits setting.plan.now (Some setting.next.now) coord_node.old.coord }
    requires header { FitsHeader setting.header.now }
    requires cluster { length setting.cluster.now ≡ setting.plan.now.program.shards }
    requires first { coord_node.old.first ≤ length requests.now }
    requires second { coord_node.old.second ≤ length later.now }
    ensures link_cause { HasCause (half_link_failed result) (L.faults link.old) (L.faults link.new) }
    ensures sink_cause { HasCause (half_sink_failed result) (S.faults out.old) (S.faults out.new) }
    ensures unlogged { half_book_failed result ≡ false }
    ensures submits { HalfSubmits result (grown_setting_of setting.entry) requests.now later.now coord_node.old coord_node.new
        (seen L.Link S.Sink link.old out.old) (seen L.Link S.Sink link.new out.new) }
    ensures fits { GrownCoordFits setting.entry.plan.now (Some setting.entry.next.now) coord_node.new.coord }
    ensures first { OnOk result (coord_node.new.first ≤ length requests.now) }
    ensures second { OnOk result (coord_node.new.second ≤ length later.now) }
    ensures bound { L.bound link.new ≡ L.bound link.old }
{
    match make_submissions(alloc, setting, coord_node, requests, later) {
        Ok(output) => put_out(&output, link, out),
        Err(_) => Err(SubmitEnd::NoMemory),
    }
}

// One receive, and what the core makes of it.
fn one_event<L: Link>(
    alloc: Global,
    setting: GrownSetting<'_>,
    coord_node: &mut CoordNode,
    link: &mut L,
    buffer: &mut Vec<u8>,
) -> Result<TurnOutput, SubmitEnd>
    requires fits { GrownCoordFits setting.plan.now (Some setting.next.now) coord_node.old.coord }
    requires header { FitsHeader setting.header.now }
    requires cluster { length setting.cluster.now ≡ setting.plan.now.program.shards }
    ensures cause { HasCause (due_failed result) (L.faults link.old) (L.faults link.new) }
    ensures unlogged { due_book_failed result ≡ false }
    ensures takes { TakesOneHalf result (grown_setting_of setting.entry) coord_node.old coord_node.new
        (link_view L.Link link.old) (link_view L.Link link.new) }
    ensures fits { GrownCoordFits setting.entry.plan.now (Some setting.entry.next.now) coord_node.new.coord }
    ensures bound { L.bound link.new ≡ L.bound link.old }
{
    match link.receive(buffer) {
        Arrival::Datagram { from: _ } => {
            match take_datagram(alloc, setting, coord_node, buffer) {
                Ok(output) => Ok(output),
                Err(_) => Err(SubmitEnd::NoMemory),
            }
        }
        Arrival::Quiet => match take_silence(alloc, setting, coord_node) {
            Ok(output) => Ok(output),
            Err(_) => Err(SubmitEnd::NoMemory),
        },
        Arrival::NoMemory => Err(SubmitEnd::NoMemory),
        Arrival::Failed => Err(SubmitEnd::LinkFault),
    }
}

/// The receive of a turn, and what the node makes of it.
pub fn take_half<L: Link, S: Sink>(
    alloc: Global,
    setting: GrownSetting<'_>,
    coord_node: &mut CoordNode,
    link: &mut L,
    buffer: &mut Vec<u8>,
    out: &mut S,
) -> Result<(), SubmitEnd>
    requires fits { GrownCoordFits setting.plan.now (Some setting.next.now) coord_node.old.coord }
    requires header { FitsHeader setting.header.now }
    requires cluster { length setting.cluster.now ≡ setting.plan.now.program.shards }
    ensures link_cause { HasCause (half_link_failed result) (L.faults link.old) (L.faults link.new) }
    ensures sink_cause { HasCause (half_sink_failed result) (S.faults out.old) (S.faults out.new) }
    ensures unlogged { half_book_failed result ≡ false }
    ensures takes { HalfTakes result (grown_setting_of setting.entry) coord_node.old coord_node.new
        (seen L.Link S.Sink link.old out.old) (seen L.Link S.Sink link.new out.new) }
    ensures fits { GrownCoordFits setting.entry.plan.now (Some setting.entry.next.now) coord_node.new.coord }
    ensures first { OnOk result (coord_node.new.first ≡ coord_node.old.first) }
    ensures second { OnOk result (coord_node.new.second ≡ coord_node.old.second) }
    ensures bound { L.bound link.new ≡ L.bound link.old }
{
    match one_event(alloc, setting, coord_node, link, buffer) {
        Ok(output) => put_out(&output, link, out),
        Err(end) => Err(end),
    }
}
