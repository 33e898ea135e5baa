//! Calls of a server and of a coordinator that are made once again where memory is wanting. A call that wants memory leaves the outbox.
ghost use Rattle.roc_coord.specs.Fits.{CoordFits};
ghost use Rattle.roc_server.specs.Ahead.{ServingFits};

use roc_base::{Nums, TxnId};
use roc_coord::{Coord, Handled, SubmitFault};
use roc_msg::{Msg, Outbox};
use roc_plan::Plan;
use roc_server::Server;
use std::process::Abort;

// How much an outbox holds of each.
fn lengths(outbox: &Outbox) -> (usize, usize, usize) {
    (
        outbox.messages().len(),
        outbox.decided().len(),
        outbox.ran().len(),
    )
}

// Fails where an outbox holds more or less of each.
fn is_left(rt: &impl Abort, outbox: &Outbox, before: (usize, usize, usize)) {
    assert!(rt; lengths(outbox) == before);
}

/// A call of a procedure is submitted.
pub(crate) fn submit(
    rt: &impl Abort,
    plan: &Plan,
    coord: &mut Coord,
    proc: u16,
    args: &[i64],
    outbox: &mut Outbox,
) -> Result<TxnId, SubmitFault>
    requires fits { CoordFits plan.now coord.old }
    ensures { CoordFits plan.now coord.new }
{
    let before = lengths(outbox);
    match coord.submit(plan, proc, args, outbox) {
        Err(SubmitFault::NoMemory) => {
            is_left(rt, outbox, before);
            coord.submit(plan, proc, args, outbox)
        }
        answer => answer,
    }
}

// A message of a coordinator with an even number is made ahead.
fn is_made_ahead(msg: &Msg) -> bool {
    if let Msg::Ended { coord, .. } = msg {
        return *coord % 2 == 0;
    }
    match msg.id() {
        Some(id) => id.coord % 2 == 0,
        None => false,
    }
}

// Makes a message ahead. The outbox holds the same, and the message cannot want memory then.
fn make_ahead(rt: &impl Abort, plan: &Plan, server: &mut Server, msg: &Msg, outbox: &mut Outbox)
    requires fits { ServingFits plan.now server.old }
    ensures { ServingFits plan.now server.new }
{
    if server.ready(plan, msg, outbox).is_err() {
        assert!(rt; server.ready(plan, msg, outbox).is_ok());
    }
}

/// A message comes to a server.
pub(crate) fn serve(
    rt: &impl Abort,
    plan: &Plan,
    server: &mut Server,
    msg: &Msg,
    outbox: &mut Outbox,
)
    requires fits { ServingFits plan.now server.old }
    ensures { ServingFits plan.now server.new }
{
    let before = lengths(outbox);
    if is_made_ahead(msg) {
        make_ahead(rt, plan, server, msg, outbox);
        is_left(rt, outbox, before);
        assert!(rt; server.handle(plan, msg, outbox).is_ok());
        return;
    }
    if server.handle(plan, msg, outbox).is_err() {
        is_left(rt, outbox, before);
        assert!(rt; server.handle(plan, msg, outbox).is_ok());
    }
}

// The reply that comes of a message.
fn reply_of(handled: Handled) -> Option<(TxnId, Nums)> {
    match handled {
        Handled::Answered { id, reply } => Some((id, reply)),
        Handled::Done | Handled::Ignored(_) => None,
    }
}

/// A message comes to a coordinator. The reply that comes of it.
pub(crate) fn coordinate(
    rt: &impl Abort,
    plan: &Plan,
    coord: &mut Coord,
    msg: &Msg,
    outbox: &mut Outbox,
) -> Option<(TxnId, Nums)>
    requires fits { CoordFits plan.now coord.old }
    ensures { CoordFits plan.now coord.new }
{
    let before = lengths(outbox);
    if let Ok(handled) = coord.handle(plan, msg, outbox) {
        return reply_of(handled);
    }
    is_left(rt, outbox, before);
    let handled = coord.handle(plan, msg, outbox);
    reply_of(handled.expect(rt, "memory for the call made again"))
}

/// Time has passed for a server.
pub(crate) fn tick_server(rt: &impl Abort, plan: &Plan, server: &mut Server, outbox: &mut Outbox)
    requires fits { ServingFits plan.now server.old }
    ensures { ServingFits plan.now server.new }
{
    let before = lengths(outbox);
    if server.tick(outbox).is_err() {
        is_left(rt, outbox, before);
        assert!(rt; server.tick(outbox).is_ok());
    }
}

/// Time has passed for a coordinator.
pub(crate) fn tick_coord(rt: &impl Abort, plan: &Plan, coord: &mut Coord, outbox: &mut Outbox)
    requires fits { CoordFits plan.now coord.old }
    ensures { CoordFits plan.now coord.new }
{
    let before = lengths(outbox);
    if coord.tick(plan, outbox).is_err() {
        is_left(rt, outbox, before);
        assert!(rt; coord.tick(plan, outbox).is_ok());
    }
}
