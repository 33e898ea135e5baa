//! The turns of a server's node.
ghost use Rattle.std.specs.Prelude.{◌≡◌, Bool, false, List, length, map};
ghost use Rattle.roc_book.specs.Call.{book_view};
ghost use Rattle.roc_io.specs.Call.{link_view};
ghost use Rattle.roc_io.specs.Cause.{HasCause};
ghost use Rattle.roc_io.specs.Link.{sending};
ghost use Rattle.roc_log.specs.declared.line.LogLine.{LogLine};
ghost use Rattle.roc_log.specs.LogLine.{lines_text};
ghost use Rattle.roc_program.specs.Program.{Workload};
ghost use Rattle.roc_msg.specs.declared.outbox.Outgoing.{Outgoing};
ghost use Rattle.roc_wire.specs.Fits.{FitsHeader};
ghost use Rattle.roc_node.specs.Setting.{setting_of};
ghost use Rattle.roc_node_serve.specs.Inner.JournalTurn.{IsOpen, CallsDisk};
ghost use Rattle.roc_node_serve.specs.Inner.LogTurn.{text_for};
ghost use Rattle.roc_node_serve.specs.Inner.ServerTurn.{ComesOfTurns, GivesOut, TakesOne, TakesTurn, event_failed, node_of, run_broke, run_ended_by_journal, run_failed, run_unlogged};
ghost use Rattle.roc_node_serve.specs.Inner.ServerTurn.{turn_failed, turn_of, turn_unlogged};

use crate::logging::put_text;
use crate::server_node::{ServerNode, TurnOutput, take_datagram, take_silence};
use roc_book::Book;
use roc_disk::Disk;
use roc_io::{Arrival, Datagram, Link, Written, send_all};
use roc_kept::KeptFault;
use roc_node::Setting;
use std::alloc::Global;

/// What comes of a turn.
#[derive(Clone, Copy)]
pub enum TurnEnd {
    /// The node goes on.
    Goes,
    /// It took a stop.
    Stopped,
    /// No memory.
    NoMemory,
    /// The receive failed.
    LinkFault,
    /// The journal would be too long.
    Full,
    /// The disk failed.
    Disk,
    /// The book failed at the lines of the event.
    BookFault,
}

// The end of a turn that brought a message that was not taken.
fn turn_of(fault: KeptFault) -> TurnEnd
    ensures { result ≡ turn_of fault }
{
    match fault {
        KeptFault::NoMemory => TurnEnd::NoMemory,
        KeptFault::Full => TurnEnd::Full,
        KeptFault::Disk | KeptFault::Broken => TurnEnd::Disk,
    }
}

// One receive, and what the node makes of it.
fn one_event<L: Link, D: Disk>(
    alloc: Global,
    setting: Setting<'_>,
    server_node: &mut ServerNode,
    link: &mut L,
    buffer: &mut Vec<u8>,
    disk: &mut D,
) -> Result<TurnOutput, TurnEnd>
    requires ready { IsOpen (setting_of setting) server_node.old.server }
    requires header { FitsHeader setting.header.now }
    requires cluster { length setting.cluster.now ≡ setting.plan.now.program.shards }
    ensures cause { HasCause (event_failed result) (L.faults link.old) (L.faults link.new) }
    ensures takes { TakesOne D.Disk disk.old disk.new setting.entry.logs (setting_of setting.entry) server_node.old server_node.new (link_view L.Link link.old) (link_view L.Link link.new) result }
    ensures bound { L.bound link.new ≡ L.bound link.old }
{
    match link.receive(buffer) {
        Arrival::Datagram { from } => {
            match take_datagram(alloc, setting, server_node, from, buffer, disk) {
                Ok(output) => Ok(output),
                Err(fault) => Err(turn_of(fault)),
            }
        }
        Arrival::Quiet => match take_silence(alloc, setting, server_node, disk) {
            Ok(output) => Ok(output),
            Err(_) => Err(TurnEnd::NoMemory),
        },
        Arrival::NoMemory => Err(TurnEnd::NoMemory),
        Arrival::Failed => Err(TurnEnd::LinkFault),
    }
}

// Gives out what the node made of an event: its lines go into the book, and what it sends is sent then.
fn give_out<L: Link, B: Book>(output: &TurnOutput, link: &mut L, book: &mut B) -> TurnEnd
    ensures cause { HasCause (turn_failed result) (L.faults link.old) (L.faults link.new) }
    ensures book_cause { HasCause (turn_unlogged result) (B.faults book.old) (B.faults book.new) }
    ensures gives { (logs : Bool) (program : Workload) (lines : List LogLine) → output.now.log.items ≡ text_for logs program lines
        → GivesOut logs (lines_text program lines) output.now (link_view L.Link link.old) (link_view L.Link link.new) (book_view B.Book book.old) (book_view B.Book book.new) result }
    ensures bound { L.bound link.new ≡ L.bound link.old }
{
    let text: &[u8] = &output.log;
    match put_text(text, book) {
        Written::Failed => return TurnEnd::BookFault,
        Written::Ok => {}
    }
    send_all(link, &output.sends);
    if output.stopped {
        TurnEnd::Stopped
    } else {
        TurnEnd::Goes
    }
}

/// One receive, what the node makes of it, and what it logs and sends.
pub fn take_turn<L: Link, D: Disk, B: Book>(
    alloc: Global,
    setting: Setting<'_>,
    server_node: &mut ServerNode,
    link: &mut L,
    buffer: &mut Vec<u8>,
    disk: &mut D,
    book: &mut B,
) -> TurnEnd
    requires ready { IsOpen (setting_of setting) server_node.old.server }
    requires header { FitsHeader setting.header.now }
    requires cluster { length setting.cluster.now ≡ setting.plan.now.program.shards }
    ensures cause { HasCause (turn_failed result) (L.faults link.old) (L.faults link.new) }
    ensures book_cause { HasCause (turn_unlogged result) (B.faults book.old) (B.faults book.new) }
    ensures takes { TakesTurn D.Disk disk.old disk.new setting.entry.logs (setting_of setting.entry) server_node.old server_node.new (link_view L.Link link.old) (link_view L.Link link.new)
        (book_view B.Book book.old) (book_view B.Book book.new) result }
    ensures bound { L.bound link.new ≡ L.bound link.old }
{
    match one_event(alloc, setting, server_node, link, buffer, disk) {
        Ok(output) => give_out(&output, link, book),
        Err(end) => end,
    }
}

/// Why a run of turns ended.
#[derive(Clone, Copy)]
pub enum RunEnd {
    /// All turns were taken, or the node was stopped: whether it was.
    Over(bool),
    /// No memory.
    NoMemory,
    /// A receive failed.
    LinkFault,
    /// The journal would be too long.
    Full,
    /// The disk failed.
    Disk,
    /// The book failed.
    BookFault,
}

/// What a node is to send before its first turn, and then turns, until one stops the node or so many were taken.
pub fn run_turns<L: Link, D: Disk, B: Book>(
    alloc: Global,
    setting: Setting<'_>,
    server_node: &mut ServerNode,
    sends: &[Datagram],
    link: &mut L,
    turns: u32,
    disk: &mut D,
    book: &mut B,
) -> RunEnd
    requires ready { IsOpen (setting_of setting) server_node.old.server }
    requires header { FitsHeader setting.header.now }
    requires cluster { length setting.cluster.now ≡ setting.plan.now.program.shards }
    ensures cause { HasCause (run_failed result) (L.faults link.old) (L.faults link.new) }
    ensures book_cause { HasCause (run_unlogged result) (B.faults book.old) (B.faults book.new) }
    ensures calls { CallsDisk D.Disk disk.old disk.new server_node.old.server (run_broke result) (run_ended_by_journal result) }
    ensures runs { (messages : List Outgoing) (logged : List LogLine) → ComesOfTurns D.Disk disk.old disk.new setting.entry.logs (setting_of setting.entry)
        (node_of server_node.old messages (map sending sends.now) logged false)
        turns server_node.old.server server_node.new (link_view L.Link link.old) (link_view L.Link link.new) (book_view B.Book book.old) (book_view B.Book book.new) result }
    ensures bound { L.bound link.new ≡ L.bound link.old }
{
    send_all(link, sends);
    let mut buffer = Vec::new(alloc);
    for _ in 0..turns {
        match take_turn(alloc, setting, server_node, link, &mut buffer, disk, book) {
            TurnEnd::Goes => {}
            TurnEnd::Stopped => return RunEnd::Over(true),
            TurnEnd::NoMemory => return RunEnd::NoMemory,
            TurnEnd::LinkFault => return RunEnd::LinkFault,
            TurnEnd::Full => return RunEnd::Full,
            TurnEnd::Disk => return RunEnd::Disk,
            TurnEnd::BookFault => return RunEnd::BookFault,
        }
    }
    RunEnd::Over(false)
}
