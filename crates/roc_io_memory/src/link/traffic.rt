// What a link in memory keeps: the addresses bound, the arrivals left, the datagrams sent, and its sends and receives in one order.
ghost use Rattle.std.specs.Prelude.{◌≡◌, ◌≤◌, [], ◌∷◌, Some, false, option_map};
ghost use Rattle.roc_io.specs.Link.{receive_failed, Receives, reception, send_event, receiving, vain};
ghost use Rattle.roc_io.specs.Observed.{Adds, AddsUnless};
ghost use Rattle.roc_io_memory.specs.Link.{unused};

use super::passed::Passed;
use crate::kept::Kept;
use roc_io::{Addr, Arrival, Datagram};
use std::alloc::Global;
use std::marker::Model;

/// The arrivals that are stored, seen as those that are left.
#[derive(Drop)]
struct Arrivals {
    stored: Vec<Datagram>,
    given: usize,
}

impl Model for Arrivals {
    ghost use Rattle.std.specs.Prelude.{List, ◌≤◌, drop, length};
    ghost use Rattle.roc_io.specs.Packet.{Packet};

    ghost Value = { List Packet };

    ghost view = { λ a. drop a.given a.stored.items };

    ghost invariant = { λ a. a.given ≤ length a.stored.items };
}

impl Arrivals {
    fn new(stored: Vec<Datagram>) -> Self
        ensures { result ≡ stored.items }
    {
        Arrivals { stored, given: 0 }
    }

    fn left(&self) -> &[Datagram]
        ensures { result.now ≡ self.now }
    {
        &self.stored[self.given..]
    }

    /// Gives the first that is left; the buffer comes empty.
    fn give(&mut self, into: &mut Vec<u8>) -> Arrival
        requires { into.old.items ≡ [] }
        ensures no_failure { receive_failed result ≡ false }
        ensures arrivals { Receives result (Some self.old) (Some self.new) into.new.items }
    {
        if self.given >= self.stored.len() {
            return Arrival::Quiet;
        }
        let first = &self.stored[self.given];
        let from = first.address();
        if into.extend_from_slice(first.bytes()).is_err() {
            return Arrival::NoMemory;
        }
        self.given += 1;
        Arrival::Datagram { from }
    }
}

/// What a link in memory keeps.
#[derive(Drop)]
pub struct Traffic {
    alloc: Global,
    bound: Kept<Addr>,
    arrivals: Arrivals,
    sent: Kept<Datagram>,
    events: Kept<Passed>,
}

impl Model for Traffic {
    ghost use Rattle.roc_io_memory.specs.Link.{Traffic};

    ghost Value = { Traffic };

    ghost view = { λ t. record { bound = t.bound; arrivals = t.arrivals; sent = t.sent; events = t.events } };
}

impl Traffic {
    pub fn new(alloc: Global, arrivals: Vec<Datagram>) -> Self
        ensures { result ≡ unused arrivals.items }
    {
        Traffic {
            alloc,
            bound: Kept::new(alloc),
            arrivals: Arrivals::new(arrivals),
            sent: Kept::new(alloc),
            events: Kept::new(alloc),
        }
    }

    pub fn bound(&self) -> Option<&[Addr]>
        ensures { option_map (λ bound. bound.now) result ≡ self.now.bound }
    {
        self.bound.items()
    }

    pub fn left(&self) -> &[Datagram]
        ensures { result.now ≡ self.now.arrivals }
    {
        self.arrivals.left()
    }

    pub fn sent(&self) -> Option<&[Datagram]>
        ensures { option_map (λ sent. sent.now) result ≡ self.now.sent }
    {
        self.sent.items()
    }

    pub fn bind(&mut self, addr: Addr)
        ensures bound { Adds self.old.bound self.new.bound (addr ∷ []) }
        ensures arrivals { self.new.arrivals ≡ self.old.arrivals }
        ensures sent { self.new.sent ≡ self.old.sent }
        ensures events { self.new.events ≡ self.old.events }
    {
        self.bound.push(addr);
    }

    /// A send failed or did not.
    pub fn send(&mut self, failed: bool, to: Addr, bytes: &[u8])
        ensures bound { self.new.bound ≡ self.old.bound }
        ensures arrivals { self.new.arrivals ≡ self.old.arrivals }
        ensures sent { AddsUnless failed self.old.sent self.new.sent (record { address = to; bytes = bytes.now }) }
        ensures events { Adds self.old.events self.new.events (send_event failed (record { address = to; bytes = bytes.now }) ∷ []) }
    {
        if !failed {
            let datagram = Datagram::copied(self.alloc, to, bytes);
            self.sent.push_made(datagram);
        }
        let passed = Passed::sent(self.alloc, failed, to, bytes);
        self.events.push_made(passed);
    }

    pub fn give(&mut self, into: &mut Vec<u8>) -> Arrival
        requires { into.old.items ≡ [] }
        ensures no_failure { receive_failed result ≡ false }
        ensures bound { self.new.bound ≡ self.old.bound }
        ensures arrivals { Receives result (Some self.old.arrivals) (Some self.new.arrivals) into.new.items }
        ensures sent { self.new.sent ≡ self.old.sent }
        ensures events { Adds self.old.events self.new.events (receiving (reception result into.new.items) ∷ []) }
    {
        let answer = self.arrivals.give(into);
        let passed = Passed::received(self.alloc, answer, into);
        self.events.push_made(passed);
        answer
    }

    /// A receive failed.
    pub fn give_nothing(&mut self)
        ensures bound { self.new.bound ≡ self.old.bound }
        ensures arrivals { self.new.arrivals ≡ self.old.arrivals }
        ensures sent { self.new.sent ≡ self.old.sent }
        ensures events { Adds self.old.events self.new.events (receiving vain ∷ []) }
    {
        self.events.push(Passed::in_vain());
    }
}
