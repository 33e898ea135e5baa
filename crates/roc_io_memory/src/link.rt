// Links in memory.
ghost use Rattle.std.specs.Prelude.{◌≡◌, [], ◌∷◌, Some, true, false, option_map};
ghost use Rattle.roc_io_memory.specs.Calls.{calls_failing, next_fails, called};
ghost use Rattle.roc_io.specs.Cause.{HasCause};
ghost use Rattle.roc_io.specs.Link.{bind_failed, send_failed, send_event, receive_failed, Receives, reception, receiving};
ghost use Rattle.roc_io_memory.specs.Link.{unused};
ghost use Rattle.roc_io.specs.Observed.{Adds, AddsUnless};

mod passed;
mod traffic;

use crate::calls::Calls;
use roc_io::{Addr, Arrival, Bound, Datagram, Link, Sent};
use std::alloc::Global;
use std::marker::Model;
use traffic::Traffic;

/// A link that gives stored arrivals and then Quiet for ever, keeps what is bound and sent, and fails at
/// the calls that it was told to fail at.
///
/// Once there is no memory to keep an address, a datagram that is sent, or a send or receive in their order, the
/// link tells no addresses, no datagrams sent, or no order any more; what it answers does not change by that.
#[derive(Drop)]
pub struct MemLink {
    traffic: Traffic,
    calls: Calls,
    sends: Calls,
}

impl Model for MemLink {
    ghost use Rattle.roc_io_memory.specs.Link.{LinkState};

    ghost Value = { LinkState };

    ghost view = { λ l. record { traffic = l.traffic; calls = l.calls; sends = l.sends } };
}

impl MemLink {
    /// A link with these arrivals. Of its binds and receives, numbered together from 1, those in `failing`
    /// are to fail; of its sends, numbered from 1, those in `losing`.
    pub fn new(alloc: Global, arrivals: Vec<Datagram>, failing: Vec<u64>, losing: Vec<u64>) -> Self
        ensures { result ≡ record {
          traffic = unused arrivals.items;
          calls = calls_failing failing.items;
          sends = calls_failing losing.items;
        } }
    {
        MemLink {
            traffic: Traffic::new(alloc, arrivals),
            calls: Calls::new(failing),
            sends: Calls::new(losing),
        }
    }

    /// The addresses bound, in order, where they are told.
    pub fn bound(&self) -> Option<&[Addr]>
        ensures { option_map (λ bound. bound.now) result ≡ self.now.traffic.bound }
    {
        self.traffic.bound()
    }

    /// The arrivals that are left.
    pub fn left(&self) -> &[Datagram]
        ensures { result.now ≡ self.now.traffic.arrivals }
    {
        self.traffic.left()
    }

    /// The datagrams sent, in order, where they are told.
    pub fn sent(&self) -> Option<&[Datagram]>
        ensures { option_map (λ sent. sent.now) result ≡ self.now.traffic.sent }
    {
        self.traffic.sent()
    }
}

impl Link for MemLink {
    ghost faults = { λ l. l.calls.faults };

    ghost lost = { λ l. l.sends.faults };

    ghost bound = { λ l. l.traffic.bound };

    ghost arrivals = { λ l. Some l.traffic.arrivals };

    ghost sent = { λ l. l.traffic.sent };

    ghost events = { λ l. l.traffic.events };

    fn bind(&mut self, addr: Addr) -> Bound
        ensures cause { HasCause (bind_failed result) self.old.calls.faults self.new.calls.faults }
        ensures bound { AddsUnless (bind_failed result) self.old.traffic.bound self.new.traffic.bound addr }
        ensures arrivals { Some self.new.traffic.arrivals ≡ Some self.old.traffic.arrivals }
        ensures sent { self.new.traffic.sent ≡ self.old.traffic.sent }
        ensures events { self.new.traffic.events ≡ self.old.traffic.events }
        ensures failed { bind_failed result ≡ next_fails false self.old.calls }
        ensures calls { self.new.calls ≡ called false self.old.calls }
        ensures sends { self.new.sends ≡ self.old.sends }
    {
        if self.calls.next_fails(false) {
            Bound::Failed
        } else {
            self.traffic.bind(addr);
            Bound::Ok
        }
    }

    fn send(&mut self, to: Addr, bytes: &[u8]) -> Sent
        ensures cause { HasCause (send_failed result) self.old.sends.faults self.new.sends.faults }
        ensures bound { self.new.traffic.bound ≡ self.old.traffic.bound }
        ensures arrivals { Some self.new.traffic.arrivals ≡ Some self.old.traffic.arrivals }
        ensures sent { AddsUnless (send_failed result) self.old.traffic.sent self.new.traffic.sent (record { address = to; bytes = bytes.now }) }
        ensures events { Adds self.old.traffic.events self.new.traffic.events (send_event (send_failed result) (record { address = to; bytes = bytes.now }) ∷ []) }
        ensures failed { send_failed result ≡ next_fails false self.old.sends }
        ensures calls { self.new.calls ≡ self.old.calls }
        ensures sends { self.new.sends ≡ called false self.old.sends }
    {
        if self.sends.next_fails(false) {
            self.traffic.send(true, to, bytes);
            Sent::Failed
        } else {
            self.traffic.send(false, to, bytes);
            Sent::Ok
        }
    }

    fn receive(&mut self, into: &mut Vec<u8>) -> Arrival
        ensures cause { HasCause (receive_failed result) self.old.calls.faults self.new.calls.faults }
        ensures bound { self.new.traffic.bound ≡ self.old.traffic.bound }
        ensures arrivals { Receives result (Some self.old.traffic.arrivals) (Some self.new.traffic.arrivals) into.new.items }
        ensures sent { self.new.traffic.sent ≡ self.old.traffic.sent }
        ensures events { Adds self.old.traffic.events self.new.traffic.events (receiving (reception result into.new.items) ∷ []) }
        ensures failed { receive_failed result ≡ next_fails false self.old.calls }
        ensures calls { self.new.calls ≡ called false self.old.calls }
        ensures sends { self.new.sends ≡ self.old.sends }
    {
        into.clear();
        if self.calls.next_fails(false) {
            self.traffic.give_nothing();
            Arrival::Failed
        } else {
            self.traffic.give(into)
        }
    }

    fn faults(&self) -> u64 {
        self.calls.faults()
    }

    fn lost(&self) -> u64 {
        self.sends.faults()
    }
}

/// A link that gives stored arrivals and then Quiet for ever, keeps what is bound and sent, and never fails.
///
/// Once there is no memory to keep an address, a datagram that is sent, or a send or receive in their order, it
/// tells no addresses, no datagrams sent, or no order any more, and goes on to answer as before.
#[derive(Drop)]
pub struct CalmLink {
    traffic: Traffic,
}

impl Model for CalmLink {
    ghost use Rattle.roc_io_memory.specs.Link.{Traffic};

    ghost Value = { Traffic };

    ghost view = { λ l. l.traffic };
}

impl CalmLink {
    /// A link with these arrivals.
    pub fn new(alloc: Global, arrivals: Vec<Datagram>) -> Self
        ensures { result ≡ unused arrivals.items }
    {
        CalmLink {
            traffic: Traffic::new(alloc, arrivals),
        }
    }

    /// The addresses bound, in order, where they are told.
    pub fn bound(&self) -> Option<&[Addr]>
        ensures { option_map (λ bound. bound.now) result ≡ self.now.bound }
    {
        self.traffic.bound()
    }

    /// The arrivals that are left.
    pub fn left(&self) -> &[Datagram]
        ensures { result.now ≡ self.now.arrivals }
    {
        self.traffic.left()
    }

    /// The datagrams sent, in order, where they are told.
    pub fn sent(&self) -> Option<&[Datagram]>
        ensures { option_map (λ sent. sent.now) result ≡ self.now.sent }
    {
        self.traffic.sent()
    }
}

impl Link for CalmLink {
    ghost faults = { λ _. 0 };

    ghost lost = { λ _. 0 };

    ghost bound = { λ l. l.bound };

    ghost arrivals = { λ l. Some l.arrivals };

    ghost sent = { λ l. l.sent };

    ghost events = { λ l. l.events };

    fn bind(&mut self, addr: Addr) -> Bound
        ensures bound { AddsUnless (bind_failed result) self.old.bound self.new.bound addr }
        ensures arrivals { Some self.new.arrivals ≡ Some self.old.arrivals }
        ensures sent { self.new.sent ≡ self.old.sent }
        ensures events { self.new.events ≡ self.old.events }
        ensures never_fails { result ≡ Bound.Ok }
    {
        self.traffic.bind(addr);
        Bound::Ok
    }

    fn send(&mut self, to: Addr, bytes: &[u8]) -> Sent
        ensures bound { self.new.bound ≡ self.old.bound }
        ensures arrivals { Some self.new.arrivals ≡ Some self.old.arrivals }
        ensures sent { AddsUnless (send_failed result) self.old.sent self.new.sent (record { address = to; bytes = bytes.now }) }
        ensures events { Adds self.old.events self.new.events (send_event (send_failed result) (record { address = to; bytes = bytes.now }) ∷ []) }
        ensures never_fails { result ≡ Sent.Ok }
    {
        self.traffic.send(false, to, bytes);
        Sent::Ok
    }

    fn receive(&mut self, into: &mut Vec<u8>) -> Arrival
        ensures bound { self.new.bound ≡ self.old.bound }
        ensures arrivals { Receives result (Some self.old.arrivals) (Some self.new.arrivals) into.new.items }
        ensures sent { self.new.sent ≡ self.old.sent }
        ensures events { Adds self.old.events self.new.events (receiving (reception result into.new.items) ∷ []) }
        ensures never_fails { receive_failed result ≡ false }
    {
        into.clear();
        self.traffic.give(into)
    }

    fn faults(&self) -> u64 {
        0
    }

    fn lost(&self) -> u64 {
        0
    }
}
