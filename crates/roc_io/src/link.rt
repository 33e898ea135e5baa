// Where a node's datagrams come from and go to.
ghost use Rattle.std.specs.Prelude.{◌≡◌, ℕ, ◌-◌, ◌<◌, ◌≤◌, List, [], ◌∷◌, map, Option};
ghost use Rattle.roc_io.specs.Cause.{HasCause, last_count};
ghost use Rattle.roc_io.specs.Link.{bind_failed, send_failed, send_event, receive_failed, Receives, reception, LinkEvent, sending, receiving, AddsEvents};
ghost use Rattle.roc_io.specs.Observed.{Adds, AddsUnless, AddsAllBut};
ghost use Rattle.roc_io.specs.Packet.{Packet};
ghost use Rattle.roc_io.specs.declared.link.Addr.{Addr};

pub mod datagram;

use datagram::Datagram;

/// An address of the Internet protocol, version 4, with a port.
#[derive(Clone, Copy, Debug, PartialEq, Eq)]
pub struct Addr {
    /// The four bytes of the host's address, the first one first.
    pub host: [u8; 4],
    /// The port; 0 asks for any that is free.
    pub port: u16,
}

/// What a bind answers.
#[derive(Clone, Copy, Debug, PartialEq, Eq)]
pub enum Bound {
    /// The link is bound to the address.
    Ok,
    /// It is not.
    Failed,
}

/// What a send answers.
#[derive(Clone, Copy, Debug, PartialEq, Eq)]
pub enum Sent {
    /// The link took the datagram. Whether it arrives is another matter.
    Ok,
    /// The link did not take it.
    Failed,
}

/// What a receive answers.
#[derive(Clone, Copy, Debug, PartialEq, Eq)]
pub enum Arrival {
    /// A datagram, whose bytes are in the buffer.
    Datagram {
        /// Who sent it.
        from: Addr,
    },
    /// Nothing came in the time that the link waits.
    Quiet,
    /// There was no memory for the bytes.
    NoMemory,
    /// The link failed.
    Failed,
}

/// Datagrams in both directions.
pub trait Link {
    /// How many binds and receives have failed.
    ghost faults: { Self → ℕ };

    /// How many sends have failed.
    ghost lost: { Self → ℕ };

    /// The addresses bound so far, in order, where they are told.
    ghost bound: { Self → Option (List Addr) };

    /// The datagrams that are still to arrive, in order, where they are told.
    ghost arrivals: { Self → Option (List Packet) };

    /// The datagrams taken so far for sending, in order, where they are told.
    ghost sent: { Self → Option (List Packet) };

    /// What the link was asked for so far, in order, and what came of it, where it is told: each datagram that was to be sent, as taken or as
    /// lost, and what each receive gave.
    ghost events: { Self → Option (List LinkEvent) };

    /// Binds the link to an address of its own.
    fn bind(&mut self, addr: Addr) -> Bound
        ensures cause { HasCause (bind_failed result) (faults self.old) (faults self.new) }
        ensures lost { lost self.new ≡ lost self.old }
        ensures bound { AddsUnless (bind_failed result) (bound self.old) (bound self.new) addr }
        ensures arrivals { arrivals self.new ≡ arrivals self.old }
        ensures sent { sent self.new ≡ sent self.old }
        ensures events { events self.new ≡ events self.old };

    /// Sends a datagram to an address.
    fn send(&mut self, to: Addr, bytes: &[u8]) -> Sent
        ensures cause { HasCause (send_failed result) (lost self.old) (lost self.new) }
        ensures faults { faults self.new ≡ faults self.old }
        ensures bound { bound self.new ≡ bound self.old }
        ensures arrivals { arrivals self.new ≡ arrivals self.old }
        ensures sent { AddsUnless (send_failed result) (sent self.old) (sent self.new) (record { address = to; bytes = bytes.now }) }
        ensures events { Adds (events self.old) (events self.new) (send_event (send_failed result) (record { address = to; bytes = bytes.now }) ∷ []) };

    /// Receives one datagram into a buffer, which is cleared first. Any other answer leaves the buffer empty.
    fn receive(&mut self, into: &mut Vec<u8>) -> Arrival
        ensures cause { HasCause (receive_failed result) (faults self.old) (faults self.new) }
        ensures lost { lost self.new ≡ lost self.old }
        ensures bound { bound self.new ≡ bound self.old }
        ensures arrivals { Receives result (arrivals self.old) (arrivals self.new) into.new.items }
        ensures sent { sent self.new ≡ sent self.old }
        ensures events { Adds (events self.old) (events self.new) (receiving (reception result into.new.items) ∷ []) };

    /// The count of failed binds and receives.
    fn faults(&self) -> u64
        ensures { result ≡ faults self.now };

    /// The count of failed sends.
    fn lost(&self) -> u64
        ensures { result ≡ lost self.now };
}

/// Sends datagrams in order. One that the link does not take is lost, and counted by `lost` alone.
pub fn send_all<L: Link>(link: &mut L, datagrams: &[Datagram])
    ensures taken { L.lost link.new < last_count →
        AddsAllBut (L.lost link.new - L.lost link.old) (L.sent link.old) (L.sent link.new) datagrams.now }
    ensures lost { L.lost link.old ≤ L.lost link.new }
    ensures faults { L.faults link.new ≡ L.faults link.old }
    ensures bound { L.bound link.new ≡ L.bound link.old }
    ensures arrivals { L.arrivals link.new ≡ L.arrivals link.old }
    ensures events { AddsEvents (L.lost link.old) (L.lost link.new) (L.sent link.old) (L.sent link.new) (L.events link.old) (L.events link.new) (map sending datagrams.now) }
{
    for datagram in datagrams {
        link.send(datagram.address(), datagram.bytes());
    }
}
