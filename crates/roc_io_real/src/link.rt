//! The machine's network.
ghost use Rattle.std.specs.Prelude.{None};

use crate::pace::{Pace, SHORTEST_MILLIS};
use libc::net::{SO_RCVBUF, SOL_SOCKET, setsockopt};
use roc_io::{Addr, Arrival, Bound, Link, Sent};
use std::alloc::{AllocError, Global};
use std::io;
use std::io::ErrorKind;
use std::net::{Ipv4Addr, Net, SocketAddr, SocketAddrV4, UdpSocket};
use std::os::fd::AsRawFd;
use std::time::{Clock, Duration};

/// How often the system is asked for a datagram in one receive, at most: while its wait is not over, or where a call was interrupted.
const MOST_CALLS: u64 = 1_000_000;

/// How many bytes of a datagram are kept, one more than a message may have.
const KEPT_BYTES: usize = 60_001;

/// How many bytes the system is asked to hold for this process until they are received.
const BUFFER_BYTES: i32 = 4_194_304;

/// One socket, which a bind makes. Before it, and after one that failed, each call fails but a bind. A bind or receive that fails is
/// counted, and so is a send apart from these. A receive is quiet where nothing comes for 20 to 320 milliseconds, on a clock that does not go
/// back: the more the more often nothing came, and the less the more came. It is quiet at once where 512 datagrams came since the last quiet one, or
/// the bind, and 100 milliseconds have passed, and where 640 have passed.
#[derive(Drop)]
pub struct RealLink<'a, N> {
    machine: &'a N,
    socket: Option<BoundSocket>,
    // What the system writes datagrams into, one after another. One that is made anew for each is filled with zeros first.
    buffer: Vec<u8>,
    faults: u64,
    lost: u64,
}

impl<'a, N> RealLink<'a, N> {
    /// A link of this machine's network and clock that is not bound. Takes no memory before the first receive.
    pub fn new(alloc: Global, machine: &'a N) -> Self {
        RealLink {
            machine,
            socket: None,
            buffer: Vec::new(alloc),
            faults: 0,
            lost: 0,
        }
    }
}

impl<N: Net + Clock> Link for RealLink<'_, N> {
    ghost faults = { λ l. l.faults };

    ghost lost = { λ l. l.lost };

    ghost bound = { λ l. None };

    ghost arrivals = { λ l. None };

    ghost sent = { λ l. None };

    ghost events = { λ l. None };

    fn bind(&mut self, addr: Addr) -> Bound {
        match bound_socket(self.machine, addr) {
            Ok(socket) => {
                self.socket = Some(BoundSocket::new(self.machine, socket));
                Bound::Ok
            }
            Err(_) => {
                self.socket = None;
                self.faults = self.faults.saturating_add(1);
                Bound::Failed
            }
        }
    }

    fn send(&mut self, to: Addr, bytes: &[u8]) -> Sent {
        if is_sent(&self.socket, to, bytes) {
            Sent::Ok
        } else {
            self.lost = self.lost.saturating_add(1);
            Sent::Failed
        }
    }

    fn receive(&mut self, into: &mut Vec<u8>) -> Arrival {
        let answer = received(self.machine, &mut self.socket, &mut self.buffer, into);
        match answer {
            Arrival::Datagram { .. } => {}
            Arrival::Quiet => {
                into.clear();
                note_quiet(self.machine, &mut self.socket);
            }
            Arrival::NoMemory => into.clear(),
            Arrival::Failed => {
                into.clear();
                self.faults = self.faults.saturating_add(1);
            }
        }
        answer
    }

    fn faults(&self) -> u64 {
        self.faults
    }

    fn lost(&self) -> u64 {
        self.lost
    }
}

// A socket with how long its receives wait.
#[derive(Drop)]
struct BoundSocket {
    socket: UdpSocket,
    pace: Pace,
}

impl BoundSocket {
    fn new<M: Clock>(machine: &M, socket: UdpSocket) -> BoundSocket {
        BoundSocket {
            socket,
            pace: Pace::new(machine),
        }
    }

    // What comes before the wait is over.
    fn received<M: Clock>(
        &mut self,
        machine: &M,
        buffer: &mut [u8],
        into: &mut Vec<u8>,
    ) -> Arrival {
        let begun = self.pace.passed(machine);
        if self.pace.is_due(begun) {
            return Arrival::Quiet;
        }
        for _ in 0..MOST_CALLS {
            match self.received_at_once(buffer, into) {
                Some(Arrival::Quiet) if !self.pace.is_over(machine, begun) => {}
                Some(answer) => return answer,
                None => {}
            }
        }
        Arrival::Quiet
    }

    // What comes within the system's wait: nothing where the call was interrupted.
    fn received_at_once(&mut self, buffer: &mut [u8], into: &mut Vec<u8>) -> Option<Arrival> {
        match self.socket.recv_from(buffer) {
            Ok((count, SocketAddr::V4(from))) => {
                self.pace.note_datagram();
                Some(arrival(buffer, count, from, into))
            }
            Ok((_, SocketAddr::V6(_))) => Some(Arrival::Failed),
            Err(error) => match error.kind() {
                ErrorKind::WouldBlock | ErrorKind::TimedOut => Some(Arrival::Quiet),
                ErrorKind::Interrupted => None,
                ErrorKind::OutOfMemory => Some(Arrival::NoMemory),
                _ => Some(Arrival::Failed),
            },
        }
    }
}

// What has come: so many of the bytes of the buffer.
fn arrival(buffer: &[u8], count: usize, from: SocketAddrV4, into: &mut Vec<u8>) -> Arrival {
    let (bytes, _) = buffer.split_at(count.min(buffer.len()));
    if into.extend_from_slice(bytes).is_err() {
        return Arrival::NoMemory;
    }
    Arrival::Datagram {
        from: Addr {
            host: from.ip().octets(),
            port: from.port(),
        },
    }
}

// What a quiet receive changes for the next ones.
fn note_quiet<M: Clock>(machine: &M, socket: &mut Option<BoundSocket>) {
    if let Some(bound) = socket {
        bound.pace.note_quiet(machine);
    }
}

// A socket at this address, whose receives end after a while.
fn bound_socket<N: Net>(net: &N, addr: Addr) -> io::Result<UdpSocket> {
    let socket = UdpSocket::bind(net, machine_addr(addr))?;
    socket.set_read_timeout(Some(Duration::from_millis(SHORTEST_MILLIS)))?;
    ask_for_room(&socket);
    Ok(socket)
}

// The system gives as much as its own limit allows; a socket with less serves too, so its answer is not looked at.
fn ask_for_room(socket: &UdpSocket) {
    let mut value = [0; 16];
    value[..4].copy_from_slice(&BUFFER_BYTES.to_ne_bytes());
    unsafe {
        setsockopt(socket.as_raw_fd(), SOL_SOCKET, SO_RCVBUF, &value, 4);
    }
}

fn is_sent(socket: &Option<BoundSocket>, to: Addr, bytes: &[u8]) -> bool {
    match socket {
        Some(bound) => match bound.socket.send_to(bytes, machine_addr(to)) {
            Ok(count) => count == bytes.len(),
            Err(_) => false,
        },
        None => false,
    }
}

// Receives one datagram, or waits until it is quiet.
fn received<M: Clock>(
    machine: &M,
    socket: &mut Option<BoundSocket>,
    buffer: &mut Vec<u8>,
    into: &mut Vec<u8>,
) -> Arrival {
    let Some(bound) = socket else {
        return Arrival::Failed;
    };
    into.clear();
    // Room first: want of memory then costs no datagram.
    if make_room(buffer, into).is_err() {
        return Arrival::NoMemory;
    }
    bound.received(machine, buffer, into)
}

// Room for a datagram, where the system writes it and where it goes to.
fn make_room(buffer: &mut Vec<u8>, into: &mut Vec<u8>) -> Result<(), AllocError> {
    if buffer.len() < KEPT_BYTES {
        buffer.resize(KEPT_BYTES, 0)?;
    }
    into.reserve(KEPT_BYTES)
}

fn machine_addr(addr: Addr) -> SocketAddr {
    SocketAddr::V4(SocketAddrV4::new(Ipv4Addr::from_octets(addr.host), addr.port))
}
