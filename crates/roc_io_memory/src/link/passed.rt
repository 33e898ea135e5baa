// What a link in memory was asked for: a datagram that it took or lost, or what a receive gave.
ghost use Rattle.std.specs.Prelude.{◌≡◌, IfOk};
ghost use Rattle.roc_io.specs.Link.{send_event, receiving, vain, reception};

use roc_io::{Addr, Arrival, Datagram};
use std::alloc::{AllocError, Global};
use std::marker::Model;

/// Which of them.
#[derive(Drop)]
pub enum Kind {
    /// A datagram was taken for sending.
    Sent(Datagram),
    /// A datagram was not taken.
    Lost(Datagram),
    /// A receive gave a datagram.
    Came(Datagram),
    /// A receive gave nothing, since none was left.
    NoneCame,
    /// A receive gave nothing, since the link failed or memory was wanting.
    Vain,
}

/// One send or receive, kept.
#[derive(Drop)]
pub struct Passed {
    kind: Kind,
}

impl Model for Passed {
    ghost use Rattle.roc_io.specs.Link.{LinkEvent};
    ghost use Rattle.roc_io_memory.specs.Inner.Passed.{event_of};

    ghost Value = { LinkEvent };

    ghost view = { λ p. event_of p.kind };
}

impl Passed {
    /// A send of a copy of these bytes, which failed or did not.
    pub fn sent(alloc: Global, failed: bool, to: Addr, bytes: &[u8]) -> Result<Self, AllocError>
        ensures { IfOk result (λ passed. passed ≡ send_event failed (record { address = to; bytes = bytes.now })) }
    {
        let datagram = Datagram::copied(alloc, to, bytes)?;
        let kind = if failed {
            Kind::Lost(datagram)
        } else {
            Kind::Sent(datagram)
        };
        Ok(Passed { kind })
    }

    /// A receive that answered this, with a copy of the bytes that it gave.
    pub fn received(alloc: Global, answer: Arrival, bytes: &[u8]) -> Result<Self, AllocError>
        ensures { IfOk result (λ passed. passed ≡ receiving (reception answer bytes.now)) }
    {
        match answer {
            Arrival::Datagram { from } => Ok(Passed {
                kind: Kind::Came(Datagram::copied(alloc, from, bytes)?),
            }),
            Arrival::Quiet => Ok(Passed {
                kind: Kind::NoneCame,
            }),
            Arrival::NoMemory => Ok(Passed { kind: Kind::Vain }),
            Arrival::Failed => Ok(Passed { kind: Kind::Vain }),
        }
    }

    /// A receive that gave nothing, since the link failed or memory was wanting.
    pub fn in_vain() -> Self
        ensures { result ≡ receiving vain }
    {
        Passed { kind: Kind::Vain }
    }
}
