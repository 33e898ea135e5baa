// A datagram that is kept, with the address it comes from or goes to.
ghost use Rattle.std.specs.Prelude.{◌≡◌, IfOk};

use super::Addr;
use std::alloc::{AllocError, Global};
use std::marker::Model;

/// A datagram: whom it comes from or goes to, and its bytes.
#[derive(Drop)]
pub struct Datagram {
    address: Addr,
    bytes: Vec<u8>,
}

impl Model for Datagram {
    ghost use Rattle.roc_io.specs.Packet.{Packet};

    ghost Value = { Packet };

    ghost view = { λ d. record { address = d.address; bytes = d.bytes.items } };
}

impl Datagram {
    /// A datagram of these bytes.
    pub fn new(address: Addr, bytes: Vec<u8>) -> Self
        ensures { result ≡ record { address = address; bytes = bytes.items } }
    {
        Datagram { address, bytes }
    }

    /// A datagram with a copy of these bytes.
    pub fn copied(alloc: Global, address: Addr, bytes: &[u8]) -> Result<Self, AllocError>
        ensures { IfOk result (λ datagram. datagram ≡ record { address = address; bytes = bytes.now }) }
    {
        Ok(Datagram {
            address,
            bytes: Vec::from_slice(alloc, bytes)?,
        })
    }

    /// Whom it comes from or goes to.
    pub fn address(&self) -> Addr
        ensures { result ≡ self.now.address }
    {
        self.address
    }

    /// Its bytes.
    pub fn bytes(&self) -> &[u8]
        ensures { result.now ≡ self.now.bytes }
    {
        &self.bytes
    }
}
