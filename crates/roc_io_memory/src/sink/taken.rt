//! What a sink in memory took.
ghost use Rattle.std.specs.Prelude.{◌≡◌, [], ◌∷◌, Some, IfOk, option_map};
ghost use Rattle.roc_io.specs.Observed.{Adds};

use crate::kept::Kept;
use std::alloc::{AllocError, Global};
use std::marker::Model;

// What a write took, kept.
#[derive(Drop)]
struct Piece {
    bytes: Vec<u8>,
}

impl Model for Piece {
    ghost use Rattle.std.specs.Prelude.{ℕ, List};

    ghost Value = { List ℕ };

    ghost view = { λ p. p.bytes.items };
}

impl Piece {
    fn copied(alloc: Global, bytes: &[u8]) -> Result<Self, AllocError>
        ensures { IfOk result (λ piece. piece ≡ bytes.now) }
    {
        Ok(Piece {
            bytes: Vec::from_slice(alloc, bytes)?,
        })
    }
}

/// The bytes, and by the writes.
#[derive(Drop)]
pub struct Taken {
    alloc: Global,
    bytes: Kept<u8>,
    pieces: Kept<Piece>,
}

impl Model for Taken {
    ghost use Rattle.roc_io_memory.specs.Sink.{SinkTaken};

    ghost Value = { SinkTaken };

    ghost view = { λ t. record { bytes = t.bytes; pieces = t.pieces } };
}

impl Taken {
    /// Nothing was taken. Takes no memory.
    pub fn new(alloc: Global) -> Self
        ensures { result ≡ record { bytes = Some []; pieces = Some [] } }
    {
        Taken {
            alloc,
            bytes: Kept::new(alloc),
            pieces: Kept::new(alloc),
        }
    }

    /// All bytes that were taken, where there was memory to keep them.
    pub fn bytes(&self) -> Option<&[u8]>
        ensures { option_map (λ bytes. bytes.now) result ≡ self.now.bytes }
    {
        self.bytes.items()
    }

    /// A write takes these bytes.
    pub fn take(&mut self, bytes: &[u8])
        ensures bytes { Adds self.old.bytes self.new.bytes bytes.now }
        ensures pieces { Adds self.old.pieces self.new.pieces (bytes.now ∷ []) }
    {
        self.bytes.extend(bytes);
        let piece = Piece::copied(self.alloc, bytes);
        self.pieces.push_made(piece);
    }
}
