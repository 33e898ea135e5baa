// Sinks in memory.
ghost use Rattle.std.specs.Prelude.{◌≡◌, [], Some, false, option_map};
ghost use Rattle.roc_io_memory.specs.Calls.{calls_failing, next_fails, called};
ghost use Rattle.roc_io.specs.Cause.{HasCause};
ghost use Rattle.roc_io.specs.Sink.{write_failed, Takes, TakesPiece};

mod taken;

use crate::calls::Calls;
use roc_io::{Sink, Written};
use std::alloc::Global;
use std::marker::Model;
use taken::Taken;

/// A sink that keeps what it takes, and fails at the writes that it was told to fail at.
///
/// A failed write takes the first half of its piece. Once there is no memory for a piece, the sink
/// tells no bytes, or not by the writes, any more; what it answers does not change by that.
#[derive(Drop)]
pub struct MemSink {
    taken: Taken,
    calls: Calls,
}

impl Model for MemSink {
    ghost use Rattle.roc_io_memory.specs.Sink.{SinkState};

    ghost Value = { SinkState };

    ghost view = { λ s. record { taken = s.taken; calls = s.calls } };
}

impl MemSink {
    /// An empty sink. The writes with the numbers in `failing` are to fail; the first write is number 1.
    pub fn new(alloc: Global, failing: Vec<u64>) -> Self
        ensures { result ≡ record { taken = record { bytes = Some []; pieces = Some [] }; calls = calls_failing failing.items } }
    {
        MemSink {
            taken: Taken::new(alloc),
            calls: Calls::new(failing),
        }
    }

    /// The bytes taken, where they are told.
    pub fn bytes(&self) -> Option<&[u8]>
        ensures { option_map (λ bytes. bytes.now) result ≡ self.now.taken.bytes }
    {
        self.taken.bytes()
    }
}

impl Sink for MemSink {
    ghost faults = { λ s. s.calls.faults };

    ghost taken = { λ s. s.taken.bytes };

    ghost pieces = { λ s. s.taken.pieces };

    fn write(&mut self, piece: &[u8]) -> Written
        ensures cause { HasCause (write_failed result) self.old.calls.faults self.new.calls.faults }
        ensures taken { Takes result self.old.taken.bytes self.new.taken.bytes piece.now }
        ensures pieces { TakesPiece result self.old.taken.bytes self.new.taken.bytes self.old.taken.pieces self.new.taken.pieces piece.now }
        ensures failed { write_failed result ≡ next_fails false self.old.calls }
        ensures calls { self.new.calls ≡ called false self.old.calls }
    {
        if self.calls.next_fails(false) {
            self.taken.take(&piece[..piece.len() / 2]);
            Written::Failed
        } else {
            self.taken.take(piece);
            Written::Ok
        }
    }

    fn faults(&self) -> u64 {
        self.calls.faults()
    }
}

/// A sink that keeps what it takes, and never fails.
///
/// Once there is no memory for a piece, it tells no bytes, or not by the writes, any more, and goes on to answer Ok.
#[derive(Drop)]
pub struct CalmSink {
    taken: Taken,
}

impl Model for CalmSink {
    ghost use Rattle.roc_io_memory.specs.Sink.{SinkTaken};

    ghost Value = { SinkTaken };

    ghost view = { λ s. s.taken };
}

impl CalmSink {
    /// An empty sink.
    pub fn new(alloc: Global) -> Self
        ensures { result ≡ record { bytes = Some []; pieces = Some [] } }
    {
        CalmSink {
            taken: Taken::new(alloc),
        }
    }

    /// The bytes taken, where they are told.
    pub fn bytes(&self) -> Option<&[u8]>
        ensures { option_map (λ bytes. bytes.now) result ≡ self.now.bytes }
    {
        self.taken.bytes()
    }
}

impl Sink for CalmSink {
    ghost faults = { λ _. 0 };

    ghost taken = { λ s. s.bytes };

    ghost pieces = { λ s. s.pieces };

    fn write(&mut self, piece: &[u8]) -> Written
        ensures taken { Takes result self.old.bytes self.new.bytes piece.now }
        ensures pieces { TakesPiece result self.old.bytes self.new.bytes self.old.pieces self.new.pieces piece.now }
        ensures never_fails { result ≡ Written.Ok }
    {
        self.taken.take(piece);
        Written::Ok
    }

    fn faults(&self) -> u64 {
        0
    }
}
