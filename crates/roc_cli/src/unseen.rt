//! A sink for what nobody reads.
ghost use Rattle.std.specs.Prelude.{None};

use roc_io::{Sink, Written};

/// Takes all pieces, and keeps none.
#[derive(Drop)]
pub(crate) struct Unseen;

impl Sink for Unseen {
    ghost faults = { λ s. 0 };

    ghost taken = { λ s. None };

    ghost pieces = { λ s. None };

    fn write(&mut self, _piece: &[u8]) -> Written {
        Written::Ok
    }

    fn faults(&self) -> u64 {
        0
    }
}
