//! Standard output and standard error.
ghost use Rattle.std.specs.Prelude.{None, OnOk};
ghost use Rattle.std.specs.Io.KnownBytes.{Appends};

use roc_io::{Sink, Written};
use std::io::Write;

/// A stream of the process. A write that fails is counted; what the stream took is not told.
#[derive(Drop)]
pub struct Stream<W> {
    writer: W,
    faults: u64,
}

impl<W> Stream<W> {
    /// A stream over this writer, which took nothing through it.
    pub fn new(writer: W) -> Self {
        Stream { writer, faults: 0 }
    }
}

impl<W: Write> Sink for Stream<W> {
    ghost faults = { λ s. s.faults };

    ghost taken = { λ s. None };

    ghost pieces = { λ s. None };

    fn write(&mut self, piece: &[u8]) -> Written {
        match write_now(&mut self.writer, piece) {
            Ok(()) => Written::Ok,
            Err(_) => {
                self.faults = self.faults.saturating_add(1);
                Written::Failed
            }
        }
    }

    fn faults(&self) -> u64 {
        self.faults
    }
}

/// Writes a piece whole.
pub(crate) fn write_now<W: Write>(writer: &mut W, piece: &[u8]) -> std::io::Result<()>
    ensures { OnOk result (Appends (W.contents writer.old) (W.contents writer.new) piece.now) }
{
    writer.write_all(piece)?;
    writer.flush()
}
