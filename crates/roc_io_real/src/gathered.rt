//! A stream that gathers.
ghost use Rattle.std.specs.Prelude.{◌≡◌, ◌<◌, OnOk, [], None, true, false, not};
ghost use Rattle.std.specs.Io.KnownBytes.{Appends, Keeps};
ghost use Rattle.roc_io.specs.Cause.{HasCause};
ghost use Rattle.roc_io.specs.Sink.{write_failed};

use crate::streams::write_now;
use roc_io::{Sink, Written};
use std::alloc::Global;
use std::io;
use std::io::Write;

/// A stream of the process whose pieces are gathered, and written together once a piece has no room behind them; what is left is written by
/// `finish` alone. With no room at all each piece goes out whole before the next, as it does where there is no memory for it.
///
/// What cannot be written is told by the call that would write it, and counted. From then on each call fails, and nothing more is
/// written, so the writer has a front of what was given. As a sink it tells nothing; what the clauses of its calls say of
/// bytes holds as far as the writer tells them.
#[derive(Drop)]
pub struct Gathered<W> {
    writer: W,
    pending: Vec<u8>,
    room: usize,
    faults: u64,
}

impl<W: Write> Gathered<W> {
    ghost use Rattle.roc_io_real.specs.Gathered.{failures_of, room_of, taken_by, written_by};

    /// A stream over this writer, which took nothing through it, with room for so many bytes.
    pub fn new(alloc: Global, writer: W, room: usize) -> Self
        ensures taken { Keeps (W.contents writer) (taken_by W.contents result) }
        ensures room { room_of result ≡ room }
        ensures failures { failures_of result ≡ 0 }
    {
        Gathered {
            writer,
            pending: Vec::new(alloc),
            room,
            faults: 0,
        }
    }

    /// Writes what is left. At Ok the writer has all that was taken.
    pub fn finish(&mut self) -> Written
        ensures cause { HasCause (write_failed result) (failures_of self.old) (failures_of self.new) }
        ensures failed { 0 < failures_of self.old → write_failed result ≡ true }
        ensures stopped { 0 < failures_of self.old → written_by W.contents self.new ≡ written_by W.contents self.old }
        ensures written { write_failed result ≡ false → Keeps (taken_by W.contents self.old) (written_by W.contents self.new) }
    {
        let is_written = self.faults == 0 && self.write_out().is_ok();
        self.counted(is_written)
    }

    /// Forgets what was gathered and is not written.
    pub fn forget(&mut self)
        ensures written { written_by W.contents self.new ≡ written_by W.contents self.old }
        ensures taken { Keeps (written_by W.contents self.new) (taken_by W.contents self.new) }
        ensures failures { failures_of self.new ≡ failures_of self.old }
    {
        self.pending.clear();
    }

    fn counted(&mut self, is_written: bool) -> Written
        ensures answer { write_failed result ≡ not is_written }
        ensures cause { HasCause (write_failed result) self.old.faults self.new.faults }
        ensures writer { self.new.writer ≡ self.old.writer }
        ensures pending { self.new.pending ≡ self.old.pending }
        ensures room { room_of self.new ≡ room_of self.old }
    {
        if is_written {
            return Written::Ok;
        }
        self.faults = self.faults.saturating_add(1);
        Written::Failed
    }

    // What has no room, and what there is no memory for, goes out at once, behind what was gathered.
    fn take(&mut self, piece: &[u8]) -> io::Result<()>
        ensures taken { OnOk result (Appends (taken_by W.contents self.old) (taken_by W.contents self.new) piece.now) }
        ensures at_once { room_of self.old ≡ 0 → OnOk result (Keeps (taken_by W.contents self.new) (written_by W.contents self.new)) }
        ensures room { room_of self.new ≡ room_of self.old }
        ensures faults { self.new.faults ≡ self.old.faults }
    {
        if self.room.saturating_sub(self.pending.len()) < piece.len() {
            self.write_out()?;
        }
        if piece.len() < self.room && self.pending.extend_from_slice(piece).is_ok() {
            return Ok(());
        }
        self.write_out()?;
        write_now(&mut self.writer, piece)
    }

    fn write_out(&mut self) -> io::Result<()>
        ensures written { OnOk result (Keeps (taken_by W.contents self.old) (written_by W.contents self.new)) }
        ensures taken { OnOk result (Keeps (taken_by W.contents self.old) (taken_by W.contents self.new)) }
        ensures empty { OnOk result (self.new.pending.items ≡ []) }
        ensures room { room_of self.new ≡ room_of self.old }
        ensures faults { self.new.faults ≡ self.old.faults }
    {
        write_now(&mut self.writer, &self.pending)?;
        self.pending.clear();
        Ok(())
    }
}

impl<W: Write> Sink for Gathered<W> {
    ghost use Rattle.roc_io_real.specs.Gathered.{failures_of, room_of, taken_by, written_by};

    ghost faults = { λ s. s.faults };

    ghost taken = { λ s. None };

    ghost pieces = { λ s. None };

    fn write(&mut self, piece: &[u8]) -> Written
        ensures cause { HasCause (write_failed result) self.old.faults self.new.faults }
        ensures failed { 0 < failures_of self.old → write_failed result ≡ true }
        ensures stopped { 0 < failures_of self.old → written_by W.contents self.new ≡ written_by W.contents self.old }
        ensures taken { write_failed result ≡ false → Appends (taken_by W.contents self.old) (taken_by W.contents self.new) piece.now }
        ensures at_once { room_of self.old ≡ 0 → write_failed result ≡ false → Keeps (taken_by W.contents self.new) (written_by W.contents self.new) }
        ensures room { room_of self.new ≡ room_of self.old }
    {
        let is_taken = self.faults == 0 && self.take(piece).is_ok();
        self.counted(is_taken)
    }

    fn faults(&self) -> u64 {
        self.faults
    }
}
