//! The end of a program whose streams gather.
ghost use Rattle.std.specs.Prelude.{◌≡◌, ◌<◌, true, false};
ghost use Rattle.std.specs.Io.KnownBytes.{Appends, Keeps};
ghost use Rattle.roc_io.specs.Sink.{write_failed};
ghost use Rattle.roc_io_real.specs.Gathered.{failures_of, taken_by, written_by};

use crate::Gathered;
use roc_io::{Sink, Written};
use std::io::Write;

/// Writes what both streams gathered, that of `out` first, and answers whether `out` could write all that it was given. If that fails only here,
/// `err` forgets what it gathered, and takes this line in its place. Whether `err` can write is not told.
pub fn finish_both<V: Write, W: Write>(
    out: &mut Gathered<V>,
    err: &mut Gathered<W>,
    line: &[u8],
) -> Written
    ensures failed { 0 < failures_of out.old → write_failed result ≡ true }
    ensures written { write_failed result ≡ false → Keeps (taken_by V.contents out.old) (written_by V.contents out.new) }
    // As far as no write of `err` failed.
    ensures told { write_failed result ≡ false → failures_of err.new ≡ 0 → Keeps (taken_by W.contents err.old) (written_by W.contents err.new) }
    ensures told_before { 0 < failures_of out.old → failures_of err.new ≡ 0 → Keeps (taken_by W.contents err.old) (written_by W.contents err.new) }
    ensures told_now { failures_of out.old ≡ 0 → write_failed result ≡ true → failures_of err.new ≡ 0
        → Appends (written_by W.contents err.old) (written_by W.contents err.new) line.now }
{
    let is_told = out.faults() > 0;
    let written = out.finish();
    if written == Written::Failed && !is_told {
        err.forget();
        err.write(line);
    }
    err.finish();
    written
}
