// Where a node's log goes.
ghost use Rattle.std.specs.Prelude.{◌≡◌, ℕ, Option, List};
ghost use Rattle.roc_io.specs.Cause.{HasCause};
ghost use Rattle.roc_io.specs.Observed.{AddsUnless};
ghost use Rattle.roc_io.specs.Sink.{write_failed, Takes};
ghost use Rattle.roc_book.specs.Book.{open_failed};

use roc_io::Written;

/// What an open answers.
#[derive(Clone, Copy, Debug, PartialEq, Eq)]
pub enum Opened {
    /// The name was opened, and holds nothing: what it held before is gone.
    Ok,
    /// The name was not opened.
    Failed,
}

/// A log that is opened once and then takes pieces, each whole before the next.
pub trait Book {
    /// How many opens and writes have failed.
    ghost faults: { Self → ℕ };

    /// The names opened so far, where the book tells them.
    ghost opened: { Self → Option (List (List ℕ)) };

    /// The bytes taken so far, where the book tells them.
    ghost taken: { Self → Option (List ℕ) };

    /// Opens a name. A book that has one open goes on to the new one.
    fn open(&mut self, name: &str) -> Opened
        ensures cause { HasCause (open_failed result) (faults self.old) (faults self.new) }
        ensures opened { AddsUnless (open_failed result) (opened self.old) (opened self.new) name.now }
        ensures taken { taken self.new ≡ taken self.old };

    /// Takes a piece. Whether a book that was never opened takes one is its own affair.
    fn write(&mut self, piece: &[u8]) -> Written
        ensures cause { HasCause (write_failed result) (faults self.old) (faults self.new) }
        ensures taken { Takes result (taken self.old) (taken self.new) piece.now }
        ensures opened { opened self.new ≡ opened self.old };

    /// The count of failures.
    fn faults(&self) -> u64
        ensures { result ≡ faults self.now };
}
