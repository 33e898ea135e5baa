// Where a program reads its input files.
ghost use Rattle.std.specs.Prelude.{◌≡◌, ℕ, Option, List, IfSome};
ghost use Rattle.roc_io.specs.Cause.{HasCause};
ghost use Rattle.roc_io.specs.Observed.{AddsIf};
ghost use Rattle.roc_io.specs.Files.{read_failed, Reads, Fills};

/// What a read answers.
#[derive(Clone, Copy, Debug, PartialEq, Eq)]
pub enum Read {
    /// The buffer holds all bytes of the name.
    Ok,
    /// The name holds more bytes than the limit.
    TooLong,
    /// There was no memory for the bytes.
    NoMemory,
    /// The name could not be read. A name that is not there answers this too.
    Failed,
}

/// Files by name.
pub trait Files {
    /// How many reads have failed.
    ghost faults: { Self → ℕ };

    /// The names whose reads have failed, one for each failure, where they are told.
    ghost failed_names: { Self → Option (List (List ℕ)) };

    /// The bytes that a name holds, where they are told.
    ghost content: { Self → List ℕ → Option (List ℕ) };

    /// Reads all bytes of a name into a buffer, which is cleared first; more than `limit` bytes are not read.
    /// Any answer but Ok leaves the buffer empty.
    fn read(&mut self, name: &str, into: &mut Vec<u8>, limit: usize) -> Read
        ensures cause { HasCause (read_failed result) (faults self.old) (faults self.new) }
        ensures failed { AddsIf (read_failed result) (failed_names self.old) (failed_names self.new) name.now }
        ensures fills { Fills result limit into.new.items }
        ensures told { IfSome (content self.old name.now) (λ bytes. Reads result bytes limit into.new.items) }
        ensures unchanged { (other : List ℕ) → content self.new other ≡ content self.old other };

    /// The count of failures.
    fn faults(&self) -> u64
        ensures { result ≡ faults self.now };
}
