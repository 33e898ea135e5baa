// Where a program's lines go.
ghost use Rattle.std.specs.Prelude.{◌≡◌, ℕ, Option, List};
ghost use Rattle.std.specs.List.{flat_map};
ghost use Rattle.roc_io.specs.Cause.{HasCause};
ghost use Rattle.roc_io.specs.Sink.{write_failed, Takes, TakesPiece};

/// What a sink answers.
#[derive(Clone, Copy, Debug, PartialEq, Eq)]
pub enum Written {
    /// The whole piece was taken.
    Ok,
    /// A front of the piece was taken, which may be empty or whole.
    Failed,
}

/// Takes bytes.
pub trait Sink {
    /// How many writes have failed.
    ghost faults: { Self → ℕ };

    /// The bytes taken so far, where the sink tells them.
    ghost taken: { Self → Option (List ℕ) };

    /// The same by the writes: what each took so far, in order, where the sink tells it. Of a write that failed that is the front that was taken.
    ghost pieces: { Self → Option (List (List ℕ)) };

    /// Takes a piece.
    fn write(&mut self, piece: &[u8]) -> Written
        ensures cause { HasCause (write_failed result) (faults self.old) (faults self.new) }
        ensures taken { Takes result (taken self.old) (taken self.new) piece.now }
        ensures pieces { TakesPiece result (taken self.old) (taken self.new) (pieces self.old) (pieces self.new) piece.now };

    /// The count of failures.
    fn faults(&self) -> u64
        ensures { result ≡ faults self.now };
}

/// Writes pieces one after another, until one fails.
pub fn write_all<S: Sink>(sink: &mut S, pieces: &[&[u8]]) -> Written
    ensures cause { HasCause (write_failed result) (S.faults sink.old) (S.faults sink.new) }
    ensures taken { Takes result (S.taken sink.old) (S.taken sink.new) (flat_map (λ piece. piece.now) pieces.now) }
{
    for piece in pieces {
        if let Written::Failed = sink.write(piece) {
            return Written::Failed;
        }
    }
    Written::Ok
}
