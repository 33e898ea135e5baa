// Which calls of an object in memory fail.
ghost use Rattle.std.specs.Prelude.{◌≡◌};
ghost use Rattle.roc_io_memory.specs.Calls.{calls_failing, next_fails, called};
ghost use Rattle.roc_io.specs.Cause.{HasCause};

use std::marker::Model;

/// The calls made on an object in memory, by number from 1, with those that are to fail.
#[derive(Drop)]
pub struct Calls {
    made: u64,
    failing: Vec<u64>,
    faults: u64,
}

impl Model for Calls {
    ghost use Rattle.roc_io_memory.specs.Calls.{Calls};

    ghost Value = { Calls };

    ghost view = { λ c. record { made = c.made; failing = c.failing.items; faults = c.faults } };
}

impl Calls {
    /// No call so far; those with these numbers are to fail.
    pub fn new(failing: Vec<u64>) -> Self
        ensures { result ≡ calls_failing failing.items }
    {
        Calls {
            made: 0,
            failing,
            faults: 0,
        }
    }

    /// Counts one more call, and tells whether it fails. One that is refused for its argument fails too.
    pub fn next_fails(&mut self, refused: bool) -> bool
        ensures due { result ≡ next_fails refused self.old }
        ensures after { self.new ≡ called refused self.old }
        ensures cause { HasCause result self.old.faults self.new.faults }
    {
        self.made = self.made.saturating_add(1);
        let fails = refused || self.failing.contains(&self.made);
        if fails {
            self.faults = self.faults.saturating_add(1);
        }
        fails
    }

    /// How many calls failed.
    pub fn faults(&self) -> u64
        ensures { result ≡ self.now.faults }
    {
        self.faults
    }
}
