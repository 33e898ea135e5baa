// Which calls of a disk in memory fail.
ghost use Rattle.std.specs.Prelude.{◌≡◌};
ghost use Rattle.roc_io.specs.Cause.{HasCause};

/// The calls made on a disk, by number from 1: those that are to fail, and the first of those that come to nothing.
#[derive(Drop)]
pub(crate) struct Calls {
    made: u64,
    failing: Vec<u64>,
    stop: u64,
    faults: u64,
}

impl Calls {
    pub(crate) fn new(failing: Vec<u64>, stop: u64) -> Self
        ensures { result.faults ≡ 0 }
    {
        Calls {
            made: 0,
            failing,
            stop,
            faults: 0,
        }
    }

    // Whether the next call is behind the one at which the disk stopped.
    pub(crate) fn is_over(&self) -> bool {
        self.made >= self.stop
    }

    // Counts one more call, and tells whether it fails.
    pub(crate) fn next_fails(&mut self) -> bool
        ensures { HasCause result self.old.faults self.new.faults }
    {
        self.made = self.made.saturating_add(1);
        let fails = self.made >= self.stop || self.failing.contains(&self.made);
        if fails {
            self.faults = self.faults.saturating_add(1);
        }
        fails
    }

    pub(crate) fn faults(&self) -> u64
        ensures { result ≡ self.now.faults }
    {
        self.faults
    }
}
