//! The files of the machine.
ghost use Rattle.std.specs.Prelude.{◌≡◌, [], None};
ghost use Rattle.roc_io_real.specs.Inner.Within.{OkWithin};

use roc_io::{Files, Read};
use std::io;
use std::io::{ErrorKind, Read as _};
use std::rt::Files as FileSystem;

/// The files that a runtime reaches, by their paths. A read that fails is counted; what the files
/// hold is not told.
#[derive(Drop)]
pub struct RealFiles<'a, R> {
    runtime: &'a R,
    faults: u64,
}

impl<'a, R> RealFiles<'a, R> {
    /// The files of this runtime, none of which was read.
    pub fn new(runtime: &'a R) -> Self {
        RealFiles { runtime, faults: 0 }
    }
}

impl<R: FileSystem> Files for RealFiles<'_, R> {
    ghost faults = { λ f. f.faults };

    ghost failed_names = { λ f. None };

    ghost content = { λ f name. None };

    fn read(&mut self, name: &str, into: &mut Vec<u8>, limit: usize) -> Read {
        into.clear();
        let answer = match std::fs::open(self.runtime, name) {
            Ok(file) => read_up_to(file, into, limit),
            Err(_) => Read::Failed,
        };
        match answer {
            Read::Ok => {}
            Read::Failed => {
                into.clear();
                self.faults = self.faults.saturating_add(1);
            }
            Read::TooLong | Read::NoMemory => into.clear(),
        }
        answer
    }

    fn faults(&self) -> u64 {
        self.faults
    }
}

// All bytes of a file, of which one more than may be there is read at most.
fn read_up_to<F: io::Read + Drop>(file: F, into: &mut Vec<u8>, limit: usize) -> Read
    requires { into.old.items ≡ [] }
    ensures { OkWithin result limit into.new.items }
{
    let most = (limit as u64).saturating_add(1);
    match file.take(most).read_to_end(into) {
        Ok(_) if into.len() <= limit => Read::Ok,
        Ok(_) => Read::TooLong,
        Err(error) if error.kind() == ErrorKind::OutOfMemory => Read::NoMemory,
        Err(_) => Read::Failed,
    }
}
