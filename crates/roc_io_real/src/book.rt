//! The machine's book.
ghost use Rattle.std.specs.Prelude.{None};

use roc_book::{Book, Opened};
use roc_io::Written;
use std::fs::File;
use std::io::Write;
use std::rt::Files;

/// A file that an open makes, or empties where it stands already. A write before the first open, or after one that failed, fails. An open
/// or write that fails is counted; the names that were opened and the bytes that were taken are not told.
#[derive(Drop)]
pub struct RealBook<'a, R> {
    runtime: &'a R,
    file: Option<File>,
    faults: u64,
}

impl<'a, R> RealBook<'a, R> {
    /// A book among the files of this runtime that was not opened.
    pub fn new(runtime: &'a R) -> Self {
        RealBook {
            runtime,
            file: None,
            faults: 0,
        }
    }
}

impl<R: Files<File = File>> Book for RealBook<'_, R> {
    ghost faults = { λ b. b.faults };

    ghost opened = { λ b. None };

    ghost taken = { λ b. None };

    fn open(&mut self, name: &str) -> Opened {
        match File::create(self.runtime, name) {
            Ok(file) => {
                self.file = Some(file);
                Opened::Ok
            }
            Err(_) => {
                self.file = None;
                self.faults = self.faults.saturating_add(1);
                Opened::Failed
            }
        }
    }

    fn write(&mut self, piece: &[u8]) -> Written {
        let is_written = match &mut self.file {
            Some(file) => file.write_all(piece).is_ok(),
            None => false,
        };
        if is_written {
            Written::Ok
        } else {
            self.faults = self.faults.saturating_add(1);
            Written::Failed
        }
    }

    fn faults(&self) -> u64 {
        self.faults
    }
}
