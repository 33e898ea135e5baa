//! A book for a call that keeps no log.
ghost use Rattle.std.specs.Prelude.{◌≡◌, None};

use crate::{Book, Opened};
use roc_io::Written;

/// A book that keeps nothing, tells nothing and never fails.
#[derive(Clone, Copy, Debug)]
pub struct NoBook;

impl Book for NoBook {
    ghost faults = { λ _. 0 };

    ghost opened = { λ _. None };

    ghost taken = { λ _. None };

    fn open(&mut self, name: &str) -> Opened
        ensures never_fails { result ≡ Opened.Ok }
    {
        let _kept_nowhere = name;
        Opened::Ok
    }

    fn write(&mut self, piece: &[u8]) -> Written
        ensures never_fails { result ≡ Written.Ok }
    {
        let _kept_nowhere = piece;
        Written::Ok
    }

    fn faults(&self) -> u64 {
        0
    }
}
