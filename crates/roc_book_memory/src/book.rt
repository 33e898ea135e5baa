// Books in memory.
ghost use Rattle.std.specs.Prelude.{◌≡◌, [], Some, false, option_map};
ghost use Rattle.roc_io.specs.Cause.{HasCause};
ghost use Rattle.roc_io.specs.Observed.{AddsUnless};
ghost use Rattle.roc_io.specs.Sink.{write_failed, Takes};
ghost use Rattle.roc_io_memory.specs.Calls.{calls_failing, next_fails, called};
ghost use Rattle.roc_book.specs.Book.{open_failed};

use roc_book::{Book, Opened};
use roc_io::Written;
use roc_io_memory::{Calls, FileName, Kept};
use std::alloc::Global;
use std::marker::Model;

/// A book that keeps what it takes, and fails at the calls that it was told to fail at. A failed write takes the first half of its piece.
#[derive(Drop)]
pub struct MemBook {
    alloc: Global,
    opened: Kept<FileName>,
    taken: Kept<u8>,
    calls: Calls,
}

impl Model for MemBook {
    ghost use Rattle.roc_book_memory.specs.Book.{BookState};

    ghost Value = { BookState };

    ghost view = { λ b. record { opened = b.opened; taken = b.taken; calls = b.calls } };
}

impl MemBook {
    /// A book that was not opened. The calls with the numbers in `failing` are to fail; the first open or write is number 1.
    pub fn new(alloc: Global, failing: Vec<u64>) -> Self
        ensures { result ≡ record { opened = Some []; taken = Some []; calls = calls_failing failing.items } }
    {
        MemBook {
            alloc,
            opened: Kept::new(alloc),
            taken: Kept::new(alloc),
            calls: Calls::new(failing),
        }
    }

    /// The names opened, where they are told.
    pub fn names(&self) -> Option<&[FileName]>
        ensures { option_map (λ names. names.now) result ≡ self.now.opened }
    {
        self.opened.items()
    }

    /// The bytes taken, where they are told.
    pub fn bytes(&self) -> Option<&[u8]>
        ensures { option_map (λ bytes. bytes.now) result ≡ self.now.taken }
    {
        self.taken.items()
    }
}

impl Book for MemBook {
    ghost faults = { λ b. b.calls.faults };

    ghost opened = { λ b. b.opened };

    ghost taken = { λ b. b.taken };

    fn open(&mut self, name: &str) -> Opened
        ensures cause { HasCause (open_failed result) self.old.calls.faults self.new.calls.faults }
        ensures opened { AddsUnless (open_failed result) self.old.opened self.new.opened name.now }
        ensures taken { self.new.taken ≡ self.old.taken }
        ensures failed { open_failed result ≡ next_fails false self.old.calls }
        ensures calls { self.new.calls ≡ called false self.old.calls }
    {
        if self.calls.next_fails(false) {
            return Opened::Failed;
        }
        self.opened.push_made(FileName::copied(self.alloc, name));
        Opened::Ok
    }

    fn write(&mut self, piece: &[u8]) -> Written
        ensures cause { HasCause (write_failed result) self.old.calls.faults self.new.calls.faults }
        ensures taken { Takes result self.old.taken self.new.taken piece.now }
        ensures opened { self.new.opened ≡ self.old.opened }
        ensures failed { write_failed result ≡ next_fails false self.old.calls }
        ensures calls { self.new.calls ≡ called false self.old.calls }
    {
        if self.calls.next_fails(false) {
            self.taken.extend(&piece[..piece.len() / 2]);
            Written::Failed
        } else {
            self.taken.extend(piece);
            Written::Ok
        }
    }

    fn faults(&self) -> u64 {
        self.calls.faults()
    }
}

/// A book that keeps what it takes, and never fails.
#[derive(Drop)]
pub struct CalmBook {
    alloc: Global,
    opened: Kept<FileName>,
    taken: Kept<u8>,
}

impl Model for CalmBook {
    ghost use Rattle.roc_book_memory.specs.Book.{CalmBookState};

    ghost Value = { CalmBookState };

    ghost view = { λ b. record { opened = b.opened; taken = b.taken } };
}

impl CalmBook {
    /// A book that was not opened.
    pub fn new(alloc: Global) -> Self
        ensures { result ≡ record { opened = Some []; taken = Some [] } }
    {
        CalmBook {
            alloc,
            opened: Kept::new(alloc),
            taken: Kept::new(alloc),
        }
    }

    /// The names opened, where they are told.
    pub fn names(&self) -> Option<&[FileName]>
        ensures { option_map (λ names. names.now) result ≡ self.now.opened }
    {
        self.opened.items()
    }

    /// The bytes taken, where they are told.
    pub fn bytes(&self) -> Option<&[u8]>
        ensures { option_map (λ bytes. bytes.now) result ≡ self.now.taken }
    {
        self.taken.items()
    }
}

impl Book for CalmBook {
    ghost faults = { λ _. 0 };

    ghost opened = { λ b. b.opened };

    ghost taken = { λ b. b.taken };

    fn open(&mut self, name: &str) -> Opened
        ensures opened { AddsUnless (open_failed result) self.old.opened self.new.opened name.now }
        ensures taken { self.new.taken ≡ self.old.taken }
        ensures never_fails { result ≡ Opened.Ok }
    {
        self.opened.push_made(FileName::copied(self.alloc, name));
        Opened::Ok
    }

    fn write(&mut self, piece: &[u8]) -> Written
        ensures taken { Takes result self.old.taken self.new.taken piece.now }
        ensures opened { self.new.opened ≡ self.old.opened }
        ensures never_fails { result ≡ Written.Ok }
    {
        self.taken.extend(piece);
        Written::Ok
    }

    fn faults(&self) -> u64 {
        0
    }
}
