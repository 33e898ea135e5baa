// What a spawner in memory keeps: how many children it started, the starts and the waits.
ghost use Rattle.std.specs.Prelude.{◌≡◌, [], ◌∷◌, false, IfOk, map, string_bytes, option_map};
ghost use Rattle.roc_io.specs.Observed.{Adds};
ghost use Rattle.roc_io.specs.Spawner.{start_failed, Starts};
ghost use Rattle.roc_io_memory.specs.Spawner.{Numbers, no_children};

use super::start::ChildStart;
use crate::kept::Kept;
use roc_io::{Child, ChildWait, Started};
use std::alloc::{AllocError, Global};
use std::marker::Model;

/// The starts and the waits so far.
#[derive(Drop)]
pub struct Children {
    alloc: Global,
    running: u64,
    started: Kept<ChildStart>,
    awaited: Kept<ChildWait>,
}

impl Model for Children {
    ghost use Rattle.roc_io_memory.specs.Spawner.{Children};

    ghost Value = { Children };

    ghost view = { λ c. record { running = c.running; started = c.started; awaited = c.awaited } };
}

fn copied(alloc: Global, words: &[String]) -> Result<Vec<String>, AllocError>
    ensures { IfOk result (λ copy. map string_bytes copy.items ≡ map string_bytes words.now) }
{
    let mut copy = Vec::with_capacity(alloc, words.len())?;
    for word in words {
        copy.push(String::from_str(alloc, word.as_str())?)?;
    }
    Ok(copy)
}

impl Children {
    pub fn new(alloc: Global) -> Self
        ensures { result ≡ no_children }
    {
        Children {
            alloc,
            running: 0,
            started: Kept::new(alloc),
            awaited: Kept::new(alloc),
        }
    }

    pub fn started(&self) -> Option<&[ChildStart]>
        ensures { option_map (λ started. started.now) result ≡ self.now.started }
    {
        self.started.items()
    }

    pub fn awaited(&self) -> Option<&[ChildWait]>
        ensures { option_map (λ awaited. awaited.now) result ≡ self.now.awaited }
    {
        self.awaited.items()
    }

    pub fn start(&mut self, words: &[String]) -> Started
        ensures no_failure { start_failed result ≡ false }
        ensures number { Numbers result self.old.running self.new.running }
        ensures started { Starts result self.old.started self.new.started (map string_bytes words.now) }
        ensures awaited { self.new.awaited ≡ self.old.awaited }
    {
        match copied(self.alloc, words) {
            Ok(copy) => {
                let child = Child::new(self.running);
                self.running = self.running.saturating_add(1);
                self.started.push(ChildStart::new(child, copy));
                Started::Running(child)
            }
            Err(_) => Started::NoMemory,
        }
    }

    pub fn wait(&mut self, child: Child, status: Option<u8>)
        ensures running { self.new.running ≡ self.old.running }
        ensures started { self.new.started ≡ self.old.started }
        ensures awaited { Adds self.old.awaited self.new.awaited (record { child = child; status = status } ∷ []) }
    {
        self.awaited.push(ChildWait { child, status });
    }
}
