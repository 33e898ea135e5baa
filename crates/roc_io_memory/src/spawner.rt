// Spawners in memory.
ghost use Rattle.std.specs.Prelude.{◌≡◌, ◌∷◌, [], Some, None, false, is_none, if◌then◌else◌, map, string_bytes, option_map, slice_index};
ghost use Rattle.roc_io_memory.specs.Calls.{calls_failing, next_fails, called};
ghost use Rattle.roc_io.specs.Cause.{HasCause};
ghost use Rattle.roc_io.specs.Observed.{Adds};
ghost use Rattle.roc_io.specs.Spawner.{start_failed, Starts};
ghost use Rattle.roc_io_memory.specs.Spawner.{Numbers, no_children, status_of};

mod children;
pub mod start;

use crate::calls::Calls;
use children::Children;
use roc_io::{Child, ChildWait, Link, Spawner, Started};
use start::ChildStart;
use std::alloc::Global;
use std::marker::Model;

/// A spawner that starts nothing: it keeps the words of each start, gives each child a stored status, and
/// fails at the calls that it was told to fail at.
///
/// A child's number is the number of children that were started before it. Once there is no memory for a
/// start or a wait that was made, it tells no starts, or no waits, any more; what it answers does not
/// change by that.
#[derive(Drop)]
pub struct MemSpawner {
    children: Children,
    statuses: Vec<Option<u8>>,
    calls: Calls,
}

impl Model for MemSpawner {
    ghost use Rattle.roc_io_memory.specs.Spawner.{SpawnerState};

    ghost Value = { SpawnerState };

    ghost view = { λ s. record { children = s.children; statuses = s.statuses.items; calls = s.calls } };
}

fn status_of(statuses: &[Option<u8>], child: Child) -> Option<u8>
    ensures { result ≡ status_of statuses.now child }
{
    let place = usize::try_from(child.number()).ok()?;
    *statuses.get(place)?
}

impl MemSpawner {
    /// A spawner whose children, in the order of their starts, end with these statuses; one past them
    /// ends without a status. Of its starts and waits, numbered together from 1, those in `failing` are to
    /// fail.
    pub fn new(alloc: Global, statuses: Vec<Option<u8>>, failing: Vec<u64>) -> Self
        ensures { result ≡ record { children = no_children; statuses = statuses.items; calls = calls_failing failing.items } }
    {
        MemSpawner {
            children: Children::new(alloc),
            statuses,
            calls: Calls::new(failing),
        }
    }

    /// The starts, in order, where they are told.
    pub fn started(&self) -> Option<&[ChildStart]>
        ensures { option_map (λ started. started.now) result ≡ self.now.children.started }
    {
        self.children.started()
    }

    /// The waits, in order, where they are told.
    pub fn awaited(&self) -> Option<&[ChildWait]>
        ensures { option_map (λ awaited. awaited.now) result ≡ self.now.children.awaited }
    {
        self.children.awaited()
    }
}

impl Spawner for MemSpawner {
    ghost faults = { λ s. s.calls.faults };

    ghost started = { λ s. s.children.started };

    ghost awaited = { λ s. s.children.awaited };

    ghost sent_at_waits = { λ s. None };

    fn start(&mut self, words: &[String]) -> Started
        ensures cause { HasCause (start_failed result) self.old.calls.faults self.new.calls.faults }
        ensures started { Starts result self.old.children.started self.new.children.started (map string_bytes words.now) }
        ensures awaited { self.new.children.awaited ≡ self.old.children.awaited }
        ensures number { Numbers result self.old.children.running self.new.children.running }
        ensures failed { start_failed result ≡ next_fails false self.old.calls }
        ensures calls { self.new.calls ≡ called false self.old.calls }
        ensures statuses { self.new.statuses ≡ self.old.statuses }
    {
        if self.calls.next_fails(false) {
            Started::Failed
        } else {
            self.children.start(words)
        }
    }

    fn wait<L: Link>(&mut self, child: Child, _link: &L) -> Option<u8>
        ensures cause { HasCause (is_none result) self.old.calls.faults self.new.calls.faults }
        ensures started { self.new.children.started ≡ self.old.children.started }
        ensures awaited { Adds self.old.children.awaited self.new.children.awaited (record { child = child; status = result } ∷ []) }
        ensures status { let stored = status_of self.old.statuses child in
            result ≡ (if next_fails (is_none stored) self.old.calls then None else stored) }
        ensures running { self.new.children.running ≡ self.old.children.running }
        ensures calls { self.new.calls ≡ called (is_none (status_of self.old.statuses child)) self.old.calls }
        ensures statuses { self.new.statuses ≡ self.old.statuses }
    {
        let stored = status_of(&self.statuses, child);
        let status = if self.calls.next_fails(stored.is_none()) {
            None
        } else {
            stored
        };
        self.children.wait(child, status);
        status
    }

    fn faults(&self) -> u64 {
        self.calls.faults()
    }
}

/// A spawner that starts nothing and never fails: it keeps the words of each start, and gives each child a
/// stored status.
///
/// A child's number is the number of children that were started before it. Once there is no memory for a
/// start or a wait that was made, it tells no starts, or no waits, any more, and goes on to answer.
#[derive(Drop)]
pub struct CalmSpawner {
    children: Children,
    statuses: Vec<u8>,
}

impl Model for CalmSpawner {
    ghost use Rattle.roc_io_memory.specs.Spawner.{CalmSpawnerState};

    ghost Value = { CalmSpawnerState };

    ghost view = { λ s. record { children = s.children; statuses = s.statuses.items } };
}

impl CalmSpawner {
    /// A spawner whose children, in the order of their starts, end with these statuses; one past them ends
    /// with status 0.
    pub fn new(alloc: Global, statuses: Vec<u8>) -> Self
        ensures { result ≡ record { children = no_children; statuses = statuses.items } }
    {
        CalmSpawner {
            children: Children::new(alloc),
            statuses,
        }
    }

    /// The starts, in order, where they are told.
    pub fn started(&self) -> Option<&[ChildStart]>
        ensures { option_map (λ started. started.now) result ≡ self.now.children.started }
    {
        self.children.started()
    }

    /// The waits, in order, where they are told.
    pub fn awaited(&self) -> Option<&[ChildWait]>
        ensures { option_map (λ awaited. awaited.now) result ≡ self.now.children.awaited }
    {
        self.children.awaited()
    }
}

// The status of a child by its number, and 0 past the end.
fn stored_status(statuses: &[u8], child: Child) -> u8
    ensures { result ≡ slice_index statuses.now child }
{
    match usize::try_from(child.number()) {
        Ok(place) if place < statuses.len() => statuses[place],
        _ => 0,
    }
}

impl Spawner for CalmSpawner {
    ghost faults = { λ _. 0 };

    ghost started = { λ s. s.children.started };

    ghost awaited = { λ s. s.children.awaited };

    ghost sent_at_waits = { λ s. None };

    fn start(&mut self, words: &[String]) -> Started
        ensures started { Starts result self.old.children.started self.new.children.started (map string_bytes words.now) }
        ensures awaited { self.new.children.awaited ≡ self.old.children.awaited }
        ensures number { Numbers result self.old.children.running self.new.children.running }
        ensures statuses { self.new.statuses ≡ self.old.statuses }
        ensures never_fails { start_failed result ≡ false }
    {
        self.children.start(words)
    }

    fn wait<L: Link>(&mut self, child: Child, _link: &L) -> Option<u8>
        ensures started { self.new.children.started ≡ self.old.children.started }
        ensures awaited { Adds self.old.children.awaited self.new.children.awaited (record { child = child; status = result } ∷ []) }
        ensures running { self.new.children.running ≡ self.old.children.running }
        ensures statuses { self.new.statuses ≡ self.old.statuses }
        ensures never_fails { result ≡ Some (slice_index self.old.statuses child) }
    {
        let status = Some(stored_status(&self.statuses, child));
        self.children.wait(child, status);
        status
    }

    fn faults(&self) -> u64 {
        0
    }
}
