//! When a receive is quiet.
//!
//! A node sends again what is open when a receive is quiet. Where it did so by the clock alone, whatever comes, what is sent for nothing would
//! grow with what is open, and keep the others from answering. So a link waits longer where it was quiet, up to a bound, and datagrams
//! earn the shorter wait back. `docs/NODES.md`, "Turns", has the rule in words.
use std::time::{Clock, Duration, Instant};

/// The shortest wait for a datagram, and the first, in milliseconds.
pub(crate) const SHORTEST_MILLIS: u64 = 20;

/// The longest wait for a datagram, in milliseconds.
const LONGEST_MILLIS: u64 = 320;

/// How many datagrams halve the wait.
const HALVING_DATAGRAMS: u64 = 128;

/// Behind so many datagrams, and so many milliseconds, a receive is quiet at once.
const MANY_DATAGRAMS: u64 = 512;

const MANY_MILLIS: u64 = 100;

/// Behind so many milliseconds a receive is quiet at once, however few datagrams came.
const MOST_MILLIS: u64 = 640;

/// How long a receive waits, and what came since the last quiet one, or since the bind.
#[derive(Drop)]
pub(crate) struct Pace {
    since: Option<Instant>,
    wait: u64,
    came: u64,
}

impl Pace {
    /// That of a link that is bound now.
    pub fn new<M: Clock>(machine: &M) -> Pace {
        Pace {
            since: Instant::now(machine).ok(),
            wait: SHORTEST_MILLIS,
            came: 0,
        }
    }

    /// How long ago the last quiet receive was, where the clock can be read.
    pub fn passed<M: Clock>(&self, machine: &M) -> Option<Duration> {
        self.since?.elapsed(machine).ok()
    }

    /// Whether a receive that begins so long behind the last quiet one is quiet at once.
    pub fn is_due(&self, passed: Option<Duration>) -> bool {
        let Some(passed) = passed else {
            return false;
        };
        let is_enough = self.came >= MANY_DATAGRAMS && passed >= Duration::from_millis(MANY_MILLIS);
        is_enough || passed >= Duration::from_millis(MOST_MILLIS)
    }

    /// Whether a receive has waited long enough that began so long behind the last quiet one. Where the clock cannot be read, one wait of the
    /// system is enough.
    pub fn is_over<M: Clock>(&self, machine: &M, begun: Option<Duration>) -> bool {
        match (begun, self.passed(machine)) {
            (Some(begun), Some(passed)) => {
                passed.saturating_sub(begun) >= Duration::from_millis(self.wait)
            }
            _ => true,
        }
    }

    /// Notes that a datagram came.
    pub fn note_datagram(&mut self) {
        self.came = self.came.saturating_add(1);
        if self.came % HALVING_DATAGRAMS == 0 {
            self.wait = (self.wait / 2).max(SHORTEST_MILLIS);
        }
    }

    /// Notes that a receive was quiet. The wait grows only where a datagram came since the one before: a node that hears nobody goes on as it was.
    pub fn note_quiet<M: Clock>(&mut self, machine: &M) {
        if self.came > 0 {
            self.wait = self.wait.saturating_mul(2).min(LONGEST_MILLIS);
        }
        self.came = 0;
        self.since = Instant::now(machine).ok();
    }
}
