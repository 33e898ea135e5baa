// Where a program starts other processes.
ghost use Rattle.std.specs.Prelude.{◌≡◌, ℕ, List, [], ◌∷◌, Option, Some, None, is_none, if◌then◌else◌, map, string_bytes};
ghost use Rattle.roc_io.specs.Cause.{HasCause};
ghost use Rattle.roc_io.specs.Observed.{Adds};
ghost use Rattle.roc_io.specs.Spawner.{start_failed, Starts, all_start_failed, command_words, StartsAll};
ghost use Rattle.roc_io.specs.Packet.{Packet};
ghost use Rattle.roc_io.specs.Start.{Start};
ghost use Rattle.roc_io.specs.declared.spawner.ChildWait.{ChildWait};

pub mod child;

use crate::Link;
use child::Child;

/// What a start answers.
#[derive(Clone, Copy, PartialEq, Eq)]
pub enum Started {
    /// This child runs.
    Running(Child),
    /// There was no memory for the start; nothing was started.
    NoMemory,
    /// The child could not be started.
    Failed,
}

/// A wait that ended: the child, and what the wait answered.
#[derive(Clone, Copy, Debug, PartialEq, Eq)]
pub struct ChildWait {
    /// The child that was awaited.
    pub child: Child,
    /// The status with which it ended. There is none where the wait failed, or where the child ended
    /// without a status, as one that a signal ended does.
    pub status: Option<u8>,
}

impl ChildWait {
    ghost use Rattle.roc_io.specs.Spawner.{ended_badly};

    /// This wait, unless the child ended with status 0.
    pub fn failure(self) -> Option<ChildWait>
        ensures { result ≡ (if ended_badly self then Some self else None) }
    {
        match self.status {
            Some(0) => None,
            _ => Some(self),
        }
    }
}

/// Starts children and awaits their ends.
pub trait Spawner {
    /// How many starts and waits have failed.
    ghost faults: { Self → ℕ };

    /// The children that were started, in order, each with its words, where they are told.
    ghost started: { Self → Option (List Start) };

    /// The waits, in order, where they are told.
    ghost awaited: { Self → Option (List ChildWait) };

    /// What a link had sent when each wait began, in the order of the waits, where it is told.
    ghost sent_at_waits: { Self → Option (List (Option (List Packet))) };

    /// Starts a child with these words, the first of which is not the program's name.
    fn start(&mut self, words: &[String]) -> Started
        ensures cause { HasCause (start_failed result) (faults self.old) (faults self.new) }
        ensures started { Starts result (started self.old) (started self.new) (map string_bytes words.now) }
        ensures awaited { awaited self.new ≡ awaited self.old }
        ensures sent_at_waits { sent_at_waits self.new ≡ sent_at_waits self.old };

    /// Waits until a child ends, and answers its status. None is a failure, and is counted: the wait
    /// failed, or the child ended without a status. The link is lent for what it had sent by then: so a
    /// contract can say what was sent before a child is awaited.
    fn wait<L: Link>(&mut self, child: Child, link: &L) -> Option<u8>
        ensures cause { HasCause (is_none result) (faults self.old) (faults self.new) }
        ensures started { started self.new ≡ started self.old }
        ensures awaited { Adds (awaited self.old) (awaited self.new) (record { child = child; status = result } ∷ []) }
        ensures sent_at_waits { Adds (sent_at_waits self.old) (sent_at_waits self.new) (L.sent link.now ∷ []) };

    /// The count of failures.
    fn faults(&self) -> u64
        ensures { result ≡ faults self.now };
}

/// What the starts of several children answer.
#[derive(Clone, Copy, Debug, PartialEq, Eq)]
pub enum AllStarted {
    /// All run.
    Ok,
    /// There was no memory for one; those after it were not tried.
    NoMemory,
    /// One could not be started; those after it were not tried.
    Failed,
}

/// Starts a child for each list of words, in order, until one does not start. Those that run are added to
/// `children`.
pub fn start_all<P: Spawner>(
    spawner: &mut P,
    commands: &[Vec<String>],
    children: &mut Vec<Child>,
) -> AllStarted
    ensures cause { HasCause (all_start_failed result) (P.faults spawner.old) (P.faults spawner.new) }
    ensures started { StartsAll result (P.started spawner.old) (P.started spawner.new)
        (map command_words commands.now) children.old.items children.new.items }
    ensures awaited { P.awaited spawner.new ≡ P.awaited spawner.old }
    ensures sent_at_waits { P.sent_at_waits spawner.new ≡ P.sent_at_waits spawner.old }
{
    for words in commands {
        // Room first: a child that runs is then kept.
        if children.reserve(1).is_err() {
            return AllStarted::NoMemory;
        }
        match spawner.start(words) {
            Started::Running(child) => children.push(child).unwrap(),
            Started::NoMemory => return AllStarted::NoMemory,
            Started::Failed => return AllStarted::Failed,
        }
    }
    AllStarted::Ok
}
