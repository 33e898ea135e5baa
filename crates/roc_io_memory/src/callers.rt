//! Callers over any implementation of a trait, which show that its clauses carry.
ghost use Rattle.std.specs.Prelude.{◌≡◌, ℕ, ◌≤◌, List, Option, None, IsNone, IfSome};
ghost use Rattle.roc_io.specs.Cause.{HasCause, Rose};
ghost use Rattle.roc_io.specs.Observed.{AddsIf};
ghost use Rattle.roc_io.specs.Files.{Reads, Fills};
ghost use Rattle.roc_io_memory.specs.Callers.{two_failed, first_answer, second_answer, last_name, IsStoppedRead, FillsSecond, drain_failed, Drains, WaitsAll};

use roc_io::{Arrival, Child, ChildWait, Datagram, Files, Link, Read, Spawner};
use std::alloc::Global;

/// What the reads of two names in order answer.
#[derive(Clone, Copy, Debug, PartialEq, Eq)]
pub enum TwoRead {
    /// Both were read.
    Both,
    /// The first was not, for this reason, and the second was not tried.
    First(Read),
    /// The first was read, and the second was not, for this reason.
    Second(Read),
}

/// Reads two names in order, each up to a limit; the first that is not read decides.
/// A buffer whose name was not read is left empty.
pub fn read_two<F: Files>(
    files: &mut F,
    names: (&str, &str),
    first: &mut Vec<u8>,
    second: &mut Vec<u8>,
    limit: usize,
) -> TwoRead
    ensures cause { HasCause (two_failed result) (F.faults files.old) (F.faults files.new) }
    ensures failed { AddsIf (two_failed result) (F.failed_names files.old) (F.failed_names files.new) (last_name result names.entry.0.now names.entry.1.now) }
    ensures stopped { IsStoppedRead result }
    ensures first_fills { Fills (first_answer result) limit first.new.items }
    ensures second_fills { FillsSecond (second_answer result) limit second.new.items }

    // Where the bytes of a name are told.
    ensures first_told { IfSome (F.content files.old names.entry.0.now) (λ bytes. Reads (first_answer result) bytes limit first.new.items) }
    ensures second_told { IfSome (F.content files.old names.entry.1.now) (λ bytes.
        IfSome (second_answer result) (λ answer. Reads answer bytes limit second.new.items)) }
    ensures unchanged { (other : List ℕ) → F.content files.new other ≡ F.content files.old other }
{
    second.clear();
    match files.read(names.0, first, limit) {
        Read::Ok => match files.read(names.1, second, limit) {
            Read::Ok => TwoRead::Both,
            answer => TwoRead::Second(answer),
        },
        answer => TwoRead::First(answer),
    }
}

/// Why `drain` ended.
#[derive(Clone, Copy, Debug, PartialEq, Eq)]
pub enum Drained {
    /// The link was quiet.
    Quiet,
    /// All turns were taken, each by a datagram.
    Turns,
    /// There was no memory for a datagram.
    NoMemory,
    /// The link failed.
    Failed,
}

/// Receives datagrams, and adds them to a list, until the link is quiet or so many turns were taken.
pub fn drain<L: Link>(alloc: Global, link: &mut L, turns: u32, into: &mut Vec<Datagram>) -> Drained
    ensures cause { HasCause (drain_failed result) (L.faults link.old) (L.faults link.new) }
    ensures taken { Drains result turns (L.arrivals link.old) (L.arrivals link.new) into.old.items into.new.items }
    ensures lost { L.lost link.new ≡ L.lost link.old }
    ensures bound { L.bound link.new ≡ L.bound link.old }
    ensures sent { L.sent link.new ≡ L.sent link.old }
{
    for _ in 0..turns {
        // Room first: a datagram that was received is then kept.
        if into.reserve(1).is_err() {
            return Drained::NoMemory;
        }
        let mut bytes = Vec::new(alloc);
        match link.receive(&mut bytes) {
            Arrival::Datagram { from } => into.push(Datagram::new(from, bytes)).unwrap(),
            Arrival::Quiet => return Drained::Quiet,
            Arrival::NoMemory => return Drained::NoMemory,
            Arrival::Failed => return Drained::Failed,
        }
    }
    Drained::Turns
}

/// Awaits each child in order, also after one that ended badly, and answers the first wait that did not end
/// with status 0.
pub fn wait_all<P: Spawner, L: Link>(
    spawner: &mut P,
    children: &[Child],
    link: &L,
) -> Option<ChildWait>
    ensures awaited { WaitsAll (P.awaited spawner.old) (P.awaited spawner.new) children.now result }
    ensures failed { IfSome result (λ wait. IsNone wait.status → Rose (P.faults spawner.old) (P.faults spawner.new)) }
    ensures succeeded { result ≡ None → P.faults spawner.new ≡ P.faults spawner.old }
    ensures never_falls { P.faults spawner.old ≤ P.faults spawner.new }
    ensures started { P.started spawner.new ≡ P.started spawner.old }
{
    let mut first = None;
    for child in children {
        let wait = ChildWait {
            child: *child,
            status: spawner.wait(*child, link),
        };
        first = first.or(wait.failure());
    }
    first
}
