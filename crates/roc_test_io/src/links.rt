//! Links in memory, with calls that fail.
ghost use Rattle.std.specs.Prelude.{◌≡◌, false};
ghost use Rattle.roc_io_memory.specs.Callers.{drain_failed};

use crate::same::{bytes_of, same, same_items};
use roc_io::{Addr, Arrival, Bound, Datagram, Link, Sent, send_all};
use roc_io_memory::{CalmLink, Drained, MemLink, drain};
use std::alloc::Global;
use std::process::Abort;

const THERE: Addr = Addr {
    host: [10, 0, 0, 2],
    port: 9,
};

fn two_datagrams(rt: &impl Abort, alloc: Global) -> Vec<Datagram> {
    let one = Datagram::copied(alloc, THERE, b"one").expect(rt, "memory");
    let two = Datagram::new(THERE, bytes_of(rt, alloc, b"two"));
    vec![in alloc; one, two].expect(rt, "memory")
}

// Over a link that never fails, the cause of a failure is excluded.
fn drain_calmly(alloc: Global, link: &mut CalmLink, into: &mut Vec<Datagram>) -> Drained
    ensures { drain_failed result ≡ false }
{
    drain(alloc, link, 10, into)
}

fn gives_one(rt: &impl Abort, link: &mut CalmLink, into: &mut Vec<u8>) {
    let arrival = link.receive(into);
    same(
        rt,
        "the arrival",
        &arrival,
        &Arrival::Datagram { from: THERE },
    );
    same_items(rt, "its bytes", into.as_slice(), b"one".as_slice());
}

fn gives_the_rest(rt: &impl Abort, alloc: Global, link: &mut CalmLink, rest: &mut Vec<Datagram>) {
    same(
        rt,
        "the drain",
        &drain_calmly(alloc, link, rest),
        &Drained::Quiet,
    );
    let found = (rest.len(), link.left().len(), link.faults());
    same(rt, "the rest", &found, &(1, 0, 0));
}

#[test]
fn a_calm_link_gives_its_arrivals_and_is_quiet_then(rt: HostRuntime) {
    let alloc = rt.alloc();
    let mut into = bytes_of(&rt, alloc, b"before");
    let mut link = CalmLink::new(alloc, two_datagrams(&rt, alloc));
    gives_one(&rt, &mut link, &mut into);
    gives_the_rest(&rt, alloc, &mut link, &mut Vec::new(alloc));
}

fn is_go(rt: &impl Abort, sent: &Datagram) {
    same(rt, "its address", &sent.address(), &THERE);
    same_items(rt, "its bytes", sent.bytes(), b"go".as_slice());
}

fn keeps_both(rt: &impl Abort, link: &mut CalmLink) {
    let found = (link.bind(THERE), link.send(THERE, b"go"));
    same(rt, "the calls", &found, &(Bound::Ok, Sent::Ok));
    let bound = link.bound().expect(rt, "told");
    same_items(rt, "the bound", bound, [THERE].as_slice());
    same(rt, "the lost", &link.lost(), &0);
    let sent = link.sent().expect(rt, "told");
    is_go(rt, sent.first().expect(rt, "sent"));
}

#[test]
fn a_calm_link_keeps_what_it_binds_and_sends(rt: HostRuntime) {
    let alloc = rt.alloc();
    keeps_both(&rt, &mut CalmLink::new(alloc, Vec::new(alloc)));
}

// A link to which these datagrams come, whose calls of these numbers fail, and which loses these sends.
fn link_of(
    rt: &impl Abort,
    alloc: Global,
    arrivals: Vec<Datagram>,
    failing: &[u64],
    losing: &[u64],
) -> MemLink {
    let failing = failing.to_vec(alloc).expect(rt, "memory");
    let losing = losing.to_vec(alloc).expect(rt, "memory");
    MemLink::new(alloc, arrivals, failing, losing)
}

fn loses_the_first(rt: &impl Abort, link: &mut MemLink, datagrams: &[Datagram]) {
    send_all(link, datagrams);
    same(rt, "the calls", &(link.faults(), link.lost()), &(0, 1));
    let sent = link.sent().expect(rt, "told");
    same(rt, "the sent", &sent.len(), &1);
    let first = sent.first().expect(rt, "the first");
    same_items(rt, "its bytes", first.bytes(), b"two".as_slice());
}

#[test]
fn a_send_that_fails_is_lost(rt: HostRuntime) {
    let alloc = rt.alloc();
    let mut link = link_of(&rt, alloc, Vec::new(alloc), &[], &[1]);
    loses_the_first(&rt, &mut link, &two_datagrams(&rt, alloc));
}

fn fails_both(rt: &impl Abort, alloc: Global, link: &mut MemLink, into: &mut Vec<Datagram>) {
    same(rt, "the bind", &link.bind(THERE), &Bound::Failed);
    same(
        rt,
        "the drain",
        &drain(alloc, link, 2, into),
        &Drained::Failed,
    );
    let found = (into.len(), link.left().len(), link.faults());
    same(rt, "what is left", &found, &(1, 1, 2));
}

#[test]
fn binds_and_receives_fail_where_told(rt: HostRuntime) {
    let alloc = rt.alloc();
    let mut link = link_of(&rt, alloc, two_datagrams(&rt, alloc), &[1, 3], &[]);
    fails_both(&rt, alloc, &mut link, &mut Vec::new(alloc));
}
