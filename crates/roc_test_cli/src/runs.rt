//! Runs of the program over the outside in memory: statuses, what is written, sent, awaited and logged.
use crate::cases::{Case, LIVES, Lives};
use crate::outside::{Outside, Packet, disk_of, hold, outside_of, status_of};
use crate::same::{same, same_items};
use roc_disk_memory::MemDisk;
use roc_io::{ChildWait, Datagram};
use std::alloc::Global;
use std::process::Abort;

fn are_sent(rt: &impl Abort, sent: &[Datagram], wanted: &[Packet]) {
    same(rt, "how many are sent", &sent.len(), &wanted.len());
    for (datagram, (to, bytes)) in sent.iter().zip(wanted) {
        same(rt, "whom one is sent to", &datagram.address(), to);
        same_items(rt, "what is sent", datagram.bytes(), bytes);
    }
}

fn are_awaited(rt: &impl Abort, awaited: &[ChildWait], wanted: &[u64]) {
    same(rt, "how many are awaited", &awaited.len(), &wanted.len());
    for (wait, number) in awaited.iter().zip(wanted) {
        same(rt, "who is awaited", &wait.child.number(), number);
    }
}

fn have_seen(rt: &impl Abort, outside: &Outside, case: &Case) {
    let out = outside.out.bytes().expect(rt, "told");
    same_items(rt, "the output", out, case.out);
    let line = outside.err.bytes().expect(rt, "told");
    same_items(rt, "the line", line, case.err);
    let log = outside.book.bytes().expect(rt, "told");
    same_items(rt, "the log", log, case.log);
    are_sent(rt, outside.link.sent().expect(rt, "told"), case.sent);
    are_awaited(
        rt,
        outside.children.awaited().expect(rt, "told"),
        case.awaited,
    );
}

fn ends(rt: &impl Abort, alloc: Global, case: &Case, outside: &mut Outside, disk: &mut MemDisk) {
    let status = status_of(rt, alloc, case.words, outside, disk);
    same(rt, "the status", &status, &case.status);
    have_seen(rt, outside, case);
}

fn runs(rt: &impl Abort, alloc: Global, case: &Case, disk: &mut MemDisk) {
    let mut outside = outside_of(rt, alloc, case.arrivals, &case.failing);
    ends(rt, alloc, case, &mut outside, disk);
}

fn live(rt: &impl Abort, alloc: Global, lives: &Lives, disk: &mut MemDisk) {
    hold(rt, disk, lives.journal);
    for case in lives.cases {
        runs(rt, alloc, case, disk);
    }
}

#[test]
fn statuses_tell_what_came(rt: HostRuntime) {
    for lives in &LIVES {
        live(
            &rt,
            rt.alloc(),
            lives,
            &mut disk_of(&rt, rt.alloc(), lives.failing),
        );
    }
}
