//! Stops, over links in memory.
use roc_cluster::parse_cluster;
use roc_io::{Addr, Datagram};
use roc_io_memory::MemLink;
use roc_node_local::{StopEnd, send_stops};
use std::alloc::Global;
use std::process::Abort;

const TWO_SHARDS: &[u8] = b"[[shard]]
number = 0
host = \"10.0.0.1\"
port = 7000

[[shard]]
number = 1
host = \"10.0.0.2\"
port = 7001
";

const FIRST: Addr = Addr {
    host: [10, 0, 0, 1],
    port: 7000,
};

const SECOND: Addr = Addr {
    host: [10, 0, 0, 2],
    port: 7001,
};

const ANY: Addr = Addr {
    host: [0, 0, 0, 0],
    port: 0,
};

// The magic, the version, the kind, the tag, the role and the number of the sender.
const STOP: &[u8] = b"RCO1\x02\x07tagoften\x01\x00\x00";

// The binds and the sends that fail, how the call ends, what it binds, and whom it sends stops.
struct Case {
    name: &'static str,
    failing: &'static [u64],
    losing: &'static [u64],
    end: StopEnd,
    bound: &'static [Addr],
    sent: &'static [Addr],
}

static CASES: [Case; 3] = [
    Case {
        name: "each server gets three stops",
        failing: &[],
        losing: &[],
        end: StopEnd::Done,
        bound: &[ANY],
        sent: &[FIRST, FIRST, FIRST, SECOND, SECOND, SECOND],
    },
    Case {
        name: "stops that fail are lost",
        failing: &[],
        losing: &[1, 5],
        end: StopEnd::Done,
        bound: &[ANY],
        sent: &[FIRST, FIRST, SECOND, SECOND],
    },
    Case {
        name: "no stop is sent where the bind fails",
        failing: &[1],
        losing: &[],
        end: StopEnd::LinkFault,
        bound: &[],
        sent: &[],
    },
];

// An assertion in a function of its own is proved once.
fn holds(rt: &impl Abort, name: &str, is_so: bool) {
    assert!(rt; is_so, "{}", name);
}

fn are_bound(rt: &impl Abort, name: &str, bound: &[Addr], wanted: &[Addr]) {
    holds(rt, name, bound == wanted);
}

fn are_stops_to(rt: &impl Abort, name: &str, sent: &[Datagram], wanted: &[Addr]) {
    holds(rt, name, sent.len() == wanted.len());
    for (datagram, addr) in sent.iter().zip(wanted) {
        holds(rt, name, datagram.address() == *addr);
        holds(rt, name, datagram.bytes() == STOP);
    }
}

fn stops(rt: &impl Abort, alloc: Global, case: &Case, link: &mut MemLink) {
    let cluster = parse_cluster(alloc, TWO_SHARDS, 2).expect(rt, "a cluster");
    let end = send_stops(alloc, *b"tagoften", &cluster, link);
    holds(rt, case.name, end == case.end);
    are_bound(rt, case.name, link.bound().expect(rt, "told"), case.bound);
    are_stops_to(rt, case.name, link.sent().expect(rt, "told"), case.sent);
}

fn stops_over(rt: &impl Abort, alloc: Global, case: &Case) {
    let failing = case.failing.to_vec(alloc).expect(rt, "memory");
    let losing = case.losing.to_vec(alloc).expect(rt, "memory");
    let mut link = MemLink::new(alloc, Vec::new(alloc), failing, losing);
    stops(rt, alloc, case, &mut link);
}

#[test]
fn stops_are_sent_as_told(rt: HostRuntime) {
    for case in &CASES {
        stops_over(&rt, rt.alloc(), case);
    }
}
