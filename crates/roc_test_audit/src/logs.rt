//! Logs that are audited all at once.
use crate::same::same_items;
use roc_auditor::{AuditFault, Verdict, append_verdict, audit};
use roc_base::{Node, Shard};
use roc_check::check;
use roc_log::{Log, LogLine};
use roc_plan::Plan;
use roc_sequence::Sequence;
use std::alloc::Global;
use std::process::Abort;

const COUNTER: &[u8] = b"shards 1;
table t { x }
proc add(n) { later a at 0 { get v = t[0].x; set t[0].x = v + n; out v; } }
";

const NAMES: [&str; 2] = ["s.log", "c.log"];

// The lines of a node to which nothing came, or which says that it sent a datagram of no bytes.
fn lines_of(rt: &impl Abort, alloc: Global, sends: bool) -> Sequence<LogLine> {
    let mut lines = Sequence::new(alloc);
    lines.push(LogLine::Tick).expect(rt, "memory");
    if sends {
        let done = lines.push(LogLine::Out(Sequence::new(alloc)));
        done.expect(rt, "memory");
    }
    lines
}

// What is found of the logs of the server and of a coordinator, of which one sends.
fn found(rt: &impl Abort, alloc: Global, plan: &Plan, sends: [bool; 2]) -> Verdict {
    let server = Log {
        tag: [0; 8],
        node: Node::Server(Shard(0)),
        lines: lines_of(rt, alloc, sends[0]),
    };
    let coord = Log {
        tag: [0; 8],
        node: Node::Coord(0),
        lines: lines_of(rt, alloc, sends[1]),
    };
    match audit(alloc, plan, &[server, coord]) {
        Ok(verdict) => verdict,
        Err(_) => panic!(rt; "no verdict"),
    }
}

// Which of the two sends, and the text of what is found.
type Case = ([bool; 2], &'static [u8]);

fn is_text(rt: &impl Abort, alloc: Global, verdict: &Verdict, wanted: &[u8]) {
    let mut text = Vec::new(alloc);
    let done = append_verdict(alloc, &mut text, &NAMES, verdict);
    done.expect(rt, "memory");
    same_items(rt, "the text", text.as_slice(), wanted);
}

fn are_found(rt: &impl Abort, alloc: Global, plan: &Plan, cases: &[Case]) {
    for case in cases {
        let verdict = found(rt, alloc, plan, case.0);
        is_text(rt, alloc, &verdict, case.1);
    }
}

const FOUND: [Case; 3] = [
    ([false, false], b"order\nyes 0 answered\n"),
    ([true, false], b"no mismatch s.log:3\n"),
    ([false, true], b"no mismatch c.log:3\n"),
];

fn plan_of(rt: &impl Abort, alloc: Global) -> Plan {
    check(alloc, COUNTER).expect(rt, "a plan")
}

#[test]
fn logs_are_audited_at_once(rt: HostRuntime) {
    are_found(&rt, rt.alloc(), &plan_of(&rt, rt.alloc()), &FOUND);
}

// Whether the server's log is named where it lacks.
fn is_lacking(alloc: Global, plan: &Plan) -> bool {
    let coord = Log {
        tag: [0; 8],
        node: Node::Coord(0),
        lines: Sequence::new(alloc),
    };
    let found = audit(alloc, plan, &[coord]);
    matches!(found, Err(AuditFault::Gap(Shard(0))))
}

#[test]
fn a_shard_without_a_log_is_named(rt: HostRuntime) {
    assert!(rt; is_lacking(rt.alloc(), &plan_of(&rt, rt.alloc())));
}
