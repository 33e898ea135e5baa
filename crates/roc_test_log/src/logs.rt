//! Logs: their lines, told back, and the first faults of other bytes.
use roc_base::Node;
use roc_lang_parse::parse;
use roc_lang_resolve::resolve;
use roc_log::{Log, LogLine, parse_log};
use roc_program::Workload;
use std::alloc::Global;
use std::process::Abort;

// Procedures without and with arguments, and a view.
const WORKLOAD: &[u8] = b"shards 2;
table t { x }
proc add(n) { later a at 0 { get u = t[0].x; set t[0].x = u + n; out u; } }
proc mark() { later a at 1 { set t[0].x = 1; } }
proc look() view { later a at 0 { get u = t[0].x; out u; } }
";

const TAG: [u8; 8] = [1, 2, 3, 4, 5, 6, 7, 8];

// Logs, and the first faults of other bytes, there being a log of coordinator 3. The datagrams are a stop of coordinator 0 and a fetch of shard 1.
const LOGS: [(&[u8], &str); 37] = [
    (b"node s0", "s0 "),
    (
        b"node c15\nsubmit add 5\nsubmit add -9223372036854775808\nsubmit mark\nin 52434f3102070102030405060708010000\ntick\n\
        out 52434f310205010203040506070800000100000000000001\nanswer 0.0 -0 9223372036854775807\nanswer 15.4294967295",
        "c15 submit 0 5;submit 0 -9223372036854775808;submit 1;in 17;tick;out 24;answer 0.0 0 9223372036854775807;answer 15.4294967295;",
    ),
    (
        b"node s1\ntick\nin 52434f310205010203040506070800000100000000000001\nout 52434f3102070102030405060708010000\ntick\n",
        "s1 tick;in 24;out 17;tick;",
    ),
    (
        b"node s1\ntick\nin 52434f3102070102030405060708010000\n",
        "s1 tick;in 17;",
    ),
    (b"", "line 1: word"),
    (b"\n", "line 1: word"),
    (b"tick\n", "line 1: word"),
    (b"node s0 \n", "line 1: word"),
    (b"node  s0\n", "line 1: word"),
    (b"node s0\r\n", "line 1: word"),
    (b"node s00\n", "line 1: word"),
    (b"node c9223372036854775808\n", "line 1: word"),
    (b"node c9223372036854775807\n", "line 1: node"),
    (b"node c16\ntock\n", "line 1: node"),
    (b"node s2\n", "line 1: node"),
    (b"node c3\n", "line 1: twice c3"),
    (b"node s0\nnode s0\n", "line 2: word"),
    (b"node s0\n\ntick\n", "line 2: word"),
    (b"node s0\ntick\ntock\n", "line 3: word"),
    (b"node s0\ntick 1\n", "line 2: word"),
    (b"node s0\nsubmit add 5\n", "line 2: word"),
    (b"node s0\nanswer 0.0 0\n", "line 2: word"),
    (b"node s0\nin\n", "line 2: word"),
    (b"node s0\nin 52434f310207\n", "line 2: word"),
    (
        b"node s0\nin 52434F3102070102030405060708010000\n",
        "line 2: word",
    ),
    (
        b"node s0\nout 52434f3102070002030405060708010000\n",
        "line 2: word",
    ),
    (
        b"node s0\nin 52434f3102070102030405060708010000\ntick\n",
        "line 3: word",
    ),
    (b"node c0\nsubmit\n", "line 2: word"),
    (b"node c0\nsubmit add x\n", "line 2: word"),
    (b"node c0\nsubmit set 5\n", "line 2: word"),
    (b"node c0\nanswer 16.0 1\n", "line 2: word"),
    (b"node c0\nanswer 0.4294967296 1\n", "line 2: word"),
    (b"node c0\nanswer 0.0.0 1\n", "line 2: word"),
    (b"node c0\nsubmit sub 5\ntock\n", "line 2: procedure"),
    (b"node c0\nsubmit add\n", "line 2: arguments"),
    (b"node c0\nsubmit look 5\n", "line 2: arguments"),
    (b"node c0\ntick\nsubmit look\n", "line 3: view"),
];

fn workload_of(rt: &impl Abort, alloc: Global) -> Workload {
    let source = parse(alloc, WORKLOAD).expect(rt, "a text");
    resolve(alloc, source).expect(rt, "a workload")
}

fn push_integers(rt: &impl Abort, text: &mut String, numbers: &[i64]) {
    for number in numbers {
        write!(text, " {number}").expect(rt, "memory");
    }
}

fn push_size(rt: &impl Abort, text: &mut String, what: &str, size: usize) {
    write!(text, "{what} {size}").expect(rt, "memory");
}

fn push_line(rt: &impl Abort, text: &mut String, line: &LogLine) {
    match line {
        LogLine::Submit { proc, args } => {
            write!(text, "submit {proc}").expect(rt, "memory");
            push_integers(rt, text, args.as_slice());
        }
        LogLine::In(bytes) => push_size(rt, text, "in", bytes.len()),
        LogLine::Tick => text.push_str("tick").expect(rt, "memory"),
        LogLine::Out(bytes) => push_size(rt, text, "out", bytes.len()),
        LogLine::Answer { id, reply } => {
            write!(text, "answer {id}").expect(rt, "memory");
            push_integers(rt, text, reply.as_slice());
        }
    }
}

fn push_log(rt: &impl Abort, text: &mut String, log: &Log) {
    let node = log.node;
    write!(text, "{node} ").expect(rt, "memory");
    for line in log.lines.as_slice() {
        push_line(rt, text, line);
        text.push(';').expect(rt, "memory");
    }
}

// What is read: the node and each line, or the first fault.
fn tell(rt: &impl Abort, alloc: Global, workload: &Workload, bytes: &[u8], text: &mut String) {
    match &parse_log(alloc, workload, &TAG, &[Node::Coord(3)], bytes) {
        Ok(log) => push_log(rt, text, log),
        Err(fault) => write!(text, "{fault}").expect(rt, "memory"),
    }
}

fn is_told(rt: &impl Abort, alloc: Global, workload: &Workload, case: &(&[u8], &str)) {
    let mut told = String::new(alloc);
    tell(rt, alloc, workload, case.0, &mut told);
    assert_eq!(rt; told.as_str(), case.1);
}

fn are_told(rt: &impl Abort, alloc: Global, workload: &Workload, cases: &[(&[u8], &str)]) {
    for case in cases {
        is_told(rt, alloc, workload, case);
    }
}

#[test]
fn lines_and_first_faults(rt: HostRuntime) {
    are_told(&rt, rt.alloc(), &workload_of(&rt, rt.alloc()), &LOGS);
}
