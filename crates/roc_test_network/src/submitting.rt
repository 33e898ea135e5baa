//! Coordinators that submit requests: silence, answers and calls that fail.
use crate::coordinators::{ANSWERS, Case, submits};
use crate::datagrams::{COMMIT, START};
use crate::logging::SUBMITTED;
use crate::outside::{Failing, NOTHING, Seen};
use crate::workloads::{ANY, FIRST_SHARD};
use roc_node_submit::SubmitEnd;
use std::alloc::Global;
use std::process::Abort;

static RUNS: [Case; 5] = [
    Case {
        requests: b"add 5\n",
        arrivals: &[],
        failing: NOTHING,
        name: None,
        turns: 3,
        end: SubmitEnd::Unanswered,
        seen: Seen {
            name: "silence",
            bound: &[ANY],
            sent: &[
                (FIRST_SHARD, START),
                (FIRST_SHARD, START),
                (FIRST_SHARD, START),
                (FIRST_SHARD, START),
            ],
            lines: b"submit 0.0 add 5
unanswered 0.0
end 0 answered 1 unanswered 0 unsubmitted
",
        },
        log: b"",
    },
    // Nothing is received: the receive would fail.
    Case {
        requests: b"",
        arrivals: &ANSWERS,
        failing: Failing { call: 2, ..NOTHING },
        name: None,
        turns: 3,
        end: SubmitEnd::Done,
        seen: Seen {
            name: "no requests",
            bound: &[ANY],
            sent: &[],
            lines: b"end 0 answered 0 unanswered 0 unsubmitted\n",
        },
        log: b"",
    },
    Case {
        requests: b"add 5\n",
        arrivals: &ANSWERS,
        failing: Failing { call: 5, ..NOTHING },
        name: None,
        turns: 9,
        end: SubmitEnd::Done,
        seen: Seen {
            name: "answers",
            bound: &[ANY],
            sent: &[(FIRST_SHARD, START), (FIRST_SHARD, COMMIT)],
            lines: b"submit 0.0 add 5
answer 0.0 0
end 1 answered 0 unanswered 0 unsubmitted
",
        },
        log: b"",
    },
    // The second request has an argument too many.
    Case {
        requests: b"add 5\nadd 5 6\nadd 7\n",
        arrivals: &ANSWERS,
        failing: NOTHING,
        name: None,
        turns: 3,
        end: SubmitEnd::Unanswered,
        seen: Seen {
            name: "refused request",
            bound: &[ANY],
            sent: &[(FIRST_SHARD, START), (FIRST_SHARD, COMMIT)],
            lines: b"submit 0.0 add 5
answer 0.0 0
end 1 answered 0 unanswered 2 unsubmitted
",
        },
        log: b"",
    },
    Case {
        requests: b"add 5\n",
        arrivals: &[],
        failing: NOTHING,
        name: None,
        turns: 0,
        end: SubmitEnd::Unanswered,
        seen: Seen {
            name: "no turns",
            bound: &[ANY],
            sent: &[],
            lines: b"end 0 answered 0 unanswered 1 unsubmitted\n",
        },
        log: b"",
    },
];

static FAULTS: [Case; 6] = [
    Case {
        requests: b"add 5\n",
        arrivals: &ANSWERS,
        failing: Failing { call: 1, ..NOTHING },
        name: None,
        turns: 9,
        end: SubmitEnd::LinkFault,
        seen: Seen {
            name: "bind",
            bound: &[],
            sent: &[],
            lines: b"",
        },
        log: b"",
    },
    Case {
        requests: b"add 5\n",
        arrivals: &ANSWERS,
        failing: Failing { call: 4, ..NOTHING },
        name: None,
        turns: 9,
        end: SubmitEnd::LinkFault,
        seen: Seen {
            name: "third receive",
            bound: &[ANY],
            sent: &[(FIRST_SHARD, START), (FIRST_SHARD, COMMIT)],
            lines: b"submit 0.0 add 5\n",
        },
        log: b"",
    },
    Case {
        requests: b"add 5\n",
        arrivals: &ANSWERS,
        failing: Failing { send: 1, ..NOTHING },
        name: None,
        turns: 9,
        end: SubmitEnd::Done,
        seen: Seen {
            name: "first send",
            bound: &[ANY],
            sent: &[(FIRST_SHARD, COMMIT)],
            lines: b"submit 0.0 add 5
answer 0.0 0
end 1 answered 0 unanswered 0 unsubmitted
",
        },
        log: b"",
    },
    // A write that fails takes half of its text, and nothing is sent behind it.
    Case {
        requests: b"add 5\n",
        arrivals: &ANSWERS,
        failing: Failing {
            write: 1,
            ..NOTHING
        },
        name: None,
        turns: 9,
        end: SubmitEnd::SinkFault,
        seen: Seen {
            name: "first write",
            bound: &[ANY],
            sent: &[],
            lines: b"submit 0",
        },
        log: b"",
    },
    Case {
        requests: b"add 5\n",
        arrivals: &ANSWERS,
        failing: Failing {
            write: 2,
            ..NOTHING
        },
        name: None,
        turns: 9,
        end: SubmitEnd::SinkFault,
        seen: Seen {
            name: "second write",
            bound: &[ANY],
            sent: &[(FIRST_SHARD, START), (FIRST_SHARD, COMMIT)],
            lines: b"submit 0.0 add 5\nanswer",
        },
        log: b"",
    },
    Case {
        requests: b"add 5\n",
        arrivals: &ANSWERS,
        failing: Failing {
            write: 3,
            ..NOTHING
        },
        name: None,
        turns: 9,
        end: SubmitEnd::SinkFault,
        seen: Seen {
            name: "last write",
            bound: &[ANY],
            sent: &[(FIRST_SHARD, START), (FIRST_SHARD, COMMIT)],
            lines: b"submit 0.0 add 5\nanswer 0.0 0\nend 1 answered 0 unan",
        },
        log: b"",
    },
];

fn submit_each(rt: &impl Abort, alloc: Global, cases: &[Case]) {
    for case in cases {
        submits(rt, alloc, case);
    }
}

#[test]
fn coordinators_end_as_told(rt: HostRuntime) {
    submit_each(&rt, rt.alloc(), &RUNS);
    submit_each(&rt, rt.alloc(), &FAULTS);
    submit_each(&rt, rt.alloc(), &SUBMITTED);
}
