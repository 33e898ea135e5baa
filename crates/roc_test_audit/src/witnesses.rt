//! Serial witnesses.
use crate::histories::{Said, history_of, merged, transfers};
use roc_audit::Entry;
use roc_audit_witness::{is_witness, names_procedures};
use roc_base::{NoMemory, TxnId};
use roc_program::Workload;
use std::alloc::Global;
use std::process::Abort;

// The transactions of the coordinators 0 and 1.
const FIRST: TxnId = TxnId { coord: 0, seq: 0 };

const SECOND: TxnId = TxnId { coord: 1, seq: 0 };

// Two transfers that cross: that of coordinator 1 ran first. A reply is what the two accounts held.
const CROSSING: [Said; 4] = [
    Said::Submits(0, &[0, 1, 10]),
    Said::Submits(1, &[1, 0, 5]),
    Said::Answers(0, &[105, 45]),
    Said::Answers(1, &[50, 100]),
];

// Two swaps: that of coordinator 1 ran first.
const SWAPS: [Said; 4] = [
    Said::Submits(0, &[1]),
    Said::Submits(1, &[2]),
    Said::Answers(1, &[0, 2]),
    Said::Answers(0, &[2, 3]),
];

// A reply that no order gives.
const WRONG: [Said; 2] = [Said::Submits(0, &[0, 1, 10]), Said::Answers(0, &[100, 51])];

// The second was submitted when the first had its answer, and neither's reply depends on the order.
const APART: [Said; 4] = [
    Said::Submits(0, &[0, 0, 0]),
    Said::Answers(0, &[100, 100]),
    Said::Submits(1, &[1, 1, 0]),
    Said::Answers(1, &[50, 50]),
];

// Whether the order is a serial witness, where the history names procedures.
fn judged(
    alloc: Global,
    workload: &Workload,
    history: &[Entry],
    order: &[TxnId],
) -> Result<Option<bool>, NoMemory> {
    if names_procedures(workload, history) {
        let found = is_witness(alloc, workload, history, order)?;
        return Ok(Some(found));
    }
    Ok(None)
}

// What was said, an order of the transactions, and whether that is a serial witness.
type Case = (&'static [Said], &'static [TxnId], bool);

fn is_judged(rt: &impl Abort, alloc: Global, workload: &Workload, case: &Case) {
    let history = history_of(rt, alloc, case.0);
    let found = judged(alloc, workload, &history, case.1).expect(rt, "memory");
    assert!(rt; found == Some(case.2));
}

fn are_judged(rt: &impl Abort, alloc: Global, workload: &Workload, cases: &[Case]) {
    for case in cases {
        is_judged(rt, alloc, workload, case);
    }
}

const CROSSED: [Case; 2] = [
    (&CROSSING, &[SECOND, FIRST], true),
    (&CROSSING, &[FIRST, SECOND], false),
];

#[test]
fn crossing_transfers_have_one_order(rt: HostRuntime) {
    are_judged(&rt, rt.alloc(), &transfers(&rt, rt.alloc()), &CROSSED);
}

const MERGED: [Case; 2] = [
    (&SWAPS, &[SECOND, FIRST], true),
    (&SWAPS, &[FIRST, SECOND], false),
];

#[test]
fn merged_groups_have_one_order(rt: HostRuntime) {
    are_judged(&rt, rt.alloc(), &merged(&rt, rt.alloc()), &MERGED);
}

const REFUSED: [Case; 2] = [(&WRONG, &[FIRST], false), (&CROSSING, &[SECOND], false)];

#[test]
fn wrong_replies_and_missing_ones_are_refused(rt: HostRuntime) {
    are_judged(&rt, rt.alloc(), &transfers(&rt, rt.alloc()), &REFUSED);
}

const TIMED: [Case; 2] = [
    (&APART, &[FIRST, SECOND], true),
    (&APART, &[SECOND, FIRST], false),
];

#[test]
fn real_time_is_kept(rt: HostRuntime) {
    are_judged(&rt, rt.alloc(), &transfers(&rt, rt.alloc()), &TIMED);
}
