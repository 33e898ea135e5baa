//! Whole runs of procedures, which no command makes: the replies and cells that the serial order is judged by.
use crate::holds::holds;
use crate::workloads::plan_of;
use roc_base::{Key, Nums};
use roc_program::Workload;
use roc_rows::{Cell, Rows};
use roc_whole::{run_whole, start_rows};
use std::alloc::Global;
use std::process::Abort;

/// The first init line of a cell is overwritten by the later one.
const TRANSFER: &[u8] = b"shards 2;
table acct { bal }
init acct[0,0].bal = 7;
init acct[1,0].bal = 50;
init acct[0,0].bal = 100;
proc pay(f,t,n) {
  later take at f { get b = acct[0].bal; set acct[0].bal = b - n; out b; }
  later give at t { get d = acct[0].bal; set acct[0].bal = d + n; out d; }
}
";

const THREE_PIECES: &[u8] = b"shards 2;
table a { x }
table b { y }
init b[1,0].y = 10;
proc f(p,q) {
  now m at p { get u = a[0].x; }
  now n at p { set a[0].x = u + 1; }
  later l at q { get w = b[0].y; set b[0].y = w * 2 + u; out w; }
}
";

/// Sums wrap.
const STEP: &[u8] = b"shards 4;
table t { x }
init t[-1,0].x = 9223372036854775807;
proc inc(p) { later a at p { get v = t[0].x; set t[0].x = v + 1; out v + 1; } }
";

// The arguments of a call of the first procedure, and its reply.
type Call = (&'static [i64], &'static [i64]);

// Calls in order from the start of a workload, behind which these columns 0 of rows 0 are not 0, by table and place.
type Case = (&'static [u8], &'static [Call], &'static [(u8, i64, i64)]);

static CASES: [Case; 3] = [
    (
        TRANSFER,
        &[(&[0, 1, 10], &[100, 50]), (&[1, 0, 5], &[60, 90])],
        &[(0, 0, 95), (0, 1, 55)],
    ),
    (
        THREE_PIECES,
        &[(&[0, 1], &[10]), (&[0, 1], &[20])],
        &[(0, 0, 2), (1, 1, 41)],
    ),
    (STEP, &[(&[-1], &[i64::MIN])], &[(0, -1, i64::MIN)]),
];

fn cell(table: u8, place: i64) -> Cell {
    Cell {
        table,
        place,
        id: Key::from_slice(&[0]),
        column: 0,
    }
}

fn replies(
    rt: &impl Abort,
    alloc: Global,
    workload: &Workload,
    rows: &mut Rows,
    (args, wanted): Call,
    reply: &mut Nums,
) {
    assert!(rt; !workload.procedures().is_empty());
    assert!(rt; workload.procedures()[0].arguments as usize == args.len());
    run_whole(alloc, workload, rows, 0, args, reply).expect(rt, "memory");
    holds(rt, "a reply", reply.as_slice() == wanted);
}

fn are_cells(rt: &impl Abort, found: &[(Cell, i64)], wanted: &[(u8, i64, i64)]) {
    holds(rt, "how many cells", found.len() == wanted.len());
    for (found, (table, place, number)) in found.iter().zip(wanted) {
        holds(rt, "a cell", *found == (cell(*table, *place), *number));
    }
}

fn runs(rt: &impl Abort, alloc: Global, workload: &Workload, rows: &mut Rows, case: &Case) {
    for call in case.1 {
        replies(rt, alloc, workload, rows, *call, &mut Nums::new(alloc));
    }
    let found = rows.nonzero().expect(rt, "memory");
    are_cells(rt, &found, case.2);
}

fn starts(rt: &impl Abort, alloc: Global, case: &Case) {
    let plan = plan_of(rt, alloc, case.0);
    let mut rows = start_rows(alloc, plan.workload()).expect(rt, "memory");
    runs(rt, alloc, plan.workload(), &mut rows, case);
}

#[test]
fn procedures_run_whole(rt: HostRuntime) {
    for case in &CASES {
        starts(&rt, rt.alloc(), case);
    }
}
