//! Workloads and histories of the tests.
use roc_audit::Entry;
use roc_base::{Nums, TxnId};
use roc_lang_parse::parse;
use roc_lang_resolve::resolve;
use roc_program::Workload;
use std::alloc::Global;
use std::process::Abort;

// Two accounts on two shards, of which a transfer takes from one and gives to the other.
const TRANSFER: &[u8] = b"shards 2;
table acct { bal }
init acct[0,0].bal = 100;
init acct[1,0].bal = 50;
proc pay(f,t,n) {
  later take at f { get b = acct[0].bal; set acct[0].bal = b - n; out b; }
  later give at t { get d = acct[0].bal; set acct[0].bal = d + n; out d; }
}
";

// A piece that reads what another one wrote, so that the two are one group.
const MERGED: &[u8] = b"shards 1;
table a { x }
table b { y }
proc swap(n) {
  later first at 0 { get u = a[0].x; set b[0].y = u + n; out u; }
  later second at 0 { get v = b[0].y; set a[0].x = v; out v; }
}
";

fn workload_of(rt: &impl Abort, alloc: Global, text: &[u8]) -> Workload {
    let source = parse(alloc, text).expect(rt, "a text");
    resolve(alloc, source).expect(rt, "a workload")
}

/// The workload of transfers: `pay` is its procedure 0.
pub(crate) fn transfers(rt: &impl Abort, alloc: Global) -> Workload {
    workload_of(rt, alloc, TRANSFER)
}

/// The workload of a merged group: `swap` is its procedure 0.
pub(crate) fn merged(rt: &impl Abort, alloc: Global) -> Workload {
    workload_of(rt, alloc, MERGED)
}

/// A submission of procedure 0, or an answer, by coordinator; each submits once.
#[derive(Clone, Copy)]
pub(crate) enum Said {
    Submits(u16, &'static [i64]),
    Answers(u16, &'static [i64]),
}

fn txn(coord: u16) -> TxnId {
    TxnId { coord, seq: 0 }
}

fn nums_of(rt: &impl Abort, alloc: Global, numbers: &[i64]) -> Nums {
    Nums::from_slice(alloc, numbers).expect(rt, "memory")
}

fn entry_of(rt: &impl Abort, alloc: Global, said: Said) -> Entry {
    match said {
        Said::Submits(coord, args) => Entry::Submitted {
            id: txn(coord),
            proc: 0,
            args: nums_of(rt, alloc, args),
        },
        Said::Answers(coord, reply) => Entry::Answered {
            id: txn(coord),
            reply: nums_of(rt, alloc, reply),
        },
    }
}

/// The history of what was said.
pub(crate) fn history_of(rt: &impl Abort, alloc: Global, said: &[Said]) -> Vec<Entry> {
    let mut history = Vec::new(alloc);
    for one in said {
        let done = history.push(entry_of(rt, alloc, *one));
        done.expect(rt, "memory");
    }
    history
}
