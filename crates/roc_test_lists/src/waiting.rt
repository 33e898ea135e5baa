//! What is missing while lists come, and what the last one decides, in calls that no command makes.
ghost use Rattle.std.specs.Prelude.{OnOk};
ghost use Rattle.roc_await.specs.Lacks.{AreLacks};

use crate::same::{same, same_items};
use roc_await::{Asker, Lacks, OpenFetch, Waits};
use roc_base::{Edge, Edges, NoMemory, Shard, TxnId};
use roc_depgraph::Deps;
use std::alloc::Global;
use std::process::Abort;

// The transactions of three coordinators.
const A: TxnId = TxnId { coord: 0, seq: 0 };

const B: TxnId = TxnId { coord: 1, seq: 0 };

const C: TxnId = TxnId { coord: 2, seq: 0 };

// A list of one entry, how many ids are missing then for whose it is and for the first, and which it decides.
type Case = (TxnId, TxnId, usize, &'static [TxnId]);

const RING: [Case; 3] = [(A, C, 1, &[]), (C, B, 1, &[]), (B, A, 0, &[A, B, C])];

// Learns a list that was unknown, and gives what it decides.
fn learn(
    alloc: Global,
    deps: &mut Deps,
    lacks: &mut Lacks,
    of: TxnId,
    from: TxnId,
) -> Result<Vec<TxnId>, NoMemory>
    requires { AreLacks deps.old lacks.old }
    ensures { OnOk result (AreLacks deps.new lacks.new) }
{
    if deps.list(of).is_some() {
        return Ok(Vec::new(alloc));
    }
    let mut edges = Edges::new(alloc);
    edges.unite(&[Edge::new(from, true, false, Shard(0))])?;
    deps.learn(of, &edges)?;
    lacks.learnt(deps, &[of])
}

fn is_decided(rt: &impl Abort, alloc: Global, deps: &mut Deps, lacks: &mut Lacks, case: Case)
    requires { AreLacks deps.old lacks.old }
    ensures { AreLacks deps.new lacks.new }
{
    let decided = learn(alloc, deps, lacks, case.0, case.1).expect(rt, "memory");
    same_items(rt, "what is decided", &decided, case.3);
    same(rt, "missing", &lacks.missing(case.0), &case.2);
    same(rt, "missing at first", &lacks.missing(A), &case.2);
}

#[test]
fn a_ring_is_decided_by_its_last_list(rt: HostRuntime) {
    let alloc = rt.alloc();
    let mut deps = Deps::new(alloc);
    let mut lacks = Lacks::new(alloc);
    for case in RING {
        is_decided(&rt, alloc, &mut deps, &mut lacks, case);
    }
}

fn is_taken(rt: &impl Abort, waits: &mut Waits, id: TxnId, at: Shard) {
    waits.reserve(2).expect(rt, "memory");
    waits.ask(OpenFetch { id, at }).expect(rt, "memory");
    let asker = Asker {
        id,
        shard: Shard(3),
    };
    waits.keep_asker(asker).expect(rt, "memory");
    waits.took(id);
    assert!(rt;
        waits.open().is_empty() && waits.asked(id) == Some(at) && waits.askers(id).len() == 1
    );
}

#[test]
fn what_was_taken_is_open_no_longer(rt: HostRuntime) {
    is_taken(&rt, &mut Waits::new(rt.alloc()), B, Shard(2));
}
