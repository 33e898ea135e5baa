//! What a round of a view comes to.
ghost use Rattle.std.specs.Prelude.{◌≡◌, ◌<◌, ◌==◌, length, Some, IfOk};
ghost use Rattle.std.specs.List.{list_any};
ghost use Rattle.roc_readonly.specs.Round.{find_read, is_full, is_same_reading, is_steady, most_writes, view_reply};

use crate::reads::{find_read, has_read};
use crate::{TakenRead, View};
use roc_base::{NoMemory, Nums};
use roc_plan::Plan;
use std::alloc::Global;

/// A cell that was written so often, or more often, has this version.
const MOST_WRITES: u64 = u64::MAX;

/// Whether each group's answer of this round was taken.
pub(crate) fn is_full(plan: &Plan, v: &View) -> bool
    requires { v.now.proc < length plan.now.program.procedures }
    ensures { result ≡ is_full plan.now v.now }
{
    let got = v.got.as_slice();
    (0..plan.groups(v.proc)).all(|group| has_read(got, group))
}

// Whether one of these versions may stand for more writes than it tells.
fn has_most(versions: &[u64]) -> bool
    ensures { result ≡ list_any (λ n. n == most_writes) versions.now }
{
    versions.iter().any(|n| *n == MOST_WRITES)
}

// Whether a group read the same in two rounds, and no cell of it may have been written between them.
fn is_same(last: &TakenRead, got: &TakenRead) -> bool
    ensures { result ≡ is_same_reading (Some last.now) (Some got.now) }
{
    last.versions.as_slice() == got.versions.as_slice() && !has_most(got.versions.as_slice())
}

// Whether two rounds have a group's answer, and it read the same.
fn is_same_reading(last: &[TakenRead], got: &[TakenRead], group: u16) -> bool
    ensures { result ≡ is_same_reading (find_read group last.now) (find_read group got.now) }
{
    match (find_read(last, group), find_read(got, group)) {
        (Some(last), Some(got)) => is_same(last, got),
        _ => false,
    }
}

/// Whether the round before found the same in each group.
pub(crate) fn is_steady(plan: &Plan, v: &View) -> bool
    requires { v.now.proc < length plan.now.program.procedures }
    ensures { result ≡ is_steady plan.now v.now }
{
    let last = v.last.as_slice();
    let got = v.got.as_slice();
    (0..plan.groups(v.proc)).all(|group| is_same_reading(last, got, group))
}

/// What the groups have read in this round, in program order.
pub(crate) fn reply_of(alloc: Global, plan: &Plan, v: &View) -> Result<Nums, NoMemory>
    requires { v.now.proc < length plan.now.program.procedures }
    ensures { IfOk result (λ reply. reply ≡ view_reply plan.now v.now) }
{
    let got = v.got.as_slice();
    let mut reply = Nums::new(alloc);
    for group in 0..plan.groups(v.proc) {
        if let Some(ok) = find_read(got, group) {
            reply.extend_from_slice(ok.outs.as_slice())?;
        }
    }
    Ok(reply)
}
