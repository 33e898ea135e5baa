//! Why a read is not taken.
ghost use Rattle.std.specs.Prelude.{◌≡◌, ◌<◌, ℕ, [], length, IsTrue, IfOk};
ghost use Rattle.roc_base.specs.declared.id.TxnId.{TxnId as Id};
ghost use Rattle.roc_plan.specs.Groups.{is_view_of};
ghost use Rattle.roc_step.specs.Below.{is_ended};
ghost use Rattle.roc_step.specs.Reads.{read_refusal};
ghost use Rattle.roc_step.specs.State.{ServerState};

use crate::free_reads::given_to;
use roc_base::{NoMemory, Nums, Shard};
use roc_msg::Reason;
use roc_plan::laws::views_are_apart;
use roc_plan::{Known, Plan};
use roc_step::Handled;
use std::alloc::Global;

/// What a read is answered that is not taken, where it is known whether its transaction is ended. Of a server's state its shard and this is all that
/// counts.
pub fn read_refusal(
    alloc: Global,
    plan: &Plan,
    shard: Shard,
    ended: bool,
    proc: u16,
    group: u16,
    args: &Nums,
) -> Result<Option<Handled>, NoMemory>
    ensures { IfOk result (λ refusal. (s : ServerState) (id : Id) (round : ℕ) → s.shard ≡ shard → is_ended s.below id ≡ ended
        → refusal ≡ read_refusal plan.now s (record { id = id; round = round; proc = proc; group = group; args = args.now })) }
{
    let known = given_to(alloc, args)?;
    Ok(refusal_of(plan, shard, ended, proc, group, &known))
}

// The same, of a read that is given this.
fn refusal_of(
    plan: &Plan,
    shard: Shard,
    ended: bool,
    proc: u16,
    group: u16,
    known: &Known,
) -> Option<Handled>
    requires { known.now.inputs ≡ [] }
    ensures { (s : ServerState) (id : Id) (round : ℕ) → s.shard ≡ shard → is_ended s.below id ≡ ended
        → result ≡ read_refusal plan.now s (record { id = id; round = round; proc = proc; group = group; args = known.now.args }) }
{
    if ended {
        return Some(Handled::Gone);
    }
    if !is_view(plan, proc) {
        return Some(Handled::Ignored(Reason::BadProc));
    }
    if group >= plan.groups(proc) {
        return Some(Handled::Ignored(Reason::BadGroup));
    }
    if known.args.len() != plan.args(proc) as usize {
        return Some(Handled::Ignored(Reason::BadInputs));
    }
    let _workload = plan.workload();
    views_are_apart();
    if plan.shard_of(plan.place(proc, group, known)) != shard {
        return Some(Handled::Ignored(Reason::NotHere));
    }
    None
}

// Whether there is a procedure of this number that is a view.
fn is_view(plan: &Plan, proc: u16) -> bool
    ensures is { result ≡ is_view_of plan.now proc }
    ensures there { IsTrue result → proc < length plan.now.program.procedures }
{
    if proc >= plan.procedures() {
        return false;
    }
    plan.is_view(proc)
}
