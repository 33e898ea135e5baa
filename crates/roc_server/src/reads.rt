//! Whether a read of a view is taken, and what comes of a step for reads.
ghost use Rattle.std.specs.Prelude.{◌≡◌, ◌<◌, ℕ, IfOk, OnOk, unwrap_or};
ghost use Rattle.roc_step.specs.declared.handled.Handled.TheVariants.{Done};
ghost use Rattle.roc_step.specs.Fits.{AreReadsOf};
ghost use Rattle.roc_step.specs.Reads.{read_refusal};
ghost use Rattle.roc_step.specs.State.{ServerState};
ghost use Rattle.roc_server_lists.specs.ListsNow.{lists_of};
ghost use Rattle.roc_server_reads.specs.Answering.{TakenFits};
ghost use Rattle.roc_server_reads.specs.Views.{reads_then, viewing_of, HasRoomToCount};
ghost use Rattle.roc_server.specs.Inner.Answering.{FindsReads};
ghost use Rattle.roc_server.specs.Inner.Parts.{state_behind, IsSound};

use crate::Handled;
use crate::parts::ServerParts;
use roc_base::{NoMemory, Nums, Shard, Steps, TxnId};
use roc_msg::{Msg, Outbox};
use roc_plan::Plan;
use roc_server_lists::ServerLists;
use roc_server_reads::{Behind, StayingReads, Views, find_reads, read_refusal};
use std::alloc::Global;
use std::marker::Brand;
use std::sync::ledger::{Blank, Ledger};

// What a read is answered: it is taken, comes too late, or is ignored for the first reason that holds. It changes nothing.
pub(crate) fn judge_read(
    alloc: Global,
    plan: &Plan,
    shard: Shard,
    lists: &ServerLists,
    id: TxnId,
    proc: u16,
    group: u16,
    args: &Nums,
) -> Result<Handled, NoMemory>
    ensures { IfOk result (λ answer. (s : ServerState) (round : ℕ) → s.shard ≡ shard → lists_of s ≡ lists.now.kept
        → answer ≡ unwrap_or (read_refusal plan.now s (record { id = id; round = round; proc = proc; group = group; args = args.now })) Done) }
{
    let ended = lists.is_ended(id);
    let refusal = read_refusal(alloc, plan, shard, ended, proc, group, args)?;
    Ok(refusal.unwrap_or(Handled::Done))
}

// Finds what comes of a step for reads, once all else that it sends stands in `sends`: those that are free then are answered. Gives the
// reads that stay, where others stay than are kept. No count and no read changes.
pub(crate) fn answer_reads(
    alloc: Global,
    plan: &Plan,
    shard: Shard,
    parts: &ServerParts,
    views: &mut Views,
    msg: &Msg,
    answer: Handled,
    sends: &mut Outbox,
) -> Result<Option<StayingReads>, NoMemory>
    requires fits { AreReadsOf plan.now views.old.reads.items }
    requires taken { TakenFits plan.now msg.now answer }
    requires sound { IsSound parts.now }
    ensures step { IfOk result (λ stays. FindsReads plan.now (state_behind shard parts.now) (viewing_of views.old) msg.now answer sends.old sends.new stays) }
    ensures fits { IfOk result (λ stays. AreReadsOf plan.now (reads_then views.old.reads.items stays)) }
    ensures same { viewing_of views.new ≡ viewing_of views.old }
    ensures ran { OnOk result (sends.new.ran ≡ sends.old.ran) }
    ensures room { OnOk result (HasRoomToCount sends.new.ran views.new) }
{
    let blank = Blank::new(1);
    answer_by_ledger::<Brand>(alloc, plan, shard, parts, views, msg, answer, sends, blank)
}

// The same with a ledger. No steps are counted.
fn answer_by_ledger<L: Ledger>(
    alloc: Global,
    plan: &Plan,
    shard: Shard,
    parts: &ServerParts,
    views: &mut Views,
    msg: &Msg,
    answer: Handled,
    sends: &mut Outbox,
    blank: Blank,
) -> Result<Option<StayingReads>, NoMemory>
    requires name { blank.name ≡ L.name }
    requires parts { blank.parts ≡ L.parts }
    requires some { 0 < blank.parts }
    requires fits { AreReadsOf plan.now views.old.reads.items }
    requires taken { TakenFits plan.now msg.now answer }
    requires sound { IsSound parts.now }
    ensures step { IfOk result (λ stays. FindsReads plan.now (state_behind shard parts.now) (viewing_of views.old) msg.now answer sends.old sends.new stays) }
    ensures fits { IfOk result (λ stays. AreReadsOf plan.now (reads_then views.old.reads.items stays)) }
    ensures same { viewing_of views.new ≡ viewing_of views.old }
    ensures ran { OnOk result (sends.new.ran ≡ sends.old.ran) }
    ensures room { OnOk result (HasRoomToCount sends.new.ran views.new) }
{
    let behind = Behind::<L>::new(
        &parts.rows,
        parts.groups.started(),
        parts.groups.index(),
        parts.lists.table(),
        parts.lists.newly(),
        parts.groups.starting(),
    );
    let mut steps = Steps::<L>::new(blank);
    find_reads(
        alloc, plan, shard, &behind, views, msg, answer, sends, &mut steps,
    )
}
