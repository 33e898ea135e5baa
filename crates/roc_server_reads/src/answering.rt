//! What comes of a step for reads.
ghost use Rattle.std.specs.Prelude.{◌≡◌, ◌≤◌, ◌+◌, ◌++◌, ◌∷◌, [], not, filter, map, None, IsSome, IsTrue, IfOk, IfSome, OnOk};
ghost use Rattle.std.specs.List.{AllByRecursion};
ghost use Rattle.roc_msg.specs.Outbox.{HasSent};
ghost use Rattle.roc_step.specs.Fits.{AreReadsOf, IsReadOf};
ghost use Rattle.roc_server_reads.specs.Answering.{read_in, readok_over, AreReadsFound, TakenFits};
ghost use Rattle.roc_server_reads.specs.Behind.{is_free_behind, AreHolders};
ghost use Rattle.roc_server_reads.specs.Inner.Parts.{one_more};
ghost use Rattle.roc_server_reads.specs.Looks.{looks_for, looks_for_all, looks_for_new};
ghost use Rattle.roc_server_reads.specs.Views.{holders_then, reads_then, viewing_of, HasRoomToCount};
ghost use Rattle.roc_step.specs.Reads.{in_turn, is_taken, with_accesses};

use crate::behind::Behind;
use crate::free_reads::{Parted, holder_of, holders_of, part, put};
use crate::kept_reads::{read_of, unless_kept};
use crate::readoks::send_readoks;
use crate::turns::in_turn;
use crate::views::{StayingReads, Views, is_taken, reserve_counts};
use roc_base::{NoMemory, Shard, Steps};
use roc_msg::{Msg, Outbox};
use roc_plan::Plan;
use roc_rows::Versions;
use roc_server_index::GroupRef;
use roc_step::{Handled, KeptRead};
use std::alloc::Global;
use std::sync::ledger::Ledger;

/// Finds what comes of a step for reads, once all else that it sends stands in `sends`: those that are free then are answered, and the reads that stay are
/// given, where others stay than are kept. Behind a step that is not ignored, what holds up each read that stays is kept or given with it. It takes the
/// room to count what ran. No count and no read changes, whether there is memory or not. A step of the count is one look at a group: a read takes one
/// while the group that is kept with it still holds it up.
pub fn find_reads<L: Ledger>(
    alloc: Global,
    plan: &Plan,
    shard: Shard,
    behind: &Behind<'_, L>,
    views: &mut Views,
    msg: &Msg,
    answer: Handled,
    sends: &mut Outbox,
    steps: &mut Steps<L>,
) -> Result<Option<StayingReads>, NoMemory>
    requires fits { AreReadsOf plan.now views.old.reads.items }
    requires taken { TakenFits plan.now msg.now answer }
    ensures step { IfOk result (λ stays. AreReadsFound plan.now shard behind.now (viewing_of views.old) msg.now answer sends.old sends.new stays) }
    ensures fits { IfOk result (λ stays. AreReadsOf plan.now (reads_then views.old.reads.items stays)) }
    ensures holders { IfOk result (λ stays. IsTrue (is_taken answer)
        → AreHolders plan.now behind.now (reads_then views.old.reads.items stays) (holders_then views.new.holders.items stays)) }
    ensures same { viewing_of views.new ≡ viewing_of views.old }
    ensures ran { OnOk result (sends.new.ran ≡ sends.old.ran) }
    ensures room { OnOk result (HasRoomToCount sends.new.ran views.new) }
    ensures steps { steps.new ≤ steps.old
        + (looks_for_all plan.now behind.now views.old.reads.items views.old.holders.items + looks_for_new plan.now behind.now (read_in msg.now answer)) }
{
    reserve_counts(&mut views.versions, sends.ran())?;
    if !is_taken(answer) {
        return Ok(None);
    }
    let read = read_of(msg, answer)?;
    let new = unless_kept(views.reads.as_slice(), read);
    let holders = holders_of(
        alloc,
        plan,
        behind,
        views.reads.as_slice(),
        views.holders.as_slice(),
        steps,
    )?;
    if all_stay(&new, holders.as_slice()) {
        views.holders = holders;
        return Ok(None);
    }
    let Parted { free, stays } = part_all(
        alloc,
        plan,
        behind,
        views.reads.as_slice(),
        holders.as_slice(),
        new,
        steps,
    )?;
    answer_free(alloc, plan, shard, behind, &views.versions, free, sends)?;
    Ok(Some(stays))
}

// Whether no read comes, and each of those that are kept is held up: then they all stay as they are, without a copy.
fn all_stay(new: &Option<KeptRead>, holders: &[Option<GroupRef>]) -> bool
    ensures { IsTrue result → (new.now ≡ None) × AllByRecursion IsSome holders.now }
{
    match new {
        Some(_) => false,
        None => are_all_held(holders),
    }
}

// Whether each read with these holders is held up.
fn are_all_held(holders: &[Option<GroupRef>]) -> bool
    ensures { IsTrue result → AllByRecursion IsSome holders.now }
{
    for holder in holders {
        if holder.is_none() {
            return false;
        }
    }
    true
}

// Parts the reads that are kept, and one that comes, into those that are free behind a step and those that stay.
fn part_all<L: Ledger>(
    alloc: Global,
    plan: &Plan,
    behind: &Behind<'_, L>,
    kept: &[KeptRead],
    holders: &[Option<GroupRef>],
    new: Option<KeptRead>,
    steps: &mut Steps<L>,
) -> Result<Parted, NoMemory>
    requires holders { AreHolders plan.now behind.now kept.now holders.now }
    requires new { IfSome new (IsReadOf plan.now) }
    ensures free { IfOk result (λ parted. parted.free.items ≡ filter (is_free_behind plan.now behind.now) (kept.now ++ one_more new)) }
    ensures stays { IfOk result (λ parted. parted.stays.reads.items ≡ filter (λ q. not (is_free_behind plan.now behind.now q)) (kept.now ++ one_more new)) }
    ensures holders { IfOk result (λ parted. AreHolders plan.now behind.now parted.stays.reads.items parted.stays.holders.items) }
    ensures steps { steps.new ≤ steps.old + looks_for_new plan.now behind.now new }
{
    let parted = part(alloc, kept, holders)?;
    match new {
        Some(read) => with_new(alloc, plan, behind, parted, read, steps),
        None => Ok(parted),
    }
}

// With the read that comes.
fn with_new<L: Ledger>(
    alloc: Global,
    plan: &Plan,
    behind: &Behind<'_, L>,
    mut parted: Parted,
    read: KeptRead,
    steps: &mut Steps<L>,
) -> Result<Parted, NoMemory>
    requires { IsReadOf plan.now read }
    ensures free { IfOk result (λ all. all.free.items ≡ parted.free.items ++ filter (is_free_behind plan.now behind.now) (read ∷ [])) }
    ensures stays { IfOk result (λ all. all.stays.reads.items ≡ parted.stays.reads.items ++ filter (λ q. not (is_free_behind plan.now behind.now q)) (read ∷ [])) }
    ensures holders { AreHolders plan.now behind.now parted.stays.reads.items parted.stays.holders.items
        → IfOk result (λ all. AreHolders plan.now behind.now all.stays.reads.items all.stays.holders.items) }
    ensures steps { steps.new ≤ steps.old + looks_for plan.now behind.now read None }
{
    let holder = holder_of(alloc, plan, behind, &read, None, steps)?;
    put(&mut parted, read, holder)?;
    Ok(parted)
}

// Answers reads that are free behind a step, in turn.
fn answer_free<L: Ledger>(
    alloc: Global,
    plan: &Plan,
    shard: Shard,
    behind: &Behind<'_, L>,
    versions: &Versions,
    free: Vec<KeptRead>,
    sends: &mut Outbox,
) -> Result<(), NoMemory>
    requires { AreReadsOf plan.now free.items }
    ensures { OnOk result (HasSent sends.old sends.new
        (map (readok_over plan.now shard behind.now.store (with_accesses versions.now.counts sends.old.ran)) (in_turn free.items))) }
{
    let turn = in_turn(alloc, free)?;
    send_readoks(
        alloc,
        plan,
        shard,
        behind.rows(),
        versions,
        turn.as_slice(),
        sends,
    )
}
