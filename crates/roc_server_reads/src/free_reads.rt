//! Which reads are free: those that no group holds up.
ghost use Rattle.std.specs.Prelude.{◌≡◌, ◌≤◌, ◌+◌, ◌++◌, [], drop, length, IfOk, OnOk};
ghost use Rattle.roc_group.specs.GroupRun.{group_uses};
ghost use Rattle.roc_rows.specs.Store.{Store};
ghost use Rattle.roc_server_reads.specs.Behind.{AreHolders, IsHolder};
ghost use Rattle.roc_server_reads.specs.Inner.Parts.{if_held, if_unheld, of_each, who_holds};
ghost use Rattle.roc_server_reads.specs.Looks.{first_hint, looks_for, looks_for_all};
ghost use Rattle.roc_step.specs.Fits.{AreReadsOf, IsReadOf};
ghost use Rattle.roc_step.specs.Reads.{read_call};

use crate::behind::Behind;
use crate::held_up::holder_among;
use crate::kept_reads::copy_of_read;
use crate::views::StayingReads;
use roc_base::{NoMemory, Nums, Steps};
use roc_group::{Access, cells};
use roc_plan::laws::views_are_apart;
use roc_plan::{Known, Plan};
use roc_sequence::Sequence;
use roc_server_index::GroupRef;
use roc_step::KeptRead;
use std::alloc::Global;
use std::sync::ledger::Ledger;

// Reads, parted into those that are free behind a step and those that stay.
#[derive(Drop)]
pub(crate) struct Parted {
    pub free: Vec<KeptRead>,
    pub stays: StayingReads,
}

// What holds each of these reads up, by what did when they were last looked at: place by place, where it is known.
pub(crate) fn holders_of<L: Ledger>(
    alloc: Global,
    plan: &Plan,
    behind: &Behind<'_, L>,
    reads: &[KeptRead],
    hints: &[Option<GroupRef>],
    steps: &mut Steps<L>,
) -> Result<Vec<Option<GroupRef>>, NoMemory>
    requires { AreReadsOf plan.now reads.now }
    ensures holders { IfOk result (λ holders. AreHolders plan.now behind.now reads.now holders.items) }
    ensures steps { steps.new ≤ steps.old + looks_for_all plan.now behind.now reads.now hints.now }
{
    let mut holders = Vec::new(alloc);
    for (at, read) in reads.iter().enumerate() {
        let hint = hint_at(hints, at);
        let holder = holder_of(alloc, plan, behind, read, hint, steps)?;
        holders.push(holder)?;
    }
    Ok(holders)
}

// The hint at a place.
fn hint_at(hints: &[Option<GroupRef>], at: usize) -> Option<GroupRef>
    ensures { result ≡ first_hint (drop at hints.now) }
{
    if at < hints.len() {
        return hints[at];
    }
    None
}

// What holds a read up.
pub(crate) fn holder_of<L: Ledger>(
    alloc: Global,
    plan: &Plan,
    behind: &Behind<'_, L>,
    read: &KeptRead,
    hint: Option<GroupRef>,
    steps: &mut Steps<L>,
) -> Result<Option<GroupRef>, NoMemory>
    requires { IsReadOf plan.now read.now }
    ensures holder { IfOk result (λ holder. IsHolder behind.now (group_uses plan.now (read_call read.now) behind.now.store) holder) }
    ensures steps { steps.new ≤ steps.old + looks_for plan.now behind.now read.now hint }
{
    let known = given_to(alloc, &read.args)?;
    let cells = cells_of(alloc, plan, read, &known)?;
    Ok(holder_among(behind, cells.as_slice(), hint, steps))
}

// Parts copies of reads by their holders.
pub(crate) fn part(
    alloc: Global,
    reads: &[KeptRead],
    holders: &[Option<GroupRef>],
) -> Result<Parted, NoMemory>
    requires { length holders.now ≡ length reads.now }
    ensures free { IfOk result (λ parted. parted.free.items ≡ of_each if_unheld holders.now reads.now) }
    ensures stays { IfOk result (λ parted. parted.stays.reads.items ≡ of_each if_held holders.now reads.now) }
    ensures holders { IfOk result (λ parted. parted.stays.holders.items ≡ of_each who_holds holders.now reads.now) }
{
    let mut parted = Parted {
        free: Vec::new(alloc),
        stays: StayingReads {
            reads: Vec::new(alloc),
            holders: Vec::new(alloc),
        },
    };
    for (at, read) in reads.iter().enumerate() {
        let copy = copy_of_read(read)?;
        put(&mut parted, copy, holders[at])?;
    }
    Ok(parted)
}

// Puts one more read behind the others.
pub(crate) fn put(
    parted: &mut Parted,
    read: KeptRead,
    holder: Option<GroupRef>,
) -> Result<(), NoMemory>
    ensures free { OnOk result (parted.new.free.items ≡ parted.old.free.items ++ if_unheld holder read) }
    ensures stays { OnOk result (parted.new.stays.reads.items ≡ parted.old.stays.reads.items ++ if_held holder read) }
    ensures holders { OnOk result (parted.new.stays.holders.items ≡ parted.old.stays.holders.items ++ who_holds holder read) }
{
    match holder {
        Some(_) => {
            parted.stays.reads.push(read)?;
            parted.stays.holders.push(holder)?;
        }
        None => parted.free.push(read)?,
    }
    Ok(())
}

// What a view's group is given: the arguments alone.
pub(crate) fn given_to(alloc: Global, args: &Nums) -> Result<Known, NoMemory>
    ensures args { IfOk result (λ known. known.args ≡ args.now) }
    ensures inputs { IfOk result (λ known. known.inputs ≡ []) }
{
    Ok(Known {
        args: args.clone()?,
        inputs: Nums::new(alloc),
    })
}

// The cells that a read's group reads.
pub(crate) fn cells_of(
    alloc: Global,
    plan: &Plan,
    read: &KeptRead,
    known: &Known,
) -> Result<Sequence<Access>, NoMemory>
    requires fits { IsReadOf plan.now read.now }
    requires args { known.now.args ≡ read.now.args }
    requires inputs { known.now.inputs ≡ [] }
    ensures { IfOk result (λ uses. (store : Store) → uses ≡ group_uses plan.now (read_call read.now) store) }
{
    let _workload = plan.workload();
    views_are_apart();
    cells(alloc, plan, read.proc, read.group, known)
}
