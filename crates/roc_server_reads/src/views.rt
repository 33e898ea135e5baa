//! What a server keeps for views.
ghost use Rattle.std.specs.Prelude.{◌≡◌, ◌≤◌, ◌+◌, ◌∷◌, [], length, filter, IsTrue, OnOk};
ghost use Rattle.roc_server_reads.specs.Views.{holders_then, reads_then, viewing_of, viewing_then, HasRoomToCount};
ghost use Rattle.roc_step.specs.Reads.{is_taken, with_access, with_accesses};
ghost use Rattle.roc_step.specs.Restarts.{without_reads};

use roc_base::NoMemory;
use roc_msg::Ran;
use roc_rows::Versions;
use roc_server_index::GroupRef;
use roc_step::{Handled, KeptRead};
use std::alloc::Global;

/// What a server keeps for views.
#[derive(Drop)]
pub struct Views {
    /// How often each cell was written.
    pub versions: Versions,
    /// The reads that wait, in the order in which they came.
    pub reads: Vec<KeptRead>,
    /// Place by place the group that held the read up when it was last looked at. Nothing need hold of these: each is looked at again before it counts.
    pub holders: Vec<Option<GroupRef>>,
}

/// Reads that stay behind a step.
#[derive(Drop)]
pub struct StayingReads {
    /// The reads, in the order in which they came.
    pub reads: Vec<KeptRead>,
    /// Place by place the group that holds the read up.
    pub holders: Vec<Option<GroupRef>>,
}

impl Views {
    ghost use Rattle.std.specs.Prelude.{◌≡◌};
    ghost use Rattle.roc_server_reads.specs.Views.{viewing_of};
    ghost use Rattle.roc_step.specs.Reads.{first_viewing};

    /// Before any write and any read. Takes no memory.
    pub fn new(alloc: Global) -> Views
        ensures { viewing_of result ≡ first_viewing }
    {
        Views {
            versions: Versions::new(alloc),
            reads: Vec::new(alloc),
            holders: Vec::new(alloc),
        }
    }
}

// Whether a message was not ignored.
pub(crate) fn is_taken(answer: Handled) -> bool
    ensures { result ≡ is_taken answer }
{
    match answer {
        Handled::Done | Handled::Gone => true,
        Handled::Ignored(_) => false,
    }
}

// Takes the memory to count what these write. No count changes.
pub(crate) fn reserve_counts(versions: &mut Versions, ran: &[Ran]) -> Result<(), NoMemory>
    ensures same { versions.new.counts ≡ versions.old.counts }
    ensures room { OnOk result (length (filter (λ a. a.writes) ran.now) ≤ versions.new.spare) }
{
    versions.reserve(count_of_writes(ran))
}

// How many of these are writes.
fn count_of_writes(ran: &[Ran]) -> usize
    ensures { result ≡ length (filter (λ a. a.writes) ran.now) }
{
    ran.iter().filter(|access| access.writes).count()
}

/// Behind a step that was answered so, and in which this ran: what it wrote is counted, and these reads stay. Behind a step that was ignored all stays.
/// Takes no memory: the room to count in was taken by [`find_reads`].
pub fn keep_views(views: &mut Views, answer: Handled, ran: &[Ran], stays: Option<StayingReads>)
    requires { HasRoomToCount ran.now views.old }
    ensures views { viewing_of views.new ≡ viewing_then (viewing_of views.old) answer ran.now stays }
    ensures holders { IsTrue (is_taken answer) → views.new.holders.items ≡ holders_then views.old.holders.items stays }
{
    if is_taken(answer) {
        count_writes(&mut views.versions, ran);
        keep_reads(&mut views.reads, &mut views.holders, stays);
    }
}

// Counts what these write, where there is room for it.
fn count_writes(versions: &mut Versions, ran: &[Ran])
    requires { length (filter (λ a. a.writes) ran.now) ≤ versions.old.spare }
    ensures { versions.new.counts ≡ with_accesses versions.old.counts ran.now }
{
    for access in ran {
        count_write(versions, access);
    }
}

// Counts one access, where it writes and there is room for it.
fn count_write(versions: &mut Versions, access: &Ran)
    requires { length (filter (λ a. a.writes) (access.now ∷ [])) ≤ versions.old.spare }
    ensures counts { versions.new.counts ≡ with_access versions.old.counts access.now }
    ensures spare { versions.old.spare ≤ versions.new.spare + length (filter (λ a. a.writes) (access.now ∷ [])) }
{
    if access.writes {
        versions.count(access.cell).unwrap();
    }
}

// These reads stay, where others stay than are kept.
fn keep_reads(
    reads: &mut Vec<KeptRead>,
    holders: &mut Vec<Option<GroupRef>>,
    stays: Option<StayingReads>,
)
    ensures reads { reads.new.items ≡ reads_then reads.old.items stays }
    ensures holders { holders.new.items ≡ holders_then holders.old.items stays }
{
    if let Some(stays) = stays {
        *reads = stays.reads;
        *holders = stays.holders;
    }
}

/// No read is kept any more. Takes no memory.
pub fn drop_reads(views: &mut Views)
    ensures { viewing_of views.new ≡ without_reads (viewing_of views.old) }
{
    views.reads.clear();
    views.holders.clear();
}
