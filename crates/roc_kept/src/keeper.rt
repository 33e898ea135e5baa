//! How a server keeps what it takes.
ghost use Rattle.std.specs.Prelude.{◌≡◌, ◌||◌, ◌++◌, ◌∷◌, [], ℕ, List, true, false, None, Some, IsOk, OnOk};
ghost use Rattle.roc_io.specs.Cause.{HasCause};
ghost use Rattle.roc_disk.specs.Over.{LeavesOnly};
ghost use Rattle.roc_journal.specs.declared.record.Record.{Record};
ghost use Rattle.roc_journal.specs.Settled.{IsBeforeOrAfter};
ghost use Rattle.roc_wire.specs.Fits.{IsSpellable};
ghost use Rattle.roc_step.specs.Restarts.{is_recorded};
ghost use Rattle.roc_kept.specs.Kept.{kept_failed, is_broken, answers_full, is_lost, is_too_long, is_untried, KeepsTag, IsSyncedBy};

use crate::KeptFault;
use roc_disk::Disk;
use roc_journal::{AppendFault, Journal, record_of};
use roc_msg::Msg;
use roc_server::Handled;
use roc_wire::Header;
use std::alloc::Global;

/// The journal of a server, its tag, and whether the disk failed in an earlier call.
#[derive(Clone, Copy, Debug)]
pub struct Keeper {
    pub(crate) journal: Journal,
    pub(crate) tag: [u8; 8],
    pub(crate) broken: bool,
}

// Whether the disk failed in an earlier call.
pub(crate) fn is_lost(keeper: &Option<Keeper>) -> bool
    ensures { result ≡ is_lost keeper.now }
{
    match keeper {
        None => false,
        Some(keeper) => keeper.broken,
    }
}

// Whether a message that is answered so leaves a record.
fn is_recorded(msg: &Msg, answer: Handled) -> bool
    ensures { result ≡ is_recorded msg.now answer }
{
    match msg {
        Msg::Read { .. } => false,
        _ => match answer {
            Handled::Done | Handled::Gone => true,
            Handled::Ignored(_) => false,
        },
    }
}

// Keeps a message that will be answered so, where it leaves a record and there is a journal.
pub(crate) fn keep<D: Disk>(
    alloc: Global,
    header: &Header,
    msg: &Msg,
    answer: Handled,
    keeper: &mut Option<Keeper>,
    disk: &mut D,
) -> Result<(), KeptFault>
    requires spelling { IsSpellable header.now msg.now }
    ensures tag { (tag : List ℕ) → KeepsTag tag keeper.old → KeepsTag tag keeper.new }
    ensures unkept { keeper.old ≡ None → IsOk result × (keeper.new ≡ None) × (disk.new ≡ disk.old) }
    ensures unrecorded { is_recorded msg.now answer ≡ false → IsOk result × (keeper.new ≡ keeper.old) × (disk.new ≡ disk.old) }
    ensures cause { HasCause (kept_failed result) (D.faults disk.old) (D.faults disk.new) }
    ensures told { D.tells disk.new ≡ true → D.tells disk.old ≡ true }
    ensures broken { is_broken result ≡ false }
    ensures lost { is_lost keeper.new ≡ kept_failed result || is_lost keeper.old }
    ensures untried { is_untried result ≡ true → (disk.new ≡ disk.old) × (keeper.new ≡ keeper.old) }
    ensures full { answers_full result ≡ true → is_too_long keeper.old (record { header = header.now; msg = msg.now }) ≡ true }
    ensures room { is_recorded msg.now answer ≡ true → is_too_long keeper.old (record { header = header.now; msg = msg.now }) ≡ true → is_untried result ≡ true }
    ensures kept { D.tells disk.new ≡ true → is_recorded msg.now answer ≡ true → (name tag : List ℕ) (records : List Record) → IsSyncedBy D.Disk disk.old name tag records keeper.old
        → header.now.tag ≡ tag → OnOk result (IsSyncedBy D.Disk disk.new name tag (records ++ record { header = header.now; msg = msg.now } ∷ []) keeper.new) }
    ensures any_moment { D.tells disk.new ≡ true → is_recorded msg.now answer ≡ true → (name tag : List ℕ) (records : List Record) → IsSyncedBy D.Disk disk.old name tag records keeper.old
        → header.now.tag ≡ tag → LeavesOnly D.Disk disk.old disk.new name (IsBeforeOrAfter tag records (record { header = header.now; msg = msg.now })) }
{
    if !is_recorded(msg, answer) {
        return Ok(());
    }
    match keeper {
        None => Ok(()),
        Some(keeper) => append(alloc, header, msg, keeper, disk),
    }
}

// Adds the record of a message.
fn append<D: Disk>(
    alloc: Global,
    header: &Header,
    msg: &Msg,
    keeper: &mut Keeper,
    disk: &mut D,
) -> Result<(), KeptFault>
    requires spelling { IsSpellable header.now msg.now }
    ensures tag { keeper.new.tag ≡ keeper.old.tag }
    ensures cause { HasCause (kept_failed result) (D.faults disk.old) (D.faults disk.new) }
    ensures told { D.tells disk.new ≡ true → D.tells disk.old ≡ true }
    ensures broken { is_broken result ≡ false }
    ensures lost { keeper.new.broken ≡ kept_failed result || keeper.old.broken }
    ensures untried { is_untried result ≡ true → (disk.new ≡ disk.old) × (keeper.new ≡ keeper.old) }
    ensures full { answers_full result ≡ true → is_too_long (Some keeper.old) (record { header = header.now; msg = msg.now }) ≡ true }
    ensures room { is_too_long (Some keeper.old) (record { header = header.now; msg = msg.now }) ≡ true → is_untried result ≡ true }
    ensures kept { D.tells disk.new ≡ true → (name tag : List ℕ) (records : List Record) → IsSyncedBy D.Disk disk.old name tag records (Some keeper.old)
        → header.now.tag ≡ tag → OnOk result (IsSyncedBy D.Disk disk.new name tag (records ++ record { header = header.now; msg = msg.now } ∷ []) (Some keeper.new)) }
    ensures any_moment { D.tells disk.new ≡ true → (name tag : List ℕ) (records : List Record) → IsSyncedBy D.Disk disk.old name tag records (Some keeper.old)
        → header.now.tag ≡ tag → LeavesOnly D.Disk disk.old disk.new name (IsBeforeOrAfter tag records (record { header = header.now; msg = msg.now })) }
{
    match record_of(alloc, header, msg) {
        Err(_) => Err(KeptFault::NoMemory),
        Ok(bytes) => match keeper.journal.append(&bytes, disk) {
            Err(AppendFault::Full) => Err(KeptFault::Full),
            Err(AppendFault::Disk) => {
                keeper.broken = true;
                Err(KeptFault::Disk)
            }
            Ok(()) => Ok(()),
        },
    }
}
