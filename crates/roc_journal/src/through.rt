//! Writes and cuts that are on the disk once they are answered Ok.
ghost use Rattle.std.specs.Prelude.{◌≡◌, true};
ghost use Rattle.roc_io.specs.Cause.{HasCause};
ghost use Rattle.roc_disk.specs.Answers.{disk_failed};
ghost use Rattle.roc_journal.specs.Inner.Steps.{Writes, Cuts};

use roc_disk::{Disk, DiskDone};

/// Writes, and waits until the disk has it.
pub(crate) fn write_through<D: Disk>(disk: &mut D, at: u64, bytes: &[u8]) -> DiskDone
    ensures cause { HasCause (disk_failed result) (D.faults disk.old) (D.faults disk.new) }
    ensures told { D.tells disk.new ≡ true → D.tells disk.old ≡ true }
    ensures written { D.tells disk.new ≡ true → Writes D.Disk disk.old disk.new at bytes.now result }
{
    match disk.write_at(at, bytes) {
        DiskDone::Failed => DiskDone::Failed,
        DiskDone::Ok => disk.sync(),
    }
}

/// Cuts, and waits until the disk has it.
pub(crate) fn cut_through<D: Disk>(disk: &mut D, len: u64) -> DiskDone
    ensures cause { HasCause (disk_failed result) (D.faults disk.old) (D.faults disk.new) }
    ensures told { D.tells disk.new ≡ true → D.tells disk.old ≡ true }
    ensures cut { D.tells disk.new ≡ true → Cuts D.Disk disk.old disk.new len result }
{
    match disk.cut(len) {
        DiskDone::Failed => DiskDone::Failed,
        DiskDone::Ok => disk.sync(),
    }
}
