// A disk that fails or stops where it was told to.
ghost use Rattle.std.specs.Prelude.{◌≡◌, true, [], Some, length};
ghost use Rattle.roc_disk_memory.specs.Versions.{seen_in, MayLeave, LeftSince, now_counts, now_only};
ghost use Rattle.std.proofs.Common.{inl, refl};

use crate::bytes::Tear;
use crate::calls::Calls;
use crate::store::Store;
use roc_disk::{Disk, DiskDone, DiskLen};
use std::alloc::Global;

/// A disk in memory that fails at the calls that it was told to fail at, and stops at one.
///
/// The call at which it stops and those behind it fail. What was written and not synced is torn as it was told: a read
/// does not see that, a stop does. A call that fails, and does not stop the disk, is torn and not seen in the same way.
///
/// Once there is no memory for what a file holds, it tells no more; what it answers does not change by that.
#[derive(Drop)]
pub struct MemDisk {
    store: Store,
    calls: Calls,
    tear: Tear,
}

impl MemDisk {
    /// An empty disk, which tells what it holds. The file of the empty name is open. The calls with the numbers in `failing` are to fail,
    /// and at the call `stop` the disk stops (at `u64::MAX`: never). The first call is number 1; `faults` is no call.
    pub fn new(alloc: Global, failing: Vec<u64>, stop: u64, tear: Tear) -> Self
        ensures told { result.store.told ≡ true }
        ensures empty { (result.store.versions.items ≡ []) × (result.calls.faults ≡ 0) }
    {
        MemDisk {
            store: Store::new(alloc),
            calls: Calls::new(failing, stop),
            tear,
        }
    }

    /// What a read of the open file gives.
    pub fn seen(&self) -> &[u8] {
        self.store.files().0
    }

    /// What a stop leaves of the open file, where all that was not synced is torn.
    pub fn image(&self) -> &[u8] {
        self.store.files().1
    }

    /// Whether the disk tells what it holds.
    pub fn is_told(&self) -> bool {
        self.store.is_told()
    }

    // Behind the call at which the disk stopped nothing is torn any more.
    fn tear(&self) -> Tear {
        if self.calls.is_over() {
            Tear::Nothing
        } else {
            self.tear
        }
    }
}

impl Disk for MemDisk {
    ghost faults = { λ d. d.calls.faults };

    ghost tells = { λ d. d.store.told };

    ghost file = { λ d. Some d.store.file.items };

    ghost content = { λ d name. seen_in d.store.versions.items name };

    ghost may_leave = { λ d name image. MayLeave d.store.versions.items name image };

    ghost moment = { λ d. length d.store.versions.items };

    ghost left_since = { λ d name t image. LeftSince d.store.versions.items name t image };

    ghost counts_now = { λ d name t image told le now. now_counts d.store.versions.items name t image now };

    ghost only_now = { λ d name image told left. now_only d.store.versions.items name image left };

    ghost reads_stay = { λ d name told. inl refl };

    fn open(&mut self, name: &str) -> DiskDone {
        let fails = self.calls.next_fails();
        self.store.open(name, fails)
    }

    fn len(&mut self) -> DiskLen {
        if self.calls.next_fails() {
            return DiskLen::Failed;
        }
        DiskLen::Len(self.store.len())
    }

    fn read(&mut self, at: u64, into: &mut [u8]) -> DiskDone {
        if self.calls.next_fails() {
            return DiskDone::Failed;
        }
        self.store.read(at, into);
        DiskDone::Ok
    }

    fn write_at(&mut self, at: u64, bytes: &[u8]) -> DiskDone {
        let tear = self.tear();
        let fails = self.calls.next_fails();
        self.store.write_at(at, bytes, tear, fails)
    }

    fn cut(&mut self, len: u64) -> DiskDone {
        let tear = self.tear();
        let fails = self.calls.next_fails();
        self.store.cut(len, tear, fails)
    }

    fn sync(&mut self) -> DiskDone {
        let fails = self.calls.next_fails();
        self.store.sync(fails)
    }

    fn faults(&self) -> u64 {
        self.calls.faults()
    }
}
