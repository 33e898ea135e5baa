// A disk that never fails.
ghost use Rattle.std.specs.Prelude.{◌≡◌, true, [], Some, length};
ghost use Rattle.roc_disk_memory.specs.Versions.{seen_in, MayLeave, LeftSince, now_counts, now_only};
ghost use Rattle.std.proofs.Common.{inl, refl};

use crate::bytes::Tear;
use crate::store::Store;
use roc_disk::{Disk, DiskDone, DiskLen};
use std::alloc::Global;

/// A disk in memory that never fails. Each write reaches it at once.
///
/// Once there is no memory for what a file holds, it tells no more, and goes on to answer Ok.
#[derive(Drop)]
pub struct CalmDisk {
    store: Store,
}

impl CalmDisk {
    /// An empty disk, which tells what it holds. The file of the empty name is open.
    pub fn new(alloc: Global) -> Self
        ensures told { result.store.told ≡ true }
        ensures empty { result.store.versions.items ≡ [] }
    {
        CalmDisk {
            store: Store::new(alloc),
        }
    }

    /// What the open file holds. It may be out of date once the disk tells no more.
    pub fn bytes(&self) -> &[u8] {
        self.store.files().0
    }

    /// Whether the disk tells what it holds.
    pub fn is_told(&self) -> bool {
        self.store.is_told()
    }
}

impl Disk for CalmDisk {
    ghost faults = { λ _. 0 };

    ghost tells = { λ d. d.store.told };

    ghost file = { λ d. Some d.store.file.items };

    ghost content = { λ d name. seen_in d.store.versions.items name };

    ghost may_leave = { λ d name image. MayLeave d.store.versions.items name image };

    ghost moment = { λ d. length d.store.versions.items };

    ghost left_since = { λ d name t image. LeftSince d.store.versions.items name t image };

    ghost counts_now = { λ d name t image told le now. now_counts d.store.versions.items name t image now };

    ghost only_now = { λ d name image told left. now_only d.store.versions.items name image left };

    ghost reads_stay = { λ d name told. inl refl };

    fn open(&mut self, name: &str) -> DiskDone {
        self.store.open(name, false)
    }

    fn len(&mut self) -> DiskLen {
        DiskLen::Len(self.store.len())
    }

    fn read(&mut self, at: u64, into: &mut [u8]) -> DiskDone {
        self.store.read(at, into);
        DiskDone::Ok
    }

    fn write_at(&mut self, at: u64, bytes: &[u8]) -> DiskDone {
        self.store.write_at(at, bytes, Tear::Whole, false)
    }

    fn cut(&mut self, len: u64) -> DiskDone {
        self.store.cut(len, Tear::Whole, false)
    }

    fn sync(&mut self) -> DiskDone {
        self.store.sync(false)
    }

    fn faults(&self) -> u64 {
        0
    }
}
