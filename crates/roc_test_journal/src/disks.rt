//! Disks in memory, and the ways in which one of their calls ends badly.
use roc_disk_memory::{MemDisk, Tear};
use std::alloc::{AllocError, Global};

/// The call that fails, the one that the disk stops at, and what that leaves of what was not synced.
pub(crate) type Way = (u64, u64, Tear);

/// The ways in which this call ends badly: it fails, or the disk stops at it.
pub(crate) fn ways(call: u64) -> [Way; 5] {
    [
        (call, u64::MAX, Tear::Half),
        (0, call, Tear::Nothing),
        (0, call, Tear::Half),
        (0, call, Tear::Whole),
        (0, call, Tear::Other(1)),
    ]
}

/// An empty disk that goes this way.
pub(crate) fn failing(alloc: Global, way: Way) -> Result<MemDisk, AllocError> {
    let calls: Vec<u64> = vec![in alloc; way.0; 1]?;
    Ok(MemDisk::new(alloc, calls, way.1, way.2))
}

/// An empty disk that neither fails nor stops.
pub(crate) fn whole(alloc: Global) -> MemDisk {
    MemDisk::new(alloc, Vec::new(alloc), u64::MAX, Tear::Nothing)
}
