//! Deliveries, and datagrams that are skipped.
ghost use Rattle.std.specs.Prelude.{◌≡◌, IfOk};
ghost use Rattle.roc_node.specs.Judgement.{judged, IsSpelled};

use roc_base::NoMemory;
use roc_msg::Msg;
use roc_wire::{Header, WireFault, decode};
use std::alloc::Global;

/// Why a datagram is skipped.
#[derive(Clone, Copy)]
pub enum Skip {
    /// It is none, with its first fault.
    Fault(WireFault),
    /// It has the tag of another workload.
    Tag,
}

/// What bytes that came are to a node.
#[derive(Drop)]
pub enum Judged {
    /// A message, with who says that it sent it.
    Delivery(Header, Msg),
    /// Nothing that the node takes.
    Skipped(Skip),
}

/// What bytes are to a node with this tag. `NoMemory` is of the message alone.
pub fn judge(alloc: Global, tag: [u8; 8], bytes: &[u8]) -> Result<Judged, NoMemory>
    ensures is { IfOk result (λ found. found ≡ judged tag bytes.now) }
    // A delivery has a spelling: these bytes.
    ensures fits { IfOk result IsSpelled }
{
    match decode(alloc, bytes) {
        Ok((header, msg)) => {
            if header.tag == tag {
                Ok(Judged::Delivery(header, msg))
            } else {
                Ok(Judged::Skipped(Skip::Tag))
            }
        }
        Err(WireFault::NoMemory) => Err(NoMemory),
        Err(fault) => Ok(Judged::Skipped(Skip::Fault(fault))),
    }
}
