//! Why a node ignores a message, or does not answer.
ghost use Rattle.std.specs.Prelude.{◌≡◌};
ghost use Rattle.roc_msg.specs.declared.reason.NodeFault.TheVariants.{NoMemory as no_memory};

use roc_base::NoMemory;
use std::alloc::AllocError;
use std::fmt;
use thiserror::Error;

/// Why a message was ignored. An ignored message changes nothing and sends nothing. Of several
/// reasons the first in this order is named.
#[derive(Clone, Copy, Debug, PartialEq, Eq, Hash)]
pub enum Reason {
    /// A message of a kind that this node does not take.
    Foreign,
    /// A start of a procedure that the plan does not have.
    BadProc,
    /// A start of a group that the procedure does not have.
    BadGroup,
    /// A start with another count of arguments or inputs than the plan has.
    BadInputs,
    /// A start whose place is another shard's, a commit or a fetch of a transaction without a group
    /// here, or a known of one that this shard never asked for.
    NotHere,
    /// A start of a new group of a transaction whose dependency list is known here.
    Late,
    /// A start with another procedure or other arguments than an earlier group of the transaction
    /// here, or a commit or a known with another list than the one that is known.
    Differs,
    /// An answer that was taken before, or of a transaction that is not waited for.
    Stale,
    /// An answer that no request of this coordinator asks for.
    Unfit,
}

impl fmt::Display for Reason {
    ghost use Rattle.std.specs.Prelude.{Some};
    ghost use Rattle.roc_msg.specs.Reason.{reason_text};

    ghost output = { λ reason. Some (reason_text reason) };

    fn fmt<W: fmt::Write>(&self, f: &mut fmt::Formatter<W>) -> fmt::Result {
        f.write_str(match self {
            Reason::Foreign => "foreign",
            Reason::BadProc => "badproc",
            Reason::BadGroup => "badgroup",
            Reason::BadInputs => "badinputs",
            Reason::NotHere => "nothere",
            Reason::Late => "late",
            Reason::Differs => "differs",
            Reason::Stale => "stale",
            Reason::Unfit => "unfit",
        })
    }
}

/// Why a node gives no answer. The node and its outbox are as they were then, but for the room that they have, so the same call may be
/// made again.
#[derive(Clone, Copy, Debug, PartialEq, Eq, Error)]
pub enum NodeFault {
    /// There is no memory for what comes of the call.
    #[error("out of memory")]
    NoMemory,
}

impl From<NoMemory> for NodeFault {
    ghost from_gives = { λ _ fault. fault ≡ no_memory };

    fn from(_want: NoMemory) -> NodeFault {
        NodeFault::NoMemory
    }
}

impl From<AllocError> for NodeFault {
    ghost from_gives = { λ _ fault. fault ≡ no_memory };

    fn from(_want: AllocError) -> NodeFault {
        NodeFault::NoMemory
    }
}
