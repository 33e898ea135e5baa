//! Why bytes are no datagram.
ghost use Rattle.std.specs.Prelude.{◌≡◌};
ghost use Rattle.roc_wire.specs.Fault.{fault_text};
ghost use Rattle.roc_wire.specs.declared.fault.WireFault.TheVariants.{NoMemory as no_memory};

use roc_base::NoMemory;
use std::alloc::AllocError;
use thiserror::Error;

/// The first fault from left to right.
#[derive(Clone, Copy, Debug, PartialEq, Eq, Error)]
pub enum WireFault {
    /// The bytes end before a field is whole.
    #[error("short")]
    Short,
    /// They do not begin with `RCO1`.
    #[error("magic")]
    Magic,
    /// Another version than 2.
    #[error("version")]
    Version,
    /// A kind that no message has.
    #[error("kind")]
    Kind,
    /// A count or a number out of its range.
    #[error("count")]
    Count,
    /// An id that does not come behind the one before it.
    #[error("order")]
    Order,
    /// Bytes behind the last field.
    #[error("rest")]
    Rest,
    /// No memory for the message.
    #[error("out of memory")]
    NoMemory,
}

impl WireFault {
    /// The word that is printed for it.
    pub fn as_str(self) -> &'static str
        ensures { result.now ≡ fault_text self }
    {
        match self {
            WireFault::Short => "short",
            WireFault::Magic => "magic",
            WireFault::Version => "version",
            WireFault::Kind => "kind",
            WireFault::Count => "count",
            WireFault::Order => "order",
            WireFault::Rest => "rest",
            WireFault::NoMemory => "out of memory",
        }
    }
}

impl From<NoMemory> for WireFault {
    ghost from_gives = { λ _ fault. fault ≡ no_memory };

    fn from(_want: NoMemory) -> WireFault {
        WireFault::NoMemory
    }
}

impl From<AllocError> for WireFault {
    ghost from_gives = { λ _ fault. fault ≡ no_memory };

    fn from(_want: AllocError) -> WireFault {
        WireFault::NoMemory
    }
}
