//! Why bytes are no cluster file.

ghost use Rattle.std.specs.Prelude.{◌≡◌, Some, IfOk, string_bytes};
ghost use Rattle.roc_cluster.specs.FaultText.{fault_text, name_text};
ghost use Rattle.roc_cluster.specs.declared.fault.ClusterFault.TheVariants.{NoMemory};

use roc_base::{NoMemory, Shard};
use std::alloc::{AllocError, AllocFailed, Global};
use std::fmt;
use thiserror::Error;

/// A field of a cluster file.
#[derive(Clone, Copy, Debug, PartialEq, Eq)]
pub enum FieldName {
    /// The array of entries.
    Shard,
    /// The number of an entry's shard.
    Number,
    /// The host of an entry.
    Host,
    /// The port of an entry.
    Port,
    /// Any key that is none of these, or stands in a wrong place.
    Other,
}

impl FieldName {
    /// The key of the field, or `other`.
    pub fn as_str(self) -> &'static str
        ensures { result.now ≡ name_text self }
    {
        match self {
            FieldName::Shard => "shard",
            FieldName::Number => "number",
            FieldName::Host => "host",
            FieldName::Port => "port",
            FieldName::Other => "other",
        }
    }
}

impl fmt::Display for FieldName {
    ghost output = { λ name. Some (name_text name) };

    fn fmt<W: fmt::Write>(&self, f: &mut fmt::Formatter<W>) -> fmt::Result {
        f.write_str(self.as_str())
    }
}

/// The first fault of a cluster file.
#[derive(Clone, Copy, Debug, PartialEq, Eq, Error)]
pub enum ClusterFault {
    /// The bytes are no UTF-8 text that is a TOML document.
    #[error("toml")]
    Toml,
    /// A field is missing or not as it has to be, or one is there that may not be.
    #[error("field {0}")]
    Field(FieldName),
    /// A second entry of this shard.
    #[error("twice {0}", .0.0)]
    Twice(Shard),
    /// The least shard without an entry.
    #[error("gap {0}", .0.0)]
    Gap(Shard),
    /// No memory was left for the cluster.
    #[error("out of memory")]
    NoMemory,
}

impl ClusterFault {
    /// What is printed for it: its word, and the field or the number behind it. `NoMemory` comes where there is none for the text.
    pub fn text(&self, alloc: Global) -> Result<String, NoMemory>
        ensures { IfOk result (λ text. string_bytes text ≡ fault_text self.now) }
    {
        let text = match self {
            ClusterFault::Toml => format!(in alloc; "toml")?,
            ClusterFault::Field(name) => format!(in alloc; "field {name}")?,
            ClusterFault::Twice(Shard(number)) => format!(in alloc; "twice {number}")?,
            ClusterFault::Gap(Shard(number)) => format!(in alloc; "gap {number}")?,
            ClusterFault::NoMemory => format!(in alloc; "out of memory")?,
        };
        Ok(text)
    }
}

impl From<AllocError> for ClusterFault {
    ghost from_gives = { λ _ fault. fault ≡ NoMemory };

    fn from(_error: AllocError) -> ClusterFault {
        ClusterFault::NoMemory
    }
}

impl<T: Drop> From<AllocFailed<T>> for ClusterFault {
    ghost from_gives = { λ _ fault. fault ≡ NoMemory };

    fn from(_error: AllocFailed<T>) -> ClusterFault {
        ClusterFault::NoMemory
    }
}
