//! Why a workload's tree is not in scope.

ghost use Rattle.std.specs.Prelude.{◌≡◌, Some};
ghost use Rattle.roc_lang_scope.specs.FaultText.{what_text};
ghost use Rattle.roc_lang_scope.specs.declared.fault.ScopeFault.TheVariants.{NoMemory as no_memory};

use roc_base::NoMemory;
use std::fmt;
use thiserror::Error;

/// What is wrong with a name, or with the number of shards.
#[derive(Debug, Drop)]
pub enum ScopeWhat {
    /// There are not 1 to 64 shards.
    Shards,
    /// The name is declared or bound a second time.
    Twice(String),
    /// No table has the name, or the table has no such column.
    Unknown(String),
    /// The name is bound in an earlier `later` piece.
    LaterUsed(String),
    /// A place or an id uses a name that its own piece binds.
    SamePieceKey(String),
    /// Nothing binds the name before.
    Unbound(String),
    /// An id of the table of this name has another number of integers than the table declares.
    Arity(String),
    /// A view's piece of this name is declared `now`, or writes.
    Viewed(String),
}

impl fmt::Display for ScopeWhat {
    ghost output = { λ what. Some (what_text what) };

    fn fmt<W: fmt::Write>(&self, f: &mut fmt::Formatter<W>) -> fmt::Result {
        match self {
            ScopeWhat::Shards => write!(f, "shards"),
            ScopeWhat::Twice(name) => write!(f, "twice {name}"),
            ScopeWhat::Unknown(name) => write!(f, "unknown {name}"),
            ScopeWhat::LaterUsed(name) => write!(f, "later {name}"),
            ScopeWhat::SamePieceKey(name) => write!(f, "key {name}"),
            ScopeWhat::Unbound(name) => write!(f, "unbound {name}"),
            ScopeWhat::Arity(name) => write!(f, "arity {name}"),
            ScopeWhat::Viewed(name) => write!(f, "view {name}"),
        }
    }
}

/// Why a tree is refused.
#[derive(Debug, Drop, Error)]
pub enum ScopeFault {
    /// The first fault of a text, with its line, counted from 1.
    #[error("line {line}: {what}")]
    At { line: u32, what: ScopeWhat },
    /// No memory was left: for the name in a fault, or for what is made of a tree in scope.
    #[error("out of memory")]
    NoMemory,
}

impl From<NoMemory> for ScopeFault {
    ghost from_gives = { λ _ fault. fault ≡ no_memory };

    fn from(_error: NoMemory) -> ScopeFault {
        ScopeFault::NoMemory
    }
}
