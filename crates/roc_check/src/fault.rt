//! Why a text has no plan.
use roc_base::NoMemory;
use roc_lang::LangError;
use roc_lang_scope::ScopeFault;
use roc_program::{PieceId, Workload};
use roc_scgraph::Vertex;
use roc_sequence::Sequence;
use std::fmt;
use thiserror::Error;

/// Why a text has no plan: the fault of the first step that finds one. Pieces and vertices are numbers, so a refusal hands back the
/// workload, which has their names.
#[derive(Drop, Error)]
pub enum CheckFault {
    /// The bytes are no workload text.
    #[error(transparent)]
    Lang(LangError),
    /// The names are not in scope.
    #[error(transparent)]
    Scope(ScopeFault),
    /// Two pieces of a procedure that may not be cut apart are at different places, and a cycle through the two shows why they
    /// may not.
    #[error("contended pieces at different places")]
    Apart {
        workload: Workload,
        p: PieceId,
        q: PieceId,
        cycle: Sequence<Vertex>,
    },
    /// A piece between two that may not be cut apart is at another place; the cycle is that of the two.
    #[error("a piece at another place between contended ones")]
    Blocked {
        workload: Workload,
        p: PieceId,
        q: PieceId,
        x: PieceId,
        cycle: Sequence<Vertex>,
    },
    /// No memory was left for the plan.
    #[error("out of memory")]
    NoMemory,
}

/// The same text as that of its `Display`, since a workload has no other.
impl fmt::Debug for CheckFault {
    fn fmt<W: fmt::Write>(&self, f: &mut fmt::Formatter<W>) -> fmt::Result {
        write!(f, "{self}")
    }
}

impl From<NoMemory> for CheckFault {
    ghost use Rattle.std.specs.Prelude.{◌≡◌};
    ghost use Rattle.roc_check.specs.declared.fault.CheckFault.TheVariants.{NoMemory as no_memory};

    ghost from_gives = { λ _ fault. fault ≡ no_memory };

    fn from(_error: NoMemory) -> CheckFault {
        CheckFault::NoMemory
    }
}
