//! Why a workload has no merged groups.
use roc_base::NoMemory;
use roc_program::PieceId;
use thiserror::Error;

/// Why the pieces of a workload cannot be merged.
#[derive(Clone, Copy, Debug, PartialEq, Eq, Error)]
pub enum Refusal {
    /// Two contended pieces of a procedure are at different places.
    #[error("contended pieces at different places")]
    Apart { p: PieceId, q: PieceId },
    /// A piece between two contended ones of a procedure is at another place.
    #[error("a piece at another place between contended ones")]
    Blocked { p: PieceId, q: PieceId, x: PieceId },
    /// No memory was left for the groups.
    #[error("out of memory")]
    NoMemory,
}

impl From<NoMemory> for Refusal {
    ghost use Rattle.std.specs.Prelude.{◌≡◌};
    ghost use Rattle.roc_merge.specs.declared.refusal.Refusal.TheVariants.{NoMemory as no_memory};

    ghost from_gives = { λ _ refusal. refusal ≡ no_memory };

    fn from(_error: NoMemory) -> Refusal {
        Refusal::NoMemory
    }
}
