//! Why a workload has no plan.
use roc_base::NoMemory;
use thiserror::Error;

/// Why a workload has no plan.
#[derive(Clone, Copy, Debug, PartialEq, Eq, Error)]
pub enum PlanFault {
    /// The groups are none that the layers above may rely on, or the classes are not those of the workload.
    #[error("unfit")]
    Unfit,
    /// No memory was left for the plan.
    #[error("out of memory")]
    NoMemory,
}

impl From<NoMemory> for PlanFault {
    ghost use Rattle.std.specs.Prelude.{◌≡◌};
    ghost use Rattle.roc_plan_make.specs.declared.fault.PlanFault.TheVariants.{NoMemory as no_memory};

    ghost from_gives = { λ _ fault. fault ≡ no_memory };

    fn from(_error: NoMemory) -> PlanFault {
        PlanFault::NoMemory
    }
}
