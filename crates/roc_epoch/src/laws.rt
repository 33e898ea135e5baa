//! Laws of grown programs. Each is the contract of a function that does nothing.
ghost use Rattle.std.specs.Prelude.{◌≡◌, ℕ, ◌<◌, List, length, slice_get, Some, Result};
ghost use Rattle.roc_program.specs.Program.{Workload};
ghost use Rattle.roc_program.specs.LookUps.{procedure_named};
ghost use Rattle.roc_epoch.specs.declared.fault.GrowthFault.{GrowthFault};
ghost use Rattle.roc_epoch.specs.Grown.{IsGrownFrom};
ghost use Rattle.roc_epoch.specs.Growth.{IsGrowth};

/// Of two programs there is at most one answer: what is wrong first, or that the new one is a grown one of the old.
pub fn growth_is_one()
    ensures { (old new : Workload) (one other : Result (Unit {0}) GrowthFault) → IsGrowth old new one → IsGrowth old new other → one ≡ other }
{}

/// Of any two programs there is an answer.
pub fn grown_or_faulty()
    ensures { (old new : Workload) → (answer : Result (Unit {0}) GrowthFault) × IsGrowth old new answer }
{}

/// Under a grown program the numbers of old procedures and tables, and the names of old procedures, mean what they did.
pub fn grown_programs_call_alike()
    ensures procedures { (old new : Workload) → IsGrownFrom old new → (proc : ℕ) → proc < length old.procedures → slice_get new.procedures proc ≡ slice_get old.procedures proc }
    ensures tables { (old new : Workload) → IsGrownFrom old new → (table : ℕ) → table < length old.tables → slice_get new.tables table ≡ slice_get old.tables table }
    ensures names { (old new : Workload) → IsGrownFrom old new → (name : List ℕ) (proc : ℕ) → procedure_named old name ≡ Some proc → procedure_named new name ≡ Some proc }
{}
