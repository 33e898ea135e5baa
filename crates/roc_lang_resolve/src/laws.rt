//! A law of programs: the contract of a function that does nothing.
ghost use Rattle.std.specs.Prelude.{◌≡◌, []};
ghost use Rattle.roc_lang.specs.Limits.{IsWithinLimits};
ghost use Rattle.roc_lang.specs.Scope.{faults};
ghost use Rattle.roc_lang.specs.Syntax.{Tree};
ghost use Rattle.roc_program.specs.WellFormed.{IsProgram};
ghost use Rattle.roc_lang_resolve.specs.Resolve.{resolved};

/// The program of a tree within the limits and in scope is well formed.
pub fn programs_are_well_formed()
    ensures { (t : Tree) → IsWithinLimits t → faults t ≡ [] → IsProgram (resolved t) }
{}
