//! Laws of the check of a text. Each is the contract of a function that does nothing.
ghost use Rattle.std.specs.Prelude.{◌≡◌, ◌⊎◌, ℕ, List};
ghost use Rattle.roc_program.specs.Program.{Workload};
ghost use Rattle.roc_program.specs.WellFormed.{IsProgram};
ghost use Rattle.roc_plan.specs.Groups.{Plan};
ghost use Rattle.roc_plan.specs.Accepted.{IsAccepted};
ghost use Rattle.roc_report.specs.Checked.{CheckedLine};
ghost use Rattle.roc_report.specs.ReportLine.{HasNames};
ghost use Rattle.roc_check.specs.Lines.{check_lines};
ghost use Rattle.roc_check.specs.Checked.{IsPlanOf, IsPlanOfText, IsRefusedBy, IsTextOf};

use roc_merge_groups::laws::merged_groups_are_one;
use roc_report::laws::{programs_have_names, texts_have_words};

/// A text has at most one plan, and so one text of `check`.
pub fn plans_are_unique()
    ensures plan { (bytes : List ℕ) (one other : Plan) → IsPlanOfText bytes one → IsPlanOfText bytes other → one ≡ other }
    ensures lines { (bytes : List ℕ) (one other : Plan) → IsPlanOfText bytes one → IsPlanOfText bytes other → check_lines one ≡ check_lines other }
{
    merged_groups_are_one();
}

/// A program is refused by at most one line, and by none where it has a plan. A well-formed program has a plan, or a line refuses it.
pub fn refusals_are_unique()
    ensures line { (program : Workload) (one other : CheckedLine) → IsRefusedBy program one → IsRefusedBy program other → one ≡ other }
    ensures no_plan { (program : Workload) (plan : Plan) (line : CheckedLine) → IsPlanOf program plan → IsRefusedBy program line → ⊥ }
    ensures one_of { (program : Workload) → IsProgram program → ((plan : Plan) × IsPlanOf program plan) ⊎ ((line : CheckedLine) × IsRefusedBy program line) }
{}

/// The plan of a text is accepted, so that the laws of accepted plans hold of it.
pub fn plans_are_accepted()
    ensures { (bytes : List ℕ) (plan : Plan) → IsPlanOfText bytes plan → IsAccepted plan }
{}

/// Names tell the parts of the program of a text apart, so that the text of a report of it is read in one way.
pub fn programs_of_texts_have_names()
    ensures { (bytes : List ℕ) (program : Workload) → IsTextOf bytes program → HasNames program }
{
    programs_have_names();
    texts_have_words();
}
