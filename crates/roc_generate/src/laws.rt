//! Laws of the generated texts. Each is the contract of a function that does nothing.
ghost use Rattle.std.specs.Prelude.{◌≡◌, ℕ, ◌<◌, ◌≤◌, ◌/◌, ◌^◌};
ghost use Rattle.roc_plan.specs.Groups.{Plan};
ghost use Rattle.roc_check.specs.Checked.{IsPlanOfText};
ghost use Rattle.roc_generate.specs.Draws.{next_state};
ghost use Rattle.roc_generate.specs.WorkloadText.{generated_workload};
ghost use Rattle.roc_generate.specs.ScheduleText.{generated_schedule, generated_lines};
ghost use Rattle.roc_generate.specs.Load.{IsCanonicalText, IsLoadOf};

use roc_check::laws::plans_are_unique;

/// The generated workload is a canonical text, and has a plan: so `check` gives that plan, unless memory runs out.
pub fn workloads_have_plans()
    ensures canonical { (shards : ℕ) → 0 < shards → shards ≤ 64 → IsCanonicalText (generated_workload shards) }
    ensures plan { (shards : ℕ) → 0 < shards → shards ≤ 64 → (plan : Plan) × IsPlanOfText (generated_workload shards) plan }
{}

/// The generated schedule is a schedule for the generated workload, whose submissions are calls of its procedures.
pub fn schedules_fit()
    ensures { (seed shards txns : ℕ) (plan : Plan) → 0 < shards → shards ≤ 64 → txns ≤ 1000 → IsPlanOfText (generated_workload shards) plan
        → IsLoadOf plan.program (generated_schedule seed shards txns) (generated_lines seed shards txns) }
{
    plans_are_unique();
}

/// The high bits of the first states of two seeds.
pub fn first_draws()
    ensures one { next_state 1 / 2 ^ 33 ≡ 908834774 }
    ensures zero { next_state 0 / 2 ^ 33 ≡ 167951807 }
{}
