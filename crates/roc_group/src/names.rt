//! The values of names that a group knows before it runs.
ghost use Rattle.std.specs.Prelude.{◌≡◌, ◌<◌, ◌≤◌, length, IfOk, OnOk, IsOk, vec_capacity};
ghost use Rattle.roc_plan.specs.Groups.{procedure_of, groups_of, group_of, inputs_of, environment_in};

use roc_base::NoMemory;
use roc_plan::{Known, Plan, set_values};
use std::alloc::Global;

// The arguments, the values that the group takes from others, and 0 for each other name.
pub(crate) fn names_before(
    alloc: Global,
    plan: &Plan,
    proc: u16,
    group: u16,
    known: &Known,
) -> Result<Vec<i64>, NoMemory>
    requires exists { group < length (groups_of plan.now proc) }
    requires args { length known.now.args ≡ (procedure_of plan.now proc).arguments }
    requires inputs { length known.now.inputs ≡ length (inputs_of plan.now proc group) }
    ensures { IfOk result (λ names. names.items ≡ environment_in (procedure_of plan.now proc) (group_of plan.now proc group).pieces known.now.args known.now.inputs) }
{
    let mut names = Vec::new(alloc);
    fill_names(plan, proc, group, known, &mut names)?;
    Ok(names)
}

// The same, in the place of what stood there.
pub(crate) fn fill_names(
    plan: &Plan,
    proc: u16,
    group: u16,
    known: &Known,
    names: &mut Vec<i64>,
) -> Result<(), NoMemory>
    requires exists { group < length (groups_of plan.now proc) }
    requires args { length known.now.args ≡ (procedure_of plan.now proc).arguments }
    requires inputs { length known.now.inputs ≡ length (inputs_of plan.now proc group) }
    ensures ok { OnOk result (names.new.items ≡ environment_in (procedure_of plan.now proc) (group_of plan.now proc group).pieces known.now.args known.now.inputs) }
    ensures succeeds { (procedure_of plan.now proc).names ≤ vec_capacity names.old → IsOk result }
    ensures capacity { vec_capacity names.old ≤ vec_capacity names.new }
{
    let procedure = &plan.workload().procedures()[proc as usize];
    names.clear();
    names.extend_from_slice(known.args.as_slice())?;
    names.resize(procedure.names as usize, 0)?;
    set_values(
        names.as_mut_slice(),
        plan.input_names(proc, group),
        known.inputs.as_slice(),
    );
    Ok(())
}
