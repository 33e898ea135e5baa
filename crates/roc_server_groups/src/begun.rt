//! What a group does as it starts.
ghost use Rattle.std.specs.Prelude.{◌≡◌, ◌<◌, [], length, if◌then◌else◌, IfOk, OnOk};
ghost use Rattle.roc_group.specs.GroupRun.{call, group_run, group_uses, bound_by_run};
ghost use Rattle.roc_plan.specs.Groups.{groups_of, is_immediate_of, procedure_of, inputs_of};

use roc_base::{NoMemory, Nums};
use roc_group::{Access, Outputs, cells, run_group};
use roc_plan::{Class, Known, Plan};
use roc_rows::Rows;
use roc_sequence::Sequence;
use std::alloc::Global;

/// Whether a group is immediate.
pub fn is_immediate(plan: &Plan, proc: u16, group: u16) -> bool
    requires { group < length (groups_of plan.now proc) }
    ensures { result ≡ is_immediate_of plan.now proc group }
{
    plan.class(proc, group) == Class::Immediate
}

/// What a group that starts now binds, gives out and touches.
#[derive(Drop)]
pub struct Begun {
    /// What it binds.
    pub bound: Nums,
    /// What it gives out.
    pub outs: Nums,
    /// The cells that it uses.
    pub cells: Sequence<Access>,
}

/// An immediate group runs: what it gave and touched. Of a deferrable one what it will use. `NoMemory` may leave cells changed: only a savepoint of them
/// leads back.
pub fn begin_group(
    alloc: Global,
    plan: &Plan,
    proc: u16,
    group: u16,
    known: &Known,
    rows: &mut Rows,
) -> Result<Begun, NoMemory>
    requires exists { group < length (groups_of plan.now proc) }
    requires args { length known.now.args ≡ (procedure_of plan.now proc).arguments }
    requires inputs { length known.now.inputs ≡ length (inputs_of plan.now proc group) }
    ensures cells { IfOk result (λ o. o.cells ≡ group_uses plan.now (call proc group known.now.args known.now.inputs) rows.old.store) }
    ensures bound { IfOk result (λ o. o.bound ≡ (if is_immediate_of plan.now proc group then bound_by_run plan.now (call proc group known.now.args known.now.inputs) rows.old.store else [])) }
    ensures outs { IfOk result (λ o. o.outs ≡ (if is_immediate_of plan.now proc group then (group_run plan.now (call proc group known.now.args known.now.inputs) rows.old.store).reply else [])) }
    ensures store { OnOk result (rows.new.store
        ≡ (if is_immediate_of plan.now proc group then (group_run plan.now (call proc group known.now.args known.now.inputs) rows.old.store).store else rows.old.store)) }
    ensures saved { rows.new.saved ≡ rows.old.saved }
{
    if is_immediate(plan, proc, group) {
        let mut out = Outputs::new(alloc);
        run_group(plan, proc, group, known, rows, &mut out)?;
        let (bound, outs, cells) = out.into_parts();
        return Ok(Begun { bound, outs, cells });
    }
    let cells = cells(alloc, plan, proc, group, known)?;
    Ok(Begun {
        bound: Nums::new(alloc),
        outs: Nums::new(alloc),
        cells,
    })
}
