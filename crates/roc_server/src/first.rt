//! The cells of a server before any message.
ghost use Rattle.std.specs.Prelude.{◌≡◌, ◌==◌, filter, IfOk};
ghost use Rattle.roc_plan.specs.Groups.{shard_of};
ghost use Rattle.roc_rows.specs.Store.{empty};
ghost use Rattle.roc_whole.specs.Serial.{after_inits};

use roc_base::{NoMemory, Shard};
use roc_plan::Plan;
use roc_program::Init;
use roc_rows::Rows;
use roc_whole::set_init;
use std::alloc::Global;

// The start cells of a shard's places.
pub(crate) fn first_rows(alloc: Global, plan: &Plan, shard: Shard) -> Result<Rows, NoMemory>
    ensures { IfOk result (λ rows. rows.store ≡ after_inits empty (filter (λ i. shard_of plan.now i.place == shard.0) plan.now.program.inits)) }
{
    let mut rows = Rows::new(alloc);
    for init in plan.workload().inits() {
        if is_here(plan, shard, init) {
            set_init(&mut rows, init)?;
        }
    }
    Ok(rows)
}

// Whether the cell of an `init` line is of a shard's places.
fn is_here(plan: &Plan, shard: Shard, init: &Init) -> bool
    ensures { result ≡ (shard_of plan.now init.now.place == shard.0) }
{
    plan.shard_of(init.place) == shard
}
