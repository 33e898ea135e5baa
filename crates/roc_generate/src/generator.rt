//! Both texts.
ghost use Rattle.std.specs.Prelude.{◌≡◌, ◌<◌, IfOk};
ghost use Rattle.roc_generate.specs.WorkloadText.{generated_workload};
ghost use Rattle.roc_generate.specs.ScheduleText.{generated_schedule};

use crate::schedule::push_schedule;
use crate::workload::push_workload;
use roc_base::NoMemory;
use std::alloc::Global;

/// A workload for so many shards, and a schedule of so many transactions for it, drawn from a seed: `docs/FORMATS.md` says
/// which. The first text is the workload. `NoMemory` leaves nothing behind.
pub fn generate(
    alloc: Global,
    seed: u64,
    shards: u8,
    txns: u16,
) -> Result<(Vec<u8>, Vec<u8>), NoMemory>
    requires { 0 < shards }
    ensures workload { IfOk result (λ texts. texts.0.items ≡ generated_workload shards) }
    ensures schedule { IfOk result (λ texts. texts.1.items ≡ generated_schedule seed shards txns) }
{
    let mut workload = String::new(alloc);
    push_workload(&mut workload, shards)?;
    let mut schedule = String::new(alloc);
    push_schedule(&mut schedule, seed, shards, txns)?;
    Ok((workload.into_bytes(), schedule.into_bytes()))
}
