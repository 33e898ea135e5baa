//! A workload's plan, and the tag of its datagrams.
ghost use Rattle.std.specs.Prelude.{◌≡◌, ℕ, List, false, IfOk, IfErr};
ghost use Rattle.roc_io.specs.Cause.{HasCause};
ghost use Rattle.roc_cli_files.specs.Fault.{blames_file, blames_sink, blames_link, fails_by, ReadsBut};
ghost use Rattle.roc_cli_files.specs.Input.{PlanFails};
ghost use Rattle.roc_cli_files.specs.NodeNames.{HoldsTagged};

use crate::fault::Fault;
use crate::input::{bytes_of, checked};
use roc_io::{Files, Sink};
use roc_lang::limits::TEXT_BYTES;
use roc_plan::Plan;
use roc_wire::tag;
use std::alloc::Global;

/// A plan, and the tag that datagrams have under it.
#[derive(Drop)]
pub struct Tagged {
    pub plan: Plan,
    pub tag: [u8; 8],
}

/// The plan of the workload that a file holds, and its tag. Where it is not acceptable, standard output is told why.
pub fn tagged_of<'a, F: Files, S: Sink>(
    alloc: Global,
    files: &mut F,
    name: &'a str,
    out: &mut S,
) -> Result<Tagged, Fault<'a>>
    ensures held { IfOk result (λ tagged. HoldsTagged (F.content files.old) name.entry.now tagged.plan tagged.tag) }
    ensures untouched { IfOk result (λ tagged. S.taken out.new ≡ S.taken out.old) }
    ensures fails { IfErr result (PlanFails (F.content files.old) name.entry.now (S.taken out.old) (S.taken out.new)) }
    ensures failed { ReadsBut (F.failed_names files.old) (F.failed_names files.new) result }
    ensures file_faults { HasCause (fails_by blames_file result) (F.faults files.old) (F.faults files.new) }
    ensures sink_faults { HasCause (fails_by blames_sink result) (S.faults out.old) (S.faults out.new) }
    ensures unchanged { (other : List ℕ) → F.content files.new other ≡ F.content files.old other }
    ensures no_link { fails_by blames_link result ≡ false }
{
    match bytes_of(alloc, files, name, TEXT_BYTES) {
        Ok(bytes) => match checked(alloc, name, &bytes, out) {
            Ok(plan) => Ok(Tagged {
                plan,
                tag: tag(&bytes),
            }),
            Err(fault) => Err(fault),
        },
        Err(fault) => Err(fault),
    }
}
