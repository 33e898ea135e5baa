//! `audit`.
ghost use Rattle.std.specs.Prelude.{IfOk, IfErr};
ghost use Rattle.std.specs.List.{AllByRecursion};
ghost use Rattle.roc_sequence.specs.Places.{NoneTwice};
ghost use Rattle.roc_base.specs.Node.{is_node};
ghost use Rattle.roc_wire.specs.Fits.{FitsHeader};
ghost use Rattle.roc_fold.specs.Folded.{header_of};
ghost use Rattle.roc_auditor.specs.Verdict.{nodes_of, IsAuditedAs, IsAuditFault};

use crate::auditor::Auditor;
use crate::verdict::{AuditFault, Verdict};
use roc_base::NoMemory;
use roc_log::Log;
use roc_plan::Plan;
use std::alloc::Global;

/// What is found of the logs of different nodes, if there is one of each server. Whoever has more logs than there is room for takes them
/// one by one, by an [`Auditor`].
pub fn audit(alloc: Global, plan: &Plan, logs: &[Log]) -> Result<Verdict, AuditFault>
    requires differ { NoneTwice is_node (nodes_of logs.now) }
    requires fit { AllByRecursion (λ log. FitsHeader (header_of log)) logs.now }
    ensures found { IfOk result (IsAuditedAs plan.now logs.now) }
    ensures fault { IfErr result (IsAuditFault plan.now logs.now) }
{
    let mut auditor = Auditor::new(alloc);
    match auditor.note_all(plan, logs) {
        Ok(()) => auditor.verdict(plan),
        Err(NoMemory) => Err(AuditFault::NoMemory),
    }
}
