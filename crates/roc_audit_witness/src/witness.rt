//! The test.
ghost use Rattle.std.specs.Prelude.{◌↔◌, IsTrue, IfOk};
ghost use Rattle.roc_audit.specs.Witness.{IsSerialWitness};
ghost use Rattle.roc_audit_witness.specs.Submissions.{NamesProcedures};

use crate::ids::is_once;
use crate::real_time::keeps_real_time;
use crate::replies::are_replies;
use crate::runs::serial_replies;
use crate::submissions::are_submitted;
use roc_audit::Entry;
use roc_base::{NoMemory, TxnId};
use roc_program::Workload;
use std::alloc::Global;

/// Whether a list is a serial witness of a history. `NoMemory` comes where there is none for the cells and replies of the serial run. The
/// time is at most near the product of the history's length and the list's, and the time of the serial run.
pub fn is_witness(
    alloc: Global,
    workload: &Workload,
    history: &[Entry],
    order: &[TxnId],
) -> Result<bool, NoMemory>
    requires { NamesProcedures workload.now history.now }
    ensures { IfOk result (λ is. IsTrue is ↔ IsSerialWitness workload.now history.now order.now) }
{
    if !is_once(order) {
        return Ok(false);
    }
    if !are_submitted(history, order) {
        return Ok(false);
    }
    if !keeps_real_time(history, order) {
        return Ok(false);
    }
    let replies = serial_replies(alloc, workload, history, order)?;
    Ok(are_replies(history, &replies))
}
