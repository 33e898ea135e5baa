//! Request files of a plan.
ghost use Rattle.std.specs.Prelude.{◌≡◌, IfOk, IfErr};
ghost use Rattle.roc_sched.specs.Answer.{IsFaultBy};
ghost use Rattle.roc_cli_files.specs.Requests.{request_fault, AreRequestsOf, IsRequestsFault};
ghost use Rattle.roc_cli_files.specs.Inner.Requests.{FitAll};

use roc_plan::Plan;
use roc_sched::{Request, TextFault, What, parse_requests};
use std::alloc::Global;

/// The requests of a request file, all of which fit the plan.
///
/// Of bytes that are none the first fault is named, and of a request file the first request that does not fit.
pub(crate) fn requests_in(
    alloc: Global,
    plan: &Plan,
    text: &[u8],
) -> Result<Vec<Request>, TextFault>
    ensures found { IfOk result (λ requests. AreRequestsOf plan.now.program text.now requests.items) }
    ensures fault { IfErr result (IsFaultBy (IsRequestsFault plan.now.program text.now)) }
{
    let requests = match parse_requests(alloc, text) {
        Ok(requests) => requests,
        Err(fault) => return Err(fault),
    };
    match all_fit(plan, &requests) {
        Ok(()) => Ok(requests),
        Err(fault) => Err(fault),
    }
}

// That all requests fit the plan, or the first that does not.
fn all_fit(plan: &Plan, requests: &[Request]) -> Result<(), TextFault>
    ensures { FitAll plan.now.program requests.now result }
{
    for request in requests {
        if let Some(what) = request_fault(plan, request) {
            let line = request.line;
            return Err(TextFault::At { line, what });
        }
    }
    Ok(())
}

// Why a request does not fit the plan, if it does not.
fn request_fault(plan: &Plan, request: &Request) -> Option<What>
    ensures { result ≡ request_fault plan.now.program request.now }
{
    match plan.procedure_named(request.name.as_bytes()) {
        Some(proc) => {
            if request.args.len() == usize::from(plan.args(proc)) {
                None
            } else {
                Some(What::Arguments)
            }
        }
        None => Some(What::Procedure),
    }
}
