//! Which procedure a submission calls.

ghost use Rattle.std.specs.Prelude.{◌≡◌, ◌<◌, length, position, IfSome};
ghost use Rattle.std.specs.Str.{bytes_eq};
ghost use Rattle.std.specs.String.{string_bytes};
ghost use Rattle.roc_program.specs.LookUps.{procedure_named, is_view_in};
ghost use Rattle.roc_log.specs.Reading.{arguments_of, call_of};

use crate::fault::What;
use crate::line::LogLine;
use roc_base::Nums;
use roc_program::{Procedure, Workload};

fn place_named(procedures: &[Procedure], name: &[u8]) -> Option<usize>
    ensures { result ≡ position (λ procedure. bytes_eq (string_bytes procedure.name) name.now) procedures.now }
{
    procedures.iter().position(|p| p.name.as_bytes() == name)
}

/// The number of the first procedure of a name.
fn procedure_named(workload: &Workload, name: &[u8]) -> Option<u16>
    ensures place { result ≡ procedure_named workload.now name.now }
    ensures there { IfSome result (λ proc. proc < length workload.now.procedures) }
{
    match place_named(workload.procedures(), name) {
        Some(number) => Some(number as u16),
        None => None,
    }
}

fn arguments_of(workload: &Workload, proc: u16) -> u16
    requires { proc < length workload.now.procedures }
    ensures { result ≡ arguments_of workload.now proc }
{
    workload.procedures()[proc as usize].arguments
}

fn is_view(workload: &Workload, proc: u16) -> bool
    requires { proc < length workload.now.procedures }
    ensures { result ≡ is_view_in workload.now proc }
{
    workload.procedures()[proc as usize].is_view
}

/// The submission of the procedure of a name.
pub(crate) fn call_of(workload: &Workload, name: &[u8], args: Nums) -> Result<LogLine, What>
    ensures { result ≡ call_of workload.now (procedure_named workload.now name.now) args }
{
    let Some(proc) = procedure_named(workload, name) else {
        return Err(What::Procedure);
    };
    if args.len() != arguments_of(workload, proc) as usize {
        return Err(What::Arguments);
    }
    if is_view(workload, proc) {
        return Err(What::View);
    }
    Ok(LogLine::Submit { proc, args })
}
