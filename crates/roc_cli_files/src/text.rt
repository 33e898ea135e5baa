//! The canonical text of a workload.
ghost use Rattle.std.specs.Prelude.{◌≡◌, ℕ, List};
ghost use Rattle.roc_io.specs.Cause.{HasCause};
ghost use Rattle.roc_cli_files.specs.Fault.{blames_file, blames_sink, fails_by, ReadsBut};
ghost use Rattle.roc_cli_files.specs.Input.{PrintEnds};
ghost use Rattle.roc_cli_files.specs.Inner.Input.{PrintTextEnds};

use crate::fault::Fault;
use crate::input::{bytes_of, fault_of};
use roc_io::{Files, Sink, Written};
use roc_lang::limits::TEXT_BYTES;
use roc_lang_parse::parse;
use roc_lang_print::print;
use std::alloc::Global;

/// Writes the canonical text of the workload that a file holds.
pub fn print_file<'a, F: Files, S: Sink>(
    alloc: Global,
    files: &mut F,
    name: &'a str,
    out: &mut S,
) -> Result<(), Fault<'a>>
    ensures ends { PrintEnds (F.content files.old) name.entry.now (S.taken out.old) (S.taken out.new) result }
    ensures failed { ReadsBut (F.failed_names files.old) (F.failed_names files.new) result }
    ensures file_faults { HasCause (fails_by blames_file result) (F.faults files.old) (F.faults files.new) }
    ensures sink_faults { HasCause (fails_by blames_sink result) (S.faults out.old) (S.faults out.new) }
    ensures unchanged { (other : List ℕ) → F.content files.new other ≡ F.content files.old other }
{
    match bytes_of(alloc, files, name, TEXT_BYTES) {
        Ok(bytes) => print_text(alloc, name, &bytes, out),
        Err(fault) => Err(fault),
    }
}

// The same of these bytes, of the file of this name.
fn print_text<'a, S: Sink>(
    alloc: Global,
    name: &'a str,
    bytes: &[u8],
    out: &mut S,
) -> Result<(), Fault<'a>>
    ensures ends { PrintTextEnds bytes.now name.entry.now (S.taken out.old) (S.taken out.new) result }
    ensures faults { HasCause (fails_by blames_sink result) (S.faults out.old) (S.faults out.new) }
{
    let source = match parse(alloc, bytes) {
        Ok(source) => source,
        Err(error) => return Err(fault_of(name, error)),
    };
    let Ok(text) = print(alloc, &source) else {
        return Err(Fault::Memory);
    };
    match out.write(&text) {
        Written::Ok => Ok(()),
        Written::Failed => Err(Fault::Sink),
    }
}
