//! `print`: from a syntax tree to its canonical text.

ghost use Rattle.std.specs.Prelude.{◌≡◌, ◌≤◌, ℕ, List, length, IfOk};
ghost use Rattle.roc_lang.specs.Syntax.{Tree};
ghost use Rattle.roc_lang.specs.Grammar.{text_limit};
ghost use Rattle.roc_lang_parse.specs.Fault.{IsWorkloadText};
ghost use Rattle.roc_lang_print.specs.Canonical.{canonical};
ghost use Rattle.roc_lang_print.specs.UpToLines.{without_lines};

use crate::line::{push_inits, push_procedures, push_shards, push_tables};
use roc_base::NoMemory;
use roc_lang::Source;
use std::alloc::Global;

/// The canonical text of a workload, as `docs/LANGUAGE.md` describes it. `NoMemory` leaves nothing behind.
pub fn print(alloc: Global, source: &Source) -> Result<Vec<u8>, NoMemory>
    ensures text { IfOk result (λ text. text.items ≡ canonical source.now) }
    // Where the tree is that of a workload text, this is one of the same tree up to lines, if it is within the limit of bytes.
    ensures again { (bytes : List ℕ) → IsWorkloadText bytes source.now
        → IfOk result (λ text. length text.items ≤ text_limit → (u : Tree) × IsWorkloadText text.items u × (without_lines u ≡ without_lines source.now)) }
{
    let mut text = String::new(alloc);
    push_shards(&mut text, source.shards())?;
    push_tables(&mut text, source.tables())?;
    push_inits(&mut text, source.inits())?;
    push_procedures(&mut text, source.procedures())?;
    Ok(text.into_bytes())
}
