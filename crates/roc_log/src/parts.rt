//! The lines of a text, and the words of a line.

ghost use Rattle.std.specs.Prelude.{◌≡◌, ◌≤◌, length, take, IfOk};
ghost use Rattle.roc_sched.specs.Lines.{parts_of};
ghost use Rattle.roc_log.specs.Words.{without_empty_last};
ghost use Rattle.roc_log.specs.Inner.Given.{views};

use std::alloc::{AllocError, Global};

/// What stands before, between and behind the separators.
pub(crate) fn parts_of(alloc: Global, text: &[u8], separator: u8) -> Result<Vec<&[u8]>, AllocError>
    ensures { IfOk result (λ parts. views parts.items ≡ parts_of separator text.now) }
{
    text.split(|b| *b == separator).collect(alloc)
}

/// How many parts are lines: all but an empty last one.
pub(crate) fn line_count(parts: &[&[u8]]) -> usize
    ensures lines { take result (views parts.now) ≡ without_empty_last (views parts.now) }
    ensures few { result ≤ length parts.now }
{
    match parts.split_last() {
        Some((last, front)) => {
            if last.is_empty() {
                front.len()
            } else {
                parts.len()
            }
        }
        None => 0,
    }
}
