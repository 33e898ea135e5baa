//! The lines of a text, and the words of a line.

ghost use Rattle.std.specs.Prelude.{◌≡◌, ◌<◌, ◌≤◌, ◌+◌, ◌∷◌, ◌==◌, length, position, filter, take, not, IfSome, IfOk};
ghost use Rattle.std.specs.List.{list_all};
ghost use Rattle.roc_sched.specs.Lines.{is_empty, parts_of, lines_of, without_return};
ghost use Rattle.roc_sched.specs.Words.{space, words_of, is_comment, is_skipped};
ghost use Rattle.roc_sched.specs.Schedule.{most_lines};
ghost use Rattle.roc_sched.specs.Inner.Reading.{views, parts_behind, IsShorter, lines_from};

use std::alloc::{AllocError, Global};

/// How many lines a text may have, skipped ones too.
pub(crate) const LINE_LIMIT: u32 = 65_536;

fn first_at(text: &[u8], separator: u8) -> Option<usize>
    ensures { result ≡ position (λ b. b == separator) text.now }
{
    text.iter().position(|b| *b == separator)
}

/// The bytes before the first separator, and those behind it.
fn cut(text: &[u8], separator: u8) -> (&[u8], Option<&[u8]>)
    ensures parts { parts_of separator text.now ≡ result.0.now ∷ parts_behind separator result.1 }
    ensures shorter { IsShorter (length text.now) result.1 }
{
    match first_at(text, separator) {
        Some(at) => (&text[..at], Some(&text[at + 1..])),
        None => (text, None),
    }
}

/// What ends with a line feed, without a carriage return before it.
fn without_return(line: &[u8]) -> &[u8]
    ensures { result.now ≡ without_return line.now }
{
    match line.split_last() {
        Some((last, front)) => { if *last == b'\r' { front } else { line } }
        None => line,
    }
}

/// The first line of a text, and the bytes behind it.
fn first_line(text: &[u8]) -> Option<(&[u8], &[u8])>
    ensures lines { lines_of text.now ≡ lines_from result }
    ensures shorter { IfSome result (λ x. length x.1.now < length text.now) }
{
    let (line, behind) = cut(text, b'\n');
    match behind {
        Some(rest) => Some((without_return(line), rest)),
        None => {
            if line.is_empty() {
                None
            } else {
                Some((line, &[]))
            }
        }
    }
}

/// The lines of a text: all of them, or the first ones where there is one too many.
pub(crate) fn lines_of(alloc: Global, text: &[u8]) -> Result<Vec<&[u8]>, AllocError>
    ensures first { IfOk result (λ lines. views lines.items ≡ take (most_lines + 1) (lines_of text.now)) }
    ensures few { IfOk result (λ lines. length lines.items ≤ most_lines + 1) }
{
    let mut lines = Vec::new(alloc);
    let mut rest = text;
    while lines.len() <= LINE_LIMIT as usize {
        match first_line(rest) {
            Some((line, behind)) => {
                lines.push(line)?;
                rest = behind;
            }
            None => break,
        }
    }
    Ok(lines)
}

fn is_comment(line: &[u8]) -> bool
    ensures { result ≡ is_comment line.now }
{
    match line.split_first() {
        Some((first, _)) => *first == b'#',
        None => false,
    }
}

fn is_blank(line: &[u8]) -> bool
    ensures { result ≡ list_all (λ b. b == space) line.now }
{
    line.iter().all(|b| *b == b' ')
}

/// Whether a line is a comment or has nothing but spaces.
pub(crate) fn is_skipped(line: &[u8]) -> bool
    ensures { result ≡ is_skipped line.now }
{
    is_comment(line) || is_blank(line)
}

fn parts_between_spaces(alloc: Global, line: &[u8]) -> Result<Vec<&[u8]>, AllocError>
    ensures { IfOk result (λ v. views v.items ≡ filter (λ word. not (is_empty word)) (parts_of space line.now)) }
{
    line.split(|b| *b == b' ')
        .filter(|word| !word.is_empty())
        .collect(alloc)
}

/// The words of a line.
#[tactic(auto, unfolding(crate::specs::Words::words_of))]
pub(crate) fn words_of(alloc: Global, line: &[u8]) -> Result<Vec<&[u8]>, AllocError>
    ensures { IfOk result (λ v. views v.items ≡ words_of line.now) }
{
    parts_between_spaces(alloc, line)
}
