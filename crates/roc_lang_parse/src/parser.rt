//! `parse`: from the bytes of a text to its syntax tree, or its first fault.

ghost use Rattle.std.specs.Prelude.{◌≡◌, ◌≤◌, length, IfOk, IfErr};
ghost use Rattle.roc_lang.specs.Syntax.{Tree};
ghost use Rattle.roc_lang.specs.Grammar.{standard, text_limit};
ghost use Rattle.roc_lang_parse.specs.Inner.Views.{kind_view, token_views};
ghost use Rattle.roc_lang_parse.specs.Reading.{whole_at};
ghost use Rattle.roc_lang_parse.specs.Fault.{IsWorkloadText, is_above, last_line};
ghost use Rattle.roc_lang_parse.specs.Inner.Told.{what_of, stop_fault, answer_of, IsAnswer};
ghost use Rattle.roc_lang_parse.specs.Answer.{IsSourceOf, TellsFirstFault};

use crate::declaration::whole_of;
use crate::lexer::{Lexed, line_after, tokens_of};
use crate::refusal::Refusal;
use crate::token::{GREATEST_INTEGER, Kind, Token};
use roc_lang::limits::TEXT_BYTES;
use roc_lang::{LangError, Source, What};
use std::alloc::Global;

/// Whether a token is the integer that the grammar takes behind a `-` alone.
fn is_above(kind: &Kind) -> bool
    ensures { result ≡ is_above (kind_view kind.now) }
{
    match kind {
        Kind::Word(_) => false,
        Kind::Integer(value) => *value == GREATEST_INTEGER,
        Kind::Mark(_) => false,
    }
}

/// What is wrong with a token, with which none of the texts goes on, or only those past the limits.
fn what_of(is_limit: bool, kind: &Kind) -> What
    ensures { result ≡ what_of is_limit (kind_view kind.now) }
{
    if is_limit {
        What::Limit
    } else if is_above(kind) {
        What::Word
    } else {
        What::Token
    }
}

/// The line of the last byte.
fn last_line(text: &[u8]) -> u32
    requires { length text.now ≤ text_limit }
    ensures { result ≡ last_line text.now }
{
    let front = &text[..text.len().saturating_sub(1)];
    let mut line = 1;
    for byte in front {
        line = line_after(line, *byte);
    }
    line
}

/// The fault where reading stops before these tokens.
fn stop_fault(text: &[u8], broken: Option<u32>, is_limit: bool, rest: &[Token]) -> LangError
    requires { length text.now ≤ text_limit }
    ensures { result ≡ stop_fault text.now broken is_limit (token_views rest.now) }
{
    match rest.first() {
        Some(token) => {
            let line = token.line;
            let what = what_of(is_limit, &token.kind);
            LangError::At { line, what }
        }
        None => match broken {
            Some(line) => LangError::At {
                line,
                what: What::Word,
            },
            None => {
                let line = last_line(text);
                let what = What::End;
                LangError::At { line, what }
            }
        },
    }
}

/// What the tokens of a text give.
fn answer_of(alloc: Global, text: &[u8], lexed: &Lexed) -> Result<Source, LangError>
    requires { length text.now ≤ text_limit }
    ensures { IsAnswer result (answer_of text.now lexed.now.broken (whole_at standard (token_views lexed.now.tokens.items))) }
{
    match whole_of(alloc, &lexed.tokens) {
        Ok(source) => match lexed.broken {
            None => Ok(source),
            Some(line) => Err(LangError::At {
                line,
                what: What::Word,
            }),
        },
        Err(Refusal::At { is_limit, rest }) => Err(stop_fault(text, lexed.broken, is_limit, rest)),
        Err(Refusal::NoMemory) => Err(LangError::NoMemory),
    }
}

/// The tree of a workload text within the limits, or the first fault from the left: `docs/LANGUAGE.md` says which it is.
/// Whether its names are in scope is not asked.
///
/// `NoMemory` leaves nothing behind.
pub fn parse(alloc: Global, text: &[u8]) -> Result<Source, LangError>
    // What is taken is a workload text of the tree, within the limits.
    ensures found { IfOk result (λ source. IsWorkloadText text.now source) }
    // Such a text is taken, unless memory runs out.
    ensures only { (t : Tree) → IsWorkloadText text.now t → IsSourceOf t result }
    // A fault is the first one, at its line.
    ensures fault { IfErr result (TellsFirstFault text.now) }
{
    if text.len() > TEXT_BYTES {
        return Err(LangError::At {
            line: 1,
            what: What::Limit,
        });
    }
    let lexed = tokens_of(alloc, text)?;
    answer_of(alloc, text, &lexed)
}
