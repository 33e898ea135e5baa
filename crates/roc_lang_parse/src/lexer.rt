//! From bytes to tokens, one after the other.

ghost use Rattle.std.specs.Prelude.{◌≡◌, ◌<◌, ◌^◌, true, [], ◌∷◌, ◌++◌, length, IfOk, OnOk};
ghost use Rattle.std.specs.Option.{option_map, option_to_list};
ghost use Rattle.std.specs.List.{AllByRecursion};
ghost use Rattle.std.specs.String.{string_bytes};
ghost use Rattle.roc_lang.specs.Tokens as rules;
ghost use Rattle.roc_lang_parse.specs.Inner.Views.{token_view, token_views};
ghost use Rattle.roc_lang_parse.specs.Scanning.{word_run, line_run, value_and, value_from, value_of, word_next, integer_next, comment_next, scanned_step};
ghost use Rattle.roc_lang_parse.specs.Inner.Views.{step_view, IsScanned};

use crate::token::{GREATEST_INTEGER, Kind, Token};
use roc_lang::limits::WORD_BYTES;
use std::alloc::{AllocError, Global};

/// The tokens of a text: all, or those before the first place where none is.
#[derive(Drop)]
pub(crate) struct Lexed {
    pub tokens: Vec<Token>,
    /// The line of the first place where no token is.
    pub broken: Option<u32>,
}

/// A token, or none for a blank or a comment, and what is behind it.
#[derive(Drop)]
struct TokenStep<'a> {
    token: Option<Token>,
    line: u32,
    rest: &'a [u8],
}

fn is_word_byte(byte: u8) -> bool
    ensures { result ≡ rules.is_word_byte byte }
{
    byte.is_ascii_alphanumeric() || byte == b'_'
}

fn is_mark(byte: u8) -> bool
    ensures { result ≡ rules.is_mark byte }
{
    b"{}()[],;.=+-*".contains(&byte)
}

fn is_blank(byte: u8) -> bool
    ensures { result ≡ rules.is_blank byte }
{
    matches!(byte, b' ' | b'\t' | b'\r' | b'\n')
}

/// The line behind a byte.
pub(crate) fn line_after(line: u32, byte: u8) -> u32
    requires { line < 2 ^ 31 }
    ensures { result ≡ rules.line_after line byte }
{
    if byte == b'\n' { line + 1 } else { line }
}

/// How many letters, digits and `_` stand in front.
fn word_run(bytes: &[u8]) -> usize
    ensures { result ≡ word_run bytes.now }
{
    for (i, byte) in bytes.iter().enumerate() {
        if !is_word_byte(*byte) {
            return i;
        }
    }
    bytes.len()
}

/// How many bytes stand before the end of the line.
fn line_run(bytes: &[u8]) -> usize
    ensures { result ≡ line_run bytes.now }
{
    for (i, byte) in bytes.iter().enumerate() {
        if *byte == b'\n' {
            return i;
        }
    }
    bytes.len()
}

/// Adds a letter, a digit or `_`.
fn push_byte(word: &mut String, byte: u8) -> Result<(), AllocError>
    requires { rules.is_word_byte byte ≡ true }
    ensures { OnOk result (string_bytes word.new ≡ string_bytes word.old ++ byte ∷ []) }
{
    word.push(char::from(byte))
}

/// A word of these letters.
fn text_of(alloc: Global, letters: &[u8]) -> Result<String, AllocError>
    requires { AllByRecursion (λ b. rules.is_word_byte b ≡ true) letters.now }
    ensures { IfOk result (λ word. string_bytes word ≡ letters.now) }
{
    let mut word = String::new(alloc);
    for byte in letters {
        push_byte(&mut word, *byte)?;
    }
    Ok(word)
}

/// A value and one more digit.
fn value_and(value: u64, byte: u8) -> Option<u64>
    ensures { result ≡ value_and value byte }
{
    if !byte.is_ascii_digit() {
        return None;
    }
    if value == 0 {
        return None;
    }
    let next = value.checked_mul(10)?.checked_add(u64::from(byte - b'0'))?;
    if next > GREATEST_INTEGER {
        return None;
    }
    Some(next)
}

/// The value of an integer, if the bytes are one.
#[tactic(auto, unfolding(crate::specs::Scanning::value_of))]
fn value_of(bytes: &[u8]) -> Option<u64>
    ensures { result ≡ value_of bytes.now }
{
    match bytes.split_first() {
        None => None,
        Some((first, others)) => {
            if !first.is_ascii_digit() {
                return None;
            }
            value_from(u64::from(*first - b'0'), others)
        }
    }
}

/// The value of an integer that begins with this value.
fn value_from(first: u64, bytes: &[u8]) -> Option<u64>
    ensures { result ≡ value_from first bytes.now }
{
    let mut value = first;
    for byte in bytes {
        match value_and(value, *byte) {
            Some(next) => value = next,
            None => return None,
        }
    }
    Some(value)
}

#[tactic(auto, unfolding(crate::specs::Scanning::word_next), using(crate::proofs::Steps::run_within, crate::proofs::Steps::run_all))]
fn word_step(alloc: Global, line: u32, bytes: &[u8]) -> Result<Option<TokenStep<'_>>, AllocError>
    ensures { IfOk result (λ s. option_map step_view s ≡ word_next line bytes.now) }
{
    let (letters, rest) = bytes.split_at(word_run(bytes));
    if letters.len() > WORD_BYTES {
        return Ok(None);
    }
    let kind = Kind::Word(text_of(alloc, letters)?);
    let token = Some(Token { kind, line });
    Ok(Some(TokenStep { token, line, rest }))
}

#[tactic(auto, unfolding(crate::specs::Scanning::integer_next), using(crate::proofs::Steps::run_within))]
fn integer_step(line: u32, bytes: &[u8]) -> Option<TokenStep<'_>>
    ensures { option_map step_view result ≡ integer_next line bytes.now }
{
    let (digits, rest) = bytes.split_at(word_run(bytes));
    match value_of(digits) {
        Some(value) => {
            let kind = Kind::Integer(value);
            let token = Some(Token { kind, line });
            Some(TokenStep { token, line, rest })
        }
        None => None,
    }
}

/// What follows a first `/`.
#[tactic(auto, unfolding(crate::specs::Scanning::comment_next), using(crate::proofs::Steps::line_within))]
fn comment_step(line: u32, bytes: &[u8]) -> Option<TokenStep<'_>>
    ensures { option_map step_view result ≡ comment_next line bytes.now }
{
    match bytes.split_first() {
        Some((b'/', others)) => {
            let (_, rest) = others.split_at(line_run(others));
            let token = None;
            Some(TokenStep { token, line, rest })
        }
        Some(_) => None,
        None => None,
    }
}

#[tactic(auto, unfolding(crate::specs::Scanning::scanned_step))]
fn step_of(alloc: Global, line: u32, bytes: &[u8]) -> Result<Option<TokenStep<'_>>, AllocError>
    requires { line < 2 ^ 31 }
    ensures { IfOk result (λ s. option_map step_view s ≡ scanned_step line bytes.now) }
{
    match bytes.split_first() {
        None => Ok(None),
        Some((first, rest)) => {
            let byte = *first;
            if is_blank(byte) {
                let token = None;
                let line = line_after(line, byte);
                Ok(Some(TokenStep { token, line, rest }))
            } else if byte.is_ascii_alphabetic() {
                word_step(alloc, line, bytes)
            } else if byte.is_ascii_digit() {
                Ok(integer_step(line, bytes))
            } else if byte == b'/' {
                Ok(comment_step(line, rest))
            } else if is_mark(byte) {
                let kind = Kind::Mark(byte);
                let token = Some(Token { kind, line });
                Ok(Some(TokenStep { token, line, rest }))
            } else {
                Ok(None)
            }
        }
    }
}

/// Adds a token, if there is one.
fn keep(tokens: &mut Vec<Token>, token: Option<Token>) -> Result<(), AllocError>
    ensures { OnOk result (token_views tokens.new.items ≡ token_views tokens.old.items ++ option_to_list (option_map token_view token)) }
{
    match token {
        Some(token) => {
            tokens.push(token)?;
            Ok(())
        }
        None => Ok(()),
    }
}

/// The tokens of a text.
pub(crate) fn tokens_of(alloc: Global, text: &[u8]) -> Result<Lexed, AllocError>
    requires { length text.now < 2 ^ 30 }
    ensures { IfOk result (λ lexed. IsScanned text.now (token_views lexed.tokens.items) lexed.broken) }
{
    let mut tokens = Vec::new(alloc);
    let mut line = 1;
    let mut rest = text;
    while !rest.is_empty() {
        match step_of(alloc, line, rest)? {
            Some(step) => {
                keep(&mut tokens, step.token)?;
                line = step.line;
                rest = step.rest;
            }
            None => {
                let broken = Some(line);
                return Ok(Lexed { tokens, broken });
            }
        }
    }
    let broken = None;
    Ok(Lexed { tokens, broken })
}
