//! Why a rule of the grammar is not read.

ghost use Rattle.std.specs.Prelude.{◌≡◌, true, false};
ghost use Rattle.roc_lang_parse.specs.declared.refusal.Refusal.TheVariants.{NoMemory};

use crate::token::Token;
use std::alloc::{AllocError, AllocFailed};

#[derive(Drop)]
pub(crate) enum Refusal<'a> {
    /// No text goes on with the first of these tokens, or none within the limits. Where there is none, the text stops.
    At { is_limit: bool, rest: &'a [Token] },
    NoMemory,
}

impl<'a> From<AllocError> for Refusal<'a> {
    ghost from_gives = { λ _ e. e ≡ NoMemory };

    fn from(_e: AllocError) -> Refusal<'a> {
        Refusal::NoMemory
    }
}

impl<'a, T: Drop> From<AllocFailed<T>> for Refusal<'a> {
    ghost from_gives = { λ _ e. e ≡ NoMemory };

    fn from(_e: AllocFailed<T>) -> Refusal<'a> {
        Refusal::NoMemory
    }
}

/// What a rule gave; where it refused, the rule that asked for it refuses so too. `?` would do the same with a conversion between,
/// and the proofs would be dearer by it.
macro_rules! or_refuse {
    ($reading:expr) => {
        match $reading {
            Ok(given) => given,
            Err(refusal) => return Err(refusal),
        }
    };
}

pub(crate) use or_refuse;

/// No text goes on with the first of these tokens.
pub(crate) fn token_fault(rest: &[Token]) -> Refusal<'_>
    ensures { result ≡ Refusal.At false rest.entry }
{
    Refusal::At {
        is_limit: false,
        rest,
    }
}

/// No text goes on with the first of these tokens within the limits.
pub(crate) fn limit_fault(rest: &[Token]) -> Refusal<'_>
    ensures { result ≡ Refusal.At true rest.entry }
{
    Refusal::At {
        is_limit: true,
        rest,
    }
}
