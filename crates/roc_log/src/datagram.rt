//! Datagrams as words of a log.

ghost use Rattle.std.specs.Prelude.{◌≡◌, IfOk, not};
ghost use Rattle.std.specs.List.{list_all};
ghost use Rattle.roc_log.specs.Words.{is_capital, hex_bytes, datagram_of, is_stop};
ghost use Rattle.roc_log.specs.Reading.{or_word, one_datagram};
ghost use Rattle.roc_log.specs.Inner.Given.{Gives, views, judged};

use crate::fault::{LineFault, What};
use hex::FromHexError;
use roc_sequence::Sequence;
use roc_wire::{WireFault, decode};
use std::alloc::Global;

/// The kind of a Stop.
const STOP: u8 = 7;

fn has_no_capital(word: &[u8]) -> bool
    ensures { result ≡ list_all (λ b. not (is_capital b)) word.now }
{
    word.iter().all(|b| !(b'A' <= *b && *b <= b'Z'))
}

/// The bytes that a word has the digits of.
#[tactic(auto, unfolding(crate::specs::Words::hex_bytes))]
fn hex_bytes(alloc: Global, word: &[u8]) -> Result<Vec<u8>, LineFault>
    ensures { Gives (λ bytes. bytes.items) result (or_word (hex_bytes word.now)) }
{
    if !has_no_capital(word) {
        return Err(LineFault::Is(What::Word));
    }
    match hex::decode(alloc, word) {
        Ok(bytes) => Ok(bytes),
        Err(FromHexError::OutOfMemory) => Err(LineFault::NoMemory),
        Err(_) => Err(LineFault::Is(What::Word)),
    }
}

/// Whether a datagram is a Stop; bytes that are no datagram of the workload with this tag are a fault.
#[tactic(auto, unfolding(crate::specs::Words::is_datagram, crate::specs::Words::is_stop))]
fn judged(alloc: Global, tag: &[u8; 8], bytes: &[u8]) -> Result<bool, LineFault>
    ensures { Gives (λ stop. stop) result (judged tag.now bytes.now) }
{
    match decode(alloc, bytes) {
        Ok((header, msg)) => {
            if header.tag.as_slice() == tag.as_slice() {
                Ok(msg.kind() == STOP)
            } else {
                Err(LineFault::Is(What::Word))
            }
        }
        Err(WireFault::NoMemory) => Err(LineFault::NoMemory),
        Err(_) => Err(LineFault::Is(What::Word)),
    }
}

/// The bytes of the datagram that a word spells, and whether it is a Stop.
#[tactic(auto, unfolding(crate::specs::Words::datagram_of))]
fn datagram_of(alloc: Global, tag: &[u8; 8], word: &[u8]) -> Result<(Sequence<u8>, bool), LineFault>
    ensures bytes { Gives (λ x. x.0) result (or_word (datagram_of tag.now word.now)) }
    ensures stop { IfOk result (λ x. x.1 ≡ is_stop x.0) }
{
    match hex_bytes(alloc, word) {
        Ok(bytes) => match judged(alloc, tag, &bytes) {
            Ok(stop) => Ok((Sequence::from_vec(bytes), stop)),
            Err(fault) => Err(fault),
        },
        Err(fault) => Err(fault),
    }
}

/// `HEX`
pub(crate) fn one_datagram(
    alloc: Global,
    tag: &[u8; 8],
    words: &[&[u8]],
) -> Result<(Sequence<u8>, bool), LineFault>
    ensures bytes { Gives (λ x. x.0) result (or_word (one_datagram tag.now (views words.now))) }
    ensures stop { IfOk result (λ x. x.1 ≡ is_stop x.0) }
{
    match words {
        [word] => datagram_of(alloc, tag, word),
        _ => Err(LineFault::Is(What::Word)),
    }
}
