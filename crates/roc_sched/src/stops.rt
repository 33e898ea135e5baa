//! What the words of `stop` and `drain` lines ask for.

ghost use Rattle.std.specs.Prelude.{◌≡◌, ℕ};
ghost use Rattle.roc_sched.specs.declared.forms.Forms.{Forms as FormsValue};
ghost use Rattle.roc_sched.specs.Acts.{server_number, coordinator_number, kept_of, during_of, stop_of, drain_where, or_word, or_node};
ghost use Rattle.roc_sched.specs.Inner.Reading.{Gives, views};

use crate::Forms;
use crate::fault::{LineFault, What};
use crate::line::Act;
use crate::number::{choice_number, is_word, message_of, node_number};
use roc_base::Shard;

/// The number of `sN`.
#[tactic(auto, unfolding(crate::specs::Acts::server_number))]
fn server_number(word: &[u8]) -> Option<u64>
    ensures { result ≡ server_number word.now }
{
    match word.split_first() {
        Some((letter, number)) => {
            if *letter == b's' {
                node_number(number)
            } else {
                None
            }
        }
        None => None,
    }
}

/// The number of `cN`.
#[tactic(auto, unfolding(crate::specs::Acts::coordinator_number))]
fn coordinator_number(word: &[u8]) -> Option<u64>
    ensures { result ≡ coordinator_number word.now }
{
    match word.split_first() {
        Some((letter, number)) => {
            if *letter == b'c' {
                node_number(number)
            } else {
                None
            }
        }
        None => None,
    }
}

/// `none`, or how many messages.
fn kept_of(word: &[u8]) -> Option<Option<u32>>
    ensures { result ≡ kept_of word.now }
{
    if is_word(word, "none") {
        return Some(None);
    }
    match choice_number(word) {
        Some(many) => Some(Some(many)),
        None => None,
    }
}

/// Nothing, `K none` or `K J`.
fn during_of(words: &[&[u8]]) -> Option<Option<(u64, Option<u32>)>>
    ensures { result ≡ during_of (views words.now) }
{
    match words {
        [] => Some(None),
        [message, kept] => match message_of(message) {
            Some(message) => match kept_of(kept) {
                Some(kept) => Some(Some((message, kept))),
                None => None,
            },
            None => None,
        },
        _ => None,
    }
}

/// `sN`, `sN K none` or `sN K J`
pub(crate) fn stop_of(words: &[&[u8]], shards: u8) -> Result<Act, LineFault>
    ensures { (forms : FormsValue) → Gives result (or_node forms shards (or_word (stop_of (views words.now)))) }
{
    match words {
        [node, during @ ..] => {
            let Some(number) = server_number(node) else {
                return Err(LineFault::Is(What::Word));
            };
            let Some(during) = during_of(during) else {
                return Err(LineFault::Is(What::Word));
            };
            if number >= u64::from(shards) {
                return Err(LineFault::Is(What::Node));
            }
            let shard = Shard(number as u8);
            Ok(Act::Stop { shard, during })
        }
        _ => Err(LineFault::Is(What::Word)),
    }
}

/// `cN`, where coordinators may be drained.
pub(crate) fn drain_of(words: &[&[u8]], forms: Forms) -> Result<Act, LineFault>
    ensures { (shards : ℕ) → Gives result (or_node forms shards (or_word (drain_where forms.coords (views words.now)))) }
{
    let Some(coords) = forms.coords else {
        return Err(LineFault::Is(What::Word));
    };
    match words {
        [node] => match coordinator_number(node) {
            Some(number) => {
                if number < u64::from(coords) {
                    Ok(Act::Drain(number as u16))
                } else {
                    Err(LineFault::Is(What::Node))
                }
            }
            None => Err(LineFault::Is(What::Word)),
        },
        _ => Err(LineFault::Is(What::Word)),
    }
}
