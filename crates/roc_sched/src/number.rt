//! Words that are numbers and names.

ghost use Rattle.std.specs.Prelude.{◌≡◌, ◌≤◌, ◌+◌, ◌-◌, ◌*◌, ◌<◌, ◌&&◌, ◌||◌, ◌==◌, neg_ℤ, pos, nat_le, if◌then◌else◌, Some};
ghost use Rattle.std.specs.Prelude.{None, IfSome};
ghost use Rattle.std.specs.List.{list_all};
ghost use Rattle.std.specs.Option.{option_map};
ghost use Rattle.std.specs.Str.{bytes_eq};
ghost use Rattle.std.specs.Char.{is_ascii_digit};
ghost use Rattle.roc_lang.specs.Grammar.{is_reserved};
ghost use Rattle.roc_lang.specs.Tokens.{is_word_byte};
ghost use Rattle.roc_sched.specs.Numbers.{number_up_to, integer_of, node_number, message_of, choice_number, is_name};
ghost use Rattle.roc_sched.specs.Inner.Reading.{begins_number, digits_onto};

/// The greatest number of a message.
const LAST_MESSAGE: u64 = 4_294_967_295;

/// How many bytes a name may have.
const NAME_LIMIT: usize = 32;

/// Whether there is a first digit, and it is no zero before others.
fn begins_number(word: &[u8]) -> bool
    ensures { result ≡ begins_number word.now }
{
    match word.split_first() {
        Some((first, rest)) => rest.is_empty() || *first != b'0',
        None => false,
    }
}

/// A number and one more digit, up to a greatest one.
fn with_digit(value: u64, digit: u8, greatest: u64) -> Option<u64>
    ensures { result ≡ (if is_ascii_digit digit && nat_le (value * 10 + (digit - 48)) greatest then Some (value * 10 + (digit - 48)) else None) }
{
    if !digit.is_ascii_digit() {
        return None;
    }
    let next = value.checked_mul(10)?.checked_add(u64::from(digit - b'0'))?;
    if next > greatest {
        return None;
    }
    Some(next)
}

fn digits_of(word: &[u8], greatest: u64) -> Option<u64>
    ensures { result ≡ digits_onto greatest 0 word.now }
{
    let mut value = 0;
    for digit in word {
        value = with_digit(value, *digit, greatest)?;
    }
    Some(value)
}

/// A number in decimal digits without a leading zero, up to a greatest one; `None` where a word is no such number. Takes no memory.
pub fn number_up_to(word: &[u8], greatest: u64) -> Option<u64>
    ensures value { result ≡ number_up_to greatest word.now }
    ensures fits { IfSome result (λ n. n ≤ greatest) }
{
    if begins_number(word) {
        digits_of(word, greatest)
    } else {
        None
    }
}

fn negative(digits: &[u8]) -> Option<i64>
    ensures { result ≡ option_map (λ n. neg_ℤ (pos n)) (number_up_to 9223372036854775808 digits.now) }
{
    match number_up_to(digits, 1 << 63) {
        Some(n) => Some((-i128::from(n)) as i64),
        None => None,
    }
}

fn not_negative(digits: &[u8]) -> Option<i64>
    ensures { result ≡ option_map pos (number_up_to 9223372036854775807 digits.now) }
{
    match number_up_to(digits, (1 << 63) - 1) {
        Some(n) => Some(n as i64),
        None => None,
    }
}

/// An integer of 64 bits, with a `-` directly before its digits where it is negative; `None` where a word is none. Takes no memory.
#[tactic(auto, unfolding(crate::specs::Numbers::integer_of))]
pub fn integer_of(word: &[u8]) -> Option<i64>
    ensures { result ≡ integer_of word.now }
{
    match word.split_first() {
        Some((first, digits)) => {
            if *first == b'-' {
                negative(digits)
            } else {
                not_negative(word)
            }
        }
        None => None,
    }
}

/// The number of a node, whether it is there or not: one of at most 63 bits. `None` where a word is none. Takes no memory.
pub fn node_number(word: &[u8]) -> Option<u64>
    ensures { result ≡ node_number word.now }
{
    number_up_to(word, (1 << 63) - 1)
}

/// A place among messages.
pub(crate) fn choice_number(word: &[u8]) -> Option<u32>
    ensures { result ≡ choice_number word.now }
{
    match number_up_to(word, u64::from(u32::MAX)) {
        Some(n) => Some(n as u32),
        None => None,
    }
}

/// The number of a message, which is at least 1.
#[tactic(auto, unfolding(crate::specs::Numbers::message_of))]
pub(crate) fn message_of(word: &[u8]) -> Option<u64>
    ensures { result ≡ message_of word.now }
{
    match number_up_to(word, LAST_MESSAGE) {
        Some(n) => { if n > 0 { Some(n) } else { None } }
        None => None,
    }
}

/// Whether a word is this one, byte for byte.
pub fn is_word(word: &[u8], wanted: &str) -> bool
    ensures { result ≡ bytes_eq word.now wanted.now }
{
    word == wanted.as_bytes()
}

fn is_reserved(word: &[u8]) -> bool
    ensures { result ≡ is_reserved word.now }
{
    is_word(word, "shards")
        || is_word(word, "table")
        || is_word(word, "init")
        || is_word(word, "proc")
        || is_word(word, "now")
        || is_word(word, "later")
        || is_word(word, "at")
        || is_word(word, "get")
        || is_word(word, "set")
        || is_word(word, "out")
        || is_word(word, "min")
        || is_word(word, "max")
        || is_word(word, "less")
        || is_word(word, "pick")
}

fn are_word_bytes(bytes: &[u8]) -> bool
    ensures { result ≡ list_all is_word_byte bytes.now }
{
    bytes
        .iter()
        .all(|b| b.is_ascii_alphanumeric() || *b == b'_')
}

/// Whether a word is a name of the language of workloads (`docs/LANGUAGE.md`, "Tokens"): of at most 32 bytes, and not reserved. Takes no memory.
#[tactic(auto, unfolding(crate::specs::Numbers::is_name))]
pub fn is_name(word: &[u8]) -> bool
    ensures { result ≡ is_name word.now }
{
    match word.split_first() {
        Some((first, rest)) => {
            first.is_ascii_alphabetic()
                && are_word_bytes(rest)
                && rest.len() < NAME_LIMIT
                && !is_reserved(word)
        }
        None => false,
    }
}
