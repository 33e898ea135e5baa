//! The values among the words.
ghost use Rattle.std.specs.Prelude.{◌≡◌, ◌≤◌, IfSome, IfOk, Some, option_map};
ghost use Rattle.std.specs.Result.{result_map_both};
ghost use Rattle.std.specs.List.{list_all};
ghost use Rattle.std.specs.Char.{is_ascii_digit};
ghost use Rattle.roc_cli_words.specs.FaultText.{value_text};
ghost use Rattle.roc_cli_words.specs.Values.{is_plain_number, number_within, shard_in, turns_in, coord_in, seed_in, shards_in, txns_in, part_in, coords_in, keeps_any, log_beside};

use roc_base::Shard;
use std::fmt;

/// The name of a value that has a range.
#[derive(Clone, Copy, Debug, PartialEq, Eq)]
pub enum ValueName {
    /// The shard to serve, 0 to 63.
    Shard,
    /// How many turns to take, 1 to 4294967295.
    Turns,
    /// The coordinator to be, 0 to 15.
    Coord,
    /// How many coordinators there are, 1 to 16.
    Coords,
    /// What a generated text begins from, 0 to 18446744073709551615.
    Seed,
    /// How many shards a generated workload has, 1 to 64.
    Shards,
    /// How many transactions a generated schedule has, 1 to 1000.
    Txns,
    /// What to generate: `workload`, `schedule` or `run`.
    Part,
    /// The log to keep, which stands beside no journal.
    Log,
    /// The workload to grow to, which stands with its partner alone, and beside neither a journal nor a log.
    Next,
}

/// What to generate.
#[derive(Clone, Copy, Debug, PartialEq, Eq)]
pub enum Part {
    /// The text of the workload.
    Workload,
    /// The text of the schedule.
    Schedule,
    /// What comes of the run of both.
    Run,
}

impl ValueName {
    /// What is printed where the value is none: its name as it stands on the command line, and what it may be.
    pub fn as_str(self) -> &'static str
        ensures { result.now ≡ value_text self }
    {
        match self {
            ValueName::Shard => "shard: 0 to 63",
            ValueName::Turns => "turns: 1 to 4294967295",
            ValueName::Coord => "coord: 0 to 15",
            ValueName::Coords => "coords: 1 to 16",
            ValueName::Seed => "seed: 0 to 18446744073709551615",
            ValueName::Shards => "shards: 1 to 64",
            ValueName::Txns => "txns: 1 to 1000",
            ValueName::Part => "part: workload, schedule or run",
            ValueName::Log => "log",
            ValueName::Next => "next",
        }
    }
}

impl fmt::Display for ValueName {
    ghost output = { λ name. Some (value_text name) };

    fn fmt<W: fmt::Write>(&self, f: &mut fmt::Formatter<W>) -> fmt::Result {
        f.write_str(self.as_str())
    }
}

fn are_digits(text: &[u8]) -> bool
    ensures { result ≡ list_all is_ascii_digit text.now }
{
    text.iter().all(|byte| byte.is_ascii_digit())
}

fn is_plain_number(text: &[u8]) -> bool
    ensures { result ≡ is_plain_number text.now }
{
    match text.split_first() {
        Some((first, rest)) => are_digits(text) && (rest.is_empty() || *first != b'0'),
        None => false,
    }
}

fn number_within(text: &str, least: u64, most: u64) -> Option<u64>
    ensures value { result ≡ number_within least most text.now }
    ensures fits { IfSome result (λ n. (least ≤ n) × (n ≤ most)) }
{
    if !is_plain_number(text.as_bytes()) {
        return None;
    }
    match text.parse::<u64>() {
        Ok(number) => {
            if least <= number && number <= most {
                Some(number)
            } else {
                None
            }
        }
        Err(_) => None,
    }
}

/// The shard to serve.
pub(crate) fn shard_in(text: &str) -> Result<Shard, ValueName>
    ensures value { result_map_both (λ shard. shard.0) (λ name. name) result ≡ shard_in text.now }
    ensures fits { IfOk result (λ shard. shard.0 ≤ 63) }
{
    match number_within(text, 0, 63) {
        Some(number) => Ok(Shard(number as u8)),
        None => Err(ValueName::Shard),
    }
}

/// How many turns to take.
pub(crate) fn turns_in(text: &str) -> Result<u32, ValueName>
    ensures { result ≡ turns_in text.now }
{
    match number_within(text, 1, u64::from(u32::MAX)) {
        Some(number) => Ok(number as u32),
        None => Err(ValueName::Turns),
    }
}

/// The coordinator to be.
pub(crate) fn coord_in(text: &str) -> Result<u16, ValueName>
    ensures value { result ≡ coord_in text.now }
    ensures fits { IfOk result (λ coord. coord ≤ 15) }
{
    match number_within(text, 0, 15) {
        Some(number) => Ok(number as u16),
        None => Err(ValueName::Coord),
    }
}

/// How many coordinators there are, where that is given.
pub(crate) fn coords_in(text: Option<&str>) -> Result<Option<u16>, ValueName>
    ensures value { result ≡ coords_in (option_map (λ text. text.now) text.entry) }
    ensures fits { IfOk result (λ coords. IfSome coords (λ n. (1 ≤ n) × (n ≤ 16))) }
{
    let Some(text) = text else {
        return Ok(None);
    };
    match number_within(text, 1, 16) {
        Some(number) => Ok(Some(number as u16)),
        None => Err(ValueName::Coords),
    }
}

/// What a generated text begins from.
pub(crate) fn seed_in(text: &str) -> Result<u64, ValueName>
    ensures { result ≡ seed_in text.now }
{
    match number_within(text, 0, u64::MAX) {
        Some(number) => Ok(number),
        None => Err(ValueName::Seed),
    }
}

/// How many shards a generated workload has.
pub(crate) fn shards_in(text: &str) -> Result<u8, ValueName>
    ensures value { result ≡ shards_in text.now }
    ensures fits { IfOk result (λ shards. (1 ≤ shards) × (shards ≤ 64)) }
{
    match number_within(text, 1, 64) {
        Some(number) => Ok(number as u8),
        None => Err(ValueName::Shards),
    }
}

/// How many transactions a generated schedule has.
pub(crate) fn txns_in(text: &str) -> Result<u16, ValueName>
    ensures value { result ≡ txns_in text.now }
    ensures fits { IfOk result (λ txns. txns ≤ 1000) }
{
    match number_within(text, 1, 1000) {
        Some(number) => Ok(number as u16),
        None => Err(ValueName::Txns),
    }
}

/// What to generate.
pub(crate) fn part_in(text: &str) -> Result<Part, ValueName>
    ensures { result ≡ part_in text.now }
{
    match text {
        "workload" => Ok(Part::Workload),
        "schedule" => Ok(Part::Schedule),
        "run" => Ok(Part::Run),
        _ => Err(ValueName::Part),
    }
}

/// The log to keep, where it stands beside no journal.
pub(crate) fn log_beside<'a>(
    journal: Option<&'a str>,
    log: Option<&'a str>,
) -> Result<Option<&'a str>, ValueName>
    ensures { result_map_both (λ kept. option_map (λ text. text.now) kept) (λ name. name) result
        ≡ log_beside (option_map (λ text. text.now) journal.entry) (option_map (λ text. text.now) log.entry) }
{
    match (journal, log) {
        (Some(_), Some(_)) => Err(ValueName::Log),
        _ => Ok(log),
    }
}

/// Whether a node keeps anything.
pub(crate) fn keeps_any(journal: Option<&str>, log: Option<&str>) -> bool
    ensures { result ≡ keeps_any (option_map (λ text. text.now) journal.entry) (option_map (λ text. text.now) log.entry) }
{
    match (journal, log) {
        (None, None) => false,
        _ => true,
    }
}
