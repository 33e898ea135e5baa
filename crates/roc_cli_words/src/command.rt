//! What words ask for.
ghost use Rattle.std.specs.Prelude.{◌≡◌, ◌≤◌, false, List, [], length, map, take, IfOk, IfSome, option_and_then, option_map};
ghost use Rattle.std.specs.Result.{result_map_both};
ghost use Rattle.roc_cli_words.specs.Values.{with_partner};
ghost use Rattle.clap.specs.Words.{Text, first_of, found_of, rows_of, subcommand_rows_of};
ghost use Rattle.roc_cli_words.specs.Commands.{IsWithin, IsGrowthWithin, command_in, command_with, gen_in, growth_of, later_of, local_in, logs_by, logs_in, most_logs, log_names, replay_in};
ghost use Rattle.roc_cli_words.specs.Commands.{serve_in, submit_in, text_in};

use crate::value::{
    Part, ValueName, coord_in, coords_in, keeps_any, log_beside, part_in, seed_in, shard_in,
    shards_in, turns_in, txns_in,
};
use clap::ArgMatches;
use roc_base::Shard;

/// The workload to grow to, and how many coordinators there are: each of them has to be drained first.
#[derive(Clone, Copy)]
pub struct Growth<'a> {
    pub workload: &'a str,
    /// 1 to 16.
    pub coords: u16,
}

/// The workload to grow to, and the requests to submit under it.
#[derive(Clone, Copy)]
pub struct Later<'a> {
    pub workload: &'a str,
    pub requests: &'a str,
}

/// How a shard is to be served: for so many turns, and in the end it is written, if so asked, how many datagrams and messages were refused
/// and why. With a journal the server begins with what that gives, and keeps there what it takes. With a log it tells there what it does. Where the workload
/// grows, it has neither.
#[derive(Clone, Copy)]
pub struct Serving<'a> {
    pub workload: &'a str,
    pub cluster: &'a str,
    pub shard: Shard,
    pub turns: u32,
    pub counts: bool,
    pub journal: Option<&'a str>,
    pub log: Option<&'a str>,
    pub growth: Option<Growth<'a>>,
}

/// How requests are to be submitted: as this coordinator, for so many turns, and with a log it tells there what it does. Where the workload grows,
/// it has none.
#[derive(Clone, Copy)]
pub struct Submitting<'a> {
    pub workload: &'a str,
    pub cluster: &'a str,
    pub requests: &'a str,
    pub coord: u16,
    pub turns: u32,
    pub log: Option<&'a str>,
    pub growth: Option<Later<'a>>,
}

/// What words ask for: a command, with the names of its files and its values, each in its range.
#[derive(Clone, Copy)]
pub enum Ask<'a> {
    /// To write what comes of the check of a workload.
    Check {
        workload: &'a str,
    },
    /// To write the canonical text of a workload.
    Print {
        workload: &'a str,
    },
    /// To write the report of a schedule, in which the workload grows where that is asked for.
    Replay {
        workload: &'a str,
        schedule: &'a str,
        growth: Option<Growth<'a>>,
    },
    /// To serve a shard.
    Serve(Serving<'a>),
    /// To submit each request.
    Submit(Submitting<'a>),
    /// To stop the server of each shard.
    Stop {
        workload: &'a str,
        cluster: &'a str,
    },
    /// To start a server for each shard, submit each request for so many turns, and stop them.
    Local {
        workload: &'a str,
        cluster: &'a str,
        requests: &'a str,
        turns: u32,
    },
    /// To write a generated text.
    Gen {
        seed: u64,
        shards: u8,
        txns: u16,
        part: Part,
    },
    /// To judge the logs that are named beside this, against the workload.
    Audit {
        workload: &'a str,
    },
}

/// The names of logs, at most 80, in the order of the words.
#[derive(Clone, Copy)]
pub struct LogNames<'a> {
    /// The names, and behind them what stands for none.
    pub names: [&'a str; 80],
    /// How many of them are names.
    pub count: u8,
}

impl<'a> LogNames<'a> {
    /// The names alone.
    pub fn as_slice(&self) -> &[&'a str]
        ensures { map (λ name. name.now) result.now ≡ log_names self.now }
    {
        &self.names[..usize::from(self.count).min(80)]
    }
}

/// What words ask for, and the logs that they name. The names stand beside the command and not in it, since a variant may hold no array of names.
#[derive(Clone, Copy)]
pub struct Asked<'a> {
    pub ask: Ask<'a>,
    pub logs: LogNames<'a>,
}

// What was given for a name. `clap` takes no words in which it is missing.
fn text_in<'a>(given: &ArgMatches<'a>, name: &str) -> &'a str
    ensures { result.now ≡ text_in name.now (rows_of (found_of given.now)) }
{
    match given.get_str(name) {
        Some(text) => text,
        None => "",
    }
}

// What was given for a name, where it stands.
fn choice_in<'a>(given: &ArgMatches<'a>, name: &str) -> Option<&'a str>
    ensures { option_map (λ text. text.now) result ≡ first_of name.now (rows_of (found_of given.now)) }
{
    given.get_str(name)
}

// The growth that is asked for: both of its parts are given, where nothing is kept, or neither is.
fn growth_with<'a>(
    kept: bool,
    workload: Option<&'a str>,
    coords: Option<u16>,
) -> Result<Option<Growth<'a>>, ValueName>
    ensures growth { result_map_both growth_of (λ name. name) result ≡ with_partner kept (option_map (λ text. text.now) workload.entry) coords }
    ensures within { IfSome coords (λ n. (1 ≤ n) × (n ≤ 16)) → IfOk result (λ growth. IsGrowthWithin (growth_of growth)) }
    ensures alone { IfOk result (λ growth. IfSome growth (λ g. kept ≡ false)) }
{
    match (workload, coords) {
        (Some(workload), Some(coords)) if !kept => Ok(Some(Growth { workload, coords })),
        (None, None) => Ok(None),
        _ => Err(ValueName::Next),
    }
}

// The same of a coordinator.
fn later_with<'a>(
    kept: bool,
    workload: Option<&'a str>,
    requests: Option<&'a str>,
) -> Result<Option<Later<'a>>, ValueName>
    ensures growth { result_map_both later_of (λ name. name) result
        ≡ with_partner kept (option_map (λ text. text.now) workload.entry) (option_map (λ text. text.now) requests.entry) }
    ensures alone { IfOk result (λ growth. IfSome growth (λ g. kept ≡ false)) }
{
    match (workload, requests) {
        (Some(workload), Some(requests)) if !kept => Ok(Some(Later { workload, requests })),
        (None, None) => Ok(None),
        _ => Err(ValueName::Next),
    }
}

fn replay_in<'a>(given: &ArgMatches<'a>) -> Result<Ask<'a>, ValueName>
    ensures command { result_map_both (command_with (logs_in (rows_of (found_of given.now)))) (λ name. name) result ≡ replay_in (rows_of (found_of given.now)) }
    ensures within { (logs : List Text) → IfOk result (λ ask. IsWithin (command_with logs ask)) }
{
    let coords = coords_in(choice_in(given, "coords"))?;
    let growth = growth_with(false, choice_in(given, "next"), coords)?;
    Ok(Ask::Replay {
        workload: text_in(given, "workload"),
        schedule: text_in(given, "schedule"),
        growth,
    })
}

fn serve_in<'a>(given: &ArgMatches<'a>) -> Result<Ask<'a>, ValueName>
    ensures command { result_map_both (command_with (logs_in (rows_of (found_of given.now)))) (λ name. name) result ≡ serve_in (rows_of (found_of given.now)) }
    ensures within { (logs : List Text) → IfOk result (λ ask. IsWithin (command_with logs ask)) }
{
    let shard = shard_in(text_in(given, "shard"))?;
    let turns = turns_in(text_in(given, "turns"))?;
    let coords = coords_in(choice_in(given, "coords"))?;
    let journal = choice_in(given, "journal");
    let log = log_beside(journal, choice_in(given, "log"))?;
    let kept = keeps_any(journal, log);
    let growth = growth_with(kept, choice_in(given, "next"), coords)?;
    Ok(Ask::Serve(Serving {
        workload: text_in(given, "workload"),
        cluster: text_in(given, "cluster"),
        shard,
        turns,
        counts: text_in(given, "counts") == "true",
        journal,
        log,
        growth,
    }))
}

fn submit_in<'a>(given: &ArgMatches<'a>) -> Result<Ask<'a>, ValueName>
    ensures command { result_map_both (command_with (logs_in (rows_of (found_of given.now)))) (λ name. name) result ≡ submit_in (rows_of (found_of given.now)) }
    ensures within { (logs : List Text) → IfOk result (λ ask. IsWithin (command_with logs ask)) }
{
    let coord = coord_in(text_in(given, "coord"))?;
    let turns = turns_in(text_in(given, "turns"))?;
    let log = choice_in(given, "log");
    let kept = keeps_any(None, log);
    let growth = later_with(kept, choice_in(given, "next"), choice_in(given, "then"))?;
    Ok(Ask::Submit(Submitting {
        workload: text_in(given, "workload"),
        cluster: text_in(given, "cluster"),
        requests: text_in(given, "requests"),
        coord,
        turns,
        log,
        growth,
    }))
}

fn local_in<'a>(given: &ArgMatches<'a>) -> Result<Ask<'a>, ValueName>
    ensures command { result_map_both (command_with (logs_in (rows_of (found_of given.now)))) (λ name. name) result ≡ local_in (rows_of (found_of given.now)) }
    ensures within { (logs : List Text) → IfOk result (λ ask. IsWithin (command_with logs ask)) }
{
    let turns = turns_in(text_in(given, "turns"))?;
    Ok(Ask::Local {
        workload: text_in(given, "workload"),
        cluster: text_in(given, "cluster"),
        requests: text_in(given, "requests"),
        turns,
    })
}

fn gen_in<'a>(given: &ArgMatches<'a>) -> Result<Ask<'a>, ValueName>
    ensures command { result_map_both (command_with (logs_in (rows_of (found_of given.now)))) (λ name. name) result ≡ gen_in (rows_of (found_of given.now)) }
    ensures within { (logs : List Text) → IfOk result (λ ask. IsWithin (command_with logs ask)) }
{
    Ok(Ask::Gen {
        seed: seed_in(text_in(given, "seed"))?,
        shards: shards_in(text_in(given, "shards"))?,
        txns: txns_in(text_in(given, "txns"))?,
        part: part_in(text_in(given, "part"))?,
    })
}

// No names.
fn no_names<'a>() -> LogNames<'a>
    ensures { log_names result ≡ [] }
{
    LogNames {
        names: [""; 80],
        count: 0,
    }
}

// The logs, in the order of the words.
fn logs_in<'a>(given: &ArgMatches<'a>) -> LogNames<'a>
    ensures { log_names result ≡ logs_in (rows_of (found_of given.now)) }
{
    match given.get_strs("logs") {
        Some(found) => first_names(found),
        None => no_names(),
    }
}

// The first 80 of these.
fn first_names<'a>(found: &[&'a str]) -> LogNames<'a>
    ensures { log_names result ≡ take most_logs (map (λ name. name.now) found.now) }
{
    let count = found.len().min(80);
    let mut names = [""; 80];
    names[..count].copy_from_slice(&found[..count]);
    LogNames {
        names,
        count: count as u8,
    }
}

// What a subcommand of this name asks for.
fn command_in<'a>(name: &str, given: &ArgMatches<'a>) -> Option<Result<Ask<'a>, ValueName>>
    ensures command { option_map (λ r. result_map_both (command_with (logs_in (rows_of (found_of given.now)))) (λ name. name) r) result
        ≡ command_in (name.now, rows_of (found_of given.now)) }
    ensures within { (logs : List Text) → length logs ≤ most_logs → IfSome result (λ r. IfOk r (λ ask. IsWithin (command_with logs ask))) }
{
    let workload = text_in(given, "workload");
    match name {
        "check" => Some(Ok(Ask::Check { workload })),
        "print" => Some(Ok(Ask::Print { workload })),
        "replay" => Some(replay_in(given)),
        "serve" => Some(serve_in(given)),
        "submit" => Some(submit_in(given)),
        "stop" => Some(Ok(Ask::Stop {
            workload,
            cluster: text_in(given, "cluster"),
        })),
        "local" => Some(local_in(given)),
        "gen" => Some(gen_in(given)),
        "audit" => Some(Ok(Ask::Audit { workload })),
        _ => None,
    }
}

// The subcommand that was used, and what was given to it.
fn entered<'m, 'a>(matches: &'m ArgMatches<'a>) -> Option<(&'a str, &'m ArgMatches<'a>)>
    ensures { option_map (λ p. (p.0.now, rows_of (found_of p.1.now))) result ≡ subcommand_rows_of matches.now }
{
    matches.subcommand()
}

/// What the words ask for that were parsed so, but for the logs that they name.
pub(crate) fn asked_by<'a>(matches: &ArgMatches<'a>) -> Option<Result<Ask<'a>, ValueName>>
    ensures command { option_map (λ r. result_map_both (command_with (logs_by (subcommand_rows_of matches.now))) (λ name. name) r) result
        ≡ option_and_then command_in (subcommand_rows_of matches.now) }
    ensures within { (logs : List Text) → length logs ≤ most_logs → IfSome result (λ r. IfOk r (λ ask. IsWithin (command_with logs ask))) }
{
    let (name, given) = entered(matches)?;
    command_in(name, given)
}

/// The logs that they name.
pub(crate) fn logs_by<'a>(matches: &ArgMatches<'a>) -> LogNames<'a>
    ensures names { log_names result ≡ logs_by (subcommand_rows_of matches.now) }
    ensures few { length (log_names result) ≤ most_logs }
{
    match entered(matches) {
        Some((_, given)) => logs_in(given),
        None => no_names(),
    }
}
