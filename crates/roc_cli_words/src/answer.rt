//! What `ask` answers.
ghost use Rattle.std.specs.Prelude.{map, string_bytes, IfOk};
ghost use Rattle.clap.specs.Words.{kind_of};
ghost use Rattle.roc_cli_words.specs.Answer.{AnswersWords, RefusesWords};
ghost use Rattle.roc_cli_words.specs.Commands.{IsWithin, command_of};
ghost use Rattle.roc_cli_words.specs.Inner.Parsing.{IsFaultOfKind, ParsesWords};

use crate::command::{Asked, asked_by, logs_by};
use crate::program::program;
use crate::value::ValueName;
use clap::error::ErrorKind;
use clap::{ArgMatches, Error};
use std::alloc::Global;

// What stands behind each refusal of `clap`.
const COMMANDS: &str = "
Commands:
  check   writes the pieces and groups of a workload, or why it is refused
  print   writes the canonical text of a workload
  replay  writes the report of a schedule
  serve   serves a shard on a network
  submit  submits requests on a network, and writes their answers
  stop    stops the servers of a cluster
  local   starts the servers of a cluster, submits requests, and stops the servers
  gen     writes a generated workload, its schedule, or what comes of its run
  audit   judges the logs of nodes by one serial order, and writes it
";

/// Why words ask for nothing.
#[derive(Drop)]
pub enum WordsFault {
    /// `clap` refuses them, with this text, in lines.
    Refused(String),
    /// This value is no number, or none in its range, a log beside a journal, or a workload to grow to without its partner or beside one of these; of several the first that is judged.
    Value(ValueName),
    /// There is no memory.
    NoMemory,
}

fn fault_of(alloc: Global, error: &Error) -> WordsFault
    ensures { IsFaultOfKind (kind_of error.now) result }
{
    if error.kind() == ErrorKind::OutOfMemory {
        return WordsFault::NoMemory;
    }
    match format!(in alloc; "{error}{}", COMMANDS) {
        Ok(text) => WordsFault::Refused(text),
        Err(_) => WordsFault::NoMemory,
    }
}

fn parsed<'a>(alloc: Global, words: &'a [String]) -> Result<ArgMatches<'a>, WordsFault>
    ensures { ParsesWords (map string_bytes words.entry.now) result }
{
    let command = match program(alloc) {
        Ok(command) => command,
        Err(_) => return Err(WordsFault::NoMemory),
    };
    match command.try_get_matches_from(words) {
        Ok(matches) => Ok(matches),
        Err(error) => Err(fault_of(alloc, &error)),
    }
}

/// What the words behind the program's name ask for. The names of files are parts of the words.
pub fn ask<'a>(alloc: Global, words: &'a [String]) -> Result<Asked<'a>, WordsFault>
    ensures answers { AnswersWords (map string_bytes words.entry.now) result }
    ensures refuses { RefusesWords (map string_bytes words.entry.now) result }
    ensures within { IfOk result (λ asked. IsWithin (command_of asked)) }
{
    let matches = match parsed(alloc, words) {
        Ok(matches) => matches,
        Err(fault) => return Err(fault),
    };
    match asked_by(&matches) {
        Some(Ok(ask)) => Ok(Asked {
            ask,
            logs: logs_by(&matches),
        }),
        Some(Err(name)) => Err(WordsFault::Value(name)),
        None => unreachable!(),
    }
}
