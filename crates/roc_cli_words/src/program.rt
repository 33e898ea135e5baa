//! The command line as `clap` is given it.
ghost use Rattle.std.specs.Prelude.{◌≡◌, IfOk, false};
ghost use Rattle.clap.specs.Words.{App, Rule, app_of, rule_of, with_rule, with_subcommand};
ghost use Rattle.roc_cli_words.specs.Inner.Building.{IsSoFar};
ghost use Rattle.roc_cli_words.specs.Program.{standing_rule, named_rule, flag_rule, choice_rule, many_rule};
ghost use Rattle.roc_cli_words.specs.Program.{workload_app, replay_app, cluster_app, serve_app, submit_app, local_app, gen_app, audit_app, bare_app, program_app};

use clap::{Arg, ArgAction, Command};
use std::alloc::{AllocError, Global};

// A word that must stand.
fn standing<'a>(alloc: Global, name: &'a str) -> Arg<'a>
    ensures rule { rule_of result ≡ standing_rule name.entry.now }
    ensures local { result.global ≡ false }
{
    Arg::new(alloc, name).required(true).action(ArgAction::Set)
}

// A value behind its name, that must stand.
fn named<'a>(alloc: Global, name: &'a str) -> Arg<'a>
    ensures rule { rule_of result ≡ named_rule name.entry.now }
    ensures local { result.global ≡ false }
{
    Arg::new(alloc, name)
        .required(true)
        .action(ArgAction::Set)
        .long(name)
}

// A name alone, that may stand.
fn flag<'a>(alloc: Global, name: &'a str) -> Arg<'a>
    ensures rule { rule_of result ≡ flag_rule name.entry.now }
    ensures local { result.global ≡ false }
{
    Arg::new(alloc, name).action(ArgAction::SetTrue).long(name)
}

// A value behind its name, that may stand.
fn choice<'a>(alloc: Global, name: &'a str) -> Arg<'a>
    ensures rule { rule_of result ≡ choice_rule name.entry.now }
    ensures local { result.global ≡ false }
{
    Arg::new(alloc, name).action(ArgAction::Set).long(name)
}

// Words of which one must stand and 80 may.
fn many<'a>(alloc: Global, name: &'a str) -> Arg<'a>
    ensures rule { rule_of result ≡ many_rule name.entry.now }
    ensures local { result.global ≡ false }
{
    standing(alloc, name).num_args(1..=80)
}

// A command with one more argument, where the command was made.
fn with<'a>(
    command: Result<Command<'a>, AllocError>,
    arg: Arg<'a>,
) -> Result<Command<'a>, AllocError>
    ensures { (app : App) (rule : Rule) → IfOk command.entry (λ c. IsSoFar c app) → rule_of arg.entry ≡ rule → arg.entry.global ≡ false
        → IfOk result (λ c. IsSoFar c (with_rule app rule)) }
{
    match command {
        Ok(command) => command.arg(arg),
        Err(error) => Err(error),
    }
}

fn workload_command<'a>(alloc: Global, name: &'a str) -> Result<Command<'a>, AllocError>
    ensures { IfOk result (λ c. IsSoFar c (workload_app name.entry.now)) }
{
    Command::new(alloc, name).arg(standing(alloc, "workload"))
}

fn replay_command<'a>(alloc: Global) -> Result<Command<'a>, AllocError>
    ensures { IfOk result (λ c. IsSoFar c replay_app) }
{
    let command = workload_command(alloc, "replay");
    let command = with(command, standing(alloc, "schedule"));
    let command = with(command, choice(alloc, "next"));
    with(command, choice(alloc, "coords"))
}

fn cluster_command<'a>(alloc: Global, name: &'a str) -> Result<Command<'a>, AllocError>
    ensures { IfOk result (λ c. IsSoFar c (cluster_app name.entry.now)) }
{
    let command = workload_command(alloc, name);
    with(command, standing(alloc, "cluster"))
}

fn serve_command<'a>(alloc: Global) -> Result<Command<'a>, AllocError>
    ensures { IfOk result (λ c. IsSoFar c serve_app) }
{
    let command = cluster_command(alloc, "serve");
    let command = with(command, named(alloc, "shard"));
    let command = with(command, named(alloc, "turns"));
    let command = with(command, flag(alloc, "counts"));
    let command = with(command, choice(alloc, "journal"));
    let command = with(command, choice(alloc, "log"));
    let command = with(command, choice(alloc, "next"));
    with(command, choice(alloc, "coords"))
}

fn submit_command<'a>(alloc: Global) -> Result<Command<'a>, AllocError>
    ensures { IfOk result (λ c. IsSoFar c submit_app) }
{
    let command = cluster_command(alloc, "submit");
    let command = with(command, standing(alloc, "requests"));
    let command = with(command, named(alloc, "coord"));
    let command = with(command, named(alloc, "turns"));
    let command = with(command, choice(alloc, "log"));
    let command = with(command, choice(alloc, "next"));
    with(command, choice(alloc, "then"))
}

fn local_command<'a>(alloc: Global) -> Result<Command<'a>, AllocError>
    ensures { IfOk result (λ c. IsSoFar c local_app) }
{
    let command = cluster_command(alloc, "local");
    let command = with(command, standing(alloc, "requests"));
    with(command, named(alloc, "turns"))
}

fn gen_command<'a>(alloc: Global) -> Result<Command<'a>, AllocError>
    ensures { IfOk result (λ c. IsSoFar c gen_app) }
{
    let command = Command::new(alloc, "gen").arg(standing(alloc, "seed"));
    let command = with(command, standing(alloc, "shards"));
    let command = with(command, standing(alloc, "txns"));
    with(command, standing(alloc, "part"))
}

fn audit_command<'a>(alloc: Global) -> Result<Command<'a>, AllocError>
    ensures { IfOk result (λ c. IsSoFar c audit_app) }
{
    let command = workload_command(alloc, "audit");
    with(command, many(alloc, "logs"))
}

fn bare_command<'a>(alloc: Global) -> Command<'a>
    ensures { app_of result ≡ bare_app }
{
    Command::new(alloc, "rococo")
        .no_binary_name(true)
        .disable_help_flag(true)
        .disable_help_subcommand(true)
        .subcommand_required(true)
}

// The command with this line as its usage, where it was made.
fn used_as<'a>(
    command: Result<Command<'a>, AllocError>,
    usage: &'a str,
) -> Result<Command<'a>, AllocError>
    ensures { (app : App) → IfOk command.entry (λ c. IsSoFar c app) → IfOk result (λ c. IsSoFar c app) }
{
    match command {
        Ok(command) => Ok(command.override_usage(usage)),
        Err(error) => Err(error),
    }
}

// The program with one more command, where both were made.
fn joined<'a>(
    program: Result<Command<'a>, AllocError>,
    command: Result<Command<'a>, AllocError>,
) -> Result<Command<'a>, AllocError>
    ensures { (app other : App) → IfOk program.entry (λ p. app_of p ≡ app) → IfOk command.entry (λ c. IsSoFar c other) → IfOk result (λ p. app_of p ≡ with_subcommand app other.top) }
{
    match program {
        Ok(program) => under(program, command),
        Err(error) => Err(error),
    }
}

fn under<'a>(
    program: Command<'a>,
    command: Result<Command<'a>, AllocError>,
) -> Result<Command<'a>, AllocError>
    ensures { (app other : App) → app_of program.entry ≡ app → IfOk command.entry (λ c. IsSoFar c other) → IfOk result (λ p. app_of p ≡ with_subcommand app other.top) }
{
    match command {
        Ok(command) => program.subcommand(command),
        Err(error) => Err(error),
    }
}

/// All commands, none of which has help.
pub(crate) fn program<'a>(alloc: Global) -> Result<Command<'a>, AllocError>
    ensures { IfOk result (λ c. app_of c ≡ program_app) }
{
    let check = used_as(workload_command(alloc, "check"), "rococo check WORKLOAD");
    let program = under(bare_command(alloc), check);
    let print = used_as(workload_command(alloc, "print"), "rococo print WORKLOAD");
    let program = joined(program, print);
    let replay = used_as(
        replay_command(alloc),
        "rococo replay WORKLOAD SCHEDULE [--next WORKLOAD --coords M]",
    );
    let program = joined(program, replay);
    let serve = used_as(
        serve_command(alloc),
        "rococo serve WORKLOAD CLUSTER --shard N --turns T [--counts] [--journal FILE] [--log FILE] [--next WORKLOAD --coords M]",
    );
    let program = joined(program, serve);
    let submit = used_as(
        submit_command(alloc),
        "rococo submit WORKLOAD CLUSTER REQUESTS --coord C --turns T [--log FILE] [--next WORKLOAD --then REQUESTS]",
    );
    let program = joined(program, submit);
    let stop = used_as(
        cluster_command(alloc, "stop"),
        "rococo stop WORKLOAD CLUSTER",
    );
    let program = joined(program, stop);
    let local = used_as(
        local_command(alloc),
        "rococo local WORKLOAD CLUSTER REQUESTS --turns T",
    );
    let program = joined(program, local);
    let load = used_as(gen_command(alloc), "rococo gen SEED SHARDS TXNS PART");
    let program = joined(program, load);
    let audit = used_as(audit_command(alloc), "rococo audit WORKLOAD LOGS..");
    joined(program, audit)
}
