//! Why the program ends without having done what it was asked: its status, and its line on standard error.
ghost use Rattle.std.specs.Prelude.{◌≡◌, ◌<◌, Some, None, IfOk, string_bytes};
ghost use Rattle.std.specs.List.{flat_map};
ghost use Rattle.roc_cli_files.specs.Fault.{EndsWith, IsTold, growth_word, line_of};
ghost use Rattle.roc_cli_files.specs.Says.{errors, growth_line};

use roc_base::{NoMemory, Shard};
use roc_cli_words::ValueName;
use roc_cluster::ClusterFault;
use roc_epoch::GrowthFault;
use roc_io::{Sink, Written, write_all};
use roc_lang_scope::ScopeWhat;
use roc_log::What as LogWhat;
use std::alloc::Global;

/// Why the program ends without having done what it was asked.
#[derive(Drop)]
pub enum Fault<'a> {
    /// `clap` refuses the words, with this text.
    Refused(String),
    /// A value among the words is none.
    Value(ValueName),
    /// The shard that is to be served is not one of the workload.
    NoShard,
    /// A file is longer than it may be.
    TooLong(&'a str),
    /// A file is no text of its grammar, or does not fit the plan or the run: the line, and what is wrong there.
    At {
        file: &'a str,
        line: u32,
        what: &'static str,
    },
    /// The names of a workload are not in scope: the line, and what is wrong there.
    Scope {
        file: &'a str,
        line: u32,
        what: ScopeWhat,
    },
    /// A file is no cluster file of the workload.
    Cluster {
        file: &'a str,
        fault: ClusterFault,
    },
    /// The workload of a file is no grown one of the workload before it.
    Growth {
        file: &'a str,
        fault: GrowthFault,
    },
    /// The workload of a file has the tag of the workload before it, by which nodes could not tell the two apart.
    Same(&'a str),
    /// A journal is none whose messages the server of that shard takes.
    Journal(&'a str),
    /// A file is no log, or none beside the logs before it: the line, and what is wrong there.
    Log {
        file: &'a str,
        line: u64,
        what: LogWhat,
    },
    /// No log is of the server of that shard.
    Gap(Shard),
    /// A workload is not acceptable. Standard output took the line that says why.
    Rejected,
    /// There is no memory.
    Memory,
    /// All turns were taken, and a request is unanswered or was not submitted.
    Unanswered,
    /// A file could not be read.
    File(&'a str),
    /// Standard output could not be written.
    Sink,
    /// The link could not be bound, or a receive failed.
    Link,
    /// The server of a shard, a child, could not be started or awaited, or ended with this status, which is not 0.
    Child {
        shard: Shard,
        status: Option<u8>,
    },
    /// A call of the journal's disk failed.
    Disk(&'a str),
    /// The journal has no room for another message.
    Full(&'a str),
    /// What the logs tell is not explained. Standard output took the line that says why.
    Refuted,
    /// A call of the log's book failed.
    Book(&'a str),
}

impl Fault<'_> {
    /// Writes the fault's line, if it has one, and answers the status with which the program ends.
    pub fn tell<E: Sink>(self, alloc: Global, err: &mut E) -> u8
        ensures silent { result < 2 → err.new ≡ err.old }
        ensures unsaid { result ≡ 5 → err.new ≡ err.old }
        ensures unexplained { result ≡ 12 → err.new ≡ err.old }
        ensures told { IsTold self.entry result (errors E.Sink err.old err.new) }
    {
        match self {
            Fault::Rejected => 1,
            Fault::Refused(text) => {
                err.write(text.as_bytes());
                2
            }
            Fault::Value(name) => says(err, &[name.as_str().as_bytes(), b"\n"], 2),
            Fault::NoShard => says(err, &[b"shard\n"], 2),
            Fault::TooLong(file) => says(err, &[file.as_bytes(), b": limit\n"], 3),
            Fault::At { file, line, what } => tell_line(alloc, err, file, line, what),
            Fault::Scope { file, line, what } => tell_misuse(alloc, err, file, line, what),
            Fault::Cluster { file, fault } => tell_cluster(alloc, err, file, fault),
            Fault::Growth { file, fault } => tell_growth(err, file, growth_word(fault)),
            Fault::Same(file) => tell_growth(err, file, "same"),
            Fault::Journal(file) => says(err, &[file.as_bytes(), b": journal\n"], 3),
            Fault::Log { file, line, what } => tell_log(alloc, err, file, line, what),
            Fault::Gap(shard) => tell_gap(alloc, err, shard),
            Fault::Memory => says(err, &[b"memory\n"], 4),
            Fault::Unanswered => 5,
            Fault::File(file) => says(err, &[b"file ", file.as_bytes(), b"\n"], 6),
            Fault::Sink => says(err, &[b"sink\n"], 7),
            Fault::Link => says(err, &[b"link\n"], 8),
            Fault::Child {
                shard,
                status: Some(status),
            } => tell_status(alloc, err, shard, status),
            Fault::Child {
                shard,
                status: None,
            } => tell_child(alloc, err, shard),
            Fault::Disk(file) => says(err, &[b"disk ", file.as_bytes(), b"\n"], 10),
            Fault::Full(file) => says(err, &[b"full ", file.as_bytes(), b"\n"], 11),
            Fault::Refuted => 12,
            Fault::Book(file) => says(err, &[b"log ", file.as_bytes(), b"\n"], 13),
        }
    }
}

// Writes the line of a workload that another one may not grow to, and answers its status.
fn tell_growth<'a, E: Sink>(err: &mut E, file: &'a str, word: &'a str) -> u8
    ensures is { result ≡ 3 }
    ensures told { EndsWith 3 (growth_line file.now word.now) result (errors E.Sink err.old err.new) }
{
    says(
        err,
        &[file.as_bytes(), b": growth ", word.as_bytes(), b"\n"],
        3,
    )
}

// What is wrong with a workload that is no grown one.
fn growth_word(fault: GrowthFault) -> &'static str
    ensures { result.now ≡ growth_word fault }
{
    match fault {
        GrowthFault::Shards => "shards",
        GrowthFault::Table => "table",
        GrowthFault::Init => "init",
        GrowthFault::Proc => "proc",
    }
}

// Writes a line in pieces, and answers this status.
fn says<E: Sink>(err: &mut E, pieces: &[&[u8]], status: u8) -> u8
    ensures is { result ≡ status }
    ensures told { EndsWith status (flat_map (λ piece. piece.now) pieces.now) result (errors E.Sink err.old err.new) }
{
    write_all(err, pieces);
    status
}

// The same of a fault at a line, for whose text there may be no memory.
fn tell_line<E: Sink>(alloc: Global, err: &mut E, file: &str, line: u32, what: &'static str) -> u8
    ensures { IsTold (Fault.At file.entry line what.entry) result (errors E.Sink err.old err.new) }
{
    let Ok(text) = format!(in alloc; "{file}:{line}: {what}\n") else {
        err.write(b"memory\n");
        return 4;
    };
    err.write(text.as_bytes());
    3
}

// The same of a fault of scope.
fn tell_misuse<E: Sink>(alloc: Global, err: &mut E, file: &str, line: u32, what: ScopeWhat) -> u8
    ensures { IsTold (Fault.Scope file.entry line what) result (errors E.Sink err.old err.new) }
{
    let Ok(text) = format!(in alloc; "{file}:{line}: {what}\n") else {
        err.write(b"memory\n");
        return 4;
    };
    err.write(text.as_bytes());
    3
}

// The same of a cluster file.
fn tell_cluster<E: Sink>(alloc: Global, err: &mut E, file: &str, fault: ClusterFault) -> u8
    ensures { IsTold (Fault.Cluster file.entry fault) result (errors E.Sink err.old err.new) }
{
    let Ok(text) = cluster_line(alloc, file, fault) else {
        err.write(b"memory\n");
        return 4;
    };
    err.write(text.as_bytes());
    3
}

// The line of a file that is no cluster file.
fn cluster_line(alloc: Global, file: &str, fault: ClusterFault) -> Result<String, NoMemory>
    ensures { IfOk result (λ text. string_bytes text ≡ line_of (Fault.Cluster file.entry fault)) }
{
    let text = fault.text(alloc)?;
    Ok(format!(in alloc; "{file}: {text}\n")?)
}

// The same of a log.
fn tell_log<E: Sink>(alloc: Global, err: &mut E, file: &str, line: u64, what: LogWhat) -> u8
    ensures { IsTold (Fault.Log file.entry line what) result (errors E.Sink err.old err.new) }
{
    let Ok(text) = log_line(alloc, file, line, what) else {
        err.write(b"memory\n");
        return 4;
    };
    err.write(text.as_bytes());
    3
}

// The line of a file that is no log.
fn log_line(alloc: Global, file: &str, line: u64, what: LogWhat) -> Result<String, NoMemory>
    ensures { IfOk result (λ text. string_bytes text ≡ line_of (Fault.Log file.entry line what)) }
{
    let text = what.text(alloc)?;
    Ok(format!(in alloc; "{file}:{line}: {text}\n")?)
}

// The same of a server without a log.
fn tell_gap<E: Sink>(alloc: Global, err: &mut E, shard: Shard) -> u8
    ensures { IsTold (Fault.Gap shard) result (errors E.Sink err.old err.new) }
{
    let Ok(text) = format!(in alloc; "LOGS: gap {}\n", shard.0) else {
        err.write(b"memory\n");
        return 4;
    };
    err.write(text.as_bytes());
    3
}

// The same of a child that could not be started or awaited.
fn tell_child<E: Sink>(alloc: Global, err: &mut E, shard: Shard) -> u8
    ensures { IsTold (Fault.Child shard None) result (errors E.Sink err.old err.new) }
{
    let Ok(text) = format!(in alloc; "child {}\n", shard.0) else {
        err.write(b"memory\n");
        return 4;
    };
    err.write(text.as_bytes());
    9
}

// The same of one that ended with a status.
fn tell_status<E: Sink>(alloc: Global, err: &mut E, shard: Shard, status: u8) -> u8
    ensures { IsTold (Fault.Child shard (Some status)) result (errors E.Sink err.old err.new) }
{
    let Ok(text) = format!(in alloc; "child {} {status}\n", shard.0) else {
        err.write(b"memory\n");
        return 4;
    };
    err.write(text.as_bytes());
    9
}
