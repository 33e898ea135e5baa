//! The program: `run` of `roc_cli` over the machine's files, streams, network, processes, disk and book of `roc_io_real`. Its words
//! are those of `docs/FORMATS.md`, "The program". Nothing stands here that can stand elsewhere.
#![tactic(auto)]

use roc_cli::run;
use roc_io::{Sink, Written};
use roc_io_real::{
    Gathered, Given, RealBook, RealDisk, RealFiles, RealLink, RealSpawner, Stream, finish_both,
    words_given,
};
use std::process::ExitCode;

// How many bytes are written together at most.
const ROOM: usize = 65_536;

fn main(rt: HostRuntime) -> ExitCode {
    let status = match words_given(&rt) {
        Given::Words(words) => run_words(&rt, &words),
        Given::NoText => told(&rt, b"a word is no text\n", 2),
        Given::NoMemory => told(&rt, b"memory\n", 4),
    };
    ExitCode::from(status)
}

// Says why there are no words to run, and hands on the status of that.
fn told(rt: &HostRuntime, line: &[u8], status: u8) -> u8 {
    Stream::new(rt.stderr()).write(line);
    status
}

// What the machine gives is owned here, behind the last exit of `main`.
fn run_words(rt: &HostRuntime, words: &[String]) -> u8 {
    let mut out = Gathered::new(rt.alloc(), rt.stdout(), room_for(words));
    let mut err = Gathered::new(rt.alloc(), rt.stderr(), ROOM);
    let status = run(
        rt.alloc(),
        words,
        &mut RealFiles::new(rt),
        &mut out,
        &mut err,
        &mut RealLink::new(rt.alloc(), rt),
        &mut RealSpawner::new(rt.alloc(), rt),
        &mut RealDisk::new(rt),
        &mut RealBook::new(rt),
    );
    // A write that fails only now ends the program as any other does.
    match finish_both(&mut out, &mut err, b"sink\n") {
        Written::Ok => status,
        Written::Failed => 7,
    }
}

// How many bytes of standard output are gathered. Nobody waits for a line of these commands before the last; for one of nodes somebody may.
fn room_for(words: &[String]) -> usize {
    match words.first() {
        Some(word) => match word.as_str() {
            "audit" | "check" | "gen" | "print" | "replay" => ROOM,
            _ => 0,
        },
        None => 0,
    }
}
