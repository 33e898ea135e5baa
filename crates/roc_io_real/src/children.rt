//! The machine's processes.
ghost use Rattle.std.specs.Prelude.{None};

use roc_io::{Child, Link, Spawner, Started};
use std::alloc::Global;
use std::io::ErrorKind;
use std::process::{Command, OpenProcess, Processes, Stdio};
use std::rt::Files;
use std::{env, io, process};

/// Children of the program's own path, with no input and their output thrown away. A child's number is how many were started before it. A
/// start or wait that fails is counted; a wait for a child that was not started here, or that a signal ended, is one.
#[derive(Drop)]
pub struct RealSpawner<'a, R: Processes> {
    runtime: &'a R,
    running: Vec<process::Child<R::Started>>,
    faults: u64,
}

impl<'a, R: Processes> RealSpawner<'a, R> {
    /// A spawner of this machine's processes, without children.
    pub fn new(alloc: Global, runtime: &'a R) -> Self {
        RealSpawner {
            runtime,
            running: Vec::new(alloc),
            faults: 0,
        }
    }
}

impl<R: Processes + Files + AllocGlobal> Spawner for RealSpawner<'_, R> {
    ghost faults = { λ s. s.faults };

    ghost started = { λ s. None };

    ghost awaited = { λ s. None };

    ghost sent_at_waits = { λ s. None };

    fn start(&mut self, words: &[String]) -> Started {
        // Room first: a child that runs is then kept.
        if self.running.reserve(1).is_err() {
            return Started::NoMemory;
        }
        let number = self.running.len() as u64;
        match own_child(self.runtime, words) {
            Ok(child) => {
                self.running.push(child).unwrap();
                Started::Running(Child::new(number))
            }
            Err(error) if error.kind() == ErrorKind::OutOfMemory => Started::NoMemory,
            Err(_) => {
                self.faults = self.faults.saturating_add(1);
                Started::Failed
            }
        }
    }

    fn wait<L: Link>(&mut self, child: Child, _link: &L) -> Option<u8> {
        let status = match self.running.get_mut(child.number() as usize) {
            Some(running) => status_of(running),
            None => None,
        };
        if status.is_none() {
            self.faults = self.faults.saturating_add(1);
        }
        status
    }

    fn faults(&self) -> u64 {
        self.faults
    }
}

// The program itself with these words.
fn own_child<R: Processes + Files + AllocGlobal>(
    runtime: &R,
    words: &[String],
) -> io::Result<process::Child<R::Started>> {
    let program = env::current_exe(runtime)?;
    let mut command = Command::new(runtime.alloc(), program)?;
    for word in words {
        command.arg(word.as_str())?;
    }
    command.stdin(Stdio::null());
    command.stdout(Stdio::null());
    command.stderr(Stdio::null());
    command.spawn(runtime)
}

fn status_of<P: OpenProcess>(running: &mut process::Child<P>) -> Option<u8> {
    let status = running.wait().ok()?;
    u8::try_from(status.code()?).ok()
}
