//! The servers of a cluster as children of this process.
ghost use Rattle.std.specs.Prelude.{◌≡◌, ◌≤◌, ◌++◌, ◌∷◌, [], map, length, replicate, string_bytes, Some, None, IfOk, OnOk, IsNone, IfSome, if◌then◌else◌};
ghost use Rattle.std.specs.Fmt.{decimal};
ghost use Rattle.roc_io.specs.Cause.{Rose};
ghost use Rattle.roc_io.specs.Observed.{Adds};
ghost use Rattle.roc_io.specs.Spawner.{command_words, ended_badly};
ghost use Rattle.roc_node_local.specs.Children.{AwaitsAll, serve_commands, serve_words};

use roc_base::Shard;
use roc_io::{Child, ChildWait, Link, Spawner};
use std::alloc::{AllocError, Global};

/// A child that did not end with status 0.
#[derive(Clone, Copy)]
pub struct ChildEnd {
    /// The shard that it served.
    pub shard: Shard,
    /// The status with which it ended; there is none where it did not start, or its end could not be awaited.
    pub status: Option<u8>,
}

fn push_text(alloc: Global, words: &mut Vec<String>, text: &str) -> Result<(), AllocError>
    ensures { OnOk result (map string_bytes words.new.items ≡ map string_bytes words.old.items ++ text.now ∷ []) }
{
    words.push(String::from_str(alloc, text)?)?;
    Ok(())
}

fn push_number(alloc: Global, words: &mut Vec<String>, number: u32) -> Result<(), AllocError>
    ensures { OnOk result (map string_bytes words.new.items ≡ map string_bytes words.old.items ++ decimal number ∷ []) }
{
    words.push(format!(in alloc; "{number}")?)?;
    Ok(())
}

fn serve_words(
    alloc: Global,
    workload: &str,
    cluster: &str,
    turns: u32,
    shard: u8,
) -> Result<Vec<String>, AllocError>
    ensures { IfOk result (λ words. command_words words ≡ serve_words workload.now cluster.now turns shard) }
{
    let mut words = Vec::new(alloc);
    push_text(alloc, &mut words, "serve")?;
    push_text(alloc, &mut words, workload)?;
    push_text(alloc, &mut words, cluster)?;
    push_text(alloc, &mut words, "--shard")?;
    push_number(alloc, &mut words, u32::from(shard))?;
    push_text(alloc, &mut words, "--turns")?;
    push_number(alloc, &mut words, turns)?;
    Ok(words)
}

/// The words of the server of each of so many shards, in order.
pub(crate) fn serve_commands(
    alloc: Global,
    workload: &str,
    cluster: &str,
    turns: u32,
    shards: u8,
) -> Result<Vec<Vec<String>>, AllocError>
    ensures { IfOk result (λ commands. map command_words commands.items ≡ serve_commands workload.now cluster.now turns shards) }
{
    let mut commands = Vec::new(alloc);
    for shard in 0..shards {
        commands.push(serve_words(alloc, workload, cluster, turns, shard)?)?;
    }
    Ok(commands)
}

/// Awaits each child in order, also behind one that ended badly, and answers the first that did not end with status 0. The children serve the
/// shards from the first on. The link is the one over which they were told to stop.
pub(crate) fn await_all<P: Spawner, L: Link>(
    spawner: &mut P,
    children: &[Child],
    link: &L,
) -> Option<ChildEnd>
    requires { length children.now ≤ 255 }
    ensures awaited { AwaitsAll (P.awaited spawner.old) (P.awaited spawner.new) children.now result }
    ensures failed { IfSome result (λ end. IsNone end.status → Rose (P.faults spawner.old) (P.faults spawner.new)) }
    ensures succeeded { result ≡ None → P.faults spawner.new ≡ P.faults spawner.old }
    ensures never_falls { P.faults spawner.old ≤ P.faults spawner.new }
    ensures started { P.started spawner.new ≡ P.started spawner.old }
    ensures sent_at_waits { Adds (P.sent_at_waits spawner.old) (P.sent_at_waits spawner.new) (replicate (length children.now) (L.sent link.now)) }
{
    let mut first = None;
    let mut shard = 0;
    for child in children {
        let wait = ChildWait {
            child: *child,
            status: spawner.wait(*child, link),
        };
        first = first.or(bad_end(Shard(shard), wait));
        shard += 1;
    }
    first
}

// How the child of a shard ended, unless it ended with status 0.
fn bad_end(shard: Shard, wait: ChildWait) -> Option<ChildEnd>
    ensures { result ≡ (if ended_badly wait then Some (record { shard = shard; status = wait.status }) else None) }
{
    match wait.status {
        Some(0) => None,
        status => Some(ChildEnd { shard, status }),
    }
}
