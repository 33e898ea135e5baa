//! The reads that are kept.
ghost use Rattle.std.specs.Prelude.{◌≡◌, IfOk};
ghost use Rattle.std.specs.List.{list_any};
ghost use Rattle.roc_server_reads.specs.Answering.{read_in};
ghost use Rattle.roc_server_reads.specs.Inner.Parts.{unless_kept};
ghost use Rattle.roc_step.specs.Reads.{is_same_read};

use roc_base::NoMemory;
use roc_msg::Msg;
use roc_step::{Handled, KeptRead};

// The read of a message that was taken.
pub(crate) fn read_of(msg: &Msg, answer: Handled) -> Result<Option<KeptRead>, NoMemory>
    ensures { IfOk result (λ read. read ≡ read_in msg.now answer) }
{
    match (msg, answer) {
        (
            Msg::Read {
                id,
                round,
                proc,
                group,
                args,
            },
            Handled::Done,
        ) => Ok(Some(KeptRead {
            id: *id,
            round: *round,
            proc: *proc,
            group: *group,
            args: args.clone()?,
        })),
        _ => Ok(None),
    }
}

// A read that comes, unless it is kept.
pub(crate) fn unless_kept(reads: &[KeptRead], read: Option<KeptRead>) -> Option<KeptRead>
    ensures { result ≡ unless_kept reads.now read }
{
    match read {
        Some(read) => {
            if is_kept(reads, &read) {
                return None;
            }
            Some(read)
        }
        None => None,
    }
}

// Whether a read is one of these.
fn is_kept(reads: &[KeptRead], read: &KeptRead) -> bool
    ensures { result ≡ list_any (is_same_read read.now) reads.now }
{
    reads.iter().any(|other| is_same(read, other))
}

// Whether they are one read.
fn is_same(read: &KeptRead, other: &KeptRead) -> bool
    ensures { result ≡ is_same_read read.now other.now }
{
    read.id == other.id
        && read.round == other.round
        && read.proc == other.proc
        && read.group == other.group
        && read.args == other.args
}

// A copy of a read.
pub(crate) fn copy_of_read(read: &KeptRead) -> Result<KeptRead, NoMemory>
    ensures { IfOk result (λ copy. copy ≡ read.now) }
{
    Ok(KeptRead {
        id: read.id,
        round: read.round,
        proc: read.proc,
        group: read.group,
        args: read.args.clone()?,
    })
}
