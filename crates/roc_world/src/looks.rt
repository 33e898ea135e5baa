//! When rounds of views began.
ghost use Rattle.std.specs.Prelude.{◌≡◌, ◌++◌, map, OnOk};
ghost use Rattle.roc_law_world.specs.World.{looks_in, reads_for};
ghost use Rattle.roc_world.specs.Inner.Looks.{looked};

use roc_base::{NoMemory, TxnId};
use roc_msg::{Msg, Outgoing};

// A round of a view that began, and behind how many transactions of the order it did.
#[derive(Clone, Copy, Drop)]
pub(crate) struct Look {
    pub id: TxnId,
    pub behind: usize,
}

// The view that a message reads for.
fn reads_for(msg: &Msg) -> Option<TxnId>
    ensures { result ≡ reads_for msg.now }
{
    match msg {
        Msg::Read { id, .. } => Some(*id),
        _ => None,
    }
}

// Notes a round where one begins with what a coordinator sends: all reads among that are of one.
pub(crate) fn note_looks(
    looks: &mut Vec<Look>,
    behind: usize,
    messages: &[Outgoing],
) -> Result<(), NoMemory>
    ensures { OnOk result (map looked looks.new.items ≡ map looked looks.old.items ++ looks_in behind messages.now) }
{
    for message in messages {
        if let Some(id) = reads_for(&message.msg) {
            looks.push(Look { id, behind })?;
            return Ok(());
        }
    }
    Ok(())
}
