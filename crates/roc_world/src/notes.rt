//! What a node gives goes into the network, the history, the order and the looks. What it sends is sealed by its own file behind the step, which is the second
//! one where it has switched.
ghost use Rattle.std.specs.Prelude.{◌≡◌, ◌++◌, ◌∷◌, [], length, map, take, IfOk, OnOk};
ghost use Rattle.roc_base.specs.declared.node.Node.TheVariants as node;
ghost use Rattle.roc_audit.specs.declared.entry.Entry.TheVariants as entry;
ghost use Rattle.roc_audit.specs.Order.{noted};
ghost use Rattle.roc_law_world.specs.World.{looks_in};
ghost use Rattle.roc_growth.specs.declared.event.Seen.TheVariants as seen;
ghost use Rattle.roc_growth.specs.Happens.{coord_seen, server_seen, answer_entries};
ghost use Rattle.roc_growth.specs.World.{sends};
ghost use Rattle.roc_world.specs.Inner.Looks.{looked};
ghost use Rattle.roc_world.specs.Inner.Parts.{world_of};

use crate::Seen;
use crate::looks::note_looks;
use crate::parts::Parts;
use roc_audit::Entry;
use roc_base::{NoMemory, Node, Nums, Shard, TxnId};
use roc_grown::{GrownAnswer, GrownHandled};
use roc_msg::Outbox;
use roc_sequence::Sequence;

// What a coordinator sends goes into the network, and the round of a view that begins with it is noted.
fn send_at_coord(
    parts: &mut Parts,
    switched: bool,
    coord: u16,
    outbox: Outbox,
) -> Result<(), NoMemory>
    ensures { OnOk result (world_of parts.new
        ≡ record (sends (world_of parts.old) switched (node.Coord coord) outbox.messages) { looks = map looked parts.old.looks.items ++ looks_in (length parts.old.order) outbox.messages }) }
{
    let behind = parts.order.as_slice().len();
    note_looks(&mut parts.looks, behind, outbox.messages())?;
    send_from(parts, switched, Node::Coord(coord), outbox)
}

// What a node sends goes into the network.
fn send_from(parts: &mut Parts, switched: bool, from: Node, outbox: Outbox) -> Result<(), NoMemory>
    ensures { OnOk result (world_of parts.new ≡ sends (world_of parts.old) switched from outbox.messages) }
{
    let (messages, _) = outbox.into_parts();
    parts.network.add(switched, from, messages)
}

/// What a coordinator sends for an accepted submission goes into the network, and the submission into the history.
pub(crate) fn note_submitted(
    parts: &mut Parts,
    switched: bool,
    coord: u16,
    id: TxnId,
    proc: u16,
    args: &Nums,
    outbox: Outbox,
) -> Result<Seen, NoMemory>
    ensures { IfOk result (λ what. (what ≡ seen.Submitted id)
        × (world_of parts.new ≡ record (sends (world_of parts.old) switched (node.Coord coord) outbox.messages) {
          history = parts.old.history ++ entry.Submitted id proc args.now ∷ [];
          looks = map looked parts.old.looks.items ++ looks_in (length parts.old.order) outbox.messages;
        })) }
{
    send_at_coord(parts, switched, coord, outbox)?;
    let args = args.clone()?;
    parts.history.push(Entry::Submitted { id, proc, args })?;
    Ok(Seen::Submitted(id))
}

/// What a coordinator sends as it drains goes into the network.
pub(crate) fn note_drain(
    parts: &mut Parts,
    switched: bool,
    coord: u16,
    outbox: Outbox,
) -> Result<Seen, NoMemory>
    ensures { IfOk result (λ what. (what ≡ seen.Done)
        × (world_of parts.new
        ≡ record (sends (world_of parts.old) switched (node.Coord coord) outbox.messages) { looks = map looked parts.old.looks.items ++ looks_in (length parts.old.order) outbox.messages })) }
{
    send_at_coord(parts, switched, coord, outbox)?;
    Ok(Seen::Done)
}

/// What a node sends at a tick goes into the network.
pub(crate) fn note_tick(
    parts: &mut Parts,
    switched: bool,
    from: Node,
    outbox: Outbox,
) -> Result<Seen, NoMemory>
    ensures { IfOk result (λ what. (what ≡ seen.Done) × (world_of parts.new ≡ sends (world_of parts.old) switched from outbox.messages)) }
{
    send_from(parts, switched, from, outbox)?;
    Ok(Seen::Done)
}

/// What a server gives goes into the network and the order.
pub(crate) fn note_at_server(
    parts: &mut Parts,
    switched: bool,
    shard: Shard,
    handled: GrownHandled,
    outbox: Outbox,
) -> Result<Seen, NoMemory>
    ensures { IfOk result (λ what. (what ≡ server_seen handled)
        × (world_of parts.new ≡ record (sends (world_of parts.old) switched (node.Server shard) outbox.messages) { order = noted parts.old.order outbox.decided })) }
{
    let (messages, decided) = outbox.into_parts();
    parts.network.add(switched, Node::Server(shard), messages)?;
    parts.order.note(&decided)?;
    Ok(server_seen(handled))
}

/// The first so many messages that a server gives go into the network, and what it decides goes into the order.
pub(crate) fn note_cut(
    parts: &mut Parts,
    switched: bool,
    shard: Shard,
    many: u32,
    outbox: Outbox,
) -> Result<(), NoMemory>
    ensures { OnOk result (world_of parts.new
        ≡ record (sends (world_of parts.old) switched (node.Server shard) (take many outbox.messages)) { order = noted parts.old.order outbox.decided }) }
{
    let (mut messages, decided) = outbox.into_parts();
    messages.truncate(many as usize);
    parts.network.add(switched, Node::Server(shard), messages)?;
    parts.order.note(&decided)
}

/// What a coordinator gives goes into the network and the history.
pub(crate) fn note_at_coord(
    parts: &mut Parts,
    switched: bool,
    coord: u16,
    answer: GrownAnswer,
    outbox: Outbox,
) -> Result<Seen, NoMemory>
    ensures { IfOk result (λ what. (what ≡ coord_seen answer)
        × (world_of parts.new ≡ record (sends (world_of parts.old) switched (node.Coord coord) outbox.messages) {
          history = parts.old.history ++ answer_entries answer;
          looks = map looked parts.old.looks.items ++ looks_in (length parts.old.order) outbox.messages;
        })) }
{
    send_at_coord(parts, switched, coord, outbox)?;
    note_answer(&mut parts.history, &answer)?;
    Ok(coord_seen(answer))
}

// What is seen of a server that handled a message.
fn server_seen(handled: GrownHandled) -> Seen
    ensures { result ≡ server_seen handled }
{
    match handled {
        GrownHandled::Done => Seen::Done,
        GrownHandled::Gone => Seen::Gone,
        GrownHandled::Skipped => Seen::Skipped,
        GrownHandled::Ignored(reason) => Seen::Ignored(reason),
    }
}

// What is seen of a coordinator that handled a message.
fn coord_seen(answer: GrownAnswer) -> Seen
    ensures { result ≡ coord_seen answer }
{
    match answer {
        GrownAnswer::Done => Seen::Done,
        GrownAnswer::Answered { id, reply } => Seen::Answered { id, reply },
        GrownAnswer::Skipped => Seen::Skipped,
        GrownAnswer::Ignored(reason) => Seen::Ignored(reason),
    }
}

// Adds an answer to the history, where there is one.
fn note_answer(history: &mut Sequence<Entry>, answer: &GrownAnswer) -> Result<(), NoMemory>
    ensures { OnOk result (history.new ≡ history.old ++ answer_entries answer.now) }
{
    if let GrownAnswer::Answered { id, reply } = answer {
        let reply = reply.clone()?;
        history.push(Entry::Answered { id: *id, reply })?;
    }
    Ok(())
}
