//! Fetches.
ghost use Rattle.std.specs.Prelude.{◌≡◌, ◌∷◌, [], if◌then◌else◌, IfOk, OnOk};
ghost use Rattle.roc_base.specs.declared.node.Node.TheVariants.{Server};
ghost use Rattle.roc_msg.specs.Outbox.{HasSent};
ghost use Rattle.roc_msg.specs.declared.msg.Msg.TheVariants.{Settled};
ghost use Rattle.roc_msg.specs.declared.reason.Reason.TheVariants.{NotHere};
ghost use Rattle.roc_step.specs.Below.{is_ended, mark_of};
ghost use Rattle.roc_step.specs.declared.handled.Handled.TheVariants.{Done, Ignored};
ghost use Rattle.roc_step.specs.Lists.{after_fetch};
ghost use Rattle.roc_server.specs.Inner.Parts.{state_behind, state_of, CanRelease, IsIdle, IsSound, Keeps};
ghost use Rattle.roc_server.specs.Inner.Shown.{ShowsStep};

use crate::Handled;
use crate::parts::ServerParts;
use roc_await::Asker;
use roc_base::{NoMemory, Node, Shard, TxnId};
use roc_msg::{Msg, Outbox, Reason};
use roc_server_groups::is_here;
use roc_server_lists::ServerLists;
use roc_server_news::send_known;

// Tries to answer a fetch, or ignores it.
pub(crate) fn try_fetch(
    shard: Shard,
    parts: &mut ServerParts,
    id: TxnId,
    asker: Shard,
    sends: &mut Outbox,
) -> Result<Handled, NoMemory>
    requires sound { IsSound parts.old }
    requires idle { IsIdle parts.old }
    ensures step { IfOk result (λ answer. ShowsStep (after_fetch (state_of shard parts.old) id asker) answer (state_behind shard parts.new) sends.old sends.new) }
    ensures started { OnOk result ((state_behind shard parts.new).started ≡ parts.old.groups.kept) }
    ensures can { OnOk result (CanRelease parts.new) }
    ensures keeps { Keeps parts.old parts.new }
    ensures sound { IsSound parts.new }
{
    if !is_here(parts.groups.started(), id) {
        return answer_absent(&parts.lists, id, asker, sends);
    }
    match parts.lists.table().list(id) {
        Some(edges) => {
            send_known(asker, id, edges, sends)?;
            Ok(Handled::Done)
        }
        None => {
            parts.lists.ask(Asker { id, shard: asker })?;
            Ok(Handled::Done)
        }
    }
}

// Answers for a transaction without a group here: nobody has to wait for one that is ended, and else it is not here.
fn answer_absent(
    lists: &ServerLists,
    id: TxnId,
    asker: Shard,
    sends: &mut Outbox,
) -> Result<Handled, NoMemory>
    ensures answer { IfOk result (λ answer. answer ≡ (if is_ended lists.now.kept.below id then Done else Ignored NotHere)) }
    ensures sent { OnOk result (HasSent sends.old sends.new (
        if is_ended lists.now.kept.below id then (record { to = Server asker; msg = Settled id (mark_of lists.now.kept.below id.coord) }) ∷ [] else [])) }
{
    if !lists.is_ended(id) {
        return Ok(Handled::Ignored(Reason::NotHere));
    }
    let below = lists.mark_of(id.coord);
    sends.send(Node::Server(asker), Msg::Settled { id, below })?;
    Ok(Handled::Done)
}
