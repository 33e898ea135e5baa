//! Lists that are new are taught, and what is newly decided is told.
ghost use Rattle.std.specs.Prelude.{◌≡◌, IfOk, OnOk};
ghost use Rattle.roc_msg.specs.Outbox.{HasSent};
ghost use Rattle.roc_step.specs.Fits.{AreGroupsOf};
ghost use Rattle.roc_step.specs.Learning.{AreLearnable};
ghost use Rattle.roc_server_groups.specs.GroupsNow.{AreOnce, RunsDecided};
ghost use Rattle.roc_server_lists.specs.ListsNow.{asks_of, newly_of};
ghost use Rattle.roc_server.specs.Inner.Parts.{state_behind, state_of, CanRelease, IsIdle, IsSound, Keeps};
ghost use Rattle.roc_server.specs.Inner.Taught.{newly_told, own_again, Teaches};

use crate::Handled;
use crate::parts::ServerParts;
use roc_base::{NoMemory, Shard, TxnId};
use roc_depgraph::KnownList;
use roc_msg::Outbox;
use roc_plan::Plan;
use roc_server_groups::{StartedGroups, send_commitok, send_commitoks};
use roc_server_news::{send_fetches, tell_all};
use std::alloc::Global;

// Tries that lists are taught, of transactions of which none is known, and that the commitok of `again` is sent once more.
pub(crate) fn try_lists(
    alloc: Global,
    plan: &Plan,
    shard: Shard,
    parts: &mut ServerParts,
    news: Vec<KnownList>,
    again: Option<TxnId>,
    sends: &mut Outbox,
) -> Result<Handled, NoMemory>
    requires fits { AreGroupsOf plan.now parts.old.groups.kept }
    requires sound { IsSound parts.old }
    requires idle { IsIdle parts.old }
    requires learnable { AreLearnable parts.old.lists.kept.lists.known news.items }
    ensures step { IfOk result (λ answer. Teaches plan.now (state_of shard parts.old) (state_behind shard parts.new) sends.old sends.new news.items again answer) }
    ensures fits { OnOk result (AreGroupsOf plan.now (state_behind shard parts.new).started) }
    ensures can { OnOk result (CanRelease parts.new) }
    ensures keeps { Keeps parts.old parts.new }
    ensures sound { IsSound parts.new }
{
    tell_all(parts.lists.waits(), &news, sends)?;
    parts.lists.teach(shard, parts.groups.started(), news)?;
    run_newly(plan, parts, sends)?;
    tell_newly(alloc, plan, shard, parts, again, sends)?;
    Ok(Handled::Done)
}

// Tries that what is newly decided runs.
pub(crate) fn run_newly(
    plan: &Plan,
    parts: &mut ServerParts,
    sends: &mut Outbox,
) -> Result<(), NoMemory>
    requires fits { AreGroupsOf plan.now parts.old.groups.ran }
    ensures ok { OnOk result (RunsDecided plan.now parts.old.groups.ran parts.new.groups.ran parts.old.rows.store parts.new.rows.store sends.old sends.new (newly_of parts.old.lists.tried)) }
    ensures kept { parts.new.groups.kept ≡ parts.old.groups.kept }
    ensures starting { parts.new.groups.starting ≡ parts.old.groups.starting }
    ensures index { parts.new.groups.index ≡ parts.old.groups.index }
    ensures once { AreOnce parts.new.groups }
    ensures saved { parts.new.rows.saved ≡ parts.old.rows.saved }
    ensures lists { parts.new.lists ≡ parts.old.lists }
{
    parts
        .groups
        .run(plan, parts.lists.newly(), &mut parts.rows, sends)
}

// Tells of what is newly decided, asks for what is missing, and tells again of one that was decided before.
pub(crate) fn tell_newly(
    alloc: Global,
    plan: &Plan,
    shard: Shard,
    parts: &ServerParts,
    again: Option<TxnId>,
    sends: &mut Outbox,
) -> Result<(), NoMemory>
    requires { AreGroupsOf plan.now parts.now.groups.ran }
    ensures { OnOk result (HasSent sends.old sends.new (newly_told plan.now shard parts.now.groups.ran again (newly_of parts.now.lists.tried) (asks_of parts.now.lists.tried))) }
{
    let started = parts.groups.started();
    send_commitoks(alloc, plan, shard, started, parts.lists.newly(), sends)?;
    send_fetches(shard, parts.lists.asks(), sends)?;
    send_again(alloc, plan, shard, started, again, sends)
}

// Answers one more that was decided before, where there is one.
fn send_again(
    alloc: Global,
    plan: &Plan,
    shard: Shard,
    started: &StartedGroups,
    again: Option<TxnId>,
    sends: &mut Outbox,
) -> Result<(), NoMemory>
    requires { AreGroupsOf plan.now started.now.groups }
    ensures { OnOk result (HasSent sends.old sends.new (own_again plan.now shard started.now.groups again)) }
{
    match again {
        Some(id) => send_commitok(alloc, plan, shard, started, id, sends),
        None => Ok(()),
    }
}
