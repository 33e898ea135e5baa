//! A step is tried, and then kept or given up.
ghost use Rattle.std.specs.Prelude.{◌≡◌, [], None, Some, OnErr, OnOk};
ghost use Rattle.roc_step.specs.Learning.{AreLearnable};
ghost use Rattle.roc_step.specs.State.{ServerState};
ghost use Rattle.roc_server_groups.specs.GroupsNow.{groups_without};
ghost use Rattle.roc_server_lists.specs.ListsNow.{lists_behind, lists_of, no_lists, over_of, with_one_asking, IsHeard, IsNoneLeft, IsSettledBy, IsTaught, IsTried, LeavesNone};
ghost use Rattle.roc_server_lists.specs.Inner.Trials.{lists_now, AreHeld};

use crate::keeping::{keep, take_back};
use crate::parts::{ListParts, empty};
use crate::preparing::{prepare_heard, prepare_lists, prepare_settled};
use crate::trial::Trial;
use roc_await::Asker;
use roc_base::{NoMemory, Shard, TxnId};
use roc_depgraph::KnownList;
use roc_server_groups::StartedGroups;
use std::alloc::Global;

// Tries that a shard waits for a list.
pub(crate) fn ask(
    parts: &mut ListParts,
    trial: &mut Option<Trial>,
    asker: Asker,
) -> Result<(), NoMemory>
    requires held { AreHeld parts.old trial.old }
    requires untried { (lists_now parts.old trial.old).tried ≡ None }
    ensures ok { OnOk result ((lists_now parts.new trial.new).tried ≡ Some (record { kept = with_one_asking asker (lists_now parts.old trial.old).kept; newly = []; asks = []; over = [] })) }
    ensures left { OnOk result (LeavesNone (lists_now parts.old trial.old) (lists_now parts.new trial.new)) }
    ensures none { OnErr result ((lists_now parts.new trial.new).tried ≡ None) }
    ensures kept { (lists_now parts.new trial.new).kept ≡ (lists_now parts.old trial.old).kept }
    ensures decided { parts.new.table.decided ≡ parts.old.table.decided }
    ensures held { AreHeld parts.new trial.new }
{
    parts.waits.reserve(1)?;
    *trial = Some(Trial::Asker(asker));
    Ok(())
}

// Tries that a watermark is heard.
pub(crate) fn hear(
    alloc: Global,
    parts: &mut ListParts,
    trial: &mut Option<Trial>,
    coord: u16,
    mark: u32,
) -> Result<(), NoMemory>
    requires held { AreHeld parts.old trial.old }
    requires untried { (lists_now parts.old trial.old).tried ≡ None }
    ensures ok { OnOk result ((s : ServerState) → lists_of s ≡ (lists_now parts.old trial.old).kept → IsTried (IsHeard s coord mark) (lists_now parts.new trial.new).tried) }
    ensures left { OnOk result (LeavesNone (lists_now parts.old trial.old) (lists_now parts.new trial.new)) }
    ensures none { OnErr result ((lists_now parts.new trial.new).tried ≡ None) }
    ensures kept { (lists_now parts.new trial.new).kept ≡ (lists_now parts.old trial.old).kept }
    ensures decided { parts.new.table.decided ≡ parts.old.table.decided }
    ensures held { AreHeld parts.new trial.new }
{
    let heard = prepare_heard(alloc, parts, coord, mark)?;
    *trial = Some(Trial::Marks(heard));
    Ok(())
}

// Tries that lists are taught.
pub(crate) fn teach(
    alloc: Global,
    shard: Shard,
    parts: &mut ListParts,
    trial: &mut Option<Trial>,
    started: &StartedGroups,
    news: Vec<KnownList>,
) -> Result<(), NoMemory>
    requires held { AreHeld parts.old trial.old }
    requires untried { (lists_now parts.old trial.old).tried ≡ None }
    requires learnable { AreLearnable (lists_now parts.old trial.old).kept.lists.known news.items }
    requires left { IsNoneLeft started.now.groups (lists_now parts.old trial.old).kept.lists }
    ensures ok { OnOk result ((s : ServerState) → s.shard ≡ shard → s.started ≡ started.now.groups → lists_of s ≡ (lists_now parts.old trial.old).kept
        → IsTried (IsTaught s parts.old.table.decided news.items) (lists_now parts.new trial.new).tried) }
    ensures left { OnOk result (IsNoneLeft (groups_without (over_of (lists_now parts.new trial.new).tried) started.now.groups) (lists_behind (lists_now parts.new trial.new)).lists) }
    ensures none { OnErr result ((lists_now parts.new trial.new).tried ≡ None) }
    ensures kept { (lists_now parts.new trial.new).kept ≡ (lists_now parts.old trial.old).kept }
    ensures decided { parts.new.table.decided ≡ parts.old.table.decided }
    ensures held { AreHeld parts.new trial.new }
{
    let lesson = prepare_lists(alloc, shard, parts, started, news)?;
    *trial = Some(Trial::Lists(lesson));
    Ok(())
}

// Tries that a coordinator's watermark is heard, with which nobody has to wait for a transaction any more, where the watermark ends it.
pub(crate) fn settle(
    alloc: Global,
    parts: &mut ListParts,
    trial: &mut Option<Trial>,
    id: TxnId,
    mark: u32,
) -> Result<(), NoMemory>
    requires held { AreHeld parts.old trial.old }
    requires untried { (lists_now parts.old trial.old).tried ≡ None }
    ensures ok { OnOk result ((s : ServerState) → lists_of s ≡ (lists_now parts.old trial.old).kept → IsTried (IsSettledBy s parts.old.table.decided id mark) (lists_now parts.new trial.new).tried) }
    ensures left { OnOk result (LeavesNone (lists_now parts.old trial.old) (lists_now parts.new trial.new)) }
    ensures none { OnErr result ((lists_now parts.new trial.new).tried ≡ None) }
    ensures kept { (lists_now parts.new trial.new).kept ≡ (lists_now parts.old trial.old).kept }
    ensures decided { parts.new.table.decided ≡ parts.old.table.decided }
    ensures held { AreHeld parts.new trial.new }
{
    let settling = prepare_settled(alloc, parts, id, mark)?;
    *trial = Some(Trial::Settled(settling));
    Ok(())
}

// What was tried is kept, where something was.
pub(crate) fn release(parts: &mut ListParts, trial: &mut Option<Trial>)
    requires { AreHeld parts.old trial.old }
    ensures kept { (lists_now parts.new trial.new).kept ≡ lists_behind (lists_now parts.old trial.old) }
    ensures tried { (lists_now parts.new trial.new).tried ≡ None }
    ensures held { AreHeld parts.new trial.new }
{
    if let Some(tried) = trial.take() {
        keep(parts, tried);
    }
}

// What was tried is given up, where something was.
pub(crate) fn roll_back(parts: &mut ListParts, trial: &mut Option<Trial>)
    requires { AreHeld parts.old trial.old }
    ensures kept { (lists_now parts.new trial.new).kept ≡ (lists_now parts.old trial.old).kept }
    ensures decided { parts.new.table.decided ≡ parts.old.table.decided }
    ensures tried { (lists_now parts.new trial.new).tried ≡ None }
    ensures held { AreHeld parts.new trial.new }
{
    if let Some(tried) = trial.take() {
        take_back(parts, tried);
    }
}

// What was tried goes, and all that was kept but the watermarks.
pub(crate) fn renew(alloc: Global, parts: &mut ListParts, trial: &mut Option<Trial>)
    requires { AreHeld parts.old trial.old }
    ensures kept { (lists_now parts.new trial.new).kept ≡ record (lists_now parts.old trial.old).kept { lists = no_lists } }
    ensures decided { parts.new.table.decided ≡ [] }
    ensures tried { (lists_now parts.new trial.new).tried ≡ None }
    ensures held { AreHeld parts.new trial.new }
{
    roll_back(parts, trial);
    empty(alloc, parts);
}
