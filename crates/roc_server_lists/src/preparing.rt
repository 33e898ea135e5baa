//! What comes of a step for lists is found, and there is room for it, before anything changes for good.
ghost use Rattle.std.specs.Prelude.{◌≡◌, List, IfOk, OnErr};
ghost use Rattle.roc_step.specs.Learning.{AreLearnable};
ghost use Rattle.roc_step.specs.State.{ServerState};
ghost use Rattle.roc_step.specs.declared.started.StartedGroup.{StartedGroup as Group};
ghost use Rattle.roc_server_groups.specs.GroupsNow.{groups_without};
ghost use Rattle.roc_server_lists.specs.declared.trial.Trial.TheVariants.{Lists as ListsCome, Marks as MarksRise, Settled as SettledComes};
ghost use Rattle.roc_server_lists.specs.ListsNow.{lists_of, IsHeard, IsNoneLeft, IsSettledBy, IsTaught};
ghost use Rattle.roc_server_lists.specs.Inner.Parts.{kept_in, AreConsistent};
ghost use Rattle.roc_server_lists.specs.Inner.Trials.{after, tried_of, unlearnt, AreListsTried, AreMarksTried, IsSettledTried};

use crate::finding::find_with_room;
use crate::parts::ListParts;
use crate::settling::find_settled;
use crate::teaching::learn;
use crate::trial::{Heard, Lesson, Settling};
use roc_base::{NoMemory, Shard, TxnId};
use roc_depgraph::KnownList;
use roc_server_groups::StartedGroups;
use roc_server_taken::over_among;
use std::alloc::Global;

// Lists of transactions of which none is known are learnt, and what comes of them is found.
pub(crate) fn prepare_lists(
    alloc: Global,
    shard: Shard,
    parts: &mut ListParts,
    started: &StartedGroups,
    news: Vec<KnownList>,
) -> Result<Lesson, NoMemory>
    requires sound { AreConsistent parts.old }
    requires learnable { AreLearnable parts.old.table.known news.items }
    requires left { IsNoneLeft started.now.groups (kept_in parts.old).lists }
    ensures taught { IfOk result (λ l. (s : ServerState) → s.shard ≡ shard → s.started ≡ started.now.groups → lists_of s ≡ kept_in parts.old
        → IsTaught s parts.old.table.decided news.items (tried_of parts.new (ListsCome l))) }
    ensures tried { IfOk result (AreListsTried parts.new) }
    ensures from { IfOk result (λ l. kept_in (unlearnt parts.new l) ≡ kept_in parts.old) }
    ensures left { IfOk result (λ l. IsNoneLeft (groups_without l.over.items started.now.groups) (after parts.new (ListsCome l)).lists) }
    ensures decided { parts.new.table.decided ≡ parts.old.table.decided }
    ensures kept { OnErr result (kept_in parts.new ≡ kept_in parts.old) }
    ensures sound { OnErr result (AreConsistent parts.new) }
{
    let named = learn(alloc, shard, parts, started, &news)?;
    match find_with_room(alloc, parts, started, &named) {
        Ok((found, over)) => Ok(Lesson { news, found, over }),
        Err(fault) => {
            parts.table.unlearn(&news);
            Err(fault)
        }
    }
}

// What comes of a settled transaction is found.
pub(crate) fn prepare_settled(
    alloc: Global,
    parts: &mut ListParts,
    id: TxnId,
    mark: u32,
) -> Result<Settling, NoMemory>
    requires sound { AreConsistent parts.old }
    ensures settled { IfOk result (λ f. (s : ServerState) → lists_of s ≡ kept_in parts.old → IsSettledBy s parts.old.table.decided id mark (tried_of parts.new (SettledComes f))) }
    ensures tried { IfOk result (IsSettledTried parts.new) }
    ensures left { IfOk result (λ f. (started : List Group) → IsNoneLeft started (kept_in parts.old).lists
        → IsNoneLeft (groups_without f.over.items started) (after parts.new (SettledComes f)).lists) }
    ensures same { kept_in parts.new ≡ kept_in parts.old }
    ensures decided { parts.new.table.decided ≡ parts.old.table.decided }
    ensures sound { AreConsistent parts.new }
{
    let settling = find_settled(alloc, parts, id, mark)?;
    parts.taken.reserve(settling.components.len())?;
    Ok(settling)
}

// What comes of a watermark is found.
pub(crate) fn prepare_heard(
    alloc: Global,
    parts: &ListParts,
    coord: u16,
    mark: u32,
) -> Result<Heard, NoMemory>
    requires sound { AreConsistent parts.now }
    ensures heard { IfOk result (λ h. (s : ServerState) → lists_of s ≡ kept_in parts.now → IsHeard s coord mark (tried_of parts.now (MarksRise h))) }
    ensures tried { IfOk result (AreMarksTried parts.now) }
    ensures left { IfOk result (λ h. (started : List Group) → IsNoneLeft started (kept_in parts.now).lists → IsNoneLeft (groups_without h.over.items started) (after parts.now (MarksRise h)).lists) }
{
    let marks = parts.marks.raised(coord, mark);
    let over = over_among(alloc, &marks, &parts.taken, &[])?;
    Ok(Heard { marks, over })
}
