//! The lists of a server, of which one step at a time is tried.
ghost use Rattle.std.specs.Prelude.{◌≡◌, [], not, filter, None, Some, OnErr, OnOk};
ghost use Rattle.roc_depgraph.specs.Deps.{is_known};
ghost use Rattle.roc_step.specs.Below.{is_ended, mark_of};
ghost use Rattle.roc_step.specs.Learning.{AreLearnable};
ghost use Rattle.roc_step.specs.State.{ServerState};
ghost use Rattle.roc_step.specs.Waits.{was_asked_for};
ghost use Rattle.roc_server_groups.specs.GroupsNow.{groups_without};
ghost use Rattle.roc_server_lists.specs.ListsNow.{asks_of, lists_behind, lists_of, newly_of, no_lists, none_kept, over_of, with_one_asking};
ghost use Rattle.roc_server_lists.specs.ListsNow.{AreSound, IsHeard, IsNoneLeft, IsSettledBy, IsTaught, IsTried, LeavesNone};

use crate::missing::was_asked_for;
use crate::parts::{ListParts, none};
use crate::trial::{Trial, asks_of, newly_of, over_of};
use crate::trying::{ask, hear, release, renew, roll_back, settle, teach};
use roc_await::{Asker, OpenFetch, Waits};
use roc_base::{NoMemory, Shard, TxnId};
use roc_depgraph::KnownList;
use roc_server_groups::StartedGroups;
use roc_server_table::ListTable;
use std::alloc::Global;
use std::marker::Model;

/// The dependency lists that a server knows, what it follows of them, what it asked for and who asked it, the components that it has taken, and the
/// watermarks of coordinators. A step is tried by one call and then released or rolled back, which takes no memory and cannot fail. Until then
/// what was kept before stays to be seen.
#[derive(Drop)]
pub struct ServerLists {
    alloc: Global,
    parts: ListParts,
    trial: Option<Trial>,
}

impl Model for ServerLists {
    ghost use Rattle.roc_server_lists.specs.ListsNow.{ListsNow};
    ghost use Rattle.roc_server_lists.specs.Inner.Trials.{lists_now, AreHeld};

    ghost Value = { ListsNow };

    ghost view = { λ l. lists_now l.parts l.trial };

    ghost invariant = { λ l. AreHeld l.parts l.trial };
}

impl ServerLists {
    /// No lists, and no watermark. Takes no memory.
    pub fn new(alloc: Global) -> ServerLists
        ensures kept { result.kept ≡ none_kept }
        ensures decided { result.decided ≡ [] }
        ensures tried { result.tried ≡ None }
        ensures sound { AreSound result }
    {
        ServerLists {
            alloc,
            parts: none(alloc),
            trial: None,
        }
    }

    /// The table of the lists. What is decided it says as it was before the step. Of what it knows and follows something is said only where nothing is tried.
    pub fn table(&self) -> &ListTable
        ensures decided { result.now.decided ≡ self.now.decided }
        ensures known { self.now.tried ≡ None → result.now.known ≡ self.now.kept.lists.known }
        ensures links { self.now.tried ≡ None → result.now.links ≡ self.now.kept.lists.links }
    {
        &self.parts.table
    }

    /// What was asked for before the step and who asked, with what is open of it.
    pub fn waits(&self) -> &Waits
        ensures waiting { result.now.waiting ≡ self.now.kept.lists.waiting }
        ensures open { result.now.fetches ≡ filter (λ a. not (is_known self.now.kept.lists.known a.id)) self.now.kept.lists.waiting.asked }
    {
        &self.parts.waits
    }

    /// Whether the list of a transaction was asked for before the step, whether it was taken since or not. Takes no memory.
    pub fn was_asked_for(&self, id: TxnId) -> bool
        ensures { result ≡ was_asked_for id self.now.kept.lists.waiting.asked }
    {
        was_asked_for(&self.parts.waits, id)
    }

    /// Whether a transaction is below its coordinator's watermark, as that was before the step. Takes no memory.
    pub fn is_ended(&self, id: TxnId) -> bool
        ensures { result ≡ is_ended self.now.kept.below id }
    {
        self.parts.marks.is_ended(id)
    }

    /// The watermark of a coordinator before the step, 0 where none was heard. Takes no memory.
    pub fn mark_of(&self, coord: u16) -> u32
        ensures { result ≡ mark_of self.now.kept.below coord }
    {
        self.parts.marks.of(coord)
    }

    /// What the step newly decides, one component after another as they are taken.
    pub fn newly(&self) -> &[TxnId]
        ensures { result.now ≡ newly_of self.now.tried }
    {
        newly_of(&self.trial)
    }

    /// What the step asks for, by id.
    pub fn asks(&self) -> &[OpenFetch]
        ensures { result.now ≡ asks_of self.now.tried }
    {
        asks_of(&self.trial)
    }

    /// What the step forgets, by id rising.
    pub fn over(&self) -> &[TxnId]
        ensures { result.now ≡ over_of self.now.tried }
    {
        over_of(&self.trial)
    }

    /// Tries that a shard waits for a list. `NoMemory` leaves what was kept, and then nothing is tried.
    pub fn ask(&mut self, asker: Asker) -> Result<(), NoMemory>
        requires untried { self.old.tried ≡ None }
        ensures ok { OnOk result (self.new.tried ≡ Some (record { kept = with_one_asking asker self.old.kept; newly = []; asks = []; over = [] })) }
        ensures left { OnOk result (LeavesNone self.old self.new) }
        ensures none { OnErr result (self.new.tried ≡ None) }
        ensures kept { self.new.kept ≡ self.old.kept }
        ensures decided { self.new.decided ≡ self.old.decided }
        ensures sound { AreSound self.new }
    {
        ask(&mut self.parts, &mut self.trial, asker)
    }

    /// Tries that a watermark is heard. `NoMemory` leaves what was kept, and then nothing is tried.
    pub fn hear(&mut self, coord: u16, mark: u32) -> Result<(), NoMemory>
        requires untried { self.old.tried ≡ None }
        ensures ok { OnOk result ((s : ServerState) → lists_of s ≡ self.old.kept → IsTried (IsHeard s coord mark) self.new.tried) }
        ensures left { OnOk result (LeavesNone self.old self.new) }
        ensures none { OnErr result (self.new.tried ≡ None) }
        ensures kept { self.new.kept ≡ self.old.kept }
        ensures decided { self.new.decided ≡ self.old.decided }
        ensures sound { AreSound self.new }
    {
        hear(self.alloc, &mut self.parts, &mut self.trial, coord, mark)
    }

    /// Tries that lists are taught, of transactions of which none is known, on the server of this shard where these groups started. `NoMemory` leaves what was
    /// kept, and then nothing is tried.
    pub fn teach(
        &mut self,
        shard: Shard,
        started: &StartedGroups,
        news: Vec<KnownList>,
    ) -> Result<(), NoMemory>
        requires untried { self.old.tried ≡ None }
        requires learnable { AreLearnable self.old.kept.lists.known news.items }
        requires left { IsNoneLeft started.now.groups self.old.kept.lists }
        ensures ok { OnOk result ((s : ServerState) → s.shard ≡ shard → s.started ≡ started.now.groups → lists_of s ≡ self.old.kept
            → IsTried (IsTaught s self.old.decided news.items) self.new.tried) }
        ensures left { OnOk result (IsNoneLeft (groups_without (over_of self.new.tried) started.now.groups) (lists_behind self.new).lists) }
        ensures none { OnErr result (self.new.tried ≡ None) }
        ensures kept { self.new.kept ≡ self.old.kept }
        ensures decided { self.new.decided ≡ self.old.decided }
        ensures sound { AreSound self.new }
    {
        teach(
            self.alloc,
            shard,
            &mut self.parts,
            &mut self.trial,
            started,
            news,
        )
    }

    /// Tries that a coordinator's watermark is heard, with which nobody has to wait for a transaction any more, where the watermark ends it. `NoMemory` leaves
    /// what was kept, and then nothing is tried.
    pub fn settle(&mut self, id: TxnId, mark: u32) -> Result<(), NoMemory>
        requires untried { self.old.tried ≡ None }
        ensures ok { OnOk result ((s : ServerState) → lists_of s ≡ self.old.kept → IsTried (IsSettledBy s self.old.decided id mark) self.new.tried) }
        ensures left { OnOk result (LeavesNone self.old self.new) }
        ensures none { OnErr result (self.new.tried ≡ None) }
        ensures kept { self.new.kept ≡ self.old.kept }
        ensures decided { self.new.decided ≡ self.old.decided }
        ensures sound { AreSound self.new }
    {
        settle(self.alloc, &mut self.parts, &mut self.trial, id, mark)
    }

    /// What was tried is kept, where something was. Takes no memory.
    pub fn release(&mut self)
        ensures kept { self.new.kept ≡ lists_behind self.old }
        ensures tried { self.new.tried ≡ None }
        ensures sound { AreSound self.new }
    {
        release(&mut self.parts, &mut self.trial);
    }

    /// What was tried is given up, where something was. Takes no memory.
    pub fn rollback(&mut self)
        ensures kept { self.new.kept ≡ self.old.kept }
        ensures decided { self.new.decided ≡ self.old.decided }
        ensures tried { self.new.tried ≡ None }
        ensures sound { AreSound self.new }
    {
        roll_back(&mut self.parts, &mut self.trial);
    }

    /// What was tried goes, and all that was kept but the watermarks. Takes no memory.
    pub fn renew(&mut self)
        ensures kept { self.new.kept ≡ record self.old.kept { lists = no_lists } }
        ensures decided { self.new.decided ≡ [] }
        ensures tried { self.new.tried ≡ None }
        ensures sound { AreSound self.new }
    {
        renew(self.alloc, &mut self.parts, &mut self.trial);
    }
}
