//! What holds of all files, each the contract of a function that does nothing.
ghost use Rattle.std.specs.Prelude.{◌≡◌, ◌⊎◌, ℕ, List, [], Option, length};
ghost use Rattle.roc_base.specs.declared.node.Shard.{Shard};
ghost use Rattle.roc_plan.specs.Groups.{Plan};
ghost use Rattle.roc_wire.specs.Reading.{IsBytes};
ghost use Rattle.roc_step.specs.State.{ServerState, Viewing};
ghost use Rattle.roc_kept.specs.declared.keeper.Keeper.{Keeper};
ghost use Rattle.roc_kept.specs.Kept.{IsKeptOn, Recovers, StopsRecover};
ghost use Rattle.roc_kept.specs.Laws.{HaveOutcomes, IsRecovered, HasRefusal};
ghost use Rattle.roc_kept.specs.Opening.{IsRefusedAt};

use roc_disk::Disk;
use roc_journal::laws::{journal_or_fault, journals_are_unique};
use roc_step::laws::{kept_fold_is_one, step_is_one};
use roc_wire::laws::spelled_apart;

/// A stop leaves of a server that is kept a file that recovers its state, kept reads aside.
pub fn stops_recover<D: Disk>()
    ensures { (now : D) (plan : Plan) (name tag : List ℕ) (s : ServerState) (v : Viewing) (keeper : Option Keeper) → IsKeptOn D.Disk now plan name tag s v keeper
        → StopsRecover D.Disk now plan name tag s v }
{}

/// A file recovers at most one server: one state, and one count of writes of each cell.
pub fn recovered_is_one()
    ensures { (plan : Plan) (tag : List ℕ) (shard : Shard) (bytes : List ℕ) (s t : ServerState) (v u : Viewing) → Recovers plan tag shard bytes s v → Recovers plan tag shard bytes t u
        → (s ≡ t) × (v.versions ≡ u.versions) }
{
    journals_are_unique();
    kept_fold_is_one();
}

/// Each file is empty, or recovers a server, or is refused at a place, and never two of these; and at one place alone. That something comes of
/// each message, whatever a server keeps, is a law of all nodes.
pub fn opened_or_refused()
    ensures each { (plan : Plan) (tag : List ℕ) (shard : Shard) (bytes : List ℕ) → length tag ≡ 8 → IsBytes bytes → HaveOutcomes plan
        → (bytes ≡ []) ⊎ (IsRecovered plan tag shard bytes ⊎ HasRefusal plan tag shard bytes) }
    ensures not_empty { (plan : Plan) (tag : List ℕ) (shard : Shard) (s : ServerState) (v : Viewing) → Recovers plan tag shard [] s v → ⊥ }
    ensures empty_taken { (plan : Plan) (tag : List ℕ) (shard : Shard) (at : ℕ) → IsRefusedAt plan tag shard [] at → ⊥ }
    ensures apart { (plan : Plan) (tag : List ℕ) (shard : Shard) (bytes : List ℕ) (s : ServerState) (v : Viewing) (at : ℕ) → length tag ≡ 8
        → Recovers plan tag shard bytes s v → IsRefusedAt plan tag shard bytes at → ⊥ }
    ensures one { (plan : Plan) (tag : List ℕ) (shard : Shard) (bytes : List ℕ) (at other : ℕ) → length tag ≡ 8
        → IsRefusedAt plan tag shard bytes at → IsRefusedAt plan tag shard bytes other → at ≡ other }
{
    spelled_apart();
    journal_or_fault();
    kept_fold_is_one();
    step_is_one();
}
