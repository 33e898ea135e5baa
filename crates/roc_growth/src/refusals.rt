//! What nodes do not take, in a world of two files.
ghost use Rattle.std.specs.Prelude.{◌≡◌, ◌↔◌, ◌⊎◌, ◌≤◌, ◌<◌, ◌-◌, ℕ, ℤ, Bool, true, false, List, Option, Some, length, slice_get};
ghost use Rattle.roc_base.specs.declared.node.Shard.{Shard};
ghost use Rattle.roc_base.specs.declared.node.Node.TheVariants as node;
ghost use Rattle.roc_msg.specs.declared.reason.Reason.{Reason};
ghost use Rattle.roc_msg.specs.declared.reason.Reason.TheVariants as reason;
ghost use Rattle.roc_plan.specs.Groups.{Plan};
ghost use Rattle.roc_plan.specs.Accepted.{IsAccepted};
ghost use Rattle.roc_coord.specs.Submit.{most_transactions, most_pending};
ghost use Rattle.roc_epoch.specs.declared.next.Next.{Next};
ghost use Rattle.roc_epoch.specs.Files.{is_for, own_plan, IsNextOf};
ghost use Rattle.roc_two_files.specs.Sealed.{Sealed};
ghost use Rattle.roc_grown.specs.Coord.{GrownCoordState};
ghost use Rattle.roc_growth.specs.declared.event.Event.TheVariants as event;
ghost use Rattle.roc_growth.specs.declared.event.Seen.TheVariants as seen;
ghost use Rattle.roc_growth.specs.World.{GrownWorld};
ghost use Rattle.roc_growth.specs.Happens.{Outcome, Happens};
ghost use Rattle.roc_growth.specs.Run.{Stepped, IsGrownRun};
ghost use Rattle.roc_growth.specs.Receivers.{StandsAs};

use crate::both::both_runs;
use crate::worlds::runs_without_growth;
use roc_law_world::beginnings::nothing_is_refused as nothing_of_one_is_refused;
use roc_two_files::drained::nothing_between_is_sent;

/// A server takes each message that comes, or finds it too late, or skips it, and a coordinator ignores only stale ones; and a message is skipped just where it is
/// of a file that is not its receiver's own.
pub fn nothing_is_refused()
    ensures servers { (plan : Plan) (next : Option Next) (coords : ℕ) (steps : List Stepped) (w : GrownWorld) → IsAccepted plan → IsNextOf plan next → IsGrownRun plan next coords steps w
        → (k : ℕ) (m : Sealed) (shard : Shard) (o : Outcome) → slice_get w.sent (k - 1) ≡ Some m → m.message.to ≡ node.Server shard
        → Happens plan next w (event.Deliver k) o → (o.seen ≡ seen.Done) ⊎ ((o.seen ≡ seen.Gone) ⊎ (o.seen ≡ seen.Skipped)) }
    ensures coordinators { (plan : Plan) (next : Option Next) (coords : ℕ) (steps : List Stepped) (w : GrownWorld) → IsAccepted plan → IsNextOf plan next → IsGrownRun plan next coords steps w
        → (k : ℕ) (o : Outcome) (why : Reason) → Happens plan next w (event.Deliver k) o → o.seen ≡ seen.Ignored why → why ≡ reason.Stale }
    ensures skipped { (plan : Plan) (next : Option Next) (w : GrownWorld) (k : ℕ) (m : Sealed) (switched : Bool) (o : Outcome) → slice_get w.sent (k - 1) ≡ Some m → StandsAs w m.message.to switched
        → Happens plan next w (event.Deliver k) o → (o.seen ≡ seen.Skipped) ↔ (is_for switched m.file m.message.msg ≡ false) }
{
    both_runs();
    runs_without_growth();
    nothing_between_is_sent();
    nothing_of_one_is_refused();
}

/// A submission is refused by the first of these that holds: as draining where the coordinator drains; as none of a procedure where its own file has none of this
/// number; as spent where it has used as many sequences as it may; and as busy where as many ids are unanswered as may be. Else it has the next id.
pub fn submissions_are_refused()
    ensures draining { (plan : Plan) (next : Option Next) (w : GrownWorld) (coord proc : ℕ) (args : List ℤ) (c : GrownCoordState) (o : Outcome) → slice_get w.coords coord ≡ Some c
        → Happens plan next w (event.Submit coord proc args) o → (o.seen ≡ seen.Draining) ↔ (c.draining ≡ true) }
    ensures no_proc { (plan : Plan) (next : Option Next) (w : GrownWorld) (coord proc : ℕ) (args : List ℤ) (c : GrownCoordState) (o : Outcome) → slice_get w.coords coord ≡ Some c
        → Happens plan next w (event.Submit coord proc args) o
        → (o.seen ≡ seen.NoProc) ↔ ((c.draining ≡ false) × (length (own_plan plan next c.switched).program.procedures ≤ proc)) }
    ensures spent { (plan : Plan) (next : Option Next) (w : GrownWorld) (coord proc : ℕ) (args : List ℤ) (c : GrownCoordState) (o : Outcome) → slice_get w.coords coord ≡ Some c
        → Happens plan next w (event.Submit coord proc args) o
        → (o.seen ≡ seen.Spent) ↔ ((c.draining ≡ false) × (proc < length (own_plan plan next c.switched).program.procedures) × (most_transactions ≤ c.core.next)) }
    ensures busy { (plan : Plan) (next : Option Next) (w : GrownWorld) (coord proc : ℕ) (args : List ℤ) (c : GrownCoordState) (o : Outcome) → slice_get w.coords coord ≡ Some c
        → Happens plan next w (event.Submit coord proc args) o
        → (o.seen ≡ seen.Busy)
        ↔ ((c.draining ≡ false) × (proc < length (own_plan plan next c.switched).program.procedures) × (c.core.next < most_transactions) × (most_pending ≤ length c.core.unanswered)) }
    ensures taken { (plan : Plan) (next : Option Next) (w : GrownWorld) (coord proc : ℕ) (args : List ℤ) (c : GrownCoordState) (o : Outcome) → slice_get w.coords coord ≡ Some c
        → Happens plan next w (event.Submit coord proc args) o
        → c.draining ≡ false → proc < length (own_plan plan next c.switched).program.procedures → c.core.next < most_transactions → length c.core.unanswered < most_pending
        → o.seen ≡ seen.Submitted (record { coord = c.core.number; seq = c.core.next }) }
{}
