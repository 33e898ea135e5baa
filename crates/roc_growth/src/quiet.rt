//! Who has an answer once its messages were delivered, in a world of two files.
ghost use Rattle.std.specs.Prelude.{◌≡◌, ℕ, ℤ, true, false, List, Option, Some, slice_get};
ghost use Rattle.roc_sequence.specs.Lists.{Has};
ghost use Rattle.roc_base.specs.declared.id.TxnId.{TxnId};
ghost use Rattle.roc_base.specs.declared.node.Shard.{Shard};
ghost use Rattle.roc_depgraph.specs.Deps.{IsDecided};
ghost use Rattle.roc_plan.specs.Groups.{Plan, is_view_of};
ghost use Rattle.roc_plan.specs.Accepted.{IsAccepted};
ghost use Rattle.roc_step.specs.declared.started.StartedGroup.{StartedGroup};
ghost use Rattle.roc_audit.specs.declared.entry.Entry.TheVariants.{Submitted, Answered};
ghost use Rattle.roc_law_protocol.specs.Quiet as transactions;
ghost use Rattle.roc_epoch.specs.declared.next.Next.{Next};
ghost use Rattle.roc_epoch.specs.Files.{last_plan, IsNextOf};
ghost use Rattle.roc_grown.specs.Server.{GrownServerState};
ghost use Rattle.roc_growth.specs.World.{GrownWorld};
ghost use Rattle.roc_growth.specs.Run.{Stepped, IsGrownRun};
ghost use Rattle.roc_growth.specs.Quiet.{messages_of, AreDelivered, IsQuiet, IsInLastRound};

use crate::both::both_runs;
use roc_law_world::beginnings::{
    nothing_is_refused as nothing_of_one_is_refused,
    quiet_transactions_are_answered as quiet_transactions_of_one_are_answered,
    quiet_views_are_answered as quiet_views_of_one_are_answered,
};
use roc_law_world::beside::answered_is_decided;
use roc_two_files::drained::answers_go_home;

/// A submitted transaction has its reply where of every message of it, and of each from which a chain of startoks in the network leads to it, a delivery counts,
/// whatever views there are; and it is decided wherever it has a group. It is of either file.
pub fn quiet_transactions_are_answered()
    ensures answered { (plan : Plan) (next : Option Next) (coords : ℕ) (steps : List Stepped) (w : GrownWorld) → IsAccepted plan → IsNextOf plan next → IsGrownRun plan next coords steps w
        → (t : TxnId) (proc : ℕ) (args : List ℤ) → Has (Submitted t proc args) w.history → is_view_of (last_plan plan next) proc ≡ false
        → AreDelivered (transactions.PrecedesIn (messages_of w.sent)) steps w t → (reply : List ℤ) × Has (Answered t reply) w.history }
    ensures decided { (plan : Plan) (next : Option Next) (coords : ℕ) (steps : List Stepped) (w : GrownWorld) → IsAccepted plan → IsNextOf plan next → IsGrownRun plan next coords steps w
        → (t : TxnId) (proc : ℕ) (args : List ℤ) → Has (Submitted t proc args) w.history → is_view_of (last_plan plan next) proc ≡ false
        → AreDelivered (transactions.PrecedesIn (messages_of w.sent)) steps w t
        → (shard : Shard) (s : GrownServerState) → slice_get w.servers shard.0 ≡ Some s → (e : StartedGroup) → Has e s.core.started → e.id ≡ t → IsDecided s.core.lists.links t }
{
    both_runs();
    answers_go_home();
    nothing_of_one_is_refused();
    answered_is_decided();
    quiet_transactions_of_one_are_answered();
}

/// A submitted view that is quiet has its reply, but in its last round. It is of either file.
pub fn quiet_views_are_answered()
    ensures { (plan : Plan) (next : Option Next) (coords : ℕ) (steps : List Stepped) (w : GrownWorld) → IsAccepted plan → IsNextOf plan next → IsGrownRun plan next coords steps w
        → (t : TxnId) (proc : ℕ) (args : List ℤ) → Has (Submitted t proc args) w.history → is_view_of (last_plan plan next) proc ≡ true
        → IsQuiet plan next steps w t → ¬ IsInLastRound w t → (reply : List ℤ) × Has (Answered t reply) w.history }
{
    both_runs();
    answers_go_home();
    nothing_of_one_is_refused();
    quiet_views_of_one_are_answered();
}
