//! What may happen in the world, and that it comes to one thing.
ghost use Rattle.std.specs.Prelude.{◌≡◌, ◌↔◌, ◌++◌, ℕ, ℤ, pos, true, ◌<◌, ◌≤◌, List, [], ◌∷◌, Option, Some, length, slice_get};
ghost use Rattle.roc_base.specs.declared.id.TxnId.{TxnId};
ghost use Rattle.roc_plan.specs.Groups.{Plan, is_view_of};
ghost use Rattle.roc_plan.specs.Accepted.{IsAccepted};
ghost use Rattle.roc_audit.specs.declared.entry.Entry.TheVariants.{Submitted, Answered};
ghost use Rattle.roc_law_plans.specs.SmallPlans.{smallest, observed};
ghost use Rattle.roc_law_log.specs.Invariants.{Continues};
ghost use Rattle.roc_step.specs.Forgets.{is_over};
ghost use Rattle.roc_step.specs.State.{ServerState};
ghost use Rattle.roc_coord.specs.State.{CoordState};
ghost use Rattle.roc_coord.specs.Submit.{most_transactions, most_pending};
ghost use Rattle.roc_law_protocol.specs.declared.event.Event.{Event};
ghost use Rattle.roc_law_protocol.specs.declared.event.Event.TheVariants as event;
ghost use Rattle.roc_law_protocol.specs.declared.event.Seen.TheVariants as seen;
ghost use Rattle.roc_law_protocol.specs.Forgotten.{IsSettledIn, IsLastTaken};
ghost use Rattle.roc_law_world.specs.Bare.{bare, bare_steps};
ghost use Rattle.roc_law_world.specs.World.{World};
ghost use Rattle.roc_law_world.specs.Fits.{FitsWorld};
ghost use Rattle.roc_law_world.specs.Happens.{Outcome, Happens};
ghost use Rattle.roc_law_world.specs.Run.{Stepped, Transition, IsRun, IsEventOf};
ghost use Rattle.roc_law_world.specs.Quiet.{IsQuiet, IsInLastRound};
ghost use Rattle.roc_law_world.specs.Witness.{witness_of};

use crate::beginnings::first_worlds_begin;
use crate::beside::forgotten_is_answered;
use roc_component::laws::{order_exists, order_is_one};
use roc_law_plans::laws::small_plans_are_accepted;
use roc_step::laws::{read_step_is_one, step_is_one as server_step_is_one};

/// What comes of an event in a world is one: what is seen, what is newly decided, and the world after it.
pub fn step_is_one()
    ensures { (plan : Plan) (w : World) (e : Option Event) (o other : Outcome) → Transition plan w e o → Transition plan w e other → o ≡ other }
{
    server_step_is_one();
    read_step_is_one();
}

/// The order only grows at its end.
pub fn the_order_grows()
    ensures { (plan : Plan) (w : World) (e : Option Event) (o : Outcome) → Transition plan w e o → Continues w.order o.world.order }
{}

/// A submission is refused only as spent or busy: spent exactly where the coordinator has used as many sequences as it may, and busy exactly
/// where it has not and as many ids are unanswered as may be.
pub fn submissions_are_taken()
    ensures spent { (plan : Plan) (w : World) (coord proc : ℕ) (args : List ℤ) (c : CoordState) (o : Outcome) → slice_get w.coords coord ≡ Some c
        → Happens plan w (event.Submit coord proc args) o → (o.seen ≡ seen.Spent) ↔ (most_transactions ≤ c.next) }
    ensures busy { (plan : Plan) (w : World) (coord proc : ℕ) (args : List ℤ) (c : CoordState) (o : Outcome) → slice_get w.coords coord ≡ Some c
        → Happens plan w (event.Submit coord proc args) o → (o.seen ≡ seen.Busy) ↔ ((c.next < most_transactions) × (most_pending ≤ length c.unanswered)) }
    ensures taken { (plan : Plan) (w : World) (coord proc : ℕ) (args : List ℤ) (c : CoordState) (o : Outcome) → slice_get w.coords coord ≡ Some c
        → Happens plan w (event.Submit coord proc args) o
        → c.next < most_transactions → length c.unanswered < most_pending → o.seen ≡ seen.Submitted (record { coord = c.number; seq = c.next }) }
{}

/// Whatever may happen has an outcome, and it leads to a world that fits the plan too. And nothing else has.
pub fn events_have_outcomes()
    ensures only { (plan : Plan) (w : World) (e : Event) (o : Outcome) → Happens plan w e o → IsEventOf plan w e }
    ensures outcome { (plan : Plan) (w : World) (e : Event) → FitsWorld plan w → IsEventOf plan w e → (o : Outcome) × Happens plan w e o × FitsWorld plan o.world }
{
    order_exists();
    order_is_one();
}

/// What the laws of runs ask for can be met: the small plan is accepted, and in a run of it a transaction is submitted, is quiet, stands in the
/// order and has its reply.
pub fn a_submission_is_answered()
    ensures accepted { IsAccepted smallest }
    ensures answered { (steps : List Stepped) × (w : World) × IsRun smallest 1 steps w
        × (t : TxnId) × (w.history ≡ Submitted t 0 [] ∷ Answered t (pos 1 ∷ []) ∷ []) × (w.order ≡ t ∷ []) × IsQuiet smallest steps w t }
{
    small_plans_are_accepted();
}

/// And so can what they ask for of views, and of what is forgotten: in a run of a small plan with a view a transaction sets a cell, and the
/// view, which is quiet and not in its last round, stands behind it and has for its reply what the cell holds then. The coordinator tells its
/// watermark, by which the component that the server took is over and settled; and the transaction's start, which comes once more, is gone.
pub fn a_view_is_answered()
    ensures accepted { IsAccepted observed }
    ensures answered { (steps : List Stepped) × (w : World) × IsRun observed 1 steps w × (t : TxnId) × (v : TxnId)
        × (w.history ≡ Submitted t 0 [] ∷ Answered t [] ∷ Submitted v 1 [] ∷ Answered v (pos 1 ∷ []) ∷ []) × (witness_of w ≡ t ∷ v ∷ [])
        × (is_view_of observed 1 ≡ true) × IsQuiet observed steps w v × (¬ IsInLastRound w v)
        × (s : ServerState) × (slice_get w.servers 0 ≡ Some s) × IsLastTaken (bare_steps steps) (record { 0 = 0 }) t (t ∷ []) × (is_over s.below (t ∷ []) ≡ true) × IsSettledIn (bare w) t
        × (front : List Stepped) × (o : Outcome) × (steps ≡ front ++ (record { event = Some (event.Deliver 1); outcome = o }) ∷ []) × (o.seen ≡ seen.Gone) }
{
    small_plans_are_accepted();
    first_worlds_begin();
    forgotten_is_answered();
}
