//! Laws of the schemes of accepted plans, each the contract of a function that does nothing.
ghost use Rattle.std.specs.Prelude.{◌≡◌, ℕ, true, List};
ghost use Rattle.roc_base.specs.declared.id.TxnId.{TxnId};
ghost use Rattle.roc_whole.specs.Serial as whole;
ghost use Rattle.roc_plan.specs.Groups.{Plan, is_view_of};
ghost use Rattle.roc_plan.specs.Accepted.{IsAccepted};
ghost use Rattle.roc_law_log.specs.Scheme.{Scheme, IsSoundScheme};
ghost use Rattle.roc_law_protocol.specs.PlanAssumptions.{IsSchemeOf};
ghost use Rattle.roc_law_plans.specs.Scheme.{scheme_of, AreOrders, AreCalls};
ghost use Rattle.roc_law_plans.specs.SmallPlans.{smallest, observed};

use roc_group::laws::{
    cells_are_at_the_place, cells_follow_from_what_is_given, conflicts_are_static,
    runs_follow_from_cells, views_read_alone,
};
use roc_plan::laws::{
    groups_can_run_in_turn, groups_have_the_class_of_their_pieces, groups_meet_their_own_class,
    inputs_come_from_immediate_groups,
};

/// The scheme of an accepted plan is sound.
pub fn schemes_are_sound()
    ensures { (plan : Plan) (orders : ℕ → List ℕ) (asked : TxnId → whole.Call) → IsAccepted plan → AreOrders plan orders → AreCalls plan asked
        → IsSoundScheme (scheme_of plan orders asked) }
{
    runs_follow_from_cells();
    conflicts_are_static();
    cells_are_at_the_place();
    cells_follow_from_what_is_given();
    groups_meet_their_own_class();
}

/// It does what the plan's groups do.
pub fn schemes_are_of_their_plan()
    ensures { (plan : Plan) (orders : ℕ → List ℕ) (asked : TxnId → whole.Call) → IsAccepted plan → AreOrders plan orders → AreCalls plan asked
        → IsSchemeOf plan asked (scheme_of plan orders asked) }
{
    groups_have_the_class_of_their_pieces();
    inputs_come_from_immediate_groups();
}

/// Where all that is called only reads there is a sound scheme too, which does what the plan's groups do.
pub fn views_have_schemes()
    ensures { (plan : Plan) (asked : TxnId → whole.Call) → IsAccepted plan → ((t : TxnId) → is_view_of plan (asked t).procedure ≡ true)
        → (S : Scheme) × IsSchemeOf plan asked S × IsSoundScheme S }
{
    groups_can_run_in_turn();
    groups_have_the_class_of_their_pieces();
    inputs_come_from_immediate_groups();
    runs_follow_from_cells();
    conflicts_are_static();
    cells_are_at_the_place();
    cells_follow_from_what_is_given();
    groups_meet_their_own_class();
    views_read_alone();
}

/// There are accepted plans: one that only replies, and one with a view.
pub fn small_plans_are_accepted()
    ensures smallest { IsAccepted smallest }
    ensures observed { IsAccepted observed }
{}
