//! Accepted plans from any beginning of a run: their schemes have what every law of `roc_law_protocol::beginnings` asks for, whatever the cells
//! hold there.
ghost use Rattle.std.specs.Prelude.{◌≡◌, ℕ, ℤ, List, map};
ghost use Rattle.roc_sequence.specs.Places.{IsListed, NoneTwice};
ghost use Rattle.roc_base.specs.declared.id.TxnId.{TxnId};
ghost use Rattle.roc_base.specs.TxnId.{is_txn};
ghost use Rattle.roc_rows.specs.Store.{Store};
ghost use Rattle.roc_plan.specs.Groups.{Plan};
ghost use Rattle.roc_plan.specs.Accepted.{IsAccepted};
ghost use Rattle.roc_whole.specs.Serial as whole;
ghost use Rattle.roc_law_orders.specs.Runs.{stage_behind};
ghost use Rattle.roc_law_orders.specs.Orders.{one_by_one};
ghost use Rattle.roc_law_protocol.specs.PlanAssumptions.{HasSchemesFrom, IsWholeReplyFrom};
ghost use Rattle.roc_law_plans.specs.Scheme.{scheme_of, AreOrders, AreCalls};

use crate::laws::{schemes_are_of_their_plan, schemes_are_sound};
use roc_law_groups::laws::groups_in_turn_are_the_whole_run;
use roc_plan::laws::groups_can_run_in_turn;

/// Transactions one by one are whole procedures from any store on: each transaction's groups give, at their places, the reply of the serial
/// run from there, and all leave the store that the serial run leaves.
pub fn transactions_from_any_store_are_whole()
    ensures replies { (plan : Plan) (start : Store) (orders : ℕ → List ℕ) (asked : TxnId → whole.Call) → IsAccepted plan → AreOrders plan orders → AreCalls plan asked
        → (order : List TxnId) → NoneTwice is_txn order → ((t : TxnId) → IsListed is_txn order t → (asked t).id ≡ t)
        → (t : TxnId) → IsListed is_txn order t → (reply : List ℤ) × IsWholeReplyFrom plan start asked (scheme_of plan orders asked) order t reply }
    ensures stores { (plan : Plan) (start : Store) (orders : ℕ → List ℕ) (asked : TxnId → whole.Call) → IsAccepted plan → AreOrders plan orders → AreCalls plan asked
        → (order : List TxnId)
        → (stage_behind (scheme_of plan orders asked).behaviour start (one_by_one (scheme_of plan orders asked).behaviour order)).store
        ≡ whole.serial_store plan.program start (map asked order) }
{
    groups_in_turn_are_the_whole_run();
}

/// Every accepted plan has schemes from any store, so that each law of `roc_law_protocol::beginnings` holds of it.
pub fn accepted_plans_have_schemes_from_any_store()
    ensures { (plan : Plan) (start : Store) → IsAccepted plan → HasSchemesFrom plan start }
{
    groups_can_run_in_turn();
    schemes_are_sound();
    schemes_are_of_their_plan();
    transactions_from_any_store_are_whole();
}
