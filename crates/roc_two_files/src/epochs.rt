//! Two runs of the world with views, one behind the other: of a program from any beginning, up to where nothing is unanswered, and of a grown one from what the
//! first left. A program is grown from itself too, so this is said of nodes that begin anew with the same program as well.
ghost use Rattle.std.specs.Prelude.{◌≡◌, ◌≤◌, ◌<◌, ℕ, true, false, List, ◌++◌};
ghost use Rattle.roc_sequence.specs.Places.{IsListed, IsListedBefore};
ghost use Rattle.roc_base.specs.declared.id.TxnId.{TxnId};
ghost use Rattle.roc_base.specs.TxnId.{is_txn};
ghost use Rattle.roc_plan.specs.Groups.{Plan};
ghost use Rattle.roc_plan.specs.Accepted.{IsAccepted};
ghost use Rattle.roc_audit.specs.History.{WasSubmitted};
ghost use Rattle.roc_audit.specs.Witness.{IsSerialWitness, IsSerialWitnessFrom};
ghost use Rattle.roc_law_world.specs.World.{World, Beginning, first_beginning};
ghost use Rattle.roc_law_world.specs.Beginnings.{IsViewBeginning};
ghost use Rattle.roc_law_world.specs.Run.{Stepped, IsRun, IsRunFrom};
ghost use Rattle.roc_two_files.specs.Filed.{IsFiledWitness, is_behind};
ghost use Rattle.roc_epoch.specs.Grown.{IsGrownFrom};
ghost use Rattle.roc_two_files.specs.Left.{AreDrained, left_behind};
ghost use Rattle.roc_two_files.specs.Orders.{witness_of_both};

use crate::drained::drained_worlds_begin;
use roc_law_world::beginnings::{first_worlds_begin, looks_fit, witness_is_serial};

/// What the two runs tell, one behind the other, one order explains, with each id run by the grown program: the order of the first run, and behind it that of the
/// second, with each answered view put in where it looked last.
pub fn epochs_are_serial()
    ensures from { (plan grown : Plan) (b : Beginning) (coords : ℕ) (steps more : List Stepped) (w v : World)
        → IsAccepted plan → IsAccepted grown → IsGrownFrom plan.program grown.program → IsViewBeginning plan b
        → IsRunFrom plan b coords steps w → AreDrained w.coords → IsRunFrom grown (left_behind plan b w) coords more v
        → IsSerialWitnessFrom grown.program b.of_transactions.store (w.history ++ v.history) (witness_of_both w v) }
    ensures first { (plan grown : Plan) (coords : ℕ) (steps more : List Stepped) (w v : World)
        → IsAccepted plan → IsAccepted grown → IsGrownFrom plan.program grown.program
        → IsRun plan coords steps w → AreDrained w.coords → IsRunFrom grown (left_behind plan (first_beginning plan) w) coords more v
        → IsSerialWitness grown.program (w.history ++ v.history) (witness_of_both w v) }
{
    first_worlds_begin();
    drained_worlds_begin();
    witness_is_serial();
    looks_fit();
}

/// The ids of the first run are below the sequences at which the second begins, and those of the second are not; and none of the second stands in that order before
/// one of the first.
pub fn epochs_stand_apart()
    ensures before { (plan grown : Plan) (b : Beginning) (coords : ℕ) (steps : List Stepped) (w : World) → IsRunFrom plan b coords steps w
        → (t : TxnId) → WasSubmitted w.history t → t.seq < (left_behind plan b w).of_transactions.nexts t.coord }
    ensures behind { (plan grown : Plan) (b : Beginning) (coords : ℕ) (more : List Stepped) (w v : World) → IsRunFrom grown (left_behind plan b w) coords more v
        → (t : TxnId) → WasSubmitted v.history t → (left_behind plan b w).of_transactions.nexts t.coord ≤ t.seq }
    ensures order { (plan grown : Plan) (b : Beginning) (coords : ℕ) (steps more : List Stepped) (w v : World)
        → IsAccepted plan → IsAccepted grown → IsGrownFrom plan.program grown.program → IsViewBeginning plan b
        → IsRunFrom plan b coords steps w → AreDrained w.coords → IsRunFrom grown (left_behind plan b w) coords more v
        → (u t : TxnId) → IsListed is_txn (witness_of_both w v) t → IsListedBefore is_txn (witness_of_both w v) u t → WasSubmitted v.history u → WasSubmitted v.history t }
{
    drained_worlds_begin();
    witness_is_serial();
    looks_fit();
}

/// That order explains it also with each id run by the program of its own file: those of the first run by the old one, and those of the second by the grown one.
/// By its sequence an id tells of which run it is.
pub fn epochs_are_filed()
    ensures filed { (plan grown : Plan) (b : Beginning) (coords : ℕ) (steps more : List Stepped) (w v : World)
        → IsAccepted plan → IsAccepted grown → IsGrownFrom plan.program grown.program → IsViewBeginning plan b
        → IsRunFrom plan b coords steps w → AreDrained w.coords → IsRunFrom grown (left_behind plan b w) coords more v
        → IsFiledWitness plan.program grown.program (is_behind plan b w) b.of_transactions.store (w.history ++ v.history) (witness_of_both w v) }
    ensures first { (plan grown : Plan) (b : Beginning) (coords : ℕ) (steps : List Stepped) (w : World) → IsRunFrom plan b coords steps w
        → (t : TxnId) → WasSubmitted w.history t → is_behind plan b w t ≡ false }
    ensures second { (plan grown : Plan) (b : Beginning) (coords : ℕ) (more : List Stepped) (w v : World) → IsRunFrom grown (left_behind plan b w) coords more v
        → (t : TxnId) → WasSubmitted v.history t → is_behind plan b w t ≡ true }
{
    epochs_are_serial();
    epochs_stand_apart();
}
