//! What holds in every world of every run of two files, of what is told and of what the servers hold: the headline is [`witness_is_serial`]. An id is of the
//! file of its coordinator as it was submitted ([`second_is_switched`]).
ghost use Rattle.std.specs.Prelude.{◌≡◌, ◌≢◌, ◌⊎◌, ◌<◌, ℕ, ℤ, pos, true, false, List, Option, Some, slice_get};
ghost use Rattle.roc_sequence.specs.Lists.{Has};
ghost use Rattle.roc_sequence.specs.Places.{IsListed, IsListedBefore};
ghost use Rattle.roc_base.specs.declared.id.TxnId.{TxnId};
ghost use Rattle.roc_base.specs.declared.node.Shard.{Shard};
ghost use Rattle.roc_base.specs.TxnId.{is_txn};
ghost use Rattle.roc_rows.specs.declared.cell.Cell.{Cell};
ghost use Rattle.roc_rows.specs.Store.{read};
ghost use Rattle.roc_plan.specs.Groups.{Plan, is_view_of, shard_of};
ghost use Rattle.roc_plan.specs.Accepted.{IsAccepted};
ghost use Rattle.roc_whole.specs.Serial.{serial_store, start_store};
ghost use Rattle.roc_audit.specs.declared.entry.Entry.TheVariants.{Submitted};
ghost use Rattle.roc_audit.specs.History.{WasSubmitted, WasAnswered, IsToldOnce};
ghost use Rattle.roc_audit.specs.Witness.{submitted_calls, IsSerialWitness};
ghost use Rattle.roc_epoch.specs.declared.next.Next.{Next};
ghost use Rattle.roc_epoch.specs.Files.{last_plan, IsNextOf};
ghost use Rattle.roc_two_files.specs.Filed.{IsFiledWitness};
ghost use Rattle.roc_grown.specs.Server.{GrownServerState};
ghost use Rattle.roc_grown.specs.Coord.{GrownCoordState};
ghost use Rattle.roc_growth.specs.World.{GrownWorld, is_second};
ghost use Rattle.roc_growth.specs.Run.{Stepped, IsGrownRun};
ghost use Rattle.roc_growth.specs.Witness.{witness_of, IsSubmissionAt};

use crate::both::both_runs;
use crate::epochs::grown_runs_are_two;
use roc_law_world::beginnings::{
    cells_are_in_their_place as cells_of_one_are_in_their_place,
    cells_are_serial as cells_of_one_are_serial, looks_fit,
    submissions_are_kept as submissions_of_one_are_kept,
    witness_is_serial as witness_of_one_is_serial,
};
use roc_two_files::drained::begun_nodes_are_renewed;
use roc_two_files::epochs::{epochs_are_serial, epochs_stand_apart};

/// In every world the order of the transactions, with each answered view put in where it looked last, explains the whole history, each id run by the program of
/// its own file; and so it does where all run by that of the last file.
pub fn witness_is_serial()
    ensures filed { (plan : Plan) (next : Option Next) (coords : ℕ) (steps : List Stepped) (w : GrownWorld) → IsAccepted plan → IsNextOf plan next → IsGrownRun plan next coords steps w
        → IsFiledWitness plan.program (last_plan plan next).program (is_second w) (start_store plan.program) w.history (witness_of w) }
    ensures plain { (plan : Plan) (next : Option Next) (coords : ℕ) (steps : List Stepped) (w : GrownWorld) → IsAccepted plan → IsNextOf plan next → IsGrownRun plan next coords steps w
        → IsSerialWitness (last_plan plan next).program w.history (witness_of w) }
{
    both_runs();
    witness_of_one_is_serial();
    epochs_are_serial();
}

/// No id of the second file stands in that order before one of the first.
pub fn files_stay_apart()
    ensures { (plan : Plan) (next : Option Next) (coords : ℕ) (steps : List Stepped) (w : GrownWorld) → IsAccepted plan → IsNextOf plan next → IsGrownRun plan next coords steps w
        → (u t : TxnId) → IsListed is_txn (witness_of w) t → IsListedBefore is_txn (witness_of w) u t → is_second w u ≡ true → is_second w t ≡ true }
{
    both_runs();
    witness_of_one_is_serial();
    epochs_are_serial();
    epochs_stand_apart();
}

/// Each submitted id has the step that submitted it, and is of the second file just where that step found its coordinator switched.
pub fn second_is_switched()
    ensures step { (plan : Plan) (next : Option Next) (coords : ℕ) (steps : List Stepped) (w : GrownWorld) → IsAccepted plan → IsNextOf plan next → IsGrownRun plan next coords steps w
        → (t : TxnId) → WasSubmitted w.history t → (c : GrownCoordState) × IsSubmissionAt plan next coords steps t c }
    ensures file { (plan : Plan) (next : Option Next) (coords : ℕ) (steps : List Stepped) (w : GrownWorld) → IsAccepted plan → IsNextOf plan next → IsGrownRun plan next coords steps w
        → (t : TxnId) (c : GrownCoordState) → IsSubmissionAt plan next coords steps t c → is_second w t ≡ c.switched }
{
    grown_runs_are_two();
}

/// Of the submissions in the history no two have one id; and an id has at most one answer, which stands behind its submission.
pub fn ids_are_told_once()
    ensures { (plan : Plan) (next : Option Next) (coords : ℕ) (steps : List Stepped) (w : GrownWorld) → IsAccepted plan → IsNextOf plan next → IsGrownRun plan next coords steps w
        → IsToldOnce w.history }
{
    both_runs();
}

/// Each transaction or view that was submitted is unanswered at its coordinator or was answered, and none is both. Each sequence below a coordinator's next one is
/// that of a submission, also where it was used before the coordinator switched.
pub fn submissions_are_kept()
    ensures used { (plan : Plan) (next : Option Next) (coords : ℕ) (steps : List Stepped) (w : GrownWorld) → IsAccepted plan → IsNextOf plan next → IsGrownRun plan next coords steps w
        → (coord seq : ℕ) (c : GrownCoordState) → slice_get w.coords coord ≡ Some c → seq < c.core.next → WasSubmitted w.history (record { coord = coord; seq = seq }) }
    ensures submitted { (plan : Plan) (next : Option Next) (coords : ℕ) (steps : List Stepped) (w : GrownWorld) → IsAccepted plan → IsNextOf plan next → IsGrownRun plan next coords steps w
        → (t : TxnId) → WasSubmitted w.history t
        → (c : GrownCoordState) × (slice_get w.coords t.coord ≡ Some c) × (Has t c.core.unanswered ⊎ ((reply : List ℤ) × WasAnswered w.history t reply)) }
    ensures gone { (plan : Plan) (next : Option Next) (coords : ℕ) (steps : List Stepped) (w : GrownWorld) → IsAccepted plan → IsNextOf plan next → IsGrownRun plan next coords steps w
        → (t : TxnId) (reply : List ℤ) → WasAnswered w.history t reply → (n : ℕ) (c : GrownCoordState) → slice_get w.coords n ≡ Some c → ¬ Has t c.core.unanswered }
{
    both_runs();
    submissions_of_one_are_kept();
}

/// Where each submitted transaction is answered, the servers hold what the witness leaves. Views need not be answered, and servers may be of either file.
pub fn cells_are_serial()
    ensures { (plan : Plan) (next : Option Next) (coords : ℕ) (steps : List Stepped) (w : GrownWorld) → IsAccepted plan → IsNextOf plan next → IsGrownRun plan next coords steps w
        → ((t : TxnId) (proc : ℕ) (args : List ℤ) → Has (Submitted t proc args) w.history → is_view_of (last_plan plan next) proc ≡ false → (reply : List ℤ) × WasAnswered w.history t reply)
        → (x : Cell) (s : GrownServerState) → slice_get w.servers (shard_of (last_plan plan next) x.place) ≡ Some s
        → read s.core.store x
        ≡ read (serial_store (last_plan plan next).program (start_store (last_plan plan next).program) (submitted_calls w.history (witness_of w))) x }
{
    both_runs();
    begun_nodes_are_renewed();
    looks_fit();
    witness_of_one_is_serial();
    cells_of_one_are_serial();
}

/// Each shard has its server, which holds no cell of another shard: each is 0 there.
pub fn cells_are_in_their_place()
    ensures servers { (plan : Plan) (next : Option Next) (coords : ℕ) (steps : List Stepped) (w : GrownWorld) → IsAccepted plan → IsNextOf plan next → IsGrownRun plan next coords steps w
        → (n : ℕ) → n < (last_plan plan next).program.shards → (s : GrownServerState) × (slice_get w.servers n ≡ Some s) }
    ensures apart { (plan : Plan) (next : Option Next) (coords : ℕ) (steps : List Stepped) (w : GrownWorld) → IsAccepted plan → IsNextOf plan next → IsGrownRun plan next coords steps w
        → (shard : Shard) (s : GrownServerState) → slice_get w.servers shard.0 ≡ Some s → (x : Cell) → shard_of (last_plan plan next) x.place ≢ shard.0 → read s.core.store x ≡ pos 0 }
{
    both_runs();
    cells_of_one_are_in_their_place();
}
