//! A run of two files is two runs of one, side by side: of the first file, up to where nothing is unanswered, and of the second from what the first left.
ghost use Rattle.std.specs.Prelude.{ℕ, List, Option};
ghost use Rattle.roc_plan.specs.Groups.{Plan};
ghost use Rattle.roc_plan.specs.Accepted.{IsAccepted};
ghost use Rattle.roc_epoch.specs.declared.next.Next.{Next};
ghost use Rattle.roc_epoch.specs.Files.{IsNextOf};
ghost use Rattle.roc_growth.specs.World.{GrownWorld};
ghost use Rattle.roc_growth.specs.Run.{Stepped, IsGrownRun};
ghost use Rattle.roc_growth.specs.Epochs.{AreEpochs};

use roc_law_world::beginnings::{first_worlds_begin, looks_fit, worlds_fit};
use roc_two_files::drained::{
    begun_nodes_are_renewed, drained_coordinators_keep_nothing, drained_worlds_begin,
    nothing_between_is_sent,
};
use roc_two_files::epochs::epochs_stand_apart;

/// Each run of two files is two runs of one, step by step: each node stands in that of its own file, each message of a file is in the network of its world,
/// and history, order and looks are the first run's with the second's behind them. Nothing happens in the second before all servers have switched,
/// and from the first switch on the first one rests.
pub fn grown_runs_are_two()
    ensures { (plan : Plan) (next : Option Next) (coords : ℕ) (steps : List Stepped) (g : GrownWorld) → IsAccepted plan → IsNextOf plan next
        → IsGrownRun plan next coords steps g → AreEpochs plan next coords steps g }
{
    first_worlds_begin();
    worlds_fit();
    looks_fit();
    drained_worlds_begin();
    drained_coordinators_keep_nothing();
    begun_nodes_are_renewed();
    nothing_between_is_sent();
    epochs_stand_apart();
}
