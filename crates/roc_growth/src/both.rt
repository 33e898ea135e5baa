//! The two runs that a run of two files is.
ghost use Rattle.std.specs.Prelude.{ℕ, List, Option};
ghost use Rattle.roc_plan.specs.Groups.{Plan};
ghost use Rattle.roc_plan.specs.Accepted.{IsAccepted};
ghost use Rattle.roc_epoch.specs.declared.next.Next.{Next};
ghost use Rattle.roc_epoch.specs.Files.{IsNextOf};
ghost use Rattle.roc_growth.specs.World.{GrownWorld};
ghost use Rattle.roc_growth.specs.Run.{Stepped, IsGrownRun};
ghost use Rattle.roc_growth.specs.Inner.Both.{AreBoth};

use crate::epochs::grown_runs_are_two;
use roc_law_world::beginnings::{first_worlds_begin, worlds_fit as worlds_of_one_fit};
use roc_two_files::drained::drained_worlds_begin;

/// Where a server has switched the second run begins at a beginning.
pub(crate) fn both_runs()
    ensures { (plan : Plan) (next : Option Next) (coords : ℕ) (steps : List Stepped) (w : GrownWorld) → IsAccepted plan → IsNextOf plan next → IsGrownRun plan next coords steps w
        → AreBoth plan next coords steps w }
{
    grown_runs_are_two();
    worlds_of_one_fit();
    first_worlds_begin();
    drained_worlds_begin();
}
