//! The law of groups, the contract of a function that does nothing.
ghost use Rattle.std.specs.Prelude.{ℕ, ℤ, ◌<◌, List, [], length};
ghost use Rattle.roc_rows.specs.Store.{Store};
ghost use Rattle.roc_plan.specs.Groups.{Plan, procedure_of};
ghost use Rattle.roc_plan.specs.Accepted.{IsAccepted};
ghost use Rattle.roc_plan.specs.Turns.{AreInTurn};
ghost use Rattle.roc_whole.specs.Run.{whole_run};
ghost use Rattle.roc_law_groups.specs.GroupsRun.{after_turns, DoAs};

/// The groups of a procedure of an accepted plan, in any order in which each stands behind those that it takes values from and the
/// deferrable ones stand by number, run on one store with nothing else between, leave the cells that the procedure's whole run leaves
/// and give its reply.
pub fn groups_in_turn_are_the_whole_run()
    ensures { (plan : Plan) (proc : ℕ) (args : List ℤ) (store : Store) (order : List ℕ)
        → IsAccepted plan → proc < length plan.program.procedures → AreInTurn plan proc order
        → DoAs plan proc (whole_run (procedure_of plan proc) args store) (after_turns plan proc args (record { store = store; given = [] }) order) }
{}
