//! What every run is of transactions alone.
ghost use Rattle.std.specs.Prelude.{ℕ, Bool, List};
ghost use Rattle.roc_base.specs.declared.id.TxnId.{TxnId};
ghost use Rattle.roc_plan.specs.Groups.{Plan};
ghost use Rattle.roc_law_protocol.specs.World as transactions;
ghost use Rattle.roc_law_protocol.specs.Beside as their_besides;
ghost use Rattle.roc_law_protocol.specs.Run as transactions_run;
ghost use Rattle.roc_law_world.specs.World.{World, Beginning};
ghost use Rattle.roc_law_world.specs.Run.{Stepped, IsRunFrom};
ghost use Rattle.roc_law_world.specs.Beside.{AreStepsBeside, IsBeside, TellsViews};

/// Of transactions alone, each run is one of `roc_law_protocol`, in which coordinators do something aside.
pub fn runs_are_beside()
    ensures { (plan : Plan) (b : Beginning) (coords : ℕ) (is_view : TxnId → Bool) (steps : List Stepped) (w : World) → IsRunFrom plan b coords steps w
        → TellsViews plan is_view w.history
        → (others : List transactions_run.Stepped) × (t : transactions.World) × their_besides.IsRunBeside plan b.of_transactions coords others t × IsBeside is_view w t × AreStepsBeside steps others }
{}
