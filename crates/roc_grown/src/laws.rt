//! Laws of the steps of servers and coordinators that may go over to a grown workload. Each is the contract of a function that does nothing.
ghost use Rattle.std.specs.Prelude.{◌≡◌, ◌≤◌, false, ℕ, ℤ, List, Option, None, length};
ghost use Rattle.roc_base.specs.declared.id.TxnId.{TxnId};
ghost use Rattle.roc_msg.specs.declared.msg.Msg.{Msg};
ghost use Rattle.roc_plan.specs.Groups.{Plan};
ghost use Rattle.roc_epoch.specs.declared.file.File.{File};
ghost use Rattle.roc_epoch.specs.declared.file.File.TheVariants.{First};
ghost use Rattle.roc_epoch.specs.declared.next.Next.{Next};
ghost use Rattle.roc_epoch.specs.Files.{own_plan};
ghost use Rattle.roc_step.specs.Reads.{AnswersReads, ReadStep};
ghost use Rattle.roc_step.specs.State.{ServerStep};
ghost use Rattle.roc_step.specs.Step.{Handles};
ghost use Rattle.roc_coord.specs.State.{CoordState};
ghost use Rattle.roc_coord.specs.Step.{after_message};
ghost use Rattle.roc_coord.specs.Submit.{after_submit};
ghost use Rattle.roc_coord.specs.Tick.{tick_sends};
ghost use Rattle.roc_coord.specs.declared.handled.Handled.TheVariants.{Answered};
ghost use Rattle.roc_grown.specs.Server.{of_core, GrownServerState, GrownStep, GrownHandles};
ghost use Rattle.roc_grown.specs.Coord.{submitted_to_core, as_core, after_grown_submit, after_grown_message, grown_tick_sends, GrownCoordState};

/// What comes of a message at a server is one: the answer, the state after it, what is sent, what is newly decided, and what runs, in order.
pub fn grown_step_is_one()
    ensures { (plan : Plan) (next : Option Next) (s : GrownServerState) (file : File) (msg : Msg) (g other : GrownStep)
        → GrownHandles plan next s file msg g → GrownHandles plan next s file msg other → g ≡ other }
{}

/// Something comes of a message of a file, where something comes of it at a server of the plan that it runs.
pub fn grown_steps_are_there()
    ensures { (plan : Plan) (next : Option Next) (s : GrownServerState) (file : File) (msg : Msg) (r : ServerStep) (q : ReadStep)
        → Handles (own_plan plan next s.switched) s.core msg r → AnswersReads (own_plan plan next s.switched) s.viewing msg r q
        → (g : GrownStep) × GrownHandles plan next s file msg g }
{}

/// Where nothing comes next and nothing has begun of it, a message of the first file, a submission and a tick are what they are at a server and at a coordinator of the plan.
pub fn without_growth()
    ensures servers { (plan : Plan) (s : GrownServerState) (msg : Msg) (g : GrownStep) (r : ServerStep) (q : ReadStep) → s.switched ≡ false → GrownHandles plan None s First msg g
        → Handles plan s.core msg r → AnswersReads plan s.viewing msg r q → g ≡ of_core s r q }
    ensures coords { (plan : Plan) (c : GrownCoordState) (msg : Msg) → c.draining ≡ false → c.switched ≡ false → c.upto ≡ None
        → after_grown_message plan None c First msg ≡ as_core c (after_message plan c.core msg) }
    ensures submissions { (plan : Plan) (c : GrownCoordState) (proc : ℕ) (args : List ℤ) → c.draining ≡ false
        → after_grown_submit plan None c proc args ≡ submitted_to_core c (after_submit plan c.core proc args) }
    ensures ticks { (plan : Plan) (c : GrownCoordState) → c.draining ≡ false → grown_tick_sends plan None c ≡ tick_sends plan c.core }
{}

/// A coordinator's step that answers sends a message to each shard at most.
pub fn answers_send_few()
    ensures { (plan : Plan) (s : CoordState) (msg : Msg) (id : TxnId) (reply : List ℤ) → (after_message plan s msg).answer ≡ Answered id reply
        → length (after_message plan s msg).sends ≤ plan.program.shards }
{}
