//! Laws of a server's steps, each the contract of a function that does nothing.
ghost use Rattle.std.specs.Prelude.{◌≡◌, List};
ghost use Rattle.roc_base.specs.declared.node.Shard.{Shard};
ghost use Rattle.roc_msg.specs.declared.msg.Msg.{Msg};
ghost use Rattle.roc_plan.specs.Groups.{Plan};
ghost use Rattle.roc_step.specs.Reads.{AnswersReads, ReadStep};
ghost use Rattle.roc_step.specs.Restarts.{without_reads, recorded, IsKeptFold, StandsFor};
ghost use Rattle.roc_step.specs.State.{ServerState, ServerStep, Viewing};
ghost use Rattle.roc_step.specs.Step.{Handles};

/// What comes of a message at a server is one: the answer, the state after it, what is sent, what
/// is newly decided, and what runs, in order.
pub fn step_is_one()
    ensures { (plan : Plan) (s : ServerState) (msg : Msg) (r other : ServerStep) → Handles plan s msg r → Handles plan s msg other → r ≡ other }
{}

/// What comes of a step for reads is one: what is kept for views then, and which answers are sent, in order.
pub fn read_step_is_one()
    ensures { (plan : Plan) (v : Viewing) (msg : Msg) (r : ServerStep) (q other : ReadStep) → AnswersReads plan v msg r q → AnswersReads plan v msg r other → q ≡ other }
{}

/// What records give is one: the state, and what is kept for views.
pub fn kept_fold_is_one()
    ensures { (plan : Plan) (shard : Shard) (msgs : List Msg) (s t : ServerState) (v u : Viewing) → IsKeptFold plan shard msgs s v → IsKeptFold plan shard msgs t u → (s ≡ t) × (v ≡ u) }
{}

/// A server that stands for its records does so behind a message too, with one record more where the message leaves one.
pub fn records_stand()
    ensures { (plan : Plan) (shard : Shard) (msgs : List Msg) (s : ServerState) (v : Viewing) (msg : Msg) (r : ServerStep) (q : ReadStep) → StandsFor plan shard msgs s v
        → Handles plan s msg r → AnswersReads plan v msg r q → StandsFor plan shard (recorded msgs msg r.answer) r.state q.viewing }
{}

/// And it does so once it has started again.
pub fn restarts_stand()
    ensures { (plan : Plan) (shard : Shard) (msgs : List Msg) (s : ServerState) (v : Viewing) → StandsFor plan shard msgs s v → StandsFor plan shard msgs s (without_reads v) }
{}
