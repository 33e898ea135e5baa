//! What may happen in a world of two files, and that it comes to one thing; and that it is what happens in a world of one file where no other comes.
ghost use Rattle.std.specs.Prelude.{◌≡◌, ◌<◌, ℕ, List, Option, None, map};
ghost use Rattle.roc_plan.specs.Groups.{Plan};
ghost use Rattle.roc_law_world.specs.World.{World};
ghost use Rattle.roc_law_world.specs.Run as views;
ghost use Rattle.roc_epoch.specs.declared.next.Next.{Next};
ghost use Rattle.roc_epoch.specs.Files.{IsNextOf};
ghost use Rattle.roc_growth.specs.declared.event.Event.{Event};
ghost use Rattle.roc_growth.specs.World.{GrownWorld, first_grown_world};
ghost use Rattle.roc_growth.specs.Happens.{Outcome, Happens};
ghost use Rattle.roc_growth.specs.Run.{Stepped, Transition, AreCoordsOf, IsGrownRun, IsEventOf, MayHappen};
ghost use Rattle.roc_growth.specs.Fits.{FitsGrown};
ghost use Rattle.roc_growth.specs.Without.{plain_world, plain_step};

use roc_component::laws::{order_exists, order_is_one};
use roc_step::laws::{read_step_is_one, step_is_one as server_step_is_one};

/// What comes of an event in a world is one: what is seen, what is newly decided, and the world after it.
pub fn step_is_one()
    ensures { (plan : Plan) (next : Option Next) (w : GrownWorld) (e : Option Event) (o other : Outcome) → Transition plan next w e o → Transition plan next w e other → o ≡ other }
{
    server_step_is_one();
    read_step_is_one();
}

/// Of a list of events there is one run.
pub fn run_is_one()
    ensures { (plan : Plan) (next : Option Next) (coords : ℕ) (steps others : List Stepped) (w v : GrownWorld) → IsGrownRun plan next coords steps w → IsGrownRun plan next coords others v
        → map (λ s. s.event) steps ≡ map (λ s. s.event) others → (steps ≡ others) × (w ≡ v) }
{
    server_step_is_one();
    read_step_is_one();
}

/// The first world of a plan with some shard fits it, what comes of an event in a world that fits is one that does, and so each world of a run fits.
pub fn grown_worlds_fit()
    ensures first { (plan : Plan) (next : Option Next) (coords : ℕ) → 0 < plan.program.shards → AreCoordsOf next coords → FitsGrown plan next (first_grown_world plan coords) }
    ensures kept { (plan : Plan) (next : Option Next) (w : GrownWorld) (e : Option Event) (o : Outcome) → IsNextOf plan next → FitsGrown plan next w → Transition plan next w e o
        → FitsGrown plan next o.world }
    ensures runs { (plan : Plan) (next : Option Next) (coords : ℕ) (steps : List Stepped) (w : GrownWorld) → IsNextOf plan next → 0 < plan.program.shards
        → IsGrownRun plan next coords steps w → FitsGrown plan next w }
{}

/// Whatever may happen has an outcome, and it leads to a world that fits too. And nothing else has.
pub fn events_have_outcomes()
    ensures only { (plan : Plan) (next : Option Next) (w : GrownWorld) (e : Event) (o : Outcome) → Happens plan next w e o → IsEventOf plan next w e }
    ensures outcome { (plan : Plan) (next : Option Next) (w : GrownWorld) (e : Event) → IsNextOf plan next → FitsGrown plan next w → IsEventOf plan next w e
        → (o : Outcome) × Happens plan next w e o × FitsGrown plan next o.world }
{
    order_exists();
    order_is_one();
}

/// A list of events each of which may happen in the world that it meets has a run.
pub fn events_have_runs()
    ensures { (plan : Plan) (next : Option Next) (coords : ℕ) (events : List (Option Event)) → IsNextOf plan next → AreCoordsOf next coords → 0 < plan.program.shards
        → MayHappen plan next coords events → (steps : List Stepped) × (w : GrownWorld) × IsGrownRun plan next coords steps w × (map (λ s. s.event) steps ≡ events) }
{
    events_have_outcomes();
}

/// Where no other file comes, a run is one of `roc_law_world`, step by step: with the same nodes, network, history, order and looks, and the same was seen, decided and
/// run. So all that holds of runs there holds of it.
pub fn runs_without_growth()
    ensures { (plan : Plan) (coords : ℕ) (steps : List Stepped) (w : GrownWorld) → IsGrownRun plan None coords steps w
        → (others : List views.Stepped) × (v : World) × views.IsRun plan coords others v × (steps ≡ map plain_step others) × (w ≡ plain_world v) }
{
    order_exists();
    order_is_one();
}
