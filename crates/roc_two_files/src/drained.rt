//! Worlds in which nothing is unanswered, and what each submission and each answer of a run is of, whatever it began with.
ghost use Rattle.std.specs.Prelude.{◌≡◌, ◌<◌, ◌-◌, ◌++◌, ℕ, ℤ, false, List, [], Option, Some, length, map, slice_get};
ghost use Rattle.roc_sequence.specs.Lists.{Has};
ghost use Rattle.roc_base.specs.declared.id.TxnId.{TxnId};
ghost use Rattle.roc_base.specs.declared.node.Node.{Node};
ghost use Rattle.roc_base.specs.declared.node.Node.TheVariants as node;
ghost use Rattle.roc_plan.specs.Groups.{Plan, procedure_of};
ghost use Rattle.roc_plan.specs.Accepted.{IsAccepted};
ghost use Rattle.roc_msg.specs.declared.msg.Envelope.{Envelope};
ghost use Rattle.roc_msg.specs.declared.outbox.Outgoing.{Outgoing};
ghost use Rattle.roc_msg.specs.declared.reason.Reason.{Reason};
ghost use Rattle.roc_step.specs.Renewed.{renewed, renewed_viewing};
ghost use Rattle.roc_coord.specs.State.{CoordState};
ghost use Rattle.roc_coord.specs.Renewed.{renewed_coord};
ghost use Rattle.roc_coord.specs.Marks.{ended_sends};
ghost use Rattle.roc_audit.specs.declared.entry.Entry.TheVariants.{Submitted};
ghost use Rattle.roc_law_protocol.specs.World.{sent_by};
ghost use Rattle.roc_law_protocol.specs.declared.event.Event.{Event};
ghost use Rattle.roc_law_protocol.specs.declared.event.Event.TheVariants as event;
ghost use Rattle.roc_law_protocol.specs.declared.event.Seen.TheVariants as seen;
ghost use Rattle.roc_law_world.specs.World.{World, Beginning, begun_world, mark_delivered, at_coord_tick};
ghost use Rattle.roc_law_world.specs.Beginnings.{IsViewBeginning};
ghost use Rattle.roc_law_world.specs.Happens.{Outcome, undecided, Happens};
ghost use Rattle.roc_law_world.specs.Run.{Stepped, Transition, IsRunFrom};
ghost use Rattle.roc_two_files.specs.Home.{GoesHome};
ghost use Rattle.roc_epoch.specs.Files.{is_between};
ghost use Rattle.roc_two_files.specs.Left.{AreDrained, left_behind};

use roc_group::laws::{
    cells_are_at_the_place, cells_follow_from_what_is_given, runs_follow_from_cells,
};
use roc_law_log::laws::steady_cells_are_serial;
use roc_law_orders::laws::runs_stay;
use roc_law_plans::beginnings::accepted_plans_have_schemes_from_any_store;
use roc_law_plans::laws::views_have_schemes;
use roc_law_protocol::beginnings::{answered_worlds_begin, order_is_serial};
use roc_law_protocol::laws::machine_laws;
use roc_law_world::beginnings::worlds_fit;
use roc_plan::laws::views_are_apart;

/// A world in which nothing is unanswered leaves a beginning, of its own plan and of each other one with as many shards.
pub fn drained_worlds_begin()
    ensures { (plan grown : Plan) (b : Beginning) (coords : ℕ) (steps : List Stepped) (w : World) → IsAccepted plan → IsViewBeginning plan b → IsRunFrom plan b coords steps w
        → AreDrained w.coords → grown.program.shards ≡ plan.program.shards → IsViewBeginning grown (left_behind plan b w) }
{
    accepted_plans_have_schemes_from_any_store();
    order_is_serial();
    answered_worlds_begin();
}

/// Where nothing is unanswered at a coordinator, nothing is pending there and no view is open.
pub fn drained_coordinators_keep_nothing()
    ensures { (plan : Plan) (b : Beginning) (coords : ℕ) (steps : List Stepped) (w : World) → IsRunFrom plan b coords steps w
        → (n : ℕ) (c : CoordState) → slice_get w.coords n ≡ Some c → c.unanswered ≡ [] → (c.pending ≡ []) × (c.views ≡ []) }
{}

/// Each submission of a run, of a transaction or of a view, calls a procedure that is there, with as many arguments as it has.
pub fn submissions_are_of_procedures()
    ensures { (plan : Plan) (b : Beginning) (coords : ℕ) (steps : List Stepped) (w : World) → IsRunFrom plan b coords steps w
        → (t : TxnId) (proc : ℕ) (args : List ℤ) → Has (Submitted t proc args) w.history
        → (proc < length plan.program.procedures) × (length args ≡ (procedure_of plan proc).arguments) }
{}

/// Each startok, commitok and readok in the network is of a submitted id, and goes to its coordinator. There is no drained and no switched.
pub fn answers_go_home()
    ensures { (plan : Plan) (b : Beginning) (coords : ℕ) (steps : List Stepped) (w : World) → IsAccepted plan → IsViewBeginning plan b → IsRunFrom plan b coords steps w
        → (m : Envelope) → Has m w.sent → GoesHome w.history m.msg m.to }
{
    machine_laws();
    accepted_plans_have_schemes_from_any_store();
    views_have_schemes();
    runs_stay();
    steady_cells_are_serial();
    cells_follow_from_what_is_given();
    cells_are_at_the_place();
    runs_follow_from_cells();
    views_are_apart();
}

/// No drained or switched is in the network of a run, and no step sends one.
pub fn nothing_between_is_sent()
    ensures messages { (plan : Plan) (b : Beginning) (coords : ℕ) (steps : List Stepped) (w : World) → IsAccepted plan → IsViewBeginning plan b → IsRunFrom plan b coords steps w
        → (m : Envelope) → Has m w.sent → is_between m.msg ≡ false }
    ensures steps { (plan : Plan) (b : Beginning) (coords : ℕ) (steps : List Stepped) (w : World) → IsAccepted plan → IsViewBeginning plan b → IsRunFrom plan b coords steps w
        → (e : Option Event) (o : Outcome) → Transition plan w e o
        → (from : Node) (outs : List Outgoing) → o.world.sent ≡ w.sent ++ map (sent_by from) outs → (out : Outgoing) → Has out outs → is_between out.msg ≡ false }
{
    answers_go_home();
}

/// The nodes of the world that begins at what a world left, of a plan with as many shards, are the nodes of that world, renewed: each keeps what it keeps without
/// what is under way.
pub fn begun_nodes_are_renewed()
    ensures servers { (plan grown : Plan) (b : Beginning) (coords : ℕ) (steps : List Stepped) (w : World) → 0 < plan.program.shards → IsRunFrom plan b coords steps w
        → grown.program.shards ≡ plan.program.shards → (begun_world grown (left_behind plan b w) coords).servers ≡ map renewed w.servers }
    ensures viewing { (plan grown : Plan) (b : Beginning) (coords : ℕ) (steps : List Stepped) (w : World) → 0 < plan.program.shards → IsRunFrom plan b coords steps w
        → grown.program.shards ≡ plan.program.shards → (begun_world grown (left_behind plan b w) coords).viewing ≡ map renewed_viewing w.viewing }
    ensures coords { (plan grown : Plan) (b : Beginning) (coords : ℕ) (steps : List Stepped) (w : World) → 0 < plan.program.shards → IsRunFrom plan b coords steps w
        → grown.program.shards ≡ plan.program.shards → (begun_world grown (left_behind plan b w) coords).coords ≡ map renewed_coord w.coords }
{
    worlds_fit();
}

/// Where nothing is unanswered coordinators rest. What comes to one is ignored and changes nothing but that it came, and a tick of it tells its watermark at most.
pub fn drained_coordinators_rest()
    ensures deliveries { (plan : Plan) (b : Beginning) (coords : ℕ) (steps : List Stepped) (w : World) → IsRunFrom plan b coords steps w → AreDrained w.coords
        → (k : ℕ) (m : Envelope) (n : ℕ) (o : Outcome) → slice_get w.sent (k - 1) ≡ Some m → m.to ≡ node.Coord n → Happens plan w (event.Deliver k) o
        → (why : Reason) × (o ≡ undecided (seen.Ignored why) (mark_delivered w k)) }
    ensures ticks { (plan : Plan) (b : Beginning) (coords : ℕ) (steps : List Stepped) (w : World) → IsRunFrom plan b coords steps w → AreDrained w.coords
        → (n : ℕ) (o : Outcome) → Happens plan w (event.Tick (node.Coord n)) o
        → (s : CoordState) × (slice_get w.coords n ≡ Some s) × (o ≡ undecided seen.Done (at_coord_tick w n (ended_sends plan s))) }
{}
