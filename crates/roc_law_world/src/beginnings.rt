//! What holds in every world of every run with views that begins at a beginning (`specs/Beginnings.antt`): at any cells, versions, next sequences and
//! watermarks, with nothing sent, started or open. The first world is that of a beginning ([`first_worlds_begin`]).
ghost use Rattle.std.specs.Prelude.{◌≡◌, ◌≢◌, ◌⊎◌, ◌≤◌, ◌<◌, ◌-◌, ℕ, ℤ, pos, Bool, true, false, List, Option, Some, length, map, take, slice_get};
ghost use Rattle.roc_sequence.specs.Lists.{Has};
ghost use Rattle.roc_base.specs.declared.id.TxnId.{TxnId};
ghost use Rattle.roc_base.specs.declared.node.Shard.{Shard};
ghost use Rattle.roc_base.specs.declared.node.Node.TheVariants as node;
ghost use Rattle.roc_rows.specs.declared.cell.Cell.{Cell};
ghost use Rattle.roc_rows.specs.Store.{read};
ghost use Rattle.roc_plan.specs.Groups.{Plan, is_view_of, shard_of};
ghost use Rattle.roc_plan.specs.Accepted.{IsAccepted};
ghost use Rattle.roc_whole.specs.Serial.{run_of, serial_store};
ghost use Rattle.roc_depgraph.specs.Deps.{IsDecided};
ghost use Rattle.roc_msg.specs.declared.msg.Envelope.{Envelope};
ghost use Rattle.roc_msg.specs.declared.reason.Reason.{Reason};
ghost use Rattle.roc_msg.specs.declared.reason.Reason.TheVariants as reason;
ghost use Rattle.roc_step.specs.State.{ServerState};
ghost use Rattle.roc_step.specs.declared.started.StartedGroup.{StartedGroup};
ghost use Rattle.roc_coord.specs.State.{CoordState};
ghost use Rattle.roc_audit.specs.declared.entry.Entry.TheVariants.{Submitted, Answered};
ghost use Rattle.roc_audit.specs.History.{WasSubmitted, WasAnswered, IsToldOnce};
ghost use Rattle.roc_audit.specs.Witness.{submitted_calls, IsSerialWitnessFrom};
ghost use Rattle.roc_audit.specs.Woven.{Look, without_views, LeaveTheStore, AreLooks};
ghost use Rattle.roc_law_protocol.specs.declared.event.Event.{Event};
ghost use Rattle.roc_law_protocol.specs.declared.event.Event.TheVariants as event;
ghost use Rattle.roc_law_protocol.specs.declared.event.Seen.TheVariants as seen;
ghost use Rattle.roc_law_protocol.specs.Quiet as transactions;
ghost use Rattle.roc_law_world.specs.World.{World, Beginning, first_beginning, begun_world};
ghost use Rattle.roc_law_world.specs.Beginnings.{IsViewBeginning};
ghost use Rattle.roc_law_world.specs.Fits.{FitsWorld};
ghost use Rattle.roc_law_world.specs.Happens.{Outcome, Happens};
ghost use Rattle.roc_law_world.specs.Run.{Stepped, Transition, IsRunFrom, MayHappenFrom};
ghost use Rattle.roc_law_world.specs.Beside.{TellsViews};
ghost use Rattle.roc_law_world.specs.Quiet.{AreDelivered, IsQuiet, IsInLastRound};
ghost use Rattle.roc_law_world.specs.Witness.{shown, witness_of};

use crate::worlds::events_have_outcomes;
use roc_audit::laws::woven_is_a_witness;
use roc_group::laws::{
    cells_are_at_the_place, cells_follow_from_what_is_given, runs_follow_from_cells,
    views_read_alone,
};
use roc_law_groups::laws::groups_in_turn_are_the_whole_run;
use roc_law_log::laws::steady_cells_are_serial;
use roc_law_orders::laws::runs_stay;
use roc_law_plans::beginnings::accepted_plans_have_schemes_from_any_store;
use roc_law_plans::laws::views_have_schemes;
use roc_law_protocol::beginnings::{
    cells_are_in_their_place as cells_are_in_their_place_beside,
    cells_are_serial as cells_are_serial_beside, first_worlds_begin as first_worlds_begin_beside,
    nothing_is_refused as nothing_is_refused_beside, order_is_serial, quiet_is_answered,
};
use roc_law_protocol::laws::machine_laws;
use roc_plan::laws::views_are_apart;
use roc_step::laws::{read_step_is_one, step_is_one as server_step_is_one};

/// The first world is that of a beginning: so what holds of runs from any beginning holds of those from there.
pub fn first_worlds_begin()
    ensures { (plan : Plan) → IsViewBeginning plan (first_beginning plan) }
{
    first_worlds_begin_beside();
}

/// The looks of answered views fit: there are ids that the submissions tell to be of views, and beside them the order is a serial witness of what
/// the history tells of transactions, from the cells of the beginning on, each view called leaves each store as it is, and the last looks fit the
/// history and the order, each of them behind no more transactions than there are.
pub fn looks_fit()
    ensures { (plan : Plan) (b : Beginning) (coords : ℕ) (steps : List Stepped) (w : World) → IsAccepted plan → IsViewBeginning plan b → IsRunFrom plan b coords steps w
        → (is_view : TxnId → Bool) × TellsViews plan is_view w.history × LeaveTheStore plan.program is_view w.history
        × IsSerialWitnessFrom plan.program b.of_transactions.store (without_views is_view w.history) w.order
        × AreLooks plan.program b.of_transactions.store is_view w.history w.order (shown w) × ((l : Look) → Has l (shown w) → l.behind ≤ length w.order) }
{
    machine_laws();
    accepted_plans_have_schemes_from_any_store();
    views_have_schemes();
    runs_stay();
    steady_cells_are_serial();
    cells_follow_from_what_is_given();
    cells_are_at_the_place();
    runs_follow_from_cells();
    views_read_alone();
    views_are_apart();
    groups_in_turn_are_the_whole_run();
}

/// An answered view read what a prefix of the order leaves, from the cells of the beginning on.
pub fn views_read_a_prefix()
    ensures { (plan : Plan) (b : Beginning) (coords : ℕ) (steps : List Stepped) (w : World) → IsAccepted plan → IsViewBeginning plan b → IsRunFrom plan b coords steps w
        → (v : TxnId) (proc : ℕ) (args : List ℤ) → Has (Submitted v proc args) w.history → is_view_of plan proc ≡ true → (reply : List ℤ) → WasAnswered w.history v reply
        → (behind : ℕ) × (behind ≤ length w.order)
        × (reply ≡ (run_of plan.program (serial_store plan.program b.of_transactions.store (submitted_calls w.history (take behind w.order)))
        (record { id = v; procedure = proc; arguments = args })).reply) }
{
    looks_fit();
}

/// In every world the order of the transactions, with each answered view put in where it looked last, explains the whole history, from the cells of
/// the beginning on.
pub fn witness_is_serial()
    ensures { (plan : Plan) (b : Beginning) (coords : ℕ) (steps : List Stepped) (w : World) → IsAccepted plan → IsViewBeginning plan b → IsRunFrom plan b coords steps w
        → IsSerialWitnessFrom plan.program b.of_transactions.store w.history (witness_of w) }
{
    looks_fit();
    woven_is_a_witness();
}

/// A server takes each message that comes or finds it too late, and a coordinator ignores only stale ones.
pub fn nothing_is_refused()
    ensures servers { (plan : Plan) (b : Beginning) (coords : ℕ) (steps : List Stepped) (w : World) → IsAccepted plan → IsViewBeginning plan b → IsRunFrom plan b coords steps w
        → (k : ℕ) (m : Envelope) (shard : Shard) (o : Outcome) → slice_get w.sent (k - 1) ≡ Some m → m.to ≡ node.Server shard
        → Happens plan w (event.Deliver k) o → (o.seen ≡ seen.Done) ⊎ (o.seen ≡ seen.Gone) }
    ensures coordinators { (plan : Plan) (b : Beginning) (coords : ℕ) (steps : List Stepped) (w : World) → IsAccepted plan → IsViewBeginning plan b → IsRunFrom plan b coords steps w
        → (k : ℕ) (o : Outcome) (why : Reason) → Happens plan w (event.Deliver k) o → o.seen ≡ seen.Ignored why → why ≡ reason.Stale }
{
    accepted_plans_have_schemes_from_any_store();
    nothing_is_refused_beside();
}

/// Of the submissions in the history no two have one id; and an id has at most one answer, which stands behind its submission.
pub fn ids_are_told_once()
    ensures { (plan : Plan) (b : Beginning) (coords : ℕ) (steps : List Stepped) (w : World) → IsRunFrom plan b coords steps w → IsToldOnce w.history }
{}

/// Each transaction or view that was submitted is unanswered at its coordinator or was answered, and none is both. It has a sequence from the beginning's next one
/// on, and each such one below a coordinator's next is that of a transaction or view that was submitted.
pub fn submissions_are_kept()
    ensures late { (plan : Plan) (b : Beginning) (coords : ℕ) (steps : List Stepped) (w : World) → IsViewBeginning plan b → IsRunFrom plan b coords steps w
        → (t : TxnId) → WasSubmitted w.history t → b.of_transactions.nexts t.coord ≤ t.seq }
    ensures used { (plan : Plan) (b : Beginning) (coords : ℕ) (steps : List Stepped) (w : World) → IsViewBeginning plan b → IsRunFrom plan b coords steps w
        → (coord seq : ℕ) (c : CoordState) → slice_get w.coords coord ≡ Some c → b.of_transactions.nexts coord ≤ seq → seq < c.next → WasSubmitted w.history (record { coord = coord; seq = seq }) }
    ensures submitted { (plan : Plan) (b : Beginning) (coords : ℕ) (steps : List Stepped) (w : World) → IsRunFrom plan b coords steps w
        → (t : TxnId) → WasSubmitted w.history t
        → (c : CoordState) × (slice_get w.coords t.coord ≡ Some c) × (Has t c.unanswered ⊎ ((reply : List ℤ) × WasAnswered w.history t reply)) }
    ensures gone { (plan : Plan) (b : Beginning) (coords : ℕ) (steps : List Stepped) (w : World) → IsRunFrom plan b coords steps w
        → (t : TxnId) (reply : List ℤ) → WasAnswered w.history t reply → (n : ℕ) (c : CoordState) → slice_get w.coords n ≡ Some c → ¬ Has t c.unanswered }
{}

/// Where each submitted transaction is answered, the servers hold what the witness leaves, from the cells of the beginning on. Views need not be
/// answered.
pub fn cells_are_serial()
    ensures { (plan : Plan) (b : Beginning) (coords : ℕ) (steps : List Stepped) (w : World) → IsAccepted plan → IsViewBeginning plan b → IsRunFrom plan b coords steps w
        → ((t : TxnId) (proc : ℕ) (args : List ℤ) → Has (Submitted t proc args) w.history → is_view_of plan proc ≡ false → (reply : List ℤ) × WasAnswered w.history t reply)
        → (x : Cell) (s : ServerState) → slice_get w.servers (shard_of plan x.place) ≡ Some s
        → read s.store x ≡ read (serial_store plan.program b.of_transactions.store (submitted_calls w.history (witness_of w))) x }
{
    accepted_plans_have_schemes_from_any_store();
    order_is_serial();
    cells_are_serial_beside();
}

/// Each shard has its server, which holds no cell of another shard: each is 0 there.
pub fn cells_are_in_their_place()
    ensures servers { (plan : Plan) (b : Beginning) (coords : ℕ) (steps : List Stepped) (w : World) → IsRunFrom plan b coords steps w → (n : ℕ) → n < plan.program.shards
        → (s : ServerState) × (slice_get w.servers n ≡ Some s) }
    ensures apart { (plan : Plan) (b : Beginning) (coords : ℕ) (steps : List Stepped) (w : World) → IsAccepted plan → IsViewBeginning plan b → IsRunFrom plan b coords steps w
        → (shard : Shard) (s : ServerState) → slice_get w.servers shard.0 ≡ Some s → (x : Cell) → shard_of plan x.place ≢ shard.0 → read s.store x ≡ pos 0 }
{
    accepted_plans_have_schemes_from_any_store();
    cells_are_in_their_place_beside();
}

/// A submitted transaction has its reply where every message of it, and of each from which a chain of startoks in the network leads to it, was
/// delivered, whatever views there are; and it is decided wherever it has a group.
pub fn quiet_transactions_are_answered()
    ensures answered { (plan : Plan) (b : Beginning) (coords : ℕ) (steps : List Stepped) (w : World) → IsAccepted plan → IsViewBeginning plan b → IsRunFrom plan b coords steps w
        → (t : TxnId) (proc : ℕ) (args : List ℤ) → Has (Submitted t proc args) w.history → is_view_of plan proc ≡ false
        → AreDelivered (transactions.PrecedesIn w.sent) steps w t → (reply : List ℤ) × Has (Answered t reply) w.history }
    ensures decided { (plan : Plan) (b : Beginning) (coords : ℕ) (steps : List Stepped) (w : World) → IsAccepted plan → IsViewBeginning plan b → IsRunFrom plan b coords steps w
        → (t : TxnId) → AreDelivered (transactions.PrecedesIn w.sent) steps w t
        → (shard : Shard) (s : ServerState) → slice_get w.servers shard.0 ≡ Some s → (e : StartedGroup) → Has e s.started → e.id ≡ t → IsDecided s.lists.links t }
{
    accepted_plans_have_schemes_from_any_store();
    quiet_is_answered();
}

/// A submitted view that is quiet has its reply, but in its last round.
pub fn quiet_views_are_answered()
    ensures { (plan : Plan) (b : Beginning) (coords : ℕ) (steps : List Stepped) (w : World) → IsAccepted plan → IsViewBeginning plan b → IsRunFrom plan b coords steps w
        → (t : TxnId) (proc : ℕ) (args : List ℤ) → Has (Submitted t proc args) w.history → is_view_of plan proc ≡ true
        → IsQuiet plan steps w t → ¬ IsInLastRound w t → (reply : List ℤ) × Has (Answered t reply) w.history }
{
    views_are_apart();
    quiet_transactions_are_answered();
}

/// Of a list of events there is one run.
pub fn run_is_one()
    ensures { (plan : Plan) (b : Beginning) (coords : ℕ) (steps others : List Stepped) (w v : World) → IsRunFrom plan b coords steps w → IsRunFrom plan b coords others v
        → map (λ s. s.event) steps ≡ map (λ s. s.event) others → (steps ≡ others) × (w ≡ v) }
{
    server_step_is_one();
    read_step_is_one();
}

/// The world of a beginning fits a plan with some shard, what comes of an event in a world that fits is one that does, and so each world of a run fits.
pub fn worlds_fit()
    ensures first { (plan : Plan) (b : Beginning) (coords : ℕ) → 0 < plan.program.shards → FitsWorld plan (begun_world plan b coords) }
    ensures kept { (plan : Plan) (w : World) (e : Option Event) (o : Outcome) → FitsWorld plan w → Transition plan w e o → FitsWorld plan o.world }
    ensures runs { (plan : Plan) (b : Beginning) (coords : ℕ) (steps : List Stepped) (w : World) → 0 < plan.program.shards → IsRunFrom plan b coords steps w → FitsWorld plan w }
{}

/// A list of events each of which may happen in the world that it meets has a run.
pub fn events_have_runs()
    ensures { (plan : Plan) (b : Beginning) (coords : ℕ) (events : List (Option Event)) → 0 < plan.program.shards → MayHappenFrom plan b coords events
        → (steps : List Stepped) × (w : World) × IsRunFrom plan b coords steps w × (map (λ s. s.event) steps ≡ events) }
{
    events_have_outcomes();
}
