//! The world's nodes and the nodes that people run are one. Each law is the contract of a function that does nothing.
ghost use Rattle.std.specs.Prelude.{◌≡◌, ◌⊎◌, ℕ, ◌<◌, not, List, [], ◌∷◌, ◌++◌, Option, Some, filter, length, map, slice_get};
ghost use Rattle.std.specs.List.{AllByRecursion};
ghost use Rattle.roc_audit.specs.Witness.{IsSerialWitness};
ghost use Rattle.roc_base.specs.declared.id.TxnId.{TxnId};
ghost use Rattle.roc_base.specs.declared.node.Shard.{Shard};
ghost use Rattle.roc_base.specs.declared.node.Node.{Node};
ghost use Rattle.roc_base.specs.declared.node.Node.TheVariants as node;
ghost use Rattle.roc_coord.specs.State.{CoordState};
ghost use Rattle.roc_io.specs.declared.link.Addr.{Addr};
ghost use Rattle.roc_io.specs.Packet.{Packet};
ghost use Rattle.roc_kept.specs.Laws.{IsRecovered, HasRefusal};
ghost use Rattle.roc_msg.specs.declared.msg.Msg.{Msg};
ghost use Rattle.roc_msg.specs.declared.msg.Envelope.{Envelope};
ghost use Rattle.roc_msg.specs.declared.outbox.Outgoing.{Outgoing};
ghost use Rattle.roc_node_submit.specs.CoordRun.{CoordNodeState, first_coord_node_state, IsCoordRun};
ghost use Rattle.roc_node.specs.NodeEvent.{NodeEvent, took, NodeSetting};
ghost use Rattle.roc_node_serve.specs.ServerRun.{ServerNodeState, IsServerRun, IsServerRunFrom, AfterTurn, opened_node};
ghost use Rattle.roc_plan.specs.Accepted.{IsAccepted};
ghost use Rattle.roc_plan.specs.Groups.{Plan};
ghost use Rattle.roc_law_protocol.specs.declared.event.Kept.{Kept};
ghost use Rattle.roc_law_world.specs.Run.{Stepped, IsRun};
ghost use Rattle.roc_law_world.specs.World.{World};
ghost use Rattle.roc_law_nodes.specs.Fold.{IsServerFold, IsCoordFold};
ghost use Rattle.roc_law_nodes.specs.Interleaved.{AllSettings, AllNodes, Move, CoordPlace, AreInterleaved, WasSentTo, IsCaused, IsCoordAt, setting_at, node_at, events_at, lines_by};
ghost use Rattle.roc_law_nodes.specs.Records.{IsRecordedFold};
ghost use Rattle.roc_law_nodes.specs.Own.{OwnEvent, stopped, own_events, messages_of};
ghost use Rattle.roc_law_nodes.specs.WorldOf.{IsWorldOf};
ghost use Rattle.roc_law_nodes.specs.Turns.{SpellsDelivery, turns_bring, is_for_core, AreTurnsOf, HasTurn, is_request, coord_owns, AreBrought};
ghost use Rattle.roc_replay.specs.Readback.{history_in};
ghost use Rattle.roc_sched.specs.declared.line.Request.{Request};
ghost use Rattle.roc_step.specs.Restarts.{StandsFor};
ghost use Rattle.roc_step.specs.State.{ServerState, Viewing};
ghost use Rattle.roc_wire.specs.declared.header.Header.{Header};
ghost use Rattle.roc_wire.specs.Reading.{IsBytes};

use roc_component::laws::{order_exists, order_is_one};
use roc_kept::laws::opened_or_refused;
use roc_law_world::beginnings::{first_worlds_begin, witness_is_serial, worlds_fit};
use roc_law_world::worlds::events_have_outcomes;
use roc_step::laws::{
    kept_fold_is_one, read_step_is_one, records_stand, restarts_stand, step_is_one,
};
use roc_wire::laws::spelled_is_read;

/// In every run of the world, the state of each node and the messages that the world has from it, in the order in which it sent them,
/// are those of the fold of its own step over its own events; and so is what a server keeps for views.
pub fn world_is_folds()
    ensures servers { (plan : Plan) (coords : ℕ) (steps : List Stepped) (w : World) → IsRun plan coords steps w
        → (shard : Shard) (s : ServerState) → slice_get w.servers shard.0 ≡ Some s
        → (v : Viewing) × (slice_get w.viewing shard.0 ≡ Some v) × IsServerFold plan shard (own_events (node.Server shard) w.sent steps) s v (messages_of (node.Server shard) w.sent) }
    ensures coords { (plan : Plan) (coords : ℕ) (steps : List Stepped) (w : World) → IsRun plan coords steps w
        → (number : ℕ) (c : CoordState) → slice_get w.coords number ≡ Some c
        → IsCoordFold plan number (own_events (node.Coord number) w.sent steps) c (messages_of (node.Coord number) w.sent) }
{}

/// In every run of the world each server stands for its records: wherever it stops, these and no more give the state in which it starts again, and what
/// it keeps for views but for the reads that wait.
pub fn restarts_are_folds()
    ensures { (plan : Plan) (coords : ℕ) (steps : List Stepped) (w : World) → IsRun plan coords steps w
        → (shard : Shard) (s : ServerState) → slice_get w.servers shard.0 ≡ Some s
        → (v : Viewing) × (slice_get w.viewing shard.0 ≡ Some v) × (records : List Msg)
        × IsRecordedFold plan shard (own_events (node.Server shard) w.sent steps) records s v × StandsFor plan shard records s v }
{
    world_is_folds();
    records_stand();
    restarts_stand();
}

/// The fold over a list of own events is one: its state, what it keeps for views, and its messages. For a server's core a stop changes nothing and sends nothing.
pub fn fold_is_one()
    ensures servers { (plan : Plan) (shard : Shard) (events : List OwnEvent) (s t : ServerState) (v u : Viewing) (messages others : List Outgoing)
        → IsServerFold plan shard events s v messages → IsServerFold plan shard events t u others → (s ≡ t) × (v ≡ u) × (messages ≡ others) }
    ensures coords { (plan : Plan) (number : ℕ) (events : List OwnEvent) (c d : CoordState) (messages others : List Outgoing)
        → IsCoordFold plan number events c messages → IsCoordFold plan number events d others → (c ≡ d) × (messages ≡ others) }
    ensures stops { (plan : Plan) (shard : Shard) (events : List OwnEvent) (s : ServerState) (v : Viewing) (messages : List Outgoing)
        → IsServerFold plan shard events s v messages → IsServerFold plan shard (filter is_for_core events) s v messages }
{
    step_is_one();
    read_step_is_one();
}

/// Whatever datagrams and silences a server's node takes, its core's state and messages are the fold over what they bring, but for stops,
/// which never reach the core: one delivery for each datagram with the node's tag and one tick for each silence. So turns that spell own
/// events give the fold over those, and what is skipped between them changes nothing.
pub fn server_run_is_fold()
    ensures brought { (S : NodeSetting) (shard : Shard) (events : List NodeEvent) (n : ServerNodeState) → IsServerRun S shard events n
        → IsServerFold S.plan shard (filter is_for_core (turns_bring S.header.tag events)) n.state n.viewing n.messages }
    ensures spelled { (S : NodeSetting) (shard : Shard) (events : List NodeEvent) (n : ServerNodeState) → IsServerRun S shard events n
        → (own : List OwnEvent) → AreTurnsOf S.header.tag events own → IsServerFold S.plan shard (filter is_for_core own) n.state n.viewing n.messages }
{
    spelled_is_read();
}

/// Whatever datagrams and silences a coordinator's node takes, its core's state and messages are the fold over its own events: before each
/// turn its submissions, and then what the turn brings. These are what the turns bring, in order, and the requests that it has submitted,
/// in order. So where the turns spell deliveries and ticks, its own events but for the requests are those.
pub fn coord_run_is_fold()
    ensures brought { (S : NodeSetting) (number : ℕ) (requests : List Request) (events : List NodeEvent) (n : CoordNodeState) → IsCoordRun S number requests events n
        → IsCoordFold S.plan number (coord_owns S (first_coord_node_state number requests) events) n.state n.messages }
    ensures owns { (S : NodeSetting) (number : ℕ) (requests : List Request) (events : List NodeEvent) (n : CoordNodeState) → IsCoordRun S number requests events n
        → AreBrought S requests n.left events (coord_owns S (first_coord_node_state number requests) events) }
    ensures spelled { (S : NodeSetting) (number : ℕ) (requests : List Request) (events : List NodeEvent) (n : CoordNodeState) → IsCoordRun S number requests events n
        → (owns : List OwnEvent) → AreTurnsOf S.header.tag events owns → filter (λ e. not (is_request e)) (coord_owns S (first_coord_node_state number requests) events) ≡ owns }
{
    spelled_is_read();
}

/// Deliveries of messages that have a spelling, and ticks, are spelled by some turns.
pub fn own_events_have_turns()
    ensures { (header : Header) (from : Addr) (owns : List OwnEvent) → AllByRecursion (HasTurn header) owns → (events : List NodeEvent) × AreTurnsOf header.tag events owns }
{}

/// Each file is empty, or recovers a server, or is refused at a place: something comes of each message at each server, so a record that
/// the decoder reads is taken or ignored. That it is never two of these stands with `opened_or_refused` of `roc_kept`.
pub fn files_recover_or_are_refused()
    ensures { (plan : Plan) (tag : List ℕ) (shard : Shard) (bytes : List ℕ) → length tag ≡ 8 → IsBytes bytes
        → (bytes ≡ []) ⊎ (IsRecovered plan tag shard bytes ⊎ HasRefusal plan tag shard bytes) }
{
    opened_or_refused();
    order_exists();
    order_is_one();
}

/// The node that runs is the world's: where the turns of a server's node spell its own events in a run of the world, it has the world's
/// state, keeps for views what the world has there and sent the world's messages; and so has a coordinator's node whose own events are those of a run.
pub fn node_runs_are_the_world()
    ensures servers { (S : NodeSetting) (coords : ℕ) (steps : List Stepped) (w : World) → IsRun S.plan coords steps w
        → (shard : Shard) (s : ServerState) → slice_get w.servers shard.0 ≡ Some s
        → (events : List NodeEvent) (n : ServerNodeState) → IsServerRun S shard events n → AreTurnsOf S.header.tag events (own_events (node.Server shard) w.sent steps)
        → (n.state ≡ s) × (slice_get w.viewing shard.0 ≡ Some n.viewing) × (n.messages ≡ messages_of (node.Server shard) w.sent) }
    ensures coords { (S : NodeSetting) (coords : ℕ) (steps : List Stepped) (w : World) → IsRun S.plan coords steps w
        → (number : ℕ) (c : CoordState) → slice_get w.coords number ≡ Some c
        → (requests : List Request) (events : List NodeEvent) (n : CoordNodeState) → IsCoordRun S number requests events n
        → coord_owns S (first_coord_node_state number requests) events ≡ own_events (node.Coord number) w.sent steps
        → (n.state ≡ c) × (n.messages ≡ messages_of (node.Coord number) w.sent) }
{
    step_is_one();
    read_step_is_one();
    spelled_is_read();
}

/// A server's node that is opened on a journal is the world's, too. Let a server of the world stop, and have these records then; let a node be opened that
/// stands for the same records and keeps no read, and let its turns spell the server's own events behind that stop. Then it comes to the world's state, keeps
/// for views what the world has there, and sent the last of the messages that the world has from the server: those from the tick on with which it starts
/// again. So a server that ends and is opened again, as often as it is, is one server of the world.
pub fn restarted_nodes_are_the_world()
    ensures { (S : NodeSetting) (coords : ℕ) (steps : List Stepped) (w : World) → IsRun S.plan coords steps w
        → (shard : Shard) (s : ServerState) → slice_get w.servers shard.0 ≡ Some s
        → (front behind : List OwnEvent) (at : Option (Msg × Kept)) → own_events (node.Server shard) w.sent steps ≡ front ++ stopped at ∷ behind
        → (records : List Msg) (t : ServerState) (u : Viewing) → IsRecordedFold S.plan shard (front ++ stopped at ∷ []) records t u
        → (state : ServerState) (viewing : Viewing) → StandsFor S.plan shard records state viewing → viewing.reads ≡ []
        → (events : List NodeEvent) (n : ServerNodeState) → IsServerRunFrom S (opened_node S state viewing) events n → AreTurnsOf S.header.tag events behind
        → (n.state ≡ s) × (slice_get w.viewing shard.0 ≡ Some n.viewing) × (early : List Outgoing) × (messages_of (node.Server shard) w.sent ≡ early ++ n.messages) }
{
    world_is_folds();
    step_is_one();
    read_step_is_one();
    kept_fold_is_one();
    records_stand();
    restarts_stand();
    spelled_is_read();
}

// ---- all nodes at once

/// Where the turns of all nodes are interleaved, each node by itself has a run of its own loop over the events that it takes. The network has exactly
/// what the nodes' cores sent, and what is told are exactly the lines that the coordinators wrote.
pub fn interleaved_runs_are_runs()
    ensures servers { (N : AllSettings) (moves : List Move) (all : AllNodes) → AreInterleaved N moves all
        → (shard : Shard) (n : ServerNodeState) → slice_get all.servers shard.0 ≡ Some n
        → IsServerRun (setting_at N (node.Server shard)) shard (events_at (node.Server shard) moves) n × (messages_of (node.Server shard) all.sent ≡ n.messages) }
    ensures coords { (N : AllSettings) (moves : List Move) (all : AllNodes) → AreInterleaved N moves all
        → (number : ℕ) (place : CoordPlace) → slice_get all.coords number ≡ Some place
        → IsCoordAt (setting_at N (node.Coord number)) number (N.requests number) (events_at (node.Coord number) moves) place
        × (messages_of (node.Coord number) all.sent ≡ (node_at place).messages) × (lines_by number all.told ≡ (node_at place).lines) }
{}

/// An interleaving asks for no more than that what is taken was sent before. A datagram that spells a message to a node may come to it once the message was
/// sent, whoever the datagram names as its sender, and again at any time. Whatever may come to a server, its node has a turn for it; a coordinator's move is
/// computed from the event.
pub fn caused_events_have_turns()
    ensures spelled { (tag : List ℕ) (sent : List Envelope) (to : Node) (packet : Packet) (msg : Msg) → SpellsDelivery tag packet.bytes msg → WasSentTo sent to msg
        → IsCaused tag sent to (took packet) }
    ensures turns { (N : AllSettings) (moves : List Move) (all : AllNodes) → 0 < N.plan.program.shards → AreInterleaved N moves all
        → (shard : Shard) (n : ServerNodeState) → slice_get all.servers shard.0 ≡ Some n
        → (event : NodeEvent) → IsCaused N.tag all.sent (node.Server shard) event → (next : ServerNodeState) × AfterTurn (setting_at N (node.Server shard)) n event next }
{
    spelled_is_read();
    worlds_fit();
    events_have_outcomes();
}

/// The runs of all nodes, interleaved, are a run of the world. There are steps of the world that lead to the nodes' states, with the nodes' messages in the order
/// in which they sent them and the history that their lines tell, in the order of the lines. Each node's own events there are those that its turns bring to its
/// core. So all that is said of runs of the world holds of running nodes, if each message that a node takes was sent to it before.
pub fn interleaved_nodes_are_a_world()
    ensures { (N : AllSettings) (moves : List Move) (all : AllNodes) → AreInterleaved N moves all → (steps : List Stepped) × (w : World) × IsWorldOf N moves all steps w }
{}

/// What the coordinators' nodes write is explained by one serial order of whole procedures, in which who was answered in a line before another's submission
/// stands before it.
pub fn interleaved_nodes_are_serial()
    ensures { (N : AllSettings) (moves : List Move) (all : AllNodes) → IsAccepted N.plan → AreInterleaved N moves all
        → (order : List TxnId) × IsSerialWitness N.plan.program (history_in (map (λ t. t.1) all.told)) order }
{
    interleaved_nodes_are_a_world();
    first_worlds_begin();
    witness_is_serial();
}
