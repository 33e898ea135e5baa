//! What running nodes log. Each law is the contract of a function that does nothing.
ghost use Rattle.std.specs.Prelude.{◌≡◌, ℕ, List, filter, map};
ghost use Rattle.roc_auditor.specs.declared.verdict.Verdict.TheVariants.{Judged};
ghost use Rattle.roc_auditor.specs.declared.verdict.Verdict.{Verdict};
ghost use Rattle.roc_auditor.specs.Verdict.{HaveNoGap, IsVerdict};
ghost use Rattle.roc_base.specs.declared.id.TxnId.{TxnId};
ghost use Rattle.roc_base.specs.declared.node.Shard.{Shard};
ghost use Rattle.roc_base.specs.declared.node.Node.TheVariants as node;
ghost use Rattle.roc_judge.specs.declared.judgement.Judgement.TheVariants.{Yes};
ghost use Rattle.roc_law_audit.specs.InTheWorld.{SubmitsNoView};
ghost use Rattle.roc_law_audit.specs.LogsOfRuns.{AreAllLogged, AreLoggedFrom, AreLogsOfRun};
ghost use Rattle.roc_law_nodes.specs.Interleaved.{AllNodes, AllSettings, AreInterleaved, CoordPlace, IsCoordAt, Move, node_at};
ghost use Rattle.roc_law_nodes.specs.Logs.{AllCameInBytes, AreLogsAt, AreLogsOfNodes, CameInBytes};
ghost use Rattle.roc_law_nodes.specs.Own.{own_events};
ghost use Rattle.roc_law_nodes.specs.Turns.{AreTurnsOf, coord_owns, is_for_core, turns_bring};
ghost use Rattle.roc_law_nodes.specs.WorldOf.{owns_to};
ghost use Rattle.roc_log.specs.declared.line.Log.{Log};
ghost use Rattle.roc_node.specs.NodeEvent.{NodeEvent, NodeSetting};
ghost use Rattle.roc_node_serve.specs.ServerRun.{ServerNodeState, IsServerRun};
ghost use Rattle.roc_node_submit.specs.CoordRun.{CoordNodeState, first_coord_node_state, IsCoordRun};
ghost use Rattle.roc_plan.specs.Accepted.{IsAccepted};
ghost use Rattle.roc_plan.specs.Groups.{Plan};
ghost use Rattle.roc_replay.specs.Readback.{history_in};
ghost use Rattle.roc_sched.specs.declared.line.Request.{Request};
ghost use Rattle.roc_law_world.specs.Run.{Stepped, IsRun};
ghost use Rattle.roc_law_world.specs.World.{World, first_world};

use crate::laws::{interleaved_nodes_are_a_world, interleaved_runs_are_runs};
use roc_law_audit::laws::honest_verdicts_are_yes;
use roc_wire::laws::{right_or_wrong, spelled_is_read};

/// What a running node logs is what the world's node logs in a run: where the turns of a server's node spell its own events in the run, and where the
/// own events of a coordinator's node are those in the run. A node's setting says which node it is. A server that has a journal, and so may stop in a
/// run of the world and start again, keeps no log, so it is not spoken of here: its turns spell no such event.
pub fn node_logs_are_the_runs()
    ensures servers { (S : NodeSetting) (coords : ℕ) (steps : List Stepped) (w : World) → IsRun S.plan coords steps w → (shard : Shard) → S.header.from ≡ node.Server shard
        → (events : List NodeEvent) (n : ServerNodeState) → IsServerRun S shard events n → AreTurnsOf S.header.tag events (own_events (node.Server shard) w.sent steps)
        → AreLoggedFrom S.header (first_world S.plan coords) steps n.logged }
    ensures coords { (S : NodeSetting) (coords : ℕ) (steps : List Stepped) (w : World) → IsRun S.plan coords steps w → (number : ℕ) → S.header.from ≡ node.Coord number
        → (requests : List Request) (events : List NodeEvent) (n : CoordNodeState) → IsCoordRun S number requests events n → CameInBytes events
        → coord_owns S (first_coord_node_state number requests) events ≡ own_events (node.Coord number) w.sent steps
        → AreLoggedFrom S.header (first_world S.plan coords) steps n.logged }
{
    right_or_wrong();
    spelled_is_read();
}

/// The same of nodes that took Stops, which are for no core and so no events of the world: what is left of a node's own events without them are those in
/// the run. Each Stop is a line that no run has, and changes nothing of what the log tells (`logs_tell_their_run` of `roc_law_audit`). In a server's log it
/// is the last line, since the node takes nothing behind it. A coordinator's node may be within a turn, where it waits for a datagram.
pub fn stops_stand_between()
    ensures servers { (S : NodeSetting) (coords : ℕ) (steps : List Stepped) (w : World) → IsRun S.plan coords steps w → (shard : Shard) → S.header.from ≡ node.Server shard
        → (events : List NodeEvent) (n : ServerNodeState) → IsServerRun S shard events n → CameInBytes events
        → filter is_for_core (turns_bring S.header.tag events) ≡ own_events (node.Server shard) w.sent steps
        → AreAllLogged S.header (first_world S.plan coords) steps n.logged }
    ensures coords { (S : NodeSetting) (coords : ℕ) (steps : List Stepped) (w : World) → IsRun S.plan coords steps w → (number : ℕ) → S.header.from ≡ node.Coord number
        → (requests : List Request) (events : List NodeEvent) (place : CoordPlace) → IsCoordAt S number requests events place → CameInBytes events
        → filter is_for_core (owns_to S number requests events place) ≡ own_events (node.Coord number) w.sent steps
        → AreAllLogged S.header (first_world S.plan coords) steps (node_at place).logged }
{
    right_or_wrong();
    spelled_is_read();
}

/// So the logs of running nodes, one of each node of a run, are the logs of that run, whether or not servers were stopped.
pub fn logs_of_nodes_are_the_runs()
    ensures { (plan : Plan) (coords : ℕ) (steps : List Stepped) (w : World) → IsRun plan coords steps w → (logs : List Log) → AreLogsOfNodes plan steps w logs
        → AreLogsOfRun plan coords steps w logs }
{
    stops_stand_between();
}

/// And so an auditor that takes such logs, of which none can be missing, finds a yes, and nothing else.
pub fn logs_of_nodes_are_yes()
    ensures whole { (plan : Plan) (coords : ℕ) (steps : List Stepped) (w : World) → IsAccepted plan → IsRun plan coords steps w → SubmitsNoView plan w.history
        → (logs : List Log) → AreLogsOfNodes plan steps w logs → HaveNoGap plan logs }
    ensures yes { (plan : Plan) (coords : ℕ) (steps : List Stepped) (w : World) → IsAccepted plan → IsRun plan coords steps w → SubmitsNoView plan w.history
        → (logs : List Log) → AreLogsOfNodes plan steps w logs → (verdict : Verdict) → IsVerdict plan logs verdict
        → (order : List TxnId) × (n : ℕ) × (verdict ≡ Judged (Yes order n)) }
{
    logs_of_nodes_are_the_runs();
    honest_verdicts_are_yes();
}

/// And where the turns of all nodes are interleaved, there is such a run, so an auditor finds a yes in the logs of all nodes, however the nodes' turns came
/// about: if each message that a node took was sent to it before, and no view was submitted. The nodes may be anywhere in their turns, and servers may have
/// been stopped.
pub fn interleaved_logs_are_yes()
    ensures whole { (N : AllSettings) (moves : List Move) (all : AllNodes) → IsAccepted N.plan → AreInterleaved N moves all → AllCameInBytes moves
        → SubmitsNoView N.plan (history_in (map (λ t. t.1) all.told)) → (logs : List Log) → AreLogsAt N all logs → HaveNoGap N.plan logs }
    ensures yes { (N : AllSettings) (moves : List Move) (all : AllNodes) → IsAccepted N.plan → AreInterleaved N moves all → AllCameInBytes moves
        → SubmitsNoView N.plan (history_in (map (λ t. t.1) all.told)) → (logs : List Log) → AreLogsAt N all logs → (verdict : Verdict) → IsVerdict N.plan logs verdict
        → (order : List TxnId) × (n : ℕ) × (verdict ≡ Judged (Yes order n)) }
{
    interleaved_runs_are_runs();
    interleaved_nodes_are_a_world();
    logs_of_nodes_are_yes();
}
