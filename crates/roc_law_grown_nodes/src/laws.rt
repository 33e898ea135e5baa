//! The nodes that go over to a grown workload and the world of two files are one. Each law is the contract of a function that does nothing.
ghost use Rattle.std.specs.Prelude.{◌≡◌, ◌≢◌, ℕ, Bool, true, List, Some, map, slice_get};
ghost use Rattle.roc_base.specs.declared.id.TxnId.{TxnId};
ghost use Rattle.roc_base.specs.declared.node.Shard.{Shard};
ghost use Rattle.roc_base.specs.declared.node.Node.{Node};
ghost use Rattle.roc_base.specs.declared.node.Node.TheVariants as node;
ghost use Rattle.roc_base.specs.TxnId.{is_txn};
ghost use Rattle.roc_io.specs.Packet.{Packet};
ghost use Rattle.roc_msg.specs.declared.msg.Msg.{Msg};
ghost use Rattle.roc_plan.specs.Accepted.{IsAccepted};
ghost use Rattle.roc_whole.specs.Serial.{start_store};
ghost use Rattle.roc_sequence.specs.Places.{IsListed, IsListedBefore};
ghost use Rattle.roc_audit.specs.Witness.{IsSerialWitness};
ghost use Rattle.roc_epoch.specs.Grown.{IsGrownFrom};
ghost use Rattle.roc_epoch.specs.Files.{file_of, IsNextOf};
ghost use Rattle.roc_two_files.specs.Filed.{IsFiledWitness};
ghost use Rattle.roc_two_files.specs.Sealed.{Sealed};
ghost use Rattle.roc_growth.specs.World.{GrownWorld, is_second};
ghost use Rattle.roc_growth.specs.Run.{Stepped};
ghost use Rattle.roc_replay.specs.Readback.{history_in};
ghost use Rattle.roc_wire.specs.Laws.{Spells};
ghost use Rattle.roc_node.specs.NodeEvent.{took};
ghost use Rattle.roc_grown_node.specs.Posting.{header_for};
ghost use Rattle.roc_grown_serve.specs.GrownRun.{GrownNodeState, IsGrownServerRun};
ghost use Rattle.roc_law_nodes.specs.Interleaved.{Move, events_at, lines_by};
ghost use Rattle.roc_law_grown_nodes.specs.GrownInterleaved.{AllGrownSettings, AllGrownNodes, GrownCoordPlace, AreGrownInterleaved, WasSentAs, IsGrownCaused, IsGrownCoordAt, grown_setting_at};
ghost use Rattle.roc_law_grown_nodes.specs.GrownInterleaved.{grown_node_at};
ghost use Rattle.roc_law_grown_nodes.specs.GrownWorldOf.{IsGrownWorldOf};

use roc_growth::laws::{files_stay_apart, witness_is_serial};
use roc_wire::laws::spelled_is_read;

/// Where the turns of all nodes are interleaved, each node by itself has a run of its own loop over the events that it takes.
pub fn interleaved_grown_runs_are_runs()
    ensures servers { (N : AllGrownSettings) (moves : List Move) (all : AllGrownNodes) → AreGrownInterleaved N moves all
        → (shard : Shard) (n : GrownNodeState) → slice_get all.servers shard.0 ≡ Some n
        → IsGrownServerRun (grown_setting_at N (node.Server shard)) shard (events_at (node.Server shard) moves) n }
    ensures coords { (N : AllGrownSettings) (moves : List Move) (all : AllGrownNodes) → AreGrownInterleaved N moves all
        → (number : ℕ) (place : GrownCoordPlace) → slice_get all.coords number ≡ Some place
        → IsGrownCoordAt (grown_setting_at N (node.Coord number)) number (N.requests number) (N.later number) (events_at (node.Coord number) moves) place
        × (lines_by number all.told ≡ (grown_node_at place).lines) }
{}

/// An interleaving asks for no more than that what is taken was sent before, where the tags of the two files differ. Let a node that has switched or not send a message, and let
/// the message be in the network with its file. Then the datagram that the node sends for it may come to the node that it is for, whether that one has switched or not.
pub fn spelled_messages_are_caused()
    ensures { (N : AllGrownSettings) (sent : List Sealed) (from to : Node) (by switched : Bool) (msg : Msg) (packet : Packet)
        → N.tag ≢ N.next.tag → Spells packet.bytes (header_for (grown_setting_at N from) by msg) msg → WasSentAs sent to (file_of by msg) msg
        → IsGrownCaused (grown_setting_at N to) switched sent to (took packet) }
{
    spelled_is_read();
}

/// The runs of all nodes, interleaved, are a run of the world of two files: there are steps that lead to the nodes' states, with the nodes' messages in the order in
/// which they sent them, and the history that their lines tell, in the order of the lines.
pub fn interleaved_grown_nodes_are_a_world()
    ensures { (N : AllGrownSettings) (moves : List Move) (all : AllGrownNodes) → IsGrownFrom N.plan.program N.next.plan.program → AreGrownInterleaved N moves all
        → (steps : List Stepped) × (w : GrownWorld) × IsGrownWorldOf N all steps w }
{}

/// What the coordinators' nodes write is explained by one serial order of whole procedures, each id run by the program of its own file, and also where all run by that of the
/// grown one. In it no id of the second file stands before one of the first, and who was answered in a line before another's submission stands before it.
pub fn interleaved_grown_nodes_are_serial()
    ensures { (N : AllGrownSettings) (moves : List Move) (all : AllGrownNodes) → IsAccepted N.plan → IsNextOf N.plan (Some N.next) → AreGrownInterleaved N moves all
        → (steps : List Stepped) × (w : GrownWorld) × IsGrownWorldOf N all steps w × (order : List TxnId)
        × IsFiledWitness N.plan.program N.next.plan.program (is_second w) (start_store N.plan.program) (history_in (map (λ t. t.1) all.told)) order
        × IsSerialWitness N.next.plan.program (history_in (map (λ t. t.1) all.told)) order
        × ((u t : TxnId) → IsListed is_txn order t → IsListedBefore is_txn order u t → is_second w u ≡ true → is_second w t ≡ true) }
{
    interleaved_grown_nodes_are_a_world();
    witness_is_serial();
    files_stay_apart();
}
