//! Laws of the runs of a server's node that may go over to a grown workload. Each is the contract of a function that does nothing.
ghost use Rattle.std.specs.Prelude.{◌≡◌, ◌≢◌, ℕ, List, Some};
ghost use Rattle.roc_base.specs.declared.node.Shard.{Shard};
ghost use Rattle.roc_epoch.specs.declared.file.File.{File};
ghost use Rattle.roc_grown.specs.declared.handled.GrownHandled.TheVariants.{Skipped};
ghost use Rattle.roc_grown.specs.Server.{GrownHandles, GrownServerState, GrownStep, first_grown_server};
ghost use Rattle.roc_msg.specs.declared.msg.Msg.{Msg};
ghost use Rattle.roc_node.specs.NodeEvent.{NodeEvent};
ghost use Rattle.roc_wire.specs.declared.header.Header.{Header};
ghost use Rattle.roc_grown_node.specs.declared.judging.GrownJudged.TheVariants.{Delivery};
ghost use Rattle.roc_grown_node.specs.Judgement.{grown_judged};
ghost use Rattle.roc_grown_node.specs.Setting.{GrownNodeSetting};
ghost use Rattle.roc_grown_serve.specs.Fold.{IsCoreFold};
ghost use Rattle.roc_grown_serve.specs.GrownRun.{GrownNodeState, IsGrownServerRun};

/// A core skips no message that its node takes as a delivery: the tag has told the file.
pub fn deliveries_are_not_skipped()
    ensures { (S : GrownNodeSetting) (s : GrownServerState) (bytes : List ℕ) (header : Header) (file : File) (msg : Msg) (g : GrownStep)
        → grown_judged S s.switched bytes ≡ Delivery header file msg → GrownHandles S.plan (Some S.next) s file msg g → g.answer ≢ Skipped }
{}

/// Whatever datagrams and silences a node takes, its core's state and messages are the fold of the core's steps over what they bring.
pub fn runs_are_folds()
    ensures { (S : GrownNodeSetting) (shard : Shard) (events : List NodeEvent) (node : GrownNodeState) → IsGrownServerRun S shard events node
        → IsCoreFold S (first_grown_server S.plan shard) events node.state node.messages }
{}
