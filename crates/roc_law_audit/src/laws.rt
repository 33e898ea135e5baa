//! Logs of all nodes of one run are judged yes.
ghost use Rattle.std.specs.Prelude.{◌≡◌, ◌<◌, ℕ, List};
ghost use Rattle.roc_sequence.specs.Lists.{Has};
ghost use Rattle.roc_base.specs.declared.id.TxnId.{TxnId};
ghost use Rattle.roc_base.specs.declared.node.Shard.{Shard};
ghost use Rattle.roc_base.specs.declared.node.Node.TheVariants as node;
ghost use Rattle.roc_plan.specs.Groups.{Plan};
ghost use Rattle.roc_plan.specs.Accepted.{IsAccepted};
ghost use Rattle.roc_law_world.specs.World.{World};
ghost use Rattle.roc_law_world.specs.Run.{Stepped, IsRun};
ghost use Rattle.roc_log.specs.declared.line.Log.{Log};
ghost use Rattle.roc_judge.specs.declared.folded.Folded.{Folded};
ghost use Rattle.roc_judge.specs.declared.judgement.Judgement.{Judgement};
ghost use Rattle.roc_judge.specs.declared.judgement.Judgement.TheVariants.{Yes};
ghost use Rattle.roc_judge.specs.Judged.{IsJudged, answers_told};
ghost use Rattle.roc_fold.specs.Folded.{IsFolded};
ghost use Rattle.roc_auditor.specs.declared.verdict.Verdict.{Verdict};
ghost use Rattle.roc_auditor.specs.declared.verdict.Verdict.TheVariants.{Judged};
ghost use Rattle.roc_auditor.specs.Verdict.{HaveNoGap, IsVerdict};
ghost use Rattle.roc_law_audit.specs.InTheWorld.{AreOfRun, SubmitsNoView, all_ran};
ghost use Rattle.roc_law_audit.specs.LogsOfRuns.{AreLogsOfRun, AreFoldsOf, MayBeLogged};

use roc_fold::laws::folds_are_one;
use roc_law_plans::beginnings::accepted_plans_have_schemes_from_any_store;
use roc_law_protocol::beginnings::{
    first_worlds_begin, ids_are_told_once, kept_orders_are_serial, order_is_serial,
    order_keeps_what_ran,
};
use roc_law_world::laws::runs_are_beside;
use roc_wire::laws::spelled_is_read;

/// Folds that tell a run of an accepted plan in which no view was submitted are judged yes.
pub fn honest_folds_are_yes()
    ensures { (plan : Plan) (coords : ℕ) (steps : List Stepped) (w : World) → IsAccepted plan → IsRun plan coords steps w → SubmitsNoView plan w.history
        → (folds : List Folded) → AreOfRun plan (all_ran steps) w.servers w.history w.order folds
        → (j : Judgement) → IsJudged plan.program folds j → (order : List TxnId) × (j ≡ Yes order (answers_told folds)) }
{
    runs_are_beside();
    accepted_plans_have_schemes_from_any_store();
    first_worlds_begin();
    order_keeps_what_ran();
    order_is_serial();
    ids_are_told_once();
    kept_orders_are_serial();
}

/// There are such logs: a run in which no server stops, and each message that comes has a spelling, has logs.
pub fn runs_have_logs()
    ensures { (plan : Plan) (coords : ℕ) (steps : List Stepped) (w : World) → IsRun plan coords steps w → (tag : List ℕ) → MayBeLogged tag steps w
        → (logs : List Log) × AreLogsOfRun plan coords steps w logs × ((log : Log) → Has log logs → log.tag ≡ tag) }
{
    spelled_is_read();
}

/// The logs of a run fold, each of them, and what they tell is what the run did, whatever was submitted in it, and whichever Stops stand between its lines.
pub fn logs_tell_their_run()
    ensures folded { (plan : Plan) (coords : ℕ) (steps : List Stepped) (w : World) → IsRun plan coords steps w → (logs : List Log) → AreLogsOfRun plan coords steps w logs
        → (log : Log) → Has log logs → (folded : Folded) × IsFolded plan log folded }
    ensures whole { (plan : Plan) (coords : ℕ) (steps : List Stepped) (w : World) → IsRun plan coords steps w → (logs : List Log) → AreLogsOfRun plan coords steps w logs
        → (shard : Shard) → shard.0 < plan.program.shards → (log : Log) × Has log logs × (log.node ≡ node.Server shard) }
    ensures told { (plan : Plan) (coords : ℕ) (steps : List Stepped) (w : World) → IsRun plan coords steps w → (logs : List Log) → AreLogsOfRun plan coords steps w logs
        → (folds : List Folded) → AreFoldsOf plan logs folds → AreOfRun plan (all_ran steps) w.servers w.history w.order folds }
{
    spelled_is_read();
    folds_are_one();
}

/// Logs of all nodes of one run of an accepted plan, each of them whole, in which no view was submitted, are answered yes: each folds, each server has
/// one, and what is judged of what they tell is a yes. The Stop that ended a server, the last line of its log, changes nothing of this. A server that
/// starts again has no log, so of runs with such stops nothing is said.
pub fn honest_logs_are_yes()
    ensures folded { (plan : Plan) (coords : ℕ) (steps : List Stepped) (w : World) → IsAccepted plan → IsRun plan coords steps w → SubmitsNoView plan w.history
        → (logs : List Log) → AreLogsOfRun plan coords steps w logs → (log : Log) → Has log logs → (folded : Folded) × IsFolded plan log folded }
    ensures whole { (plan : Plan) (coords : ℕ) (steps : List Stepped) (w : World) → IsAccepted plan → IsRun plan coords steps w → SubmitsNoView plan w.history
        → (logs : List Log) → AreLogsOfRun plan coords steps w logs → (shard : Shard) → shard.0 < plan.program.shards → (log : Log) × Has log logs × (log.node ≡ node.Server shard) }
    ensures judged { (plan : Plan) (coords : ℕ) (steps : List Stepped) (w : World) → IsAccepted plan → IsRun plan coords steps w → SubmitsNoView plan w.history
        → (logs : List Log) → AreLogsOfRun plan coords steps w logs → (folds : List Folded) → AreFoldsOf plan logs folds
        → (j : Judgement) → IsJudged plan.program folds j → (order : List TxnId) × (j ≡ Yes order (answers_told folds)) }
{
    logs_tell_their_run();
    honest_folds_are_yes();
}

/// So an auditor that takes such logs, of which none can be missing, finds a yes, and nothing else.
pub fn honest_verdicts_are_yes()
    ensures whole { (plan : Plan) (coords : ℕ) (steps : List Stepped) (w : World) → IsAccepted plan → IsRun plan coords steps w → SubmitsNoView plan w.history
        → (logs : List Log) → AreLogsOfRun plan coords steps w logs → HaveNoGap plan logs }
    ensures yes { (plan : Plan) (coords : ℕ) (steps : List Stepped) (w : World) → IsAccepted plan → IsRun plan coords steps w → SubmitsNoView plan w.history
        → (logs : List Log) → AreLogsOfRun plan coords steps w logs → (verdict : Verdict) → IsVerdict plan logs verdict
        → (order : List TxnId) × (n : ℕ) × (verdict ≡ Judged (Yes order n)) }
{
    honest_logs_are_yes();
    folds_are_one();
}
