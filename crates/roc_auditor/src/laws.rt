//! Laws of verdicts, each the contract of a function that does nothing.
ghost use Rattle.std.specs.Prelude.{◌≡◌, ℕ, List, map};
ghost use Rattle.roc_sequence.specs.Places.{NoneTwice};
ghost use Rattle.roc_base.specs.declared.id.TxnId.{TxnId};
ghost use Rattle.roc_base.specs.Node.{is_node};
ghost use Rattle.roc_plan.specs.Groups.{Plan};
ghost use Rattle.roc_log.specs.declared.line.Log.{Log};
ghost use Rattle.roc_judge.specs.declared.judgement.Judgement.TheVariants.{Yes};
ghost use Rattle.roc_judge.specs.Vouched.{IsVouched};
ghost use Rattle.roc_fold.specs.Told.{told_of};
ghost use Rattle.roc_auditor.specs.declared.verdict.Verdict.{Verdict};
ghost use Rattle.roc_auditor.specs.declared.verdict.Verdict.TheVariants.{Judged};
ghost use Rattle.roc_auditor.specs.Verdict.{nodes_of, IsVerdict};

use roc_fold::laws::{folds_are_one, told_is_own, told_once};

/// Behind a yes the order vouches for what the lines of each log tell, whoever made the logs.
pub fn yes_vouches_for_logs()
    ensures { (plan : Plan) (logs : List Log) (order : List TxnId) (n : ℕ)
        → IsVerdict plan logs (Judged (Yes order n)) → IsVouched plan.program (map told_of logs) order }
{}

/// Over the logs of different nodes there is one verdict.
pub fn verdicts_are_one()
    ensures { (plan : Plan) (logs : List Log) (v w : Verdict)
        → NoneTwice is_node (nodes_of logs) → IsVerdict plan logs v → IsVerdict plan logs w → v ≡ w }
{
    folds_are_one();
    told_once();
    told_is_own();
}
