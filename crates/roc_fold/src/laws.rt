//! Laws of folds, each the contract of a function that does nothing.
ghost use Rattle.std.specs.Prelude.{◌≡◌, ℕ, Result};
ghost use Rattle.roc_audit.specs.History.{IsToldOnce, WasSubmitted};
ghost use Rattle.roc_base.specs.declared.id.TxnId.{TxnId};
ghost use Rattle.roc_base.specs.declared.node.Node.TheVariants as node;
ghost use Rattle.roc_plan.specs.Groups.{Plan};
ghost use Rattle.roc_log.specs.declared.line.Log.{Log};
ghost use Rattle.roc_judge.specs.declared.folded.Folded.{Folded};
ghost use Rattle.roc_fold.specs.Folded.{IsFolded, IsFound};
ghost use Rattle.roc_fold.specs.Told.{told_of};

/// What a log tells is one, and so is its first line that does not stand next; and no log has both.
pub fn folds_are_one()
    ensures { (plan : Plan) (log : Log) (a b : Result Folded ℕ) → IsFound plan log a → IsFound plan log b → a ≡ b }
{}

/// A log that folds tells each submission once, and of each at most one answer, which stands behind it. That each is answered, or that a reply is
/// right, is not said.
pub fn told_once()
    ensures { (plan : Plan) (log : Log) (folded : Folded) → IsFolded plan log folded → IsToldOnce (told_of log) }
{}

/// Whatever a log tells to be submitted is its own coordinator's: so logs of two nodes tell no submission in common, whether they fold or not.
pub fn told_is_own()
    ensures { (log : Log) (t : TxnId) → WasSubmitted (told_of log) t → log.node ≡ node.Coord t.coord }
{}
