//! An auditor, which takes one log after another.
ghost use Rattle.std.specs.Prelude.{◌≡◌, ◌++◌, ◌∷◌, [], List, IfOk, IfErr, OnOk, OnErr, length, ◌<◌, vec_len, vec_capacity};
ghost use Rattle.std.specs.List.{AllByRecursion};
ghost use Rattle.roc_plan.specs.Groups.{Plan as Grouped};
ghost use Rattle.roc_wire.specs.Fits.{FitsHeader};
ghost use Rattle.roc_log.specs.declared.line.Log.{Log};
ghost use Rattle.roc_fold.specs.Folded.{header_of};
ghost use Rattle.roc_auditor.specs.Verdict.{nodes_of, AreFolded, IsAuditedAs, IsAuditFault, IsVerdict};
ghost use Rattle.roc_auditor.specs.declared.verdict.AuditFault.TheVariants as want;
ghost use Rattle.roc_auditor.specs.Taken.{HasFound, HasTaken};

use crate::gaps::first_gap;
use crate::verdict::{AuditFault, Verdict};
use roc_base::{NoMemory, Node};
use roc_fold::fold_log;
use roc_judge::{Folded, judge};
use roc_log::Log;
use roc_plan::Plan;
use std::alloc::Global;

/// What is kept of the logs that were taken: whose they are, and what each tells, or the first line that does not fit. The logs
/// themselves need not be kept.
#[derive(Drop)]
pub struct Auditor {
    alloc: Global,
    nodes: Vec<Node>,
    folds: Vec<Folded>,
    mismatch: Option<(usize, u64)>,
}

impl Auditor {
    /// An auditor that has taken no log.
    pub fn new(alloc: Global) -> Auditor
        ensures { (plan : Grouped) → HasTaken plan [] result }
    {
        Auditor {
            alloc,
            nodes: Vec::new(alloc),
            folds: Vec::new(alloc),
            mismatch: None,
        }
    }

    /// The nodes of the logs that were taken, in order.
    pub fn nodes(&self) -> &[Node]
        ensures { (plan : Grouped) (logs : List Log) → HasTaken plan logs self.now → result.now ≡ nodes_of logs }
    {
        &self.nodes
    }

    /// Takes a log behind those that it took, of which it need not keep more than what the log tells. Behind a log that does not fold the
    /// others are not folded. `NoMemory` leaves it as it was.
    pub fn take(&mut self, plan: &Plan, log: Log) -> Result<(), NoMemory>
        requires { FitsHeader (header_of log) }
        ensures ok { OnOk result ((logs : List Log) → HasTaken plan.now logs self.old → HasTaken plan.now (logs ++ log ∷ []) self.new) }
        ensures err { OnErr result ((logs : List Log) → HasTaken plan.now logs self.old → HasTaken plan.now logs self.new) }
    {
        self.note(plan, &log)
    }

    // The same of a log that stays where it is.
    fn note(&mut self, plan: &Plan, log: &Log) -> Result<(), NoMemory>
        requires { FitsHeader (header_of log.now) }
        ensures ok { OnOk result ((logs : List Log) → HasTaken plan.now logs self.old → HasTaken plan.now (logs ++ log.now ∷ []) self.new) }
        ensures err { OnErr result ((logs : List Log) → HasTaken plan.now logs self.old → HasTaken plan.now logs self.new) }
    {
        self.nodes.reserve(1)?;
        match self.mismatch {
            Some(_) => put(&mut self.nodes, log.node),
            None => {
                let place = self.nodes.len();
                self.mismatch = fold_behind(self.alloc, plan, log, place, &mut self.folds)?;
                put(&mut self.nodes, log.node);
            }
        }
        Ok(())
    }

    /// Takes several, one after another, which stay where they are. `NoMemory` leaves some of them taken.
    pub(crate) fn note_all(&mut self, plan: &Plan, logs: &[Log]) -> Result<(), NoMemory>
        requires { AllByRecursion (λ log. FitsHeader (header_of log)) logs.now }
        ensures { OnOk result ((before : List Log) → HasTaken plan.now before self.old → HasTaken plan.now (before ++ logs.now) self.new) }
    {
        for log in logs {
            self.note(plan, log)?;
        }
        Ok(())
    }

    /// What is found of the logs that were taken, if there is one of each server. The gap is judged before anything else.
    pub fn verdict(self, plan: &Plan) -> Result<Verdict, AuditFault>
        ensures found { IfOk result (λ verdict. (logs : List Log) → HasTaken plan.now logs self → IsAuditedAs plan.now logs verdict) }
        ensures fault { IfErr result (λ fault. (logs : List Log) → HasTaken plan.now logs self → IsAuditFault plan.now logs fault) }
    {
        match first_gap(&self.nodes, plan.workload().shards()) {
            Some(shard) => Err(AuditFault::Gap(shard)),
            None => self.judged(plan),
        }
    }

    // The same where there is one of each.
    fn judged(&self, plan: &Plan) -> Result<Verdict, AuditFault>
        ensures found { IfOk result (λ verdict. (logs : List Log) → HasTaken plan.now logs self.now → IsVerdict plan.now logs verdict) }
        ensures fault { IfErr result (λ fault. fault ≡ want.NoMemory) }
    {
        match self.mismatch {
            Some((log, line)) => Ok(Verdict::Mismatch { log, line }),
            None => match judge(self.alloc, plan.workload(), &self.folds) {
                Ok(judgement) => Ok(Verdict::Judged(judgement)),
                Err(NoMemory) => Err(AuditFault::NoMemory),
            },
        }
    }
}

// Puts a node behind others, where there is room for it.
fn put(nodes: &mut Vec<Node>, node: Node)
    requires { vec_len nodes.old < vec_capacity nodes.old }
    ensures { nodes.new.items ≡ nodes.old.items ++ node ∷ [] }
{
    nodes.push(node).unwrap();
}

// Folds the log behind so many that fold: what it tells goes to what those tell, or its first line that does not stand next is found.
fn fold_behind(
    alloc: Global,
    plan: &Plan,
    log: &Log,
    place: usize,
    folds: &mut Vec<Folded>,
) -> Result<Option<(usize, u64)>, NoMemory>
    requires { FitsHeader (header_of log.now) }
    ensures ok { IfOk result (λ found. (logs : List Log) → AreFolded plan.now logs folds.old.items → place ≡ length logs
        → HasFound plan.now (logs ++ log.now ∷ []) folds.new.items found) }
    ensures err { IfErr result (λ fault. folds.new.items ≡ folds.old.items) }
{
    match fold_log(alloc, plan, log) {
        Ok(Ok(folded)) => {
            folds.push(folded)?;
            Ok(None)
        }
        Ok(Err(line)) => Ok(Some((place, line))),
        Err(NoMemory) => Err(NoMemory),
    }
}
