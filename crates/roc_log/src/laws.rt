//! Laws of logs, over all bytes. Each is the contract of a function that does nothing.

ghost use Rattle.std.specs.Prelude.{◌≡◌, ℕ, List, ◌⊎◌};
ghost use Rattle.roc_base.specs.declared.node.Node.{Node};
ghost use Rattle.roc_program.specs.Program.{Workload};
ghost use Rattle.roc_log.specs.declared.fault.What.{What};
ghost use Rattle.roc_log.specs.declared.line.Log.{Log};
ghost use Rattle.roc_log.specs.LogLine.{log_text};
ghost use Rattle.roc_log.specs.Logs.{IsLog, IsLogFault, MayBeWritten};

/// Bytes are at most one log, and have at most one first fault.
pub fn logs_are_unique()
    ensures logs { (program : Workload) (tag : List ℕ) (seen : List Node) (text : List ℕ) (log other : Log)
        → IsLog program tag seen text log → IsLog program tag seen text other → log ≡ other }
    ensures faults { (program : Workload) (tag : List ℕ) (seen : List Node) (text : List ℕ) (line other : ℕ) (what cause : What)
        → IsLogFault program tag seen text line what → IsLogFault program tag seen text other cause → (line ≡ other) × (what ≡ cause) }
{}

/// Bytes are a log or have a first fault, and not both.
pub fn texts_are_right_or_wrong()
    ensures one_of_both { (program : Workload) (tag : List ℕ) (seen : List Node) (text : List ℕ)
        → ((log : Log) × IsLog program tag seen text log) ⊎ ((line : ℕ) × (what : What) × IsLogFault program tag seen text line what) }
    ensures not_both { (program : Workload) (tag : List ℕ) (seen : List Node) (text : List ℕ) (log : Log) (line : ℕ) (what : What)
        → IsLog program tag seen text log → IsLogFault program tag seen text line what → ⊥ }
{}

/// What is written of a log whose lines may stand in it is read as it was.
pub fn written_logs_are_read()
    ensures { (program : Workload) (tag : List ℕ) (seen : List Node) (log : Log)
        → MayBeWritten program tag seen log → IsLog program tag seen (log_text program log) log }
{}
