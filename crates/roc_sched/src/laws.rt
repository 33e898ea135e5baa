//! Laws of schedules and request files, over all texts. Each is the contract of a function that does nothing.

ghost use Rattle.std.specs.Prelude.{◌≡◌, ℕ, List, IsTrue, IsFalse, ◌⊎◌};
ghost use Rattle.std.specs.List.{AllByRecursion};
ghost use Rattle.roc_lang.specs.Tokens.{IsWord};
ghost use Rattle.roc_lang.specs.Grammar.{is_reserved};
ghost use Rattle.roc_sched.specs.declared.fault.What.{What};
ghost use Rattle.roc_sched.specs.declared.forms.Forms.{Forms};
ghost use Rattle.roc_sched.specs.declared.line.Line.{Line};
ghost use Rattle.roc_sched.specs.declared.line.Request.{Request};
ghost use Rattle.roc_sched.specs.Schedule.{IsSchedule, IsScheduleFault, AreRequests, IsRequestFault};
ghost use Rattle.roc_sched.specs.Fits.{IsWrittenCall, IsActFor};
ghost use Rattle.roc_sched.specs.Numbers.{is_name};

/// Bytes are a schedule of at most one list of lines, and a request file of at most one list of requests.
pub fn lines_are_unique()
    ensures schedules { (forms : Forms) (shards : ℕ) (text : List ℕ) (some others : List Line) → IsSchedule forms shards text some → IsSchedule forms shards text others → some ≡ others }
    ensures requests { (text : List ℕ) (some others : List Request) → AreRequests text some → AreRequests text others → some ≡ others }
{}

/// Bytes have at most one first fault.
pub fn first_faults_are_unique()
    ensures schedules { (forms : Forms) (shards : ℕ) (text : List ℕ) (line other : ℕ) (what cause : What) → IsScheduleFault forms shards text line what
        → IsScheduleFault forms shards text other cause → (line ≡ other) × (what ≡ cause) }
    ensures requests { (text : List ℕ) (line other : ℕ) (what cause : What) → IsRequestFault text line what → IsRequestFault text other cause → (line ≡ other) × (what ≡ cause) }
{}

/// Bytes are a schedule or have a first fault, and not both; and so with request files.
pub fn texts_are_right_or_wrong()
    ensures schedules { (forms : Forms) (shards : ℕ) (text : List ℕ) → ((lines : List Line) × IsSchedule forms shards text lines) ⊎ ((line : ℕ) × (what : What) × IsScheduleFault forms shards text line what) }
    ensures one_of_both { (forms : Forms) (shards : ℕ) (text : List ℕ) (lines : List Line) (line : ℕ) (what : What) → IsSchedule forms shards text lines → IsScheduleFault forms shards text line what → ⊥ }
    ensures requests { (text : List ℕ) → ((requests : List Request) × AreRequests text requests) ⊎ ((line : ℕ) × (what : What) × IsRequestFault text line what) }
    ensures one_of_each { (text : List ℕ) (requests : List Request) (line : ℕ) (what : What) → AreRequests text requests → IsRequestFault text line what → ⊥ }
{}

/// Nodes of a schedule are there, its numbers are within their bounds, and names are names.
pub fn lines_fit()
    ensures schedules { (forms : Forms) (shards : ℕ) (text : List ℕ) (lines : List Line) → IsSchedule forms shards text lines → AllByRecursion (λ line. IsActFor forms shards line.act) lines }
    ensures requests { (text : List ℕ) (requests : List Request) → AreRequests text requests → AllByRecursion (λ request. IsWrittenCall request.name request.args) requests }
{}

/// A name is a name of the language of workloads: a word that is none of the grammar's.
pub fn names_are_those_of_workloads()
    ensures word { (word : List ℕ) → IsTrue (is_name word) → IsWord word × IsFalse (is_reserved word) }
    ensures name { (word : List ℕ) → IsWord word → IsFalse (is_reserved word) → IsTrue (is_name word) }
{}
