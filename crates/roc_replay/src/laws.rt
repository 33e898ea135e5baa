//! What holds of the report of every run, of one file or of two. Each law is the contract of a function that does nothing.
ghost use Rattle.std.specs.Prelude.{◌≡◌, ℕ, ◌<◌, List, [], ◌∷◌, Option, map};
ghost use Rattle.std.specs.List.{AllByRecursion};
ghost use Rattle.roc_base.specs.declared.id.TxnId.{TxnId};
ghost use Rattle.roc_plan.specs.Accepted.{IsAccepted};
ghost use Rattle.roc_plan.specs.Groups.{Plan};
ghost use Rattle.roc_epoch.specs.declared.next.Next.{Next};
ghost use Rattle.roc_epoch.specs.Files.{IsNextOf};
ghost use Rattle.roc_growth.specs.Run.{Stepped, IsGrownRun};
ghost use Rattle.roc_growth.specs.World.{GrownWorld};
ghost use Rattle.roc_sched.specs.declared.fault.What.{What};
ghost use Rattle.roc_report.specs.ReportLine.{HasNames, NamesPartsOf};
ghost use Rattle.roc_report.specs.Reading.{IsReadInOneWay};
ghost use Rattle.roc_replay.specs.declared.asked.BoundLine.{BoundLine};
ghost use Rattle.roc_replay.specs.declared.ended.Summary.{Summary};
ghost use Rattle.roc_replay.specs.BoundLine.{IsScheduleOf, coordinators, last_program};
ghost use Rattle.roc_replay.specs.Ended.{AnswersWhatIsQuiet, AreFiled, IsReplayed, IsTextFault};
ghost use Rattle.roc_replay.specs.Played.{IsPlayed, AsksOnlySent};
ghost use Rattle.roc_replay.specs.Report.{report};
ghost use Rattle.roc_replay.specs.Readback.{orders_in, IsExplained, FilesStandApart};

use roc_growth::epochs::grown_runs_are_two;
use roc_growth::laws::{
    cells_are_in_their_place, cells_are_serial, files_stay_apart, ids_are_told_once,
    submissions_are_kept, witness_is_serial,
};
use roc_growth::quiet::{quiet_transactions_are_answered, quiet_views_are_answered};
use roc_growth::refusals::nothing_is_refused;
use roc_growth::worlds::{events_have_outcomes, grown_worlds_fit, step_is_one};
use roc_rows::laws::{entries_are_not_zero, reads_after_writes};
use roc_sched::laws::{lines_are_unique, lines_fit, texts_are_right_or_wrong};

/// The report of every run of accepted plans explains itself, under the program of the last one: its one `order` line is a serial witness of the history
/// that its own `submit` and `answer` lines show, of transactions and views, and it shows an answer for each submitted transaction of which, and of
/// whose ancestors, it shows every message as delivered, where it goes to a server behind the last stop of this; a skipped delivery counts where
/// the report shows an answer to what the message is of. Where it has no `pending`
/// line, its `row` lines are exactly the cells that are not 0 in that serial order, each with its number. No two `submit` lines have one id, an id has at most one `answer` line, behind its
/// `submit` line, and each `ignored` line says `stale`, directly behind a `deliver` line. And it shows an answer for each submitted transaction or
/// view that is quiet in the run, but for a view in its last round: the lines do not tell which groups a view waits for.
pub fn report_explains_itself()
    ensures explained { (plan : Plan) (next : Option Next) (coords : ℕ) (steps : List Stepped) (w : GrownWorld) → IsAccepted plan → IsNextOf plan next → IsGrownRun plan next coords steps w
        → IsExplained (last_program plan next) (report steps w) }
    ensures answers { (plan : Plan) (next : Option Next) (coords : ℕ) (steps : List Stepped) (w : GrownWorld) → IsAccepted plan → IsNextOf plan next → IsGrownRun plan next coords steps w
        → AnswersWhatIsQuiet plan next steps w (report steps w) }
{
    witness_is_serial();
    quiet_transactions_are_answered();
    quiet_views_are_answered();
    cells_are_serial();
    cells_are_in_their_place();
    submissions_are_kept();
    entries_are_not_zero();
    ids_are_told_once();
    nothing_is_refused();
}

/// The report of every run tells the files apart: of the id of each `submit` line its `drained` lines show whether it is of the second file, that is, whether
/// it was submitted at a coordinator that had switched; in the serial order each id runs by the program of its own file; and none of the second file stands
/// there before one of the first.
pub fn files_are_told_apart()
    ensures filed { (plan : Plan) (next : Option Next) (coords : ℕ) (steps : List Stepped) (w : GrownWorld) → IsAccepted plan → IsNextOf plan next → IsGrownRun plan next coords steps w
        → (order : List TxnId) → orders_in (report steps w) ≡ order ∷ [] → AreFiled plan next w (report steps w) order }
    ensures apart { (plan : Plan) (next : Option Next) (coords : ℕ) (steps : List Stepped) (w : GrownWorld) → IsAccepted plan → IsNextOf plan next → IsGrownRun plan next coords steps w
        → (order : List TxnId) → orders_in (report steps w) ≡ order ∷ [] → FilesStandApart (report steps w) order }
{
    grown_runs_are_two();
    witness_is_serial();
    files_stay_apart();
}

/// Each line of the report of every run of accepted plans names a procedure or a cell that the last program has, or none.
pub fn lines_name_parts()
    ensures { (plan : Plan) (next : Option Next) (coords : ℕ) (steps : List Stepped) (w : GrownWorld) → IsAccepted plan → IsNextOf plan next → IsGrownRun plan next coords steps w
        → AllByRecursion (NamesPartsOf (last_program plan next)) (report steps w) }
{
    reads_after_writes();
    entries_are_not_zero();
}

/// Whoever reads the bytes of a report as lines of a report reads the lines of the run's report and no others, where names tell the parts
/// of the last program apart.
pub fn reports_are_read_in_one_way()
    ensures { (plan : Plan) (next : Option Next) (schedule : List ℕ) (summary : Summary) (old new : Option (List ℕ)) → HasNames (last_program plan next)
        → (r : IsReplayed plan next schedule summary old new) → IsReadInOneWay (last_program plan next) r.lines }
{
    roc_report::laws::lines_are_unique();
}

/// Lines that are played are a run of the world, so that what `roc_growth` says of every run holds of it.
pub fn played_is_a_run()
    ensures { (plan : Plan) (next : Option Next) (lines : List BoundLine) (steps : List Stepped) (w : GrownWorld) → IsPlayed plan next lines steps w
        → IsGrownRun plan next (coordinators next) steps w }
{}

/// Lines that ask for the same have one run: the same steps lead to the same world. So schedules with the same lines,
/// however they are written, have one report and one summary.
pub fn report_is_one()
    ensures run { (plan : Plan) (next : Option Next) (lines others : List BoundLine) (steps same : List Stepped) (w v : GrownWorld)
        → map (λ l. l.wanted) lines ≡ map (λ l. l.wanted) others → IsPlayed plan next lines steps w → IsPlayed plan next others same v → (steps ≡ same) × (w ≡ v) }
    ensures schedules { (plan : Plan) (next : Option Next) (some other : List ℕ) (lines : List BoundLine) → IsScheduleOf plan next some lines → IsScheduleOf plan next other lines
        → (s t : Summary) (o n p q : Option (List ℕ)) (r : IsReplayed plan next some s o n) (z : IsReplayed plan next other t p q)
        → (r.lines ≡ z.lines) × (s ≡ t) }
{
    step_is_one();
    lines_are_unique();
}

/// A schedule can be played exactly where it asks only for what was sent. A plan has some shard.
pub fn sent_schedules_are_played()
    ensures played { (plan : Plan) (next : Option Next) (schedule : List ℕ) (lines : List BoundLine) → IsNextOf plan next → 0 < plan.program.shards → IsScheduleOf plan next schedule lines
        → AsksOnlySent plan next lines → (steps : List Stepped) × (w : GrownWorld) × IsPlayed plan next lines steps w }
    ensures sent { (plan : Plan) (next : Option Next) (lines : List BoundLine) (steps : List Stepped) (w : GrownWorld) → IsPlayed plan next lines steps w → AsksOnlySent plan next lines }
{
    events_have_outcomes();
    grown_worlds_fit();
    lines_fit();
    report_is_one();
}

/// Nothing is wrong with the text of a schedule that asks only for what was sent: it is one, each of its lines fits the last plan, and none asks
/// for a message that was not sent yet.
pub fn sent_schedules_have_no_fault()
    ensures { (plan : Plan) (next : Option Next) (schedule : List ℕ) (lines : List BoundLine) → IsScheduleOf plan next schedule lines → AsksOnlySent plan next lines
        → (number : ℕ) (fault : What) (old new : Option (List ℕ)) → IsTextFault plan next schedule number fault old new → ⊥ }
{
    lines_are_unique();
    texts_are_right_or_wrong();
}
