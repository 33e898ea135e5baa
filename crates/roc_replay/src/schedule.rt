//! A whole replay.
ghost use Rattle.std.specs.Prelude.{◌≡◌, ◌<◌, List};
ghost use Rattle.std.specs.Option.{option_copied};
ghost use Rattle.roc_epoch.specs.Files.{IsNextOf};
ghost use Rattle.roc_io.specs.Cause.{HasCause, last_count};
ghost use Rattle.roc_replay.specs.declared.asked.BoundLine.{BoundLine};
ghost use Rattle.roc_replay.specs.BoundLine.{IsScheduleOf};
ghost use Rattle.roc_replay.specs.Ended.{IfDone, IfText, OnSinkFault, OnNoMemory, IsWhole, is_sink_fault, IsReplayed, IsTextFault, IsCut, IsUnfinished};
ghost use Rattle.roc_replay.specs.Pieces.{GoesOutInPieces};
ghost use Rattle.roc_replay.specs.Played.{AsksOnlySent};

use crate::Ended;
use crate::asking::parse_asked;
use crate::play::play;
use roc_epoch::Next;
use roc_io::Sink;
use roc_plan::Plan;
use roc_sched::TextFault;
use roc_sched::laws::{lines_are_unique, texts_are_right_or_wrong};
use std::alloc::Global;

/// Replays a schedule on the real nodes, which begin with a plan and may go over to the next one, and writes the report. Where there is a next one
/// there are as many coordinators as it is for, and else 16. The lines of the schedule are judged by the last plan that there is, which also names what the
/// report shows. The lines of an event go out in one piece after it, the closing lines in one piece at the end.
pub fn replay<S: Sink>(
    alloc: Global,
    plan: &Plan,
    next: Option<&Next>,
    schedule: &[u8],
    sink: &mut S,
) -> Ended
    requires next { IsNextOf plan.now (option_copied next) }
    // Done: the sink took the report of the run of exactly this schedule, the summary is that of its end line, and its lines explain
    // themselves: its one `order` line is a serial witness of the history that its own `submit` and `answer` lines show. And no id of the next
    // file stands there before one of the first.
    ensures done { IfDone result (λ summary. IsReplayed plan.now (option_copied next.entry) schedule.now summary (S.taken sink.old) (S.taken sink.new)) }
    // The text is blamed exactly as it deserves: at the first line that is none, else at the first that does not fit the last plan, and
    // nothing is written; else at the first that asks for a message that was not sent yet, or not to the server that is to stop at it,
    // and the lines before it are written.
    ensures text { IfText result (λ line fault. IsTextFault plan.now (option_copied next.entry) schedule.now line fault (S.taken sink.old) (S.taken sink.new)) }
    // The sink is blamed only where its count of failures rose, and no other end leaves that count risen.
    ensures sink { HasCause (is_sink_fault result) (S.faults sink.old) (S.faults sink.new) }
    // ..and then it took a front of the text that was to be written, behind all that was to be written before.
    ensures cut { OnSinkFault result (IsCut plan.now (option_copied next.entry) schedule.now (S.taken sink.old) (S.taken sink.new)) }
    // Where memory ran out, the sink took the text of the lines before, and of no line a part.
    ensures unfinished { OnNoMemory result (IsUnfinished plan.now (option_copied next.entry) schedule.now (S.taken sink.old) (S.taken sink.new)) }
    // All that comes of a line of the schedule went out in one write, and the closing lines in one behind them.
    ensures pieces { GoesOutInPieces plan.now (option_copied next.entry) schedule.now (S.pieces sink.old) (S.pieces sink.new) result }
    // A schedule of the last plan that asks only for what was sent is played whole, where no failure is counted and memory suffices.
    ensures complete { (lines : List BoundLine) → IsScheduleOf plan.now (option_copied next.entry) schedule.now lines → AsksOnlySent plan.now (option_copied next.entry) lines
        → S.faults sink.new ≡ S.faults sink.old → S.faults sink.old < last_count → IsWhole result }
{
    lines_are_unique();
    texts_are_right_or_wrong();
    let asked = match parse_asked(alloc, plan, next, schedule) {
        Ok(asked) => asked,
        Err(TextFault::At { line, what }) => return Ended::Text { line, what },
        Err(TextFault::NoMemory) => return Ended::NoMemory,
    };
    play(alloc, plan, next, asked.as_slice(), sink)
}
