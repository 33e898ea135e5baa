//! The text of an event's lines, and of a choice that found none.
ghost use Rattle.std.specs.Prelude.{◌≡◌, ◌+◌, ◌^◌, ◌<◌, ◌≤◌, ◌++◌, [], ◌∷◌, drop, length, Some, IfOk, OnOk};
ghost use Rattle.roc_report.specs.Line as line;
ghost use Rattle.roc_report.specs.ReportLine.{HaveSmallNumbers};
ghost use Rattle.roc_report.specs.Text.{lines_text};
ghost use Rattle.roc_replay.specs.Report.{during_shown, first_lines, untaken_lines, send_lines, answer_lines};

use roc_base::NoMemory;
use roc_msg::Envelope;
use roc_program::Workload;
use roc_report::{ReportLine, append};
use roc_world::{Event, Kept, Seen};
use std::alloc::Global;

/// The text of the lines of an event: what happened, the messages that were sent, which are those
/// behind the first `before`, and the reply, where a transaction has it now.
pub fn event_text(
    alloc: Global,
    workload: &Workload,
    event: &Event,
    seen: &Seen,
    sent: &[Envelope],
    before: usize,
) -> Result<Vec<u8>, NoMemory>
    requires { before ≤ length sent.now }
    ensures text { IfOk result (λ text. text.items
        ≡ lines_text (workload.now) (first_lines (Some event.now) seen.now ++ (send_lines (before + 1) (drop before sent.now) ++ answer_lines seen.now))) }
    ensures small { OnOk result (HaveSmallNumbers (first_lines (Some event.now) seen.now ++ (send_lines (before + 1) (drop before sent.now) ++ answer_lines seen.now))) }
{
    let mut text = Vec::new(alloc);
    push_first(alloc, &mut text, workload, event, seen)?;
    push_sends(
        alloc,
        &mut text,
        workload,
        before as u64 + 1,
        &sent[before..],
    )?;
    push_answer(alloc, &mut text, workload, seen)?;
    Ok(text)
}

/// The text of the line of a choice that found no message.
pub fn nothing_text(alloc: Global, workload: &Workload) -> Result<Vec<u8>, NoMemory>
    ensures { IfOk result (λ text. text.items ≡ lines_text workload.now (line.Nothing ∷ [])) }
{
    let mut text = Vec::new(alloc);
    append(alloc, &mut text, workload, &ReportLine::Nothing)?;
    Ok(text)
}

// Adds what happened, and what became of it. Nothing else is seen of a submission than that it was
// accepted or refused.
fn push_first(
    alloc: Global,
    text: &mut Vec<u8>,
    workload: &Workload,
    event: &Event,
    seen: &Seen,
) -> Result<(), NoMemory>
    ensures text { OnOk result (text.new.items ≡ text.old.items ++ lines_text (workload.now) (first_lines (Some event.now) seen.now)) }
    ensures small { OnOk result (HaveSmallNumbers (first_lines (Some event.now) seen.now)) }
{
    match event {
        Event::Submit { coord, proc, args } => {
            let line = match seen {
                Seen::Submitted(id) => ReportLine::Submit {
                    id: *id,
                    proc: *proc,
                    args,
                },
                Seen::Spent => ReportLine::Spent(*coord),
                Seen::Busy => ReportLine::Busy(*coord),
                Seen::Draining => ReportLine::Draining(*coord),
                Seen::NoProc => ReportLine::NoProc(*coord),
                Seen::Done
                | Seen::Answered { .. }
                | Seen::Gone
                | Seen::Skipped
                | Seen::Ignored(_) => {
                    return Ok(());
                }
            };
            append(alloc, text, workload, &line)
        }
        Event::Deliver(number) => {
            append(alloc, text, workload, &ReportLine::Deliver(*number))?;
            push_untaken(alloc, text, workload, seen)
        }
        Event::Tick(node) => append(alloc, text, workload, &ReportLine::Tick(*node)),
        Event::Stop { shard, during } => append(
            alloc,
            text,
            workload,
            &ReportLine::Stopped(*shard, during_shown(during)),
        ),
        Event::Drain(coord) => append(alloc, text, workload, &ReportLine::Drain(*coord)),
    }
}

// The message at which a server stopped, and how many of those that come of it were sent, where its record was kept.
fn during_shown(during: &Option<(u64, Kept)>) -> Option<(u64, Option<u32>)>
    ensures { result ≡ during_shown during.now }
{
    match during {
        None => None,
        Some((number, Kept::Lost)) => Some((*number, None)),
        Some((number, Kept::Sent(many))) => Some((*number, Some(*many))),
    }
}

// Adds that a message was skipped or came too late, or why it was ignored, if it was not taken.
fn push_untaken(
    alloc: Global,
    text: &mut Vec<u8>,
    workload: &Workload,
    seen: &Seen,
) -> Result<(), NoMemory>
    ensures text { OnOk result (text.new.items ≡ text.old.items ++ lines_text (workload.now) (untaken_lines seen.now)) }
    ensures small { OnOk result (HaveSmallNumbers (untaken_lines seen.now)) }
{
    match seen {
        Seen::Ignored(reason) => append(alloc, text, workload, &ReportLine::Ignored(*reason)),
        Seen::Gone => append(alloc, text, workload, &ReportLine::Gone),
        Seen::Skipped => append(alloc, text, workload, &ReportLine::Skipped),
        Seen::Submitted(_)
        | Seen::Spent
        | Seen::Busy
        | Seen::Draining
        | Seen::NoProc
        | Seen::Done
        | Seen::Answered { .. } => Ok(()),
    }
}

// Adds the messages that were sent, the first of them with this number.
fn push_sends(
    alloc: Global,
    text: &mut Vec<u8>,
    workload: &Workload,
    first: u64,
    sent: &[Envelope],
) -> Result<(), NoMemory>
    requires { first + length sent.now < 2 ^ 64 }
    ensures text { OnOk result (text.new.items ≡ text.old.items ++ lines_text (workload.now) (send_lines first sent.now)) }
    ensures small { OnOk result (HaveSmallNumbers (send_lines first sent.now)) }
{
    for (index, sent) in sent.iter().enumerate() {
        let number = first + index as u64;
        append(alloc, text, workload, &ReportLine::Send { number, sent })?;
    }
    Ok(())
}

// Adds the reply, if a transaction or a view has it now.
fn push_answer(
    alloc: Global,
    text: &mut Vec<u8>,
    workload: &Workload,
    seen: &Seen,
) -> Result<(), NoMemory>
    ensures text { OnOk result (text.new.items ≡ text.old.items ++ lines_text (workload.now) (answer_lines seen.now)) }
    ensures small { OnOk result (HaveSmallNumbers (answer_lines seen.now)) }
{
    match seen {
        Seen::Answered { id, reply } => append(
            alloc,
            text,
            workload,
            &ReportLine::Answer { id: *id, reply },
        ),
        Seen::Submitted(_)
        | Seen::Spent
        | Seen::Busy
        | Seen::Draining
        | Seen::NoProc
        | Seen::Done
        | Seen::Gone
        | Seen::Skipped
        | Seen::Ignored(_) => Ok(()),
    }
}
