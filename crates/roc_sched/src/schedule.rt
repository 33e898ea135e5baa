//! `parse_schedule` and `parse_requests`: from the bytes of a text to its lines.

ghost use Rattle.std.specs.Prelude.{◌≡◌, ◌≤◌, ◌+◌, List, length, take, option_map, IfOk, IfErr, OnOk};
ghost use Rattle.roc_sched.specs.declared.line.Line.{Line};
ghost use Rattle.roc_sched.specs.declared.line.Request.{Request};
ghost use Rattle.roc_sched.specs.Acts.{line_at, request_at};
ghost use Rattle.roc_sched.specs.Lines.{lines_of};
ghost use Rattle.roc_sched.specs.Schedule.{most_bytes, most_lines, IsSchedule, IsScheduleFault, AreRequests, IsRequestFault};
ghost use Rattle.roc_sched.specs.Answer.{AreItemsOf, IsFaultBy};
ghost use Rattle.roc_sched.specs.Inner.Reading.{GivesAt, IsTooLong, views, line_words, line_item, line_items, text_items};

use crate::Forms;
use crate::act::{act_of, request_at};
use crate::fault::{TextFault, What};
use crate::line::{Line, Request};
use crate::parts::{LINE_LIMIT, is_skipped, lines_of, words_of};
use std::alloc::Global;

/// How many bytes a text may have.
const TEXT_LIMIT: usize = 8_388_608;

/// The words of the line of a number, unless it is skipped.
fn words_at(alloc: Global, number: u32, bytes: &[u8]) -> Result<Option<Vec<&[u8]>>, TextFault>
    ensures { GivesAt (option_map (λ words. views words.items)) result (line_words number bytes.now) }
{
    if number > LINE_LIMIT {
        return Err(TextFault::At {
            line: number,
            what: What::Limit,
        });
    }
    if is_skipped(bytes) {
        return Ok(None);
    }
    let words = words_of(alloc, bytes)?;
    Ok(Some(words))
}

/// The line of these bytes and this number, unless it is skipped.
fn line_at(
    alloc: Global,
    shards: u8,
    forms: Forms,
    number: u32,
    bytes: &[u8],
) -> Result<Option<Line>, TextFault>
    ensures { GivesAt (λ line. line) result (line_item (line_at forms shards) number bytes.now) }
{
    let Some(words) = words_at(alloc, number, bytes)? else {
        return Ok(None);
    };
    match act_of(alloc, &words, shards, forms) {
        Ok(act) => Ok(Some(Line { number, act })),
        Err(fault) => Err(fault.at(number)),
    }
}

/// The request of these bytes and this number, unless its line is skipped.
fn request_of(alloc: Global, number: u32, bytes: &[u8]) -> Result<Option<Request>, TextFault>
    ensures { GivesAt (λ request. request) result (line_item request_at number bytes.now) }
{
    let Some(words) = words_at(alloc, number, bytes)? else {
        return Ok(None);
    };
    match request_at(alloc, number, &words) {
        Ok(request) => Ok(Some(request)),
        Err(fault) => Err(fault.at(number)),
    }
}

/// The lines of these bytes that are not skipped.
fn all_lines(
    alloc: Global,
    shards: u8,
    forms: Forms,
    lines: &[&[u8]],
) -> Result<Vec<Line>, TextFault>
    requires { length lines.now ≤ most_lines + 1 }
    ensures { GivesAt (λ read. read.items) result (line_items (line_at forms shards) 1 (views lines.now)) }
{
    let mut read = Vec::new(alloc);
    for (index, bytes) in lines.iter().enumerate() {
        if let Some(line) = line_at(alloc, shards, forms, index as u32 + 1, bytes)? {
            read.push(line)?;
        }
    }
    Ok(read)
}

/// The requests of these bytes.
fn all_requests(alloc: Global, lines: &[&[u8]]) -> Result<Vec<Request>, TextFault>
    requires { length lines.now ≤ most_lines + 1 }
    ensures { GivesAt (λ read. read.items) result (line_items request_at 1 (views lines.now)) }
{
    let mut read = Vec::new(alloc);
    for (index, bytes) in lines.iter().enumerate() {
        if let Some(request) = request_of(alloc, index as u32 + 1, bytes)? {
            read.push(request)?;
        }
    }
    Ok(read)
}

/// The lines of a text, where its bytes are not too many.
fn lines_within(alloc: Global, text: &[u8]) -> Result<Vec<&[u8]>, TextFault>
    ensures first { IfOk result (λ lines. views lines.items ≡ take (most_lines + 1) (lines_of text.now)) }
    ensures few { IfOk result (λ lines. length lines.items ≤ most_lines + 1) }
    ensures size { OnOk result (length text.now ≤ most_bytes) }
    ensures err { IfErr result (IsTooLong text.now) }
{
    if text.len() > TEXT_LIMIT {
        return Err(TextFault::At {
            line: 1,
            what: What::Limit,
        });
    }
    Ok(lines_of(alloc, text)?)
}

fn schedule_of(alloc: Global, text: &[u8], shards: u8, forms: Forms) -> Result<Vec<Line>, TextFault>
    ensures { GivesAt (λ read. read.items) result (text_items (line_at forms shards) text.now) }
{
    match lines_within(alloc, text) {
        Ok(lines) => all_lines(alloc, shards, forms, &lines),
        Err(fault) => Err(fault),
    }
}

fn requests_of(alloc: Global, text: &[u8]) -> Result<Vec<Request>, TextFault>
    ensures { GivesAt (λ read. read.items) result (text_items request_at text.now) }
{
    match lines_within(alloc, text) {
        Ok(lines) => all_requests(alloc, &lines),
        Err(fault) => Err(fault),
    }
}

/// The lines of a schedule for so many shards, of the forms that are taken: `docs/FORMATS.md` says what that is. Lines that are
/// skipped are left out, and count for the numbers of the others. What a name is a call of is judged
/// under a plan.
///
/// Of other bytes the first fault is named. `NoMemory` leaves nothing behind.
pub fn parse_schedule(
    alloc: Global,
    text: &[u8],
    shards: u8,
    forms: Forms,
) -> Result<Vec<Line>, TextFault>
    // What is taken is a schedule of these lines.
    ensures found { IfOk result (λ lines. IsSchedule forms shards text.now lines.items) }
    // A schedule is taken, unless memory runs out.
    ensures only { (lines : List Line) → IsSchedule forms shards text.now lines → AreItemsOf (λ read. read.items) lines result }
    // A fault is the first one of the text.
    ensures fault { IfErr result (IsFaultBy (IsScheduleFault forms shards text.now)) }
{
    schedule_of(alloc, text, shards, forms)
}

/// The requests of a request file: `docs/FORMATS.md` says what that is. Lines that are skipped are
/// left out, and count for the numbers of the others. What a name is a call of is judged under a
/// plan.
///
/// Of other bytes the first fault is named. `NoMemory` leaves nothing behind.
pub fn parse_requests(alloc: Global, text: &[u8]) -> Result<Vec<Request>, TextFault>
    // What is taken is a file of these requests.
    ensures found { IfOk result (λ requests. AreRequests text.now requests.items) }
    // A request file is taken, unless memory runs out.
    ensures only { (requests : List Request) → AreRequests text.now requests → AreItemsOf (λ read. read.items) requests result }
    // A fault is the first one of the text.
    ensures fault { IfErr result (IsFaultBy (IsRequestFault text.now)) }
{
    requests_of(alloc, text)
}
