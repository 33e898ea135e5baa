//! The lines of a log behind its first.

ghost use Rattle.std.specs.Prelude.{◌≡◌, false, IfOk};
ghost use Rattle.std.specs.Option.{option_map};
ghost use Rattle.roc_sched.specs.Each.{each};
ghost use Rattle.roc_sched.specs.Numbers.{integer_of};
ghost use Rattle.roc_log.specs.declared.line.LogLine.TheVariants.{In, Out};
ghost use Rattle.roc_log.specs.Words.{id_of, id_of_parts};
ghost use Rattle.roc_log.specs.Reading.{or_word, one_datagram, submission_of, answer_of, tick_of, coordinator_line, line_of, further_line, ends};
ghost use Rattle.roc_log.specs.Inner.Given.{Gives, GivesAt, views, is_server, lines_read};

use crate::call::call_of;
use crate::datagram::one_datagram;
use crate::fault::{LineFault, LogFault, What};
use crate::line::LogLine;
use crate::parts::parts_of;
use roc_base::{Node, Nums, TxnId};
use roc_program::Workload;
use roc_sched::{integer_of, is_name, is_word, number_up_to};
use roc_sequence::Sequence;
use std::alloc::Global;

fn integers_of(alloc: Global, words: &[&[u8]]) -> Result<Nums, LineFault>
    ensures { Gives (λ numbers. numbers) result (or_word (each integer_of (views words.now))) }
{
    let mut numbers = Nums::new(alloc);
    for word in words {
        match integer_of(word) {
            Some(n) => numbers.push(n)?,
            None => return Err(LineFault::Is(What::Word)),
        }
    }
    Ok(numbers)
}

/// `NAME A1 A2 ..`
fn submission_of(alloc: Global, workload: &Workload, words: &[&[u8]]) -> Result<LogLine, LineFault>
    ensures { Gives (λ line. line) result (submission_of workload.now (views words.now)) }
{
    match words {
        [name, args @ ..] => {
            if !is_name(name) {
                return Err(LineFault::Is(What::Word));
            }
            match integers_of(alloc, args) {
                Ok(args) => match call_of(workload, name, args) {
                    Ok(line) => Ok(line),
                    Err(what) => Err(LineFault::Is(what)),
                },
                Err(fault) => Err(fault),
            }
        }
        _ => Err(LineFault::Is(What::Word)),
    }
}

/// `C` and `S`
fn id_of_parts(parts: &[&[u8]]) -> Option<TxnId>
    ensures { result ≡ id_of_parts (views parts.now) }
{
    match parts {
        [coord, seq] => {
            let coord = number_up_to(coord, 15)?;
            let seq = number_up_to(seq, u64::from(u32::MAX))?;
            Some(TxnId {
                coord: coord as u16,
                seq: seq as u32,
            })
        }
        _ => None,
    }
}

/// `C.S`
#[tactic(auto, unfolding(crate::specs::Words::id_of))]
fn id_of(alloc: Global, word: &[u8]) -> Result<TxnId, LineFault>
    ensures { Gives (λ id. id) result (or_word (id_of word.now)) }
{
    let parts = parts_of(alloc, word, b'.')?;
    match id_of_parts(&parts) {
        Some(id) => Ok(id),
        None => Err(LineFault::Is(What::Word)),
    }
}

/// `C.S V1 V2 ..`
fn answer_of(alloc: Global, words: &[&[u8]]) -> Result<LogLine, LineFault>
    ensures { Gives (λ line. line) result (or_word (answer_of (views words.now))) }
{
    match words {
        [id, values @ ..] => match id_of(alloc, id) {
            Ok(id) => match integers_of(alloc, values) {
                Ok(reply) => Ok(LogLine::Answer { id, reply }),
                Err(fault) => Err(fault),
            },
            Err(fault) => Err(fault),
        },
        _ => Err(LineFault::Is(What::Word)),
    }
}

/// A line that stands in a coordinator's log alone.
fn coordinator_line(
    alloc: Global,
    workload: &Workload,
    node: Node,
    word: &[u8],
    words: &[&[u8]],
) -> Result<(LogLine, bool), LineFault>
    ensures line { Gives (λ x. x.0) result (coordinator_line workload.now node word.now (views words.now)) }
    ensures ends { IfOk result (λ x. x.1 ≡ ends node x.0) }
{
    let Node::Coord(_) = node else {
        return Err(LineFault::Is(What::Word));
    };
    let read = if is_word(word, "submit") {
        submission_of(alloc, workload, words)
    } else if is_word(word, "answer") {
        answer_of(alloc, words)
    } else {
        Err(LineFault::Is(What::Word))
    };
    match read {
        Ok(line) => Ok((line, false)),
        Err(fault) => Err(fault),
    }
}

fn is_server(node: Node) -> bool
    ensures { result ≡ is_server node }
{
    match node {
        Node::Server(_) => true,
        Node::Coord(_) => false,
    }
}

/// A datagram that came.
fn in_line(
    alloc: Global,
    tag: &[u8; 8],
    node: Node,
    words: &[&[u8]],
) -> Result<(LogLine, bool), LineFault>
    ensures line { Gives (λ x. x.0) result (or_word (option_map In (one_datagram tag.now (views words.now)))) }
    ensures ends { IfOk result (λ x. x.1 ≡ ends node x.0) }
{
    match one_datagram(alloc, tag, words) {
        Ok((bytes, stop)) => Ok((LogLine::In(bytes), stop && is_server(node))),
        Err(fault) => Err(fault),
    }
}

/// A datagram that was sent.
fn out_line(
    alloc: Global,
    tag: &[u8; 8],
    node: Node,
    words: &[&[u8]],
) -> Result<(LogLine, bool), LineFault>
    ensures line { Gives (λ x. x.0) result (or_word (option_map Out (one_datagram tag.now (views words.now)))) }
    ensures ends { IfOk result (λ x. x.1 ≡ ends node x.0) }
{
    match one_datagram(alloc, tag, words) {
        Ok((bytes, _)) => Ok((LogLine::Out(bytes), false)),
        Err(fault) => Err(fault),
    }
}

fn tick_line(node: Node, words: &[&[u8]]) -> Result<(LogLine, bool), LineFault>
    ensures line { Gives (λ x. x.0) result (or_word (tick_of (views words.now))) }
    ensures ends { IfOk result (λ x. x.1 ≡ ends node x.0) }
{
    match words {
        [] => Ok((LogLine::Tick, false)),
        _ => Err(LineFault::Is(What::Word)),
    }
}

/// The line of these words, and whether nothing may stand behind it.
#[tactic(auto, unfolding(crate::specs::Reading::line_of))]
fn line_of(
    alloc: Global,
    workload: &Workload,
    tag: &[u8; 8],
    node: Node,
    words: &[&[u8]],
) -> Result<(LogLine, bool), LineFault>
    ensures line { Gives (λ x. x.0) result (line_of workload.now tag.now node (views words.now)) }
    ensures ends { IfOk result (λ x. x.1 ≡ ends node x.0) }
{
    match words.split_first() {
        Some((word, words)) => {
            if is_word(word, "in") {
                in_line(alloc, tag, node, words)
            } else if is_word(word, "tick") {
                tick_line(node, words)
            } else if is_word(word, "out") {
                out_line(alloc, tag, node, words)
            } else {
                coordinator_line(alloc, workload, node, word, words)
            }
        }
        None => Err(LineFault::Is(What::Word)),
    }
}

/// A line behind the first, and whether nothing may stand behind it.
fn further_line(
    alloc: Global,
    workload: &Workload,
    tag: &[u8; 8],
    node: Node,
    ended: bool,
    line: &[u8],
) -> Result<(LogLine, bool), LineFault>
    ensures line { Gives (λ x. x.0) result (further_line workload.now tag.now node ended line.now) }
    ensures ends { IfOk result (λ x. x.1 ≡ ends node x.0) }
{
    if ended {
        return Err(LineFault::Is(What::Word));
    }
    let words = parts_of(alloc, line, b' ')?;
    line_of(alloc, workload, tag, node, &words)
}

/// The lines behind the first, or their first fault.
pub(crate) fn further_lines(
    alloc: Global,
    workload: &Workload,
    tag: &[u8; 8],
    node: Node,
    lines: &[&[u8]],
) -> Result<Sequence<LogLine>, LogFault>
    ensures { GivesAt result (lines_read workload.now tag.now node false 2 (views lines.now)) }
{
    let mut read = Sequence::new(alloc);
    let mut ended = false;
    for (index, line) in lines.iter().enumerate() {
        match further_line(alloc, workload, tag, node, ended, line) {
            Ok((found, last)) => {
                read.push(found)?;
                ended = last;
            }
            Err(fault) => return Err(fault.at(index as u64 + 2)),
        }
    }
    Ok(read)
}
