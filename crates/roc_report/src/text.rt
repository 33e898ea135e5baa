//! The text of a line.
ghost use Rattle.std.specs.Prelude.{◌≡◌, ◌++◌, map, OnOk, OnErr, codes};
ghost use Rattle.std.specs.Fmt.{decimal};
ghost use Rattle.std.specs.Option.{option_to_list};
ghost use Rattle.std.specs.String.{string_bytes};
ghost use Rattle.roc_base.specs.Node.{node_text};
ghost use Rattle.roc_program.specs.LookUps.{procedure_name, table_name, column_name};
ghost use Rattle.roc_report.specs.Line.{Row};
ghost use Rattle.roc_report.specs.ReportLine.{HasSmallNumbers};
ghost use Rattle.roc_report.specs.Shown.{message_kind, named_by, edges_of, facts_of, shown_message, shown};
ghost use Rattle.roc_report.specs.Text.{numbers_text, ids_text, edges_text, facts_text, message_kind_text, spaced, during_text, message_text, key_text, cell_text, words_of, line_text};

use crate::ReportLine;
use crate::small::has_small_numbers;
use crate::spelling::{push_edge, push_id, push_number};
use roc_base::{Edge, NoMemory, Node, TxnId};
use roc_depgraph::KnownList;
use roc_msg::{Envelope, Msg};
use roc_program::Workload;
use roc_rows::Cell;
use std::alloc::{AllocError, Global};

/// Adds a line of a report, with a line feed at its end. Numbers of procedures, tables and columns
/// that the workload does not have are shown as no name. `NoMemory` leaves the text as it was.
/// The numbers of a line have at most 64 bits.
pub fn append(
    alloc: Global,
    into: &mut Vec<u8>,
    workload: &Workload,
    line: &ReportLine,
) -> Result<(), NoMemory>
    ensures ok { OnOk result (into.new.items ≡ into.old.items ++ line_text workload.now (shown line.now)) }
    ensures err { OnErr result (into.new.items ≡ into.old.items) }
    ensures small { HasSmallNumbers (shown line.now) }
{
    has_small_numbers(line);
    let mut text = String::new(alloc);
    push_words(&mut text, workload, line)?;
    text.push('\n')?;
    into.extend_from_slice(text.as_bytes())?;
    Ok(())
}

// Adds a line without its end.
fn push_words(text: &mut String, workload: &Workload, line: &ReportLine) -> Result<(), AllocError>
    ensures { OnOk result (string_bytes text.new ≡ string_bytes text.old ++ words_of workload.now (shown line.now)) }
{
    match line {
        ReportLine::Submit { id, proc, args } => {
            write!(text, "submit {id} {}", procedure_name(workload, *proc))?;
            push_numbers(text, args.as_slice())
        }
        ReportLine::Busy(coord) => write!(text, "busy {coord}"),
        ReportLine::Spent(coord) => write!(text, "spent {coord}"),
        ReportLine::Deliver(number) => push_counted(text, "deliver ", *number),
        ReportLine::Nothing => text.push_str("none"),
        ReportLine::Tick(node) => write!(text, "tick {node}"),
        ReportLine::Stopped(shard, during) => {
            let node = Node::Server(*shard);
            write!(text, "stop {node}")?;
            push_during(text, *during)
        }
        ReportLine::Drain(coord) => {
            let node = Node::Coord(*coord);
            write!(text, "drain {node}")
        }
        ReportLine::Draining(coord) => write!(text, "draining {coord}"),
        ReportLine::NoProc(coord) => write!(text, "noproc {coord}"),
        ReportLine::Skipped => text.push_str("skipped"),
        ReportLine::Gone => text.push_str("gone"),
        ReportLine::Ignored(reason) => write!(text, "ignored {reason}"),
        ReportLine::Send { number, sent } => push_sent(text, *number, sent),
        ReportLine::Answer { id, reply } => {
            write!(text, "answer {id}")?;
            push_numbers(text, reply.as_slice())
        }
        ReportLine::Order(ids) => {
            text.push_str("order")?;
            push_ids(text, ids)
        }
        ReportLine::Row { cell, value } => push_row(text, workload, **cell, *value),
        ReportLine::Pending(id) => write!(text, "pending {id}"),
        ReportLine::End {
            answered,
            pending,
            messages,
        } => write!(
            text,
            "end {answered} answered {pending} pending {messages} messages"
        ),
    }
}

// Adds a word and a number.
fn push_counted(text: &mut String, word: &str, number: u64) -> Result<(), AllocError>
    ensures { OnOk result (string_bytes text.new ≡ string_bytes text.old ++ word.now ++ decimal number) }
{
    text.push_str(word)?;
    push_number(text, number)
}

// Adds the message at which a server stopped, if any, and how many of those that come of it were sent.
fn push_during(text: &mut String, during: Option<(u64, Option<u32>)>) -> Result<(), AllocError>
    ensures { OnOk result (string_bytes text.new ≡ string_bytes text.old ++ during_text during) }
{
    match during {
        None => Ok(()),
        Some((number, None)) => write!(text, " {number} none"),
        Some((number, Some(many))) => write!(text, " {number} {many}"),
    }
}

// Adds numbers, a space before each.
fn push_numbers(text: &mut String, numbers: &[i64]) -> Result<(), AllocError>
    ensures { OnOk result (string_bytes text.new ≡ string_bytes text.old ++ numbers_text numbers.now) }
{
    for number in numbers {
        write!(text, " {number}")?;
    }
    Ok(())
}

// Adds ids, a space before each.
fn push_ids(text: &mut String, ids: &[TxnId]) -> Result<(), AllocError>
    ensures { OnOk result (string_bytes text.new ≡ string_bytes text.old ++ ids_text ids.now) }
{
    for id in ids {
        text.push(' ')?;
        push_id(text, *id)?;
    }
    Ok(())
}

// Adds predecessors, a space before each.
fn push_edges(text: &mut String, edges: &[Edge]) -> Result<(), AllocError>
    ensures { OnOk result (string_bytes text.new ≡ string_bytes text.old ++ edges_text edges.now) }
{
    for edge in edges {
        push_edge(text, *edge)?;
    }
    Ok(())
}

// Adds the transactions of facts, a space and a + before each.
fn push_facts(text: &mut String, facts: &[KnownList]) -> Result<(), AllocError>
    ensures { OnOk result (string_bytes text.new ≡ string_bytes text.old ++ facts_text (map (λ fact. fact.of) facts.now)) }
{
    for fact in facts {
        text.push_str(" +")?;
        push_id(text, fact.of)?;
    }
    Ok(())
}

// The word of a message's kind.
fn message_kind_text(msg: &Msg) -> &'static str
    ensures { result.now ≡ message_kind_text (message_kind msg.now) }
{
    match msg {
        Msg::Start { .. } => "start",
        Msg::StartOk { .. } => "startok",
        Msg::Commit { .. } => "commit",
        Msg::CommitOk { .. } => "commitok",
        Msg::Fetch { .. } => "fetch",
        Msg::Known { .. } => "known",
        Msg::Stop => "stop",
        Msg::Ended { .. } => "ended",
        Msg::Settled { .. } => "settled",
        Msg::Read { .. } => "read",
        Msg::ReadOk { .. } => "readok",
        Msg::Drained { .. } => "drained",
        Msg::Switched { .. } => "switched",
    }
}

/// What stands in the id's place: the transaction that a message is of, or the mark that it tells.
pub(crate) fn named_by(msg: &Msg) -> Option<TxnId>
    ensures { result ≡ named_by msg.now }
{
    match msg {
        Msg::Ended { coord, below } => Some(TxnId {
            coord: *coord,
            seq: *below,
        }),
        Msg::Drained { upto } | Msg::Switched { upto, .. } => Some(*upto),
        Msg::Start { .. }
        | Msg::StartOk { .. }
        | Msg::Commit { .. }
        | Msg::CommitOk { .. }
        | Msg::Fetch { .. }
        | Msg::Known { .. }
        | Msg::Stop
        | Msg::Settled { .. }
        | Msg::Read { .. }
        | Msg::ReadOk { .. } => msg.id(),
    }
}

/// The predecessors that a message tells of its own transaction.
pub(crate) fn edges_of(msg: &Msg) -> &[Edge]
    ensures { result.now ≡ edges_of msg.now }
{
    match msg {
        Msg::StartOk { edges, .. } | Msg::Commit { edges, .. } | Msg::Known { edges, .. } => {
            edges.as_slice()
        }
        Msg::Start { .. }
        | Msg::CommitOk { .. }
        | Msg::Fetch { .. }
        | Msg::Stop
        | Msg::Ended { .. }
        | Msg::Settled { .. }
        | Msg::Read { .. }
        | Msg::ReadOk { .. }
        | Msg::Drained { .. }
        | Msg::Switched { .. } => &[],
    }
}

/// The lists that travel along with a message.
pub(crate) fn facts_of(msg: &Msg) -> &[KnownList]
    ensures { map (λ fact. fact.of) result.now ≡ facts_of msg.now }
{
    match msg {
        Msg::StartOk { facts, .. } | Msg::Commit { facts, .. } => facts.as_slice(),
        Msg::Start { .. }
        | Msg::CommitOk { .. }
        | Msg::Fetch { .. }
        | Msg::Known { .. }
        | Msg::Stop
        | Msg::Ended { .. }
        | Msg::Settled { .. }
        | Msg::Read { .. }
        | Msg::ReadOk { .. }
        | Msg::Drained { .. }
        | Msg::Switched { .. } => &[],
    }
}

// Adds a message: its number, what it is, its id or mark, sender and receiver, its predecessors and facts.
fn push_sent(text: &mut String, number: u64, sent: &Envelope) -> Result<(), AllocError>
    ensures { OnOk result (string_bytes text.new ≡ string_bytes text.old ++ codes "send " ++ decimal number ++ spaced (message_text (shown_message sent.now))) }
{
    push_counted(text, "send ", number)?;
    text.push(' ')?;
    text.push_str(message_kind_text(&sent.msg))?;
    push_named(text, named_by(&sent.msg))?;
    push_nodes(text, sent.from, sent.to)?;
    push_edges(text, edges_of(&sent.msg))?;
    push_facts(text, facts_of(&sent.msg))
}

// Adds an id, a space before it, where there is one.
fn push_named(text: &mut String, named: Option<TxnId>) -> Result<(), AllocError>
    ensures { OnOk result (string_bytes text.new ≡ string_bytes text.old ++ ids_text (option_to_list named)) }
{
    match named {
        Some(id) => push_ids(text, &[id]),
        None => Ok(()),
    }
}

// Adds a sender and a receiver, a space before each.
fn push_nodes(text: &mut String, from: Node, to: Node) -> Result<(), AllocError>
    ensures { OnOk result (string_bytes text.new ≡ string_bytes text.old ++ spaced (node_text from) ++ spaced (node_text to)) }
{
    write!(text, " {from} {to}")
}

// Adds a cell and its value.
fn push_row(
    text: &mut String,
    workload: &Workload,
    cell: Cell,
    value: i64,
) -> Result<(), AllocError>
    ensures { OnOk result (string_bytes text.new ≡ string_bytes text.old ++ words_of workload.now (Row cell value)) }
{
    text.push_str("row ")?;
    push_cell(text, workload, cell)?;
    write!(text, " {value}")
}

// Adds where a cell is.
fn push_cell(text: &mut String, workload: &Workload, cell: Cell) -> Result<(), AllocError>
    ensures { OnOk result (string_bytes text.new ≡ string_bytes text.old ++ cell_text workload.now cell) }
{
    let (place, id) = (cell.place, cell.id);
    let table = table_name(workload, cell.table);
    let column = column_name(workload, cell.table, cell.column);
    write!(text, "{table}[{place}")?;
    push_key(text, id.as_slice())?;
    write!(text, "].{column}")
}

// Adds the integers of an id, a comma before each.
fn push_key(text: &mut String, id: &[i64]) -> Result<(), AllocError>
    ensures { OnOk result (string_bytes text.new ≡ string_bytes text.old ++ key_text id.now) }
{
    for integer in id {
        write!(text, ",{integer}")?;
    }
    Ok(())
}

/// The name of a procedure, if it exists.
pub(crate) fn procedure_name(workload: &Workload, proc: u16) -> &str
    ensures { result.now ≡ procedure_name workload.now proc }
{
    if usize::from(proc) < workload.procedures().len() {
        workload.procedure_name(proc)
    } else {
        ""
    }
}

// The name of a table, if it exists.
fn table_name(workload: &Workload, table: u8) -> &str
    ensures { result.now ≡ table_name workload.now table }
{
    if usize::from(table) < workload.tables().len() {
        workload.table_name(table)
    } else {
        ""
    }
}

// The name of a column, if it exists.
fn column_name(workload: &Workload, table: u8, column: u8) -> &str
    ensures { result.now ≡ column_name workload.now table column }
{
    if usize::from(table) < workload.tables().len()
        && usize::from(column) < workload.tables()[usize::from(table)].columns.len()
    {
        workload.column_name(table, column)
    } else {
        ""
    }
}
