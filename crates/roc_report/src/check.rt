//! The text of a line of `check`.
ghost use Rattle.std.specs.Prelude.{◌≡◌, ◌++◌, OnOk, OnErr};
ghost use Rattle.std.specs.String.{string_bytes};
ghost use Rattle.roc_program.specs.Pieces.{piece_of};
ghost use Rattle.roc_report.specs.Checked as line;
ghost use Rattle.roc_report.specs.Checked.{view_text, class_text, names_text, instance_text, piece_text, vertex_text, cycle_text, checked_words, checked_text};
ghost use Rattle.roc_report.specs.Shown.{shown_check};
ghost use Rattle.roc_report.specs.Text.{spaced};

use crate::CheckLine;
use crate::text::procedure_name;
use roc_base::NoMemory;
use roc_program::{PieceId, Workload, is_view};
use roc_scgraph::{Instance, Vertex};
use std::alloc::{AllocError, Global};

/// Adds a line of `check`, with a line feed at its end. Procedures and pieces that the workload does not have are shown as no
/// name. `NoMemory` leaves the text as it was.
pub fn append_check(
    alloc: Global,
    into: &mut Vec<u8>,
    workload: &Workload,
    line: &CheckLine,
) -> Result<(), NoMemory>
    ensures ok { OnOk result (into.new.items ≡ into.old.items ++ checked_text workload.now (shown_check line.now)) }
    ensures err { OnErr result (into.new.items ≡ into.old.items) }
{
    let mut text = String::new(alloc);
    push_words(&mut text, workload, line)?;
    text.push('\n')?;
    into.extend_from_slice(text.as_bytes())?;
    Ok(())
}

// Adds a line without its end.
fn push_words(text: &mut String, workload: &Workload, line: &CheckLine) -> Result<(), AllocError>
    ensures { OnOk result (string_bytes text.new ≡ string_bytes text.old ++ checked_words workload.now (shown_check line.now)) }
{
    match line {
        CheckLine::Shards(count) => write!(text, "shards {count}"),
        CheckLine::Proc(proc) => push_procedure(text, workload, *proc),
        CheckLine::Piece { id, standing } => {
            write!(text, "piece {} {standing}", piece_name(workload, *id))
        }
        CheckLine::Group {
            proc,
            number,
            immediate,
            pieces,
        } => push_group(text, workload, *proc, *number, *immediate, pieces),
        CheckLine::Conflict(first, second) => push_conflict(text, workload, *first, *second),
        CheckLine::Accepted => text.push_str("accepted"),
        CheckLine::Apart { p, q, cycle } => push_apart(text, workload, *p, *q, cycle),
        CheckLine::Blocked { p, q, x, cycle } => push_blocked(text, workload, *p, *q, *x, cycle),
    }
}

// Adds a procedure: its name, and whether it is a view.
fn push_procedure(text: &mut String, workload: &Workload, proc: u16) -> Result<(), AllocError>
    ensures { OnOk result (string_bytes text.new ≡ string_bytes text.old ++ checked_words workload.now (line.Proc proc)) }
{
    write!(
        text,
        "proc {}{}",
        procedure_name(workload, proc),
        view_word(workload, proc)
    )
}

// What stands behind the name of a view.
fn view_word(workload: &Workload, proc: u16) -> &'static str
    ensures { result.now ≡ view_text workload.now proc }
{
    if is_view(workload, proc) { " view" } else { "" }
}

// Adds a group: its number, its class, and the names of its pieces.
fn push_group(
    text: &mut String,
    workload: &Workload,
    proc: u16,
    number: u16,
    immediate: bool,
    pieces: &[u16],
) -> Result<(), AllocError>
    ensures { OnOk result (string_bytes text.new ≡ string_bytes text.old ++ checked_words workload.now (line.Group proc number immediate pieces.now)) }
{
    write!(text, "group {number} {}", class(immediate))?;
    push_names(text, workload, proc, pieces)
}

fn class(immediate: bool) -> &'static str
    ensures { result.now ≡ class_text immediate }
{
    if immediate { "immediate" } else { "deferrable" }
}

// Adds the names of pieces of a procedure, a space before each.
fn push_names(
    text: &mut String,
    workload: &Workload,
    proc: u16,
    pieces: &[u16],
) -> Result<(), AllocError>
    ensures { OnOk result (string_bytes text.new ≡ string_bytes text.old ++ names_text workload.now proc pieces.now) }
{
    for piece in pieces {
        let name = piece_name(
            workload,
            PieceId {
                proc,
                piece: *piece,
            },
        );
        write!(text, " {name}")?;
    }
    Ok(())
}

// Adds a conflict of two pieces.
fn push_conflict(
    text: &mut String,
    workload: &Workload,
    first: PieceId,
    second: PieceId,
) -> Result<(), AllocError>
    ensures { OnOk result (string_bytes text.new ≡ string_bytes text.old ++ checked_words workload.now (line.Conflict first second)) }
{
    text.push_str("conflict ")?;
    push_two(text, workload, first, second)
}

// Adds two pieces, a space between them.
fn push_two(
    text: &mut String,
    workload: &Workload,
    first: PieceId,
    second: PieceId,
) -> Result<(), AllocError>
    ensures { OnOk result (string_bytes text.new ≡ string_bytes text.old ++ (piece_text workload.now first ++ spaced (piece_text workload.now second))) }
{
    push_piece(text, workload, first)?;
    text.push(' ')?;
    push_piece(text, workload, second)
}

// Adds that two pieces are apart, and the cycle that shows why they may not be.
fn push_apart(
    text: &mut String,
    workload: &Workload,
    p: PieceId,
    q: PieceId,
    cycle: &[Vertex],
) -> Result<(), AllocError>
    ensures { OnOk result (string_bytes text.new ≡ string_bytes text.old ++ checked_words workload.now (line.Apart p q cycle.now)) }
{
    text.push_str("refused apart ")?;
    push_two(text, workload, p, q)?;
    push_cycle(text, workload, cycle)
}

// Adds that a piece is between two that may not be apart.
fn push_blocked(
    text: &mut String,
    workload: &Workload,
    p: PieceId,
    q: PieceId,
    x: PieceId,
    cycle: &[Vertex],
) -> Result<(), AllocError>
    ensures { OnOk result (string_bytes text.new ≡ string_bytes text.old ++ checked_words workload.now (line.Blocked p q x cycle.now)) }
{
    text.push_str("refused blocked ")?;
    push_two(text, workload, p, q)?;
    text.push_str(" by ")?;
    push_piece(text, workload, x)?;
    push_cycle(text, workload, cycle)
}

// Adds the vertices of a cycle, behind a colon and with a space before each.
fn push_cycle(text: &mut String, workload: &Workload, cycle: &[Vertex]) -> Result<(), AllocError>
    ensures { OnOk result (string_bytes text.new ≡ string_bytes text.old ++ cycle_text workload.now cycle.now) }
{
    text.push(':')?;
    for vertex in cycle {
        text.push(' ')?;
        push_vertex(text, workload, *vertex)?;
    }
    Ok(())
}

// Adds a piece of an instance.
fn push_vertex(text: &mut String, workload: &Workload, vertex: Vertex) -> Result<(), AllocError>
    ensures { OnOk result (string_bytes text.new ≡ string_bytes text.old ++ vertex_text workload.now vertex) }
{
    push_piece(text, workload, vertex.id())?;
    write!(text, "#{}", number(vertex.instance))
}

fn number(instance: Instance) -> &'static str
    ensures { result.now ≡ instance_text instance }
{
    match instance {
        Instance::First => "1",
        Instance::Second => "2",
    }
}

// Adds a piece, behind the name of its procedure.
fn push_piece(text: &mut String, workload: &Workload, id: PieceId) -> Result<(), AllocError>
    ensures { OnOk result (string_bytes text.new ≡ string_bytes text.old ++ piece_text workload.now id) }
{
    let (proc, piece) = (procedure_name(workload, id.proc), piece_name(workload, id));
    write!(text, "{proc}.{piece}")
}

// The name of a piece, if it exists.
fn piece_name(workload: &Workload, id: PieceId) -> &str
    ensures { result.now ≡ (piece_of workload.now id).name }
{
    match workload.procedures().get(usize::from(id.proc)) {
        Some(procedure) => match procedure.pieces.get(usize::from(id.piece)) {
            Some(piece) => piece.name.as_str(),
            None => "",
        },
        None => "",
    }
}
