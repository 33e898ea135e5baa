//! The lines of a canonical text.

ghost use Rattle.std.specs.Prelude.{◌≡◌, [], ◌∷◌, ◌++◌, OnOk, map, codes};
ghost use Rattle.std.specs.List.{flat_map};
ghost use Rattle.std.specs.Fmt.{signed_decimal};
ghost use Rattle.std.specs.String.{string_bytes};
ghost use Rattle.roc_lang.specs.Tree.{name_tree, expression_tree, access_tree, statement_tree, piece_tree, procedure_tree, table_tree, init_tree};
ghost use Rattle.roc_lang_print.specs.Canonical.{separated_text, names_text, expression_text, id_text, access_text, statement_text, statement_line, class_text, head_text, piece_lines, opening_text};
ghost use Rattle.roc_lang_print.specs.Canonical.{procedure_lines, arity_text, table_line, cell_text, init_line, shards_line};

use crate::expression::push_expression;
use roc_lang::{Access, Expression, Init, Name, Piece, Procedure, Statement, Table};
use std::alloc::AllocError;

/// Adds names, and what stands between them.
fn push_names(text: &mut String, between: &str, names: &[Name]) -> Result<(), AllocError>
    ensures { OnOk result (string_bytes text.new ≡ string_bytes text.old ++ names_text between.now (map name_tree names.now)) }
{
    if let Some((first, others)) = names.split_first() {
        text.push_str(&first.text)?;
        push_others(text, between, others)?;
    }
    Ok(())
}

/// Adds names, with a text before each.
fn push_others(text: &mut String, between: &str, names: &[Name]) -> Result<(), AllocError>
    ensures { OnOk result (string_bytes text.new ≡ string_bytes text.old ++ flat_map (λ m. between.now ++ m.text) (map name_tree names.now)) }
{
    for name in names {
        text.push_str(between)?;
        text.push_str(&name.text)?;
    }
    Ok(())
}

/// Adds integers of an id, with a comma before each.
fn push_other_integers(text: &mut String, integers: &[Expression]) -> Result<(), AllocError>
    ensures { OnOk result (string_bytes text.new ≡ string_bytes text.old ++ flat_map (λ e. codes "," ++ expression_text e) (map expression_tree integers.now)) }
{
    for integer in integers {
        text.push_str(",")?;
        push_expression(text, integer)?;
    }
    Ok(())
}

/// Adds the integers of an id, with commas between.
fn push_id(text: &mut String, id: &[Expression]) -> Result<(), AllocError>
    ensures { OnOk result (string_bytes text.new ≡ string_bytes text.old ++ id_text (map expression_tree id.now)) }
{
    if let Some((first, others)) = id.split_first() {
        push_expression(text, first)?;
        push_other_integers(text, others)?;
    }
    Ok(())
}

fn push_access(text: &mut String, access: &Access) -> Result<(), AllocError>
    ensures { OnOk result (string_bytes text.new ≡ string_bytes text.old ++ access_text (access_tree access.now)) }
{
    text.push_str(&access.table.text)?;
    text.push_str("[")?;
    push_id(text, &access.id)?;
    text.push_str("].")?;
    text.push_str(&access.column.text)
}

fn push_statement(text: &mut String, statement: &Statement) -> Result<(), AllocError>
    ensures { OnOk result (string_bytes text.new ≡ string_bytes text.old ++ statement_text (statement_tree statement.now)) }
{
    match statement {
        Statement::Get { name, from } => {
            text.push_str("get ")?;
            text.push_str(&name.text)?;
            text.push_str(" = ")?;
            push_access(text, from)
        }
        Statement::Set { line: _, to, value } => {
            text.push_str("set ")?;
            push_access(text, to)?;
            text.push_str(" = ")?;
            push_expression(text, value)
        }
        Statement::Out(value) => {
            text.push_str("out ")?;
            push_expression(text, value)
        }
    }
}

fn push_statements(text: &mut String, statements: &[Statement]) -> Result<(), AllocError>
    ensures { OnOk result (string_bytes text.new ≡ string_bytes text.old ++ flat_map statement_line (map statement_tree statements.now)) }
{
    for statement in statements {
        text.push_str("    ")?;
        push_statement(text, statement)?;
        text.push_str(";\n")?;
    }
    Ok(())
}

/// The word that declares a piece.
fn class_of(piece: &Piece) -> &'static str
    ensures { result.now ≡ class_text piece.now.is_now }
{
    if piece.is_now { "now" } else { "later" }
}

/// Adds what stands before the opening brace of a piece.
fn push_head(text: &mut String, piece: &Piece) -> Result<(), AllocError>
    ensures { OnOk result (string_bytes text.new ≡ string_bytes text.old ++ head_text (piece_tree piece.now)) }
{
    text.push_str(class_of(piece))?;
    text.push_str(" ")?;
    text.push_str(&piece.name.text)?;
    text.push_str(" at ")?;
    push_expression(text, &piece.place)
}

fn push_piece(text: &mut String, piece: &Piece) -> Result<(), AllocError>
    ensures { OnOk result (string_bytes text.new ≡ string_bytes text.old ++ piece_lines (piece_tree piece.now)) }
{
    text.push_str("  ")?;
    push_head(text, piece)?;
    text.push_str(" {\n")?;
    push_statements(text, &piece.body)?;
    text.push_str("  }\n")
}

fn push_pieces(text: &mut String, pieces: &[Piece]) -> Result<(), AllocError>
    ensures { OnOk result (string_bytes text.new ≡ string_bytes text.old ++ flat_map piece_lines (map piece_tree pieces.now)) }
{
    for piece in pieces {
        push_piece(text, piece)?;
    }
    Ok(())
}

/// What stands between the arguments of a procedure and its pieces.
fn opening_of(procedure: &Procedure) -> &'static str
    ensures { result.now ≡ opening_text procedure.now.is_view }
{
    if procedure.is_view { ") view {" } else { ") {" }
}

fn push_procedure(text: &mut String, procedure: &Procedure) -> Result<(), AllocError>
    ensures { OnOk result (string_bytes text.new ≡ string_bytes text.old ++ procedure_lines (procedure_tree procedure.now)) }
{
    text.push_str("proc ")?;
    text.push_str(&procedure.name.text)?;
    text.push_str("(")?;
    push_names(text, ",", &procedure.arguments)?;
    text.push_str(opening_of(procedure))?;
    text.push_str("\n")?;
    push_pieces(text, &procedure.pieces)?;
    text.push_str("}\n")
}

/// Adds the lines of procedures.
pub(crate) fn push_procedures(text: &mut String, procedures: &[Procedure]) -> Result<(), AllocError>
    ensures { OnOk result (string_bytes text.new ≡ string_bytes text.old ++ flat_map procedure_lines (map procedure_tree procedures.now)) }
{
    for procedure in procedures {
        push_procedure(text, procedure)?;
    }
    Ok(())
}

/// Adds how many integers an id has, where it is more than one.
fn push_arity(text: &mut String, arity: u64) -> Result<(), AllocError>
    ensures { OnOk result (string_bytes text.new ≡ string_bytes text.old ++ arity_text arity) }
{
    if arity > 1 {
        write!(text, "[{arity}]")
    } else {
        Ok(())
    }
}

fn push_table(text: &mut String, table: &Table) -> Result<(), AllocError>
    ensures { OnOk result (string_bytes text.new ≡ string_bytes text.old ++ table_line (table_tree table.now)) }
{
    text.push_str("table ")?;
    text.push_str(&table.name.text)?;
    push_arity(text, table.arity)?;
    text.push_str(" { ")?;
    push_names(text, ", ", &table.columns)?;
    text.push_str(" }\n")
}

/// Adds the lines of tables.
pub(crate) fn push_tables(text: &mut String, tables: &[Table]) -> Result<(), AllocError>
    ensures { OnOk result (string_bytes text.new ≡ string_bytes text.old ++ flat_map table_line (map table_tree tables.now)) }
{
    for table in tables {
        push_table(text, table)?;
    }
    Ok(())
}

/// Adds integers of an id, with a comma before each.
fn push_other_signed(text: &mut String, integers: &[i64]) -> Result<(), AllocError>
    ensures { OnOk result (string_bytes text.new ≡ string_bytes text.old ++ flat_map (λ n. codes "," ++ signed_decimal n) integers.now) }
{
    for integer in integers {
        write!(text, ",{integer}")?;
    }
    Ok(())
}

/// Adds the integers of an id, with commas between.
fn push_signed(text: &mut String, id: &[i64]) -> Result<(), AllocError>
    ensures { OnOk result (string_bytes text.new ≡ string_bytes text.old ++ separated_text (codes ",") signed_decimal id.now) }
{
    if let Some((first, others)) = id.split_first() {
        write!(text, "{first}")?;
        push_other_signed(text, others)?;
    }
    Ok(())
}

/// Adds the cell of an init line.
fn push_cell(text: &mut String, init: &Init) -> Result<(), AllocError>
    ensures { OnOk result (string_bytes text.new ≡ string_bytes text.old ++ cell_text (init_tree init.now)) }
{
    let place = init.place;
    text.push_str(&init.table.text)?;
    write!(text, "[{place},")?;
    push_signed(text, &init.id)?;
    text.push_str("].")?;
    text.push_str(&init.column.text)
}

/// Adds the value of an init line, and the end of the line.
fn push_value(text: &mut String, init: &Init) -> Result<(), AllocError>
    ensures { OnOk result (string_bytes text.new ≡ string_bytes text.old ++ codes " = " ++ signed_decimal init.now.value ++ codes ";" ++ 10 ∷ []) }
{
    let value = init.value;
    write!(text, " = {value};\n")
}

fn push_init(text: &mut String, init: &Init) -> Result<(), AllocError>
    ensures { OnOk result (string_bytes text.new ≡ string_bytes text.old ++ init_line (init_tree init.now)) }
{
    text.push_str("init ")?;
    push_cell(text, init)?;
    push_value(text, init)
}

/// Adds init lines.
pub(crate) fn push_inits(text: &mut String, inits: &[Init]) -> Result<(), AllocError>
    ensures { OnOk result (string_bytes text.new ≡ string_bytes text.old ++ flat_map init_line (map init_tree inits.now)) }
{
    for init in inits {
        push_init(text, init)?;
    }
    Ok(())
}

/// Adds the line of the number of shards.
pub(crate) fn push_shards(text: &mut String, shards: u64) -> Result<(), AllocError>
    ensures { OnOk result (string_bytes text.new ≡ string_bytes text.old ++ shards_line shards) }
{
    write!(text, "shards {shards};\n")
}
