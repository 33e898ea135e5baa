//! The test of a procedure's pieces: their cells, statements and names.

ghost use Rattle.std.specs.Prelude.{◌≡◌, [], ◌++◌, ◌&&◌, map, None, Some, MatchOption};
ghost use Rattle.roc_lang.specs.Tree.{name_tree, access_tree, statement_tree, piece_tree, table_tree};
ghost use Rattle.roc_lang.specs.Scope.{is_among, viewed, repeated, table_named, column_faults, arity_faults, access_faults, statement_faults, statements_faults, piece_faults, pieces_faults};
ghost use Rattle.roc_lang_scope.specs.Inner.Before.{bound, bound_behind, bound_first, within_of};
ghost use Rattle.roc_lang_scope.specs.Inner.Misuse.{Finds};

use crate::before::{Before, Within, check_expression, check_id, is_among, is_taken};
use crate::misuse::{Misuse, Reason, at_name, check_new, check_view};
use roc_lang::{Access, Name, Piece, Statement, Table};

/// The first table of a name.
pub(crate) fn table_named<'a>(tables: &'a [Table], name: &Name) -> Option<&'a Table>
    ensures { MatchOption result (table_named (map table_tree tables.now) (name_tree name.now) ≡ None)
        (λ t. table_named (map table_tree tables.now) (name_tree name.now) ≡ Some (table_tree t.now)) }
{
    for table in tables {
        if table.name.text == name.text {
            return Some(table);
        }
    }
    None
}

/// The table has a column of the name.
pub(crate) fn check_column<'a>(table: &Table, column: &'a Name) -> Result<(), Misuse<'a>>
    ensures { Finds result (column_faults (Some (table_tree table.now)) (name_tree column.now)) }
{
    if is_among(&table.columns, column) {
        Ok(())
    } else {
        Err(at_name(Reason::Unknown, column))
    }
}

/// An id of a table, which is written with this name, has as many integers as the table declares. The line is that of the
/// bracket behind the id.
pub(crate) fn check_arity<'a>(
    table: &Table,
    name: &'a Name,
    count: usize,
    line: u32,
) -> Result<(), Misuse<'a>>
    ensures { Finds result (arity_faults (Some (table_tree table.now)) (name_tree name.now) count line) }
{
    if count as u64 == table.arity {
        Ok(())
    } else {
        Err(Misuse {
            reason: Reason::Arity,
            name,
            line,
        })
    }
}

// A cell that a statement reads or writes.
fn check_access<'a>(tables: &[Table], before: &Before, access: &'a Access) -> Result<(), Misuse<'a>>
    ensures { Finds result (access_faults (map table_tree tables.now) (bound before.now) (access_tree access.now)) }
{
    match table_named(tables, &access.table) {
        Some(table) => {
            check_id(before, &access.id)?;
            check_arity(table, &access.table, access.id.len(), access.id_line)?;
            check_column(table, &access.column)
        }
        None => Err(at_name(Reason::Unknown, &access.table)),
    }
}

fn check_statement<'a>(
    tables: &[Table],
    within: &Within<'a>,
    before: &Before,
    statement: &'a Statement,
) -> Result<(), Misuse<'a>>
    ensures { Finds result (statement_faults (map table_tree tables.now) (within_of within.now) (bound before.now) (statement_tree statement.now)) }
{
    match statement {
        Statement::Get { name, from } => {
            check_new(is_taken(before, name), name)?;
            check_access(tables, before, from)
        }
        Statement::Set { line, to, value } => {
            check_view(within.is_view, within.piece, *line)?;
            check_access(tables, before, to)?;
            check_expression(before, false, value)
        }
        Statement::Out(value) => check_expression(before, false, value),
    }
}

// The statements of the next piece.
fn check_body<'a>(
    tables: &[Table],
    arguments: &[Name],
    pieces: &[Piece],
    within: &Within<'a>,
    body: &'a [Statement],
) -> Result<(), Misuse<'a>>
    ensures { Finds result (statements_faults (map table_tree tables.now) (within_of within.now)
        (bound_behind (map name_tree arguments.now) (map piece_tree pieces.now) []) (map statement_tree body.now)) }
{
    for (i, statement) in body.iter().enumerate() {
        let before = Before {
            arguments,
            pieces,
            body: &body[..i],
        };
        check_statement(tables, within, &before, statement)?;
    }
    Ok(())
}

// A piece has this name.
fn is_piece(pieces: &[Piece], name: &Name) -> bool
    ensures { result ≡ is_among (map (λ p. name_tree p.name) pieces.now) (name_tree name.now) }
{
    for piece in pieces {
        if piece.name.text == name.text {
            return true;
        }
    }
    false
}

// The next piece, of a view or of another procedure.
fn check_piece<'a>(
    tables: &[Table],
    is_view: bool,
    arguments: &[Name],
    pieces: &[Piece],
    piece: &'a Piece,
) -> Result<(), Misuse<'a>>
    ensures { Finds result (viewed (is_view && piece.now.is_now) (name_tree piece.now.name) piece.now.class_line
        ++ repeated (map (λ p. name_tree p.name) pieces.now) (name_tree piece.now.name)
        ++ piece_faults (map table_tree tables.now) is_view (bound_behind (map name_tree arguments.now) (map piece_tree pieces.now) []) (piece_tree piece.now)) }
{
    check_view(is_view && piece.is_now, &piece.name, piece.class_line)?;
    check_new(is_piece(pieces, &piece.name), &piece.name)?;
    let before = Before {
        arguments,
        pieces,
        body: &[],
    };
    check_expression(&before, true, &piece.place)?;
    let within = Within {
        is_view,
        piece: &piece.name,
    };
    check_body(tables, arguments, pieces, &within, &piece.body)
}

/// The pieces of a procedure, which may be a view, with these arguments.
pub(crate) fn check_pieces<'a>(
    tables: &[Table],
    is_view: bool,
    arguments: &[Name],
    pieces: &'a [Piece],
) -> Result<(), Misuse<'a>>
    ensures { Finds result (pieces_faults (map table_tree tables.now) is_view [] (bound_first (map name_tree arguments.now)) (map piece_tree pieces.now)) }
{
    for (i, piece) in pieces.iter().enumerate() {
        check_piece(tables, is_view, arguments, &pieces[..i], piece)?;
    }
    Ok(())
}
