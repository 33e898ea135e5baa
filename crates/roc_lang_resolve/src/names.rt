//! The places of names among what a workload text declares.
ghost use Rattle.std.specs.Prelude.{◌≡◌, ◌≤◌, ◌++◌, [], length, map, position, slice_index_or, IfOk, OnOk};
ghost use Rattle.std.specs.List.{flat_map};
ghost use Rattle.std.specs.Str.{bytes_eq};
ghost use Rattle.std.specs.String.{string_bytes};
ghost use Rattle.roc_lang.specs.Tree.{name_tree, statement_tree, procedure_tree, table_tree};
ghost use Rattle.roc_lang.specs.Scope.{bound_by};
ghost use Rattle.roc_lang.specs.Grammar.{standard};
ghost use Rattle.roc_lang.specs.Limits.{AreFewTables};
ghost use Rattle.roc_lang_resolve.specs.Resolve as resolve;

use roc_base::NoMemory;
use std::alloc::Global;

// Adds the name that a statement binds.
fn push_name<'a>(
    names: &mut Vec<&'a str>,
    statement: &'a roc_lang::Statement,
) -> Result<(), NoMemory>
    ensures { OnOk result (map (λ n. n.now) names.new.items
        ≡ map (λ n. n.now) names.old.items ++ resolve.texts (bound_by
        (statement_tree statement.now))) }
{
    match statement {
        roc_lang::Statement::Get { name, .. } => Ok(names.push(name.text.as_str())?),
        _ => Ok(()),
    }
}

// Adds what a piece binds.
fn push_names<'a>(names: &mut Vec<&'a str>, piece: &'a roc_lang::Piece) -> Result<(), NoMemory>
    ensures { OnOk result (map (λ n. n.now) names.new.items
        ≡ map (λ n. n.now) names.old.items ++ flat_map (λ s. resolve.texts
        (bound_by (statement_tree s))) piece.now.body.items) }
{
    for statement in &piece.body {
        push_name(names, statement)?;
    }
    Ok(())
}

/// The names of a procedure in the order in which they are bound.
pub fn names_of<'a>(
    alloc: Global,
    procedure: &'a roc_lang::Procedure,
) -> Result<Vec<&'a str>, NoMemory>
    ensures { IfOk result (λ names. map (λ n. n.now) names.items
        ≡ resolve.names_of (procedure_tree procedure.now)) }
{
    let mut names = Vec::new(alloc);
    for argument in &procedure.arguments {
        names.push(argument.text.as_str())?;
    }
    for piece in &procedure.pieces {
        push_names(&mut names, piece)?;
    }
    Ok(names)
}

fn find_in(names: &[&str], name: &str) -> Option<usize>
    ensures { result ≡ position (λ n. bytes_eq n.now name.now) names.now }
{
    names.iter().position(|n| *n == name)
}

/// The place of a name among these, or their number where it is not there.
pub fn number_in(names: &[&str], name: &str) -> usize
    ensures number { result ≡ resolve.number_in (map (λ n. n.now) names.now) name.now }
    ensures within { result ≤ length names.now }
{
    find_in(names, name).unwrap_or(names.len())
}

// The place of the first table of a name.
fn find_table(tables: &[roc_lang::Table], name: &str) -> Option<usize>
    ensures { result ≡ position (λ t. bytes_eq (string_bytes t.name.text) name.now) tables.now }
{
    tables.iter().position(|t| t.name.text.as_str() == name)
}

// The place of the first column of a name.
fn find_column(columns: &[roc_lang::Name], name: &str) -> Option<usize>
    ensures { result ≡ position (λ n. bytes_eq (string_bytes n.text) name.now) columns.now }
{
    columns.iter().position(|n| n.text.as_str() == name)
}

/// The place of the table of a name, or their number where none has it.
pub fn table_number(tables: &[roc_lang::Table], name: &roc_lang::Name) -> usize
    ensures number { result
        ≡ resolve.table_number (map table_tree tables.now) (name_tree name.now) }
    ensures within { result ≤ length tables.now }
{
    find_table(tables, name.text.as_str()).unwrap_or(tables.len())
}

// The place of the column of a name, or their number where none has it.
fn place_in(columns: &[roc_lang::Name], name: &roc_lang::Name) -> usize
    ensures number { result
        ≡ resolve.number_in (resolve.texts (map name_tree columns.now))
        (name_tree name.now).text }
    ensures within { result ≤ length columns.now }
{
    find_column(columns, name.text.as_str()).unwrap_or(columns.len())
}

/// The same of a table's columns. A table that is not there has none.
pub fn column_number(tables: &[roc_lang::Table], table: usize, name: &roc_lang::Name) -> usize
    requires { AreFewTables (map table_tree tables.now) }
    ensures number { let columns = map (λ t. resolve.texts t.columns) (map table_tree tables.now) in
        result ≡ resolve.number_in (slice_index_or columns table []) (name_tree name.now).text }
    ensures within { result ≤ standard.columns }
{
    if table < tables.len() {
        place_in(&tables[table].columns, name)
    } else {
        0
    }
}
