//! From the names of a workload text to numbers.
ghost use Rattle.std.specs.Prelude.{◌≡◌, ◌<◌, ◌^◌, [], length, map, IfOk, IfErr};
ghost use Rattle.std.specs.List.{AllByRecursion};
ghost use Rattle.std.specs.String.{string_bytes};
ghost use Rattle.roc_lang.specs.Tree.{name_tree, expression_tree, access_tree, statement_tree, piece_tree, procedure_tree, table_tree, init_tree};
ghost use Rattle.roc_lang.specs.Scope.{faults};
ghost use Rattle.roc_lang_scope.specs.Fault.{IsFirst};
ghost use Rattle.roc_lang.specs.Limits.{IsSmallTable, AreFewTables, IsSmallProcedure};
ghost use Rattle.roc_program.specs.Keys.{IsKey};
ghost use Rattle.roc_program.specs.Parts as view;
ghost use Rattle.roc_lang_resolve.specs.Resolve as resolve;

use crate::names::{column_number, names_of, number_in, table_number};
use roc_base::{Key, NoMemory};
use roc_lang::Source;
use roc_lang_scope::{ScopeFault, check_scope};
use roc_program::{Access, Expression, Init, Piece, Procedure, Statement, Table, Workload};
use std::alloc::Global;

#[cycle(expression)]
fn boxed(
    alloc: Global,
    names: &[&str],
    source: &roc_lang::Expression,
) -> Result<Box<Expression>, NoMemory>
    requires { length names.now < 2 ^ 16 }
    ensures { IfOk result (λ b. view.expression b.value
        ≡ resolve.expression (map (λ n. n.now) names.now) (expression_tree source.now)) }
{
    Ok(Box::new(alloc, expression(alloc, names, source)?)?)
}

#[cycle(expression)]
fn expression(
    alloc: Global,
    names: &[&str],
    source: &roc_lang::Expression,
) -> Result<Expression, NoMemory>
    requires { length names.now < 2 ^ 16 }
    ensures { IfOk result (λ r. view.expression r
        ≡ resolve.expression (map (λ n. n.now) names.now) (expression_tree source.now)) }
{
    match source {
        roc_lang::Expression::Number(number) => Ok(Expression::Number(*number)),
        roc_lang::Expression::Variable(name) => {
            Ok(Expression::Value(number_in(names, name.text.as_str()) as u16))
        }
        roc_lang::Expression::Sum(first, second) => {
            let first = boxed(alloc, names, first)?;
            Ok(Expression::Sum(first, boxed(alloc, names, second)?))
        }
        roc_lang::Expression::Difference(first, second) => {
            let first = boxed(alloc, names, first)?;
            Ok(Expression::Difference(first, boxed(alloc, names, second)?))
        }
        roc_lang::Expression::Product(first, second) => {
            let first = boxed(alloc, names, first)?;
            Ok(Expression::Product(first, boxed(alloc, names, second)?))
        }
        roc_lang::Expression::Minimum(first, second) => {
            let first = boxed(alloc, names, first)?;
            Ok(Expression::Minimum(first, boxed(alloc, names, second)?))
        }
        roc_lang::Expression::Maximum(first, second) => {
            let first = boxed(alloc, names, first)?;
            Ok(Expression::Maximum(first, boxed(alloc, names, second)?))
        }
        roc_lang::Expression::Less(first, second) => {
            let first = boxed(alloc, names, first)?;
            Ok(Expression::Less(first, boxed(alloc, names, second)?))
        }
        roc_lang::Expression::Pick(chooser, first, second) => {
            let chooser = boxed(alloc, names, chooser)?;
            let first = boxed(alloc, names, first)?;
            Ok(Expression::Pick(chooser, first, boxed(alloc, names, second)?))
        }
    }
}

fn expressions(
    alloc: Global,
    names: &[&str],
    all: &[roc_lang::Expression],
) -> Result<Vec<Expression>, NoMemory>
    requires { length names.now < 2 ^ 16 }
    ensures { IfOk result (λ r. map view.expression r.items
        ≡ map (resolve.expression (map (λ n. n.now) names.now)) (map expression_tree all.now)) }
{
    let mut resolved = Vec::new(alloc);
    for source in all {
        resolved.push(expression(alloc, names, source)?)?;
    }
    Ok(resolved)
}

fn access(
    alloc: Global,
    tables: &[roc_lang::Table],
    names: &[&str],
    source: &roc_lang::Access,
) -> Result<Access, NoMemory>
    requires names { length names.now < 2 ^ 16 }
    requires tables { AreFewTables (map table_tree tables.now) }
    ensures { IfOk result (λ r. view.access r
        ≡ resolve.access (map table_tree tables.now) (map (λ n. n.now) names.now)
        (access_tree source.now)) }
{
    let table = table_number(tables, &source.table);
    let column = column_number(tables, table, &source.column);
    Ok(Access {
        table: table as u8,
        id: expressions(alloc, names, &source.id)?,
        column: column as u8,
    })
}

fn statement(
    alloc: Global,
    tables: &[roc_lang::Table],
    names: &[&str],
    source: &roc_lang::Statement,
) -> Result<Statement, NoMemory>
    requires names { length names.now < 2 ^ 16 }
    requires tables { AreFewTables (map table_tree tables.now) }
    ensures { IfOk result (λ r. view.statement r
        ≡ resolve.statement (map table_tree tables.now) (map (λ n. n.now) names.now)
        (statement_tree source.now)) }
{
    match source {
        roc_lang::Statement::Get { name, from } => {
            let number = number_in(names, name.text.as_str());
            Ok(Statement::Get(number as u16, access(alloc, tables, names, from)?))
        }
        roc_lang::Statement::Set { line: _, to, value } => {
            let to = access(alloc, tables, names, to)?;
            Ok(Statement::Set(to, expression(alloc, names, value)?))
        }
        roc_lang::Statement::Out(value) => Ok(Statement::Out(expression(alloc, names, value)?)),
    }
}

fn statements(
    alloc: Global,
    tables: &[roc_lang::Table],
    names: &[&str],
    body: &[roc_lang::Statement],
) -> Result<Vec<Statement>, NoMemory>
    requires names { length names.now < 2 ^ 16 }
    requires tables { AreFewTables (map table_tree tables.now) }
    ensures { IfOk result (λ r. map view.statement r.items
        ≡ map (resolve.statement (map table_tree tables.now) (map (λ n. n.now) names.now))
        (map statement_tree body.now)) }
{
    let mut resolved = Vec::new(alloc);
    for source in body {
        resolved.push(statement(alloc, tables, names, source)?)?;
    }
    Ok(resolved)
}

fn piece(
    alloc: Global,
    tables: &[roc_lang::Table],
    names: &[&str],
    source: &roc_lang::Piece,
) -> Result<Piece, NoMemory>
    requires names { length names.now < 2 ^ 16 }
    requires tables { AreFewTables (map table_tree tables.now) }
    ensures { IfOk result (λ r. view.piece r
        ≡ resolve.piece (map table_tree tables.now) (map (λ n. n.now) names.now)
        (piece_tree source.now)) }
{
    Ok(Piece {
        name: String::from_str(alloc, source.name.text.as_str())?,
        is_now: source.is_now,
        place: expression(alloc, names, &source.place)?,
        body: statements(alloc, tables, names, &source.body)?,
    })
}

fn pieces(
    alloc: Global,
    tables: &[roc_lang::Table],
    names: &[&str],
    all: &[roc_lang::Piece],
) -> Result<Vec<Piece>, NoMemory>
    requires names { length names.now < 2 ^ 16 }
    requires tables { AreFewTables (map table_tree tables.now) }
    ensures { IfOk result (λ r. map view.piece r.items
        ≡ map (resolve.piece (map table_tree tables.now) (map (λ n. n.now) names.now))
        (map piece_tree all.now)) }
{
    let mut resolved = Vec::new(alloc);
    for source in all {
        resolved.push(piece(alloc, tables, names, source)?)?;
    }
    Ok(resolved)
}

// Names, each as a text of its own.
fn labels(alloc: Global, names: &[&str]) -> Result<Vec<String>, NoMemory>
    ensures { IfOk result (λ r. map string_bytes r.items ≡ map (λ n. n.now) names.now) }
{
    let mut labels = Vec::new(alloc);
    for name in names {
        labels.push(String::from_str(alloc, name)?)?;
    }
    Ok(labels)
}

fn procedure(
    alloc: Global,
    tables: &[roc_lang::Table],
    source: &roc_lang::Procedure,
) -> Result<Procedure, NoMemory>
    requires tables { AreFewTables (map table_tree tables.now) }
    requires small { IsSmallProcedure (procedure_tree source.now) }
    ensures { IfOk result (λ r. view.procedure r
        ≡ resolve.procedure (map table_tree tables.now) (procedure_tree source.now)) }
{
    let names = names_of(alloc, source)?;
    Ok(Procedure {
        name: String::from_str(alloc, source.name.text.as_str())?,
        is_view: source.is_view,
        arguments: source.arguments.len() as u16,
        names: names.len() as u16,
        labels: labels(alloc, &names)?,
        pieces: pieces(alloc, tables, &names, &source.pieces)?,
    })
}

fn procedures(
    alloc: Global,
    tables: &[roc_lang::Table],
    all: &[roc_lang::Procedure],
) -> Result<Vec<Procedure>, NoMemory>
    requires tables { AreFewTables (map table_tree tables.now) }
    requires small { AllByRecursion IsSmallProcedure (map procedure_tree all.now) }
    ensures { IfOk result (λ r. map view.procedure r.items
        ≡ map (resolve.procedure (map table_tree tables.now)) (map procedure_tree all.now)) }
{
    let mut resolved = Vec::new(alloc);
    for source in all {
        resolved.push(procedure(alloc, tables, source)?)?;
    }
    Ok(resolved)
}

fn texts(alloc: Global, names: &[roc_lang::Name]) -> Result<Vec<String>, NoMemory>
    ensures { IfOk result (λ r. map string_bytes r.items
        ≡ resolve.texts (map name_tree names.now)) }
{
    let mut texts = Vec::new(alloc);
    for name in names {
        texts.push(String::from_str(alloc, name.text.as_str())?)?;
    }
    Ok(texts)
}

fn table(alloc: Global, source: &roc_lang::Table) -> Result<Table, NoMemory>
    requires { IsSmallTable (table_tree source.now) }
    ensures { IfOk result (λ r. view.table r ≡ resolve.table (table_tree source.now)) }
{
    Ok(Table {
        name: String::from_str(alloc, source.name.text.as_str())?,
        arity: source.arity as u8,
        columns: texts(alloc, &source.columns)?,
    })
}

fn tables(alloc: Global, all: &[roc_lang::Table]) -> Result<Vec<Table>, NoMemory>
    requires { AreFewTables (map table_tree all.now) }
    ensures { IfOk result (λ r. map view.table r.items
        ≡ map resolve.table (map table_tree all.now)) }
{
    let mut resolved = Vec::new(alloc);
    for source in all {
        resolved.push(table(alloc, source)?)?;
    }
    Ok(resolved)
}

fn init(tables: &[roc_lang::Table], source: &roc_lang::Init) -> Init
    requires tables { AreFewTables (map table_tree tables.now) }
    requires key { IsKey (init_tree source.now).id }
    ensures { view.init result ≡ resolve.init (map table_tree tables.now) (init_tree source.now) }
{
    let table = table_number(tables, &source.table);
    Init {
        table: table as u8,
        place: source.place,
        id: Key::from_slice(&source.id),
        column: column_number(tables, table, &source.column) as u8,
        value: source.value,
    }
}

fn inits(
    alloc: Global,
    tables: &[roc_lang::Table],
    all: &[roc_lang::Init],
) -> Result<Vec<Init>, NoMemory>
    requires tables { AreFewTables (map table_tree tables.now) }
    requires keys { AllByRecursion (λ i. IsKey i.id) (map init_tree all.now) }
    ensures { IfOk result (λ r. map view.init r.items
        ≡ map (resolve.init (map table_tree tables.now)) (map init_tree all.now)) }
{
    let mut resolved = Vec::new(alloc);
    for source in all {
        resolved.push(init(tables, source))?;
    }
    Ok(resolved)
}

// The workload of a tree in scope.
fn resolved(alloc: Global, source: &Source) -> Result<Workload, NoMemory>
    requires { faults source.now ≡ [] }
    ensures { IfOk result (λ w. w ≡ resolve.resolved source.now) }
{
    let all = source.tables();
    let tables = tables(alloc, all)?;
    let inits = inits(alloc, all, source.inits())?;
    let procedures = procedures(alloc, all, source.procedures())?;
    Ok(Workload::new(source.shards() as u8, tables, inits, procedures))
}

/// The workload of the tree of a text. A fault is the first fault of scope of the tree: `docs/LANGUAGE.md` lists them.
pub fn resolve(alloc: Global, source: Source) -> Result<Workload, ScopeFault>
    // A workload comes only of a tree in scope.
    ensures in_scope { IfOk result (λ _. faults source ≡ []) }
    // It is the program of the tree.
    ensures program { IfOk result (λ w. w ≡ resolve.resolved source) }
    // A fault is the first of the tree.
    ensures fault { IfErr result (IsFirst (faults source)) }
{
    check_scope(alloc, &source)?;
    Ok(resolved(alloc, &source)?)
}
