//! The test of a whole tree.

ghost use Rattle.std.specs.Prelude.{◌≡◌, [], map, ◌↔◌, IsOk, IfErr};
ghost use Rattle.std.specs.List.{flat_map};
ghost use Rattle.roc_lang.specs.Tree.{name_tree, table_tree, init_tree, procedure_tree};
ghost use Rattle.roc_lang.specs.Scope.{is_among, repeats, tables_faults, init_faults, procedures_faults, faults};
ghost use Rattle.roc_lang_scope.specs.Fault.{IsFirst};
ghost use Rattle.roc_lang_scope.specs.Inner.Misuse.{Finds, names_faults};

use crate::before::is_among;
use crate::misuse::{Misuse, Reason, at_name, check_new, owned};
use crate::pieces::{check_arity, check_column, check_pieces, table_named};
use crate::{ScopeFault, ScopeWhat};
use roc_lang::limits::SHARDS;
use roc_lang::{Init, Name, Procedure, Source, Table};
use std::alloc::Global;

// No name stands twice.
fn check_distinct(names: &[Name]) -> Result<(), Misuse<'_>>
    ensures { Finds result (repeats [] (map name_tree names.now)) }
{
    for (i, name) in names.iter().enumerate() {
        check_new(is_among(&names[..i], name), name)?;
    }
    Ok(())
}

// A table has this name.
fn is_table(tables: &[Table], name: &Name) -> bool
    ensures { result ≡ is_among (map (λ t. name_tree t.name) tables.now) (name_tree name.now) }
{
    for table in tables {
        if table.name.text == name.text {
            return true;
        }
    }
    false
}

fn check_tables(tables: &[Table]) -> Result<(), Misuse<'_>>
    ensures { Finds result (tables_faults [] (map table_tree tables.now)) }
{
    for (i, table) in tables.iter().enumerate() {
        check_new(is_table(&tables[..i], &table.name), &table.name)?;
        check_distinct(&table.columns)?;
    }
    Ok(())
}

fn check_init<'a>(tables: &[Table], init: &'a Init) -> Result<(), Misuse<'a>>
    ensures { Finds result (init_faults (map table_tree tables.now) (init_tree init.now)) }
{
    match table_named(tables, &init.table) {
        Some(table) => {
            check_arity(table, &init.table, init.id.len(), init.id_line)?;
            check_column(table, &init.column)
        }
        None => Err(at_name(Reason::Unknown, &init.table)),
    }
}

fn check_inits<'a>(tables: &[Table], inits: &'a [Init]) -> Result<(), Misuse<'a>>
    ensures { Finds result (flat_map (init_faults (map table_tree tables.now)) (map init_tree inits.now)) }
{
    for init in inits {
        check_init(tables, init)?;
    }
    Ok(())
}

// A procedure has this name.
fn is_procedure(procedures: &[Procedure], name: &Name) -> bool
    ensures { result ≡ is_among (map (λ p. name_tree p.name) procedures.now) (name_tree name.now) }
{
    for procedure in procedures {
        if procedure.name.text == name.text {
            return true;
        }
    }
    false
}

fn check_procedures<'a>(tables: &[Table], procedures: &'a [Procedure]) -> Result<(), Misuse<'a>>
    ensures { Finds result (procedures_faults (map table_tree tables.now) [] (map procedure_tree procedures.now)) }
{
    for (i, procedure) in procedures.iter().enumerate() {
        let name = &procedure.name;
        check_new(is_procedure(&procedures[..i], name), name)?;
        check_distinct(&procedure.arguments)?;
        check_pieces(
            tables,
            procedure.is_view,
            &procedure.arguments,
            &procedure.pieces,
        )?;
    }
    Ok(())
}

fn check_names(source: &Source) -> Result<(), Misuse<'_>>
    ensures { Finds result (names_faults source.now) }
{
    let tables = source.tables();
    check_tables(tables)?;
    check_inits(tables, source.inits())?;
    check_procedures(tables, source.procedures())
}

/// Whether a workload's tree is in scope, and else its first fault in the order of the text: `docs/LANGUAGE.md` lists the
/// faults. Memory is taken for the name in a fault alone.
pub fn check_scope(alloc: Global, source: &Source) -> Result<(), ScopeFault>
    // There is no fault exactly where there is none in the tree.
    ensures in_scope { IsOk result ↔ (faults source.now ≡ []) }
    // A fault is the first of the tree.
    ensures fault { IfErr result (IsFirst (faults source.now)) }
{
    let shards = source.shards();
    if shards < 1 || shards > SHARDS {
        return Err(ScopeFault::At {
            line: source.shards_line(),
            what: ScopeWhat::Shards,
        });
    }
    match check_names(source) {
        Ok(()) => Ok(()),
        Err(misuse) => Err(owned(alloc, &misuse)),
    }
}
