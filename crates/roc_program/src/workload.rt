//! A workload whose names are resolved.
ghost use Rattle.std.specs.Prelude.{◌≡◌, ◌<◌, length, map};
ghost use Rattle.roc_program.specs.LookUps.{procedure_name, table_name, columns_of, column_name};
ghost use Rattle.roc_program.specs.Parts.{table, init, procedure};
ghost use Rattle.roc_program.specs.WellFormed.{IsProgram};

use crate::{Init, Procedure, Table};
use std::marker::Model;

/// A whole workload: what a text in grammar and scope means. Contracts see it as the program that it is.
#[derive(Drop)]
pub struct Workload {
    shards: u8,
    tables: Vec<Table>,
    inits: Vec<Init>,
    procedures: Vec<Procedure>,
}

impl Model for Workload {
    ghost use Rattle.roc_program.specs.Program.{Workload as Program};
    ghost use Rattle.roc_program.specs.Codes.{workload_code};

    ghost Value = { Program };

    ghost coded = { workload_code };

    ghost use Rattle.roc_program.specs.Workload.{program};
    ghost use Rattle.roc_program.specs.WellFormed.{IsProgram};

    ghost view = { program };

    ghost invariant = { λ w. IsProgram (program w) };
}

impl Workload {
    /// The workload of these parts, which have to be a well-formed program.
    pub fn new(
        shards: u8,
        tables: Vec<Table>,
        inits: Vec<Init>,
        procedures: Vec<Procedure>,
    ) -> Workload
        requires { IsProgram (record { shards = shards; tables = map table tables.items; inits = map init inits.items; procedures = map procedure procedures.items }) }
        ensures { result ≡ record { shards = shards; tables = map table tables.items; inits = map init inits.items; procedures = map procedure procedures.items } }
    {
        Workload {
            shards,
            tables,
            inits,
            procedures,
        }
    }

    /// How many shards there are.
    pub fn shards(&self) -> u8
        ensures value { result ≡ self.now.shards }
        ensures well_formed { IsProgram self.now }
    {
        self.shards
    }

    /// The tables, in the order of the text.
    pub fn tables(&self) -> &[Table]
        ensures value { map table result.now ≡ self.now.tables }
        ensures well_formed { IsProgram self.now }
    {
        self.tables.as_slice()
    }

    /// The init lines, in the order of the text.
    pub fn inits(&self) -> &[Init]
        ensures value { map init result.now ≡ self.now.inits }
        ensures well_formed { IsProgram self.now }
    {
        self.inits.as_slice()
    }

    /// The procedures, in the order of the text.
    pub fn procedures(&self) -> &[Procedure]
        ensures value { map procedure result.now ≡ self.now.procedures }
        ensures well_formed { IsProgram self.now }
    {
        self.procedures.as_slice()
    }

    /// The name of a procedure.
    pub fn procedure_name(&self, proc: u16) -> &str
        requires { proc < length self.now.procedures }
        ensures { result.now ≡ procedure_name self.now proc }
    {
        self.procedures[proc as usize].name.as_str()
    }

    /// The name of a table.
    pub fn table_name(&self, table: u8) -> &str
        requires { table < length self.now.tables }
        ensures { result.now ≡ table_name self.now table }
    {
        self.tables[table as usize].name.as_str()
    }

    /// The name of a column of a table.
    pub fn column_name(&self, table: u8, column: u8) -> &str
        requires { column < length (columns_of self.now table) }
        ensures { result.now ≡ column_name self.now table column }
    {
        self.tables[table as usize].columns[column as usize].as_str()
    }
}
