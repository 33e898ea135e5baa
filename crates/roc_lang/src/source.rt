//! The syntax tree of a whole workload text.
ghost use Rattle.std.specs.Prelude.{◌≡◌, map};
ghost use Rattle.roc_lang.specs.Limits.{IsWithinLimits};
ghost use Rattle.roc_lang.specs.Tree.{table_tree, init_tree, procedure_tree};

use crate::{Init, Procedure, Table};
use std::marker::Model;

/// A whole workload text, within the limits of the language (`specs/Limits.antt`), in scope or not.
#[derive(Drop)]
pub struct Source {
    shards: u64,
    shards_line: u32,
    tables: Vec<Table>,
    inits: Vec<Init>,
    procedures: Vec<Procedure>,
}

impl Model for Source {
    ghost use Rattle.roc_lang.specs.Syntax.{Tree};
    ghost use Rattle.roc_lang.specs.Inner.Codes.{tree_code};

    ghost Value = { Tree };

    ghost coded = { tree_code };

    ghost use Rattle.roc_lang.specs.Source.{tree};
    ghost use Rattle.roc_lang.specs.Limits.{IsWithinLimits};

    ghost view = { tree };

    ghost invariant = { λ s. IsWithinLimits (tree s) };
}

impl Source {
    /// The tree of these parts, which have to be within the limits. `shards_line` is the line of the number of shards.
    pub fn new(
        shards: u64,
        shards_line: u32,
        tables: Vec<Table>,
        inits: Vec<Init>,
        procedures: Vec<Procedure>,
    ) -> Source
        requires { IsWithinLimits
            (record { shards = shards; shards_line = shards_line; tables = map table_tree tables.items; inits = map init_tree inits.items; procedures = map procedure_tree procedures.items }) }
        ensures { result
            ≡ record { shards = shards; shards_line = shards_line; tables = map table_tree tables.items; inits = map init_tree inits.items; procedures = map procedure_tree procedures.items } }
    {
        Source {
            shards,
            shards_line,
            tables,
            inits,
            procedures,
        }
    }

    /// The number of shards, which scope judges.
    pub fn shards(&self) -> u64
        ensures value { result ≡ self.now.shards }
        ensures limits { IsWithinLimits self.now }
    {
        self.shards
    }

    /// The line of the number of shards.
    pub fn shards_line(&self) -> u32
        ensures { result ≡ self.now.shards_line }
    {
        self.shards_line
    }

    /// The tables, in the order of the text.
    pub fn tables(&self) -> &[Table]
        ensures value { map table_tree result.now ≡ self.now.tables }
        ensures limits { IsWithinLimits self.now }
    {
        self.tables.as_slice()
    }

    /// The init lines, in the order of the text.
    pub fn inits(&self) -> &[Init]
        ensures value { map init_tree result.now ≡ self.now.inits }
        ensures limits { IsWithinLimits self.now }
    {
        self.inits.as_slice()
    }

    /// The procedures, in the order of the text.
    pub fn procedures(&self) -> &[Procedure]
        ensures value { map procedure_tree result.now ≡ self.now.procedures }
        ensures limits { IsWithinLimits self.now }
    {
        self.procedures.as_slice()
    }
}
