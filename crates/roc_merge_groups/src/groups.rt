//! The groups of a workload's pieces.
ghost use Rattle.std.specs.Prelude.{◌≡◌, length, map};
ghost use Rattle.roc_merge_groups.specs.Groups.{groups_in, group_at};

use std::marker::Model;

/// Of each procedure of a workload its groups, each a list of piece numbers.
#[derive(Drop)]
pub struct Groups {
    procedures: Vec<Vec<Vec<u16>>>,
}

impl Model for Groups {
    ghost use Rattle.std.specs.Prelude.{ℕ, List, map};

    ghost Value = { List (List (List ℕ)) };

    ghost view = { λ g. map (λ groups. map (λ group. group.items) groups.items) g.procedures.items };
}

impl Groups {
    /// The groups of these lists: one for each procedure, of lists of piece numbers. Takes no memory.
    pub fn from_lists(procedures: Vec<Vec<Vec<u16>>>) -> Groups
        ensures { result ≡ map (λ groups. map (λ group. group.items) groups.items) procedures.items }
    {
        Groups { procedures }
    }

    /// How many procedures there are.
    pub fn procedure_count(&self) -> usize
        ensures { result ≡ length self.now }
    {
        self.procedures.len()
    }

    /// The groups of a procedure; one that is not there has none.
    pub fn of_procedure(&self, proc: u16) -> &[Vec<u16>]
        ensures { map (λ group. group.items) result.now ≡ groups_in self.now proc }
    {
        match self.procedures.get(usize::from(proc)) {
            Some(groups) => groups.as_slice(),
            None => &[],
        }
    }

    /// How many groups a procedure has; one that is not there has none.
    pub fn group_count(&self, proc: u16) -> usize
        ensures { result ≡ length (groups_in self.now proc) }
    {
        match self.procedures.get(usize::from(proc)) {
            Some(groups) => groups.len(),
            None => 0,
        }
    }

    /// The pieces of a group, by number; one that is not there has none.
    pub fn pieces(&self, proc: u16, group: u16) -> &[u16]
        ensures { result.now ≡ group_at (groups_in self.now proc) group }
    {
        match self.procedures.get(usize::from(proc)) {
            Some(groups) => match groups.get(usize::from(group)) {
                Some(pieces) => pieces.as_slice(),
                None => &[],
            },
            None => &[],
        }
    }
}
