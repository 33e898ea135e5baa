//! Plans: a workload with its pieces in groups, and what is read of them.
ghost use Rattle.std.specs.Prelude.{◌≡◌, ◌<◌, ◌&&◌, not, IsTrue, length, map, position, slice_get};
ghost use Rattle.std.specs.Str.{bytes_eq};
ghost use Rattle.std.specs.String.{string_bytes};
ghost use Rattle.roc_program.specs.LookUps.{procedure_named, transaction_named};
ghost use Rattle.roc_plan.specs.Groups.{procedure_of, is_view_of, is_transaction, groups_of, group_of, group_class, bound_of, inputs_in, inputs_of, outs_of, group_place, shard_of};
ghost use Rattle.roc_plan.specs.Accepted.{IsAccepted};
ghost use Rattle.roc_plan.specs.Outlines.{outlined_plan, row_of, AreOutlines};

use crate::place::value_with;
use crate::{Class, Input, Known, Outline};
use roc_base::Shard;
use roc_program::{Procedure, Workload, is_view};
use std::marker::Model;

/// A workload with its pieces in groups.
#[derive(Drop)]
pub struct Plan {
    workload: Workload,
    /// Of each procedure, its groups.
    outlines: Vec<Vec<Outline>>,
}

impl Model for Plan {
    ghost use Rattle.roc_plan.specs.Groups.{Plan as Grouped};
    ghost use Rattle.roc_plan.specs.Inner.Codes.{plan_code};

    ghost Value = { Grouped };

    ghost coded = { plan_code };

    ghost use Rattle.roc_plan.specs.Inner.Outlines.{plan, IsOutlined};

    ghost view = { plan };

    ghost invariant = { IsOutlined };
}

impl Plan {
    /// The plan that these outlines are of, a row for each procedure. Takes no memory.
    pub fn from_outlines(workload: Workload, outlines: Vec<Vec<Outline>>) -> Plan
        requires { AreOutlines workload outlines.items }
        ensures { result ≡ outlined_plan workload outlines.items }
    {
        Plan { workload, outlines }
    }

    /// The workload that the plan is of. Whoever reads it is told that the plan is accepted, as each is.
    pub fn workload(&self) -> &Workload
        ensures program { result.now ≡ self.now.program }
        ensures accepted { IsAccepted self.now }
    {
        &self.workload
    }

    /// How many procedures there are.
    pub fn procedures(&self) -> u16
        ensures { result ≡ length self.now.program.procedures }
    {
        self.workload.procedures().len() as u16
    }

    /// The number of the procedure of a name, letter by letter.
    pub fn procedure_named(&self, name: &[u8]) -> Option<u16>
        ensures { result ≡ procedure_named self.now.program name.now }
    {
        match place_named(self.workload.procedures(), name) {
            Some(number) => Some(number as u16),
            None => None,
        }
    }

    /// The number of the procedure of a name that is no view. Takes no memory.
    pub fn transaction_named(&self, name: &[u8]) -> Option<u16>
        ensures { result ≡ transaction_named self.now.program name.now }
    {
        match transaction_place(self.workload.procedures(), name) {
            Some(number) => Some(number as u16),
            None => None,
        }
    }

    /// How many arguments a procedure takes.
    pub fn args(&self, proc: u16) -> u16
        requires { proc < length self.now.program.procedures }
        ensures { result ≡ (procedure_of self.now proc).arguments }
    {
        self.workload.procedures()[proc as usize].arguments
    }

    /// Whether a procedure is a view, which only reads.
    pub fn is_view(&self, proc: u16) -> bool
        requires { proc < length self.now.program.procedures }
        ensures { result ≡ is_view_of self.now proc }
    {
        is_view(&self.workload, proc)
    }

    /// Whether there is a procedure of this number that may write: one that is no view. Takes no memory.
    pub fn is_transaction(&self, proc: u16) -> bool
        ensures is { result ≡ is_transaction self.now proc }
        ensures there { IsTrue result → proc < length self.now.program.procedures }
    {
        proc < self.procedures() && !is_view(&self.workload, proc)
    }

    /// How many groups a procedure has.
    pub fn groups(&self, proc: u16) -> u16
        requires { proc < length self.now.program.procedures }
        ensures { result ≡ length (groups_of self.now proc) }
    {
        self.outlines[proc as usize].len() as u16
    }

    /// When a group runs.
    pub fn class(&self, proc: u16, group: u16) -> Class
        requires { group < length (groups_of self.now proc) }
        ensures { result ≡ group_class self.now proc group }
    {
        outline_at(&self.outlines, proc, group).class
    }

    /// The numbers of a group's pieces, in the order in which they run.
    pub fn pieces(&self, proc: u16, group: u16) -> &[u16]
        requires { group < length (groups_of self.now proc) }
        ensures { result.now ≡ (group_of self.now proc group).pieces }
    {
        outline_at(&self.outlines, proc, group).pieces.as_slice()
    }

    /// How many values a group binds.
    pub fn bound(&self, proc: u16, group: u16) -> u16
        requires { group < length (groups_of self.now proc) }
        ensures { result ≡ length (bound_of self.now proc group) }
    {
        outline_at(&self.outlines, proc, group).bound
    }

    /// The values of other groups that a group takes, in the order in which they are bound.
    pub fn inputs(&self, proc: u16, group: u16) -> &[Input]
        requires { group < length (groups_of self.now proc) }
        ensures { result.now ≡ inputs_of self.now proc group }
    {
        outline_at(&self.outlines, proc, group).inputs.as_slice()
    }

    /// The names that these values have, by number.
    pub fn input_names(&self, proc: u16, group: u16) -> &[u16]
        requires { group < length (groups_of self.now proc) }
        ensures { result.now ≡ inputs_in (procedure_of self.now proc) (group_of self.now proc group).pieces }
    {
        outline_at(&self.outlines, proc, group).names.as_slice()
    }

    /// The places in the reply of what a group adds to it, in program order.
    pub fn outs(&self, proc: u16, group: u16) -> &[u16]
        requires { group < length (groups_of self.now proc) }
        ensures { result.now ≡ outs_of self.now proc group }
    {
        outline_at(&self.outlines, proc, group).outs.as_slice()
    }

    /// The place of a group, where it is known what the group runs with.
    pub fn place(&self, proc: u16, group: u16, known: &Known) -> i64
        requires exists { group < length (groups_of self.now proc) }
        requires args { length known.now.args ≡ (procedure_of self.now proc).arguments }
        requires inputs { length known.now.inputs ≡ length (inputs_of self.now proc group) }
        ensures { result ≡ group_place self.now proc group known.now.args known.now.inputs }
    {
        let outline = outline_at(&self.outlines, proc, group);
        let first = outline.pieces[0];
        let procedure = &self.workload.procedures()[usize::from(proc)];
        value_with(
            &procedure.pieces[usize::from(first)].place,
            known.args.as_slice(),
            &outline.names,
            known.inputs.as_slice(),
        )
    }

    /// The shard that keeps the rows of a place: the place modulo the number of shards.
    pub fn shard_of(&self, place: i64) -> Shard
        ensures number { result.0 ≡ shard_of self.now place }
        ensures exists { result.0 < self.now.program.shards }
    {
        Shard(place.rem_euclid(i64::from(self.workload.shards())) as u8)
    }
}

// What is kept of a group.
fn outline_at(outlines: &Vec<Vec<Outline>>, proc: u16, group: u16) -> &Outline
    requires { group < length (row_of (map (λ row. row.items) outlines.now.items) proc) }
    ensures { slice_get (row_of (map (λ row. row.items) outlines.now.items) proc) group
        ≡ Some result.now }
{
    &outlines[proc as usize][group as usize]
}

// The place of the first procedure of a name.
fn place_named(procedures: &[Procedure], name: &[u8]) -> Option<usize>
    ensures { result
        ≡ position (λ procedure. bytes_eq
        (string_bytes procedure.name) name.now) procedures.now }
{
    procedures.iter().position(|p| p.name.as_bytes() == name)
}

// The place of the first procedure of a name that is no view.
fn transaction_place(procedures: &[Procedure], name: &[u8]) -> Option<usize>
    ensures { result
        ≡ position (λ procedure. bytes_eq
        (string_bytes procedure.name) name.now && not procedure.is_view) procedures.now }
{
    procedures
        .iter()
        .position(|p| p.name.as_bytes() == name && !p.is_view)
}
