//! The search for the shortest walk from a vertex to a goal, and of the shortest the least.
//!
//! By levels: the vertices that lead to the goal, those that lead to one of these, and so on. So a walk of so many vertices is
//! found by going down from its level, each time to the least vertex there that can be reached, and never back.
ghost use Rattle.std.specs.Prelude.{◌≡◌, ◌<◌, ◌+◌, find, length, false, IsTrue, IfOk, OnOk, MatchOption};
ghost use Rattle.std.specs.List.{list_any};
ghost use Rattle.std.specs.Option.{option_copied};
ghost use Rattle.roc_sequence.specs.Rising.{IsRising};
ghost use Rattle.roc_scgraph.specs.Graph.{are_siblings};
ghost use Rattle.roc_scgraph.specs.Order.{is_before};
ghost use Rattle.roc_witness.specs.Inner.Walks as spec;

use crate::order::is_same;
use crate::table::{Table, are_siblings};
use roc_base::NoMemory;
use roc_scgraph::Vertex;
use roc_sequence::Sequence;
use std::alloc::Global;

// No shortest walk has more vertices.
const MOST: usize = 6;

/// Walks from a vertex to a goal over other vertices.
#[derive(Drop)]
pub(crate) struct Walks {
    pub(crate) start: Vertex,
    pub(crate) goal: Vertex,
    pub(crate) vertices: Sequence<Vertex>,
}

impl Walks {
    /// The shortest walk of at most six vertices, and of the shortest the least, between these and the goal.
    pub(crate) fn shortest(
        &self,
        alloc: Global,
        table: &Table,
        front: &[Vertex],
    ) -> Result<Option<Vec<Vertex>>, NoMemory>
        requires siblings { IsTrue (are_siblings self.now.start self.now.goal) }
        requires rising { IsRising is_before self.now.vertices }
        ensures { IfOk result (λ o. MatchOption o
            (spec.HasNoShortWalk (spec.may_step table.now self.now.start) self.now.vertices self.now.start self.now.goal 6)
            (λ c. spec.IsShortestWalk (spec.may_step table.now self.now.start) self.now.vertices self.now.start self.now.goal front.now c.items)) }
    {
        if !leads_to_any(table, self.start, self.start, self.vertices.as_slice()) {
            return Ok(None);
        }
        let mut levels = Vec::new(alloc);
        levels.push(Sequence::from_slice(alloc, &[self.goal])?)?;
        for left in 0..MOST {
            self.raise(alloc, table, &mut levels)?;
            let mut way = Vec::from_slice(alloc, front)?;
            if self.descend(table, &levels, self.start, left + 1, &mut way)? {
                way.push(self.goal)?;
                return Ok(Some(way));
            }
        }
        Ok(None)
    }

    // Adds the next level.
    fn raise(
        &self,
        alloc: Global,
        table: &Table,
        levels: &mut Vec<Sequence<Vertex>>,
    ) -> Result<(), NoMemory>
        requires levels { spec.AreLevels (spec.may_step table.now self.now.start) self.now.vertices self.now.goal levels.old.items }
        requires some { 0 < length levels.old.items }
        ensures levels { OnOk result (spec.AreLevels (spec.may_step table.now self.now.start) self.now.vertices self.now.goal levels.new.items) }
        ensures more { OnOk result (length levels.new.items ≡ length levels.old.items + 1) }
    {
        let highest = levels.len() - 1;
        let next = self.reaching(alloc, table, levels[highest].as_slice())?;
        levels.push(next)?;
        Ok(())
    }

    // Adds the least walk of so many vertices from this one, if there is one.
    fn descend(
        &self,
        table: &Table,
        levels: &[Sequence<Vertex>],
        from: Vertex,
        left: usize,
        way: &mut Vec<Vertex>,
    ) -> Result<bool, NoMemory>
        requires rising { IsRising is_before self.now.vertices }
        requires levels { spec.AreLevels (spec.may_step table.now self.now.start) self.now.vertices self.now.goal levels.now }
        requires high { left < length levels.now }
        ensures found { IfOk result (λ b. IsTrue b → spec.IsLeastAdded (spec.may_step table.now self.now.start) self.now.vertices from self.now.goal left way.old.items way.new.items) }
        ensures none { IfOk result (λ b. b ≡ false → spec.HasNoWalk (spec.may_step table.now self.now.start) self.now.vertices from self.now.goal left) }
    {
        if left == 0 {
            return Ok(leads(table, self.start, from, self.goal));
        }
        match first_led(table, self.start, from, levels[left].as_slice()) {
            Some(next) => {
                way.push(*next)?;
                self.descend(table, levels, *next, left - 1, way)
            }
            None => Ok(false),
        }
    }

    // The vertices that lead to one of these.
    fn reaching(
        &self,
        alloc: Global,
        table: &Table,
        targets: &[Vertex],
    ) -> Result<Sequence<Vertex>, NoMemory>
        ensures { IfOk result (λ vs. vs ≡ spec.reaching (spec.may_step table.now self.now.start) self.now.vertices targets.now) }
    {
        let reaching = self
            .vertices
            .as_slice()
            .iter()
            .copied()
            .filter(|vertex| leads_to_any(table, self.start, *vertex, targets))
            .collect(alloc)?;
        Ok(Sequence::from_vec(reaching))
    }
}

// Whether a walk may step from a vertex to another: a fixed edge joins them, and from its start a walk leaves the instance.
fn leads(table: &Table, start: Vertex, from: Vertex, to: Vertex) -> bool
    ensures { result ≡ spec.may_step table.now start from to }
{
    table.joins(from, to) && !(is_same(start, from) && are_siblings(from, to))
}

fn leads_to_any(table: &Table, start: Vertex, from: Vertex, targets: &[Vertex]) -> bool
    ensures { result ≡ list_any (spec.may_step table.now start from) targets.now }
{
    targets.iter().any(|to| leads(table, start, from, *to))
}

fn first_led<'a>(
    table: &Table,
    start: Vertex,
    from: Vertex,
    targets: &'a [Vertex],
) -> Option<&'a Vertex>
    ensures { option_copied result ≡ find (spec.may_step table.now start from) targets.now }
{
    targets.iter().find(|to| leads(table, start, from, **to))
}
