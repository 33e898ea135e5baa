//! Components as they stand: each in the part of the coordinator of a member, rising by sequence.
ghost use Rattle.std.specs.Prelude.{◌≡◌, ◌≢◌, ◌+◌, ◌<◌, ◌≤◌, ◌++◌, ◌∷◌, [], Some, false, true, length, take, map, not, slice_get, filter, ℕ, OnOk};
ghost use Rattle.std.specs.List.{AllByRecursion};
ghost use Rattle.roc_step.specs.Below.{is_ended};
ghost use Rattle.roc_step.specs.Forgets.{is_over};
ghost use Rattle.roc_server_taken.specs.declared.components.Component.{Component as Seen};
ghost use Rattle.roc_server_taken.specs.Inner.Over.{is_under, members_by_turn, AreBefore, AreStanding, LeavesOpen};
ghost use Rattle.roc_server_taken.specs.Inner.Standing.{components_of, part_at};

use crate::components::{Component, count_ended, open_member, open_or_first, put, take_ended};
use crate::marks::Marks;
use crate::room::{count_in, count_out, part_of, reserve_each};
use roc_base::{NoMemory, TxnId};
use roc_sequence::Sequence;
use std::alloc::Global;
use std::collections::VecDeque;
use std::marker::Model;

// Of each coordinator the components that stand under members of it, how many have members of it wherever they stand, and how many more find room for sure.
#[derive(Drop)]
pub(crate) struct Standing {
    parts: [VecDeque<Component>; 16],
    wanted: [usize; 16],
    room: usize,
}

impl Model for Standing {
    ghost use Rattle.std.specs.Prelude.{map};
    ghost use Rattle.std.specs.VecDeque.{deque_capacity};
    ghost use Rattle.roc_server_taken.specs.Inner.Standing.{AreInParts, StandingComponents};

    ghost Value = { StandingComponents };

    ghost view = { λ s. record { parts = map (λ d. d.items) s.parts; room = s.room } };

    ghost invariant = { λ s. AreInParts (map (λ d. d.items) s.parts) s.wanted (map deque_capacity s.parts) s.room };
}

impl Standing {
    // None stands.
    pub(crate) fn new(alloc: Global) -> Standing
        ensures { components_of result ≡ [] }
    {
        Standing {
            parts: [
                VecDeque::new(alloc),
                VecDeque::new(alloc),
                VecDeque::new(alloc),
                VecDeque::new(alloc),
                VecDeque::new(alloc),
                VecDeque::new(alloc),
                VecDeque::new(alloc),
                VecDeque::new(alloc),
                VecDeque::new(alloc),
                VecDeque::new(alloc),
                VecDeque::new(alloc),
                VecDeque::new(alloc),
                VecDeque::new(alloc),
                VecDeque::new(alloc),
                VecDeque::new(alloc),
                VecDeque::new(alloc),
            ],
            wanted: [0; 16],
            room: 0,
        }
    }

    // Takes memory ahead, so that this many more find room.
    pub(crate) fn reserve(&mut self, more: usize) -> Result<(), NoMemory>
        ensures parts { self.new.parts ≡ self.old.parts }
        ensures ok { OnOk result (more ≤ self.new.room) }
    {
        if more <= self.room {
            return Ok(());
        }
        reserve_each(&mut self.parts, &self.wanted, more)?;
        self.room = more;
        Ok(())
    }

    // Takes one more, of the last turn, under a member that is not ended where there is one.
    pub(crate) fn add(&mut self, marks: &Marks, turn: u64, members: Sequence<TxnId>)
        requires before { AreBefore turn (components_of self.old) }
        requires room { 0 < self.old.room }
        requires some { members ≢ [] }
        ensures before { AreBefore (turn + 1) (components_of self.new) }
        ensures members { members_by_turn (components_of self.new) ≡ members_by_turn (components_of self.old) ++ members ∷ [] }
        ensures room { self.new.room + 1 ≡ self.old.room }
    {
        let under = open_or_first(marks, members.as_slice());
        count_in(&mut self.wanted, members.as_slice());
        self.room -= 1;
        put(
            &mut self.parts[part_of(under)],
            Component {
                under,
                turn,
                members,
            },
        );
    }

    // Those that are over go, and the others stand under members that are not ended: none of them is looked at again before that one is.
    pub(crate) fn forget(&mut self, marks: &Marks)
        ensures before { (turn : ℕ) → AreBefore turn (components_of self.old) → AreBefore turn (components_of self.new) }
        ensures left { members_by_turn (components_of self.new) ≡ filter (λ m. not (is_over marks.now m)) (members_by_turn (components_of self.old)) }
    {
        self.see();
        for coord in 0..marks.count() {
            self.forget_under(marks, coord);
        }
    }

    // Of those that stand under ended members of a coordinator, those that are over go, and the others stand under members that are not ended.
    fn forget_under(&mut self, marks: &Marks, coord: u16)
        requires { coord < 16 }
        ensures left { LeavesOpen marks.now (components_of self.old) (components_of self.new) }
        ensures none { AllByRecursion (λ c. is_under marks.now coord c ≡ false) (components_of self.new) }
    {
        self.see();
        while self.move_or_drop(marks, coord) {}
    }

    // One that stands under an ended member of a coordinator goes where it is over, and else stands under a member that is not ended. Answers whether one does.
    fn move_or_drop(&mut self, marks: &Marks, coord: u16) -> bool
        requires { coord < 16 }
        ensures left { LeavesOpen marks.now (components_of self.old) (components_of self.new) }
        ensures fewer { result ≡ true → length (filter (λ c. is_ended marks.now c.under) (components_of self.new)) < length (filter (λ c. is_ended marks.now c.under) (components_of self.old)) }
        ensures none { result ≡ false → AllByRecursion (λ c. is_under marks.now coord c ≡ false) (components_of self.new) }
    {
        let Some(component) = take_ended(&mut self.parts[usize::from(coord)], marks, coord) else {
            return false;
        };
        let Component {
            under: _,
            turn,
            members,
        } = component;
        if let Some(under) = open_member(marks, members.as_slice()) {
            put(
                &mut self.parts[part_of(under)],
                Component {
                    under,
                    turn,
                    members,
                },
            );
            return true;
        }
        count_out(&mut self.wanted, members.as_slice());
        true
    }

    // A look by which a proof sees that each stands under a member of its own.
    pub(crate) fn see(&self)
        ensures { AreStanding (components_of self.now) }
    {
        let _ = &self.parts;
    }

    // How many of the part of a coordinator stand under ended members of it: they come first.
    pub(crate) fn count_ended(&self, marks: &Marks, coord: u16) -> usize
        requires { coord < 16 }
        ensures within { result ≤ length (part_at self.now.parts coord) }
        ensures first { take result (part_at self.now.parts coord) ≡ filter (is_under marks.now coord) (components_of self.now) }
    {
        count_ended(&self.parts[usize::from(coord)], marks, coord)
    }

    // The members of one of the part of a coordinator.
    pub(crate) fn members(&self, coord: u16, at: usize) -> &[TxnId]
        requires coord { coord < 16 }
        requires at { at < length (part_at self.now.parts coord) }
        ensures { (c : Seen) → slice_get (part_at self.now.parts coord) at ≡ Some c → result.now ≡ c.members }
    {
        self.parts[usize::from(coord)][at].members.as_slice()
    }
}
