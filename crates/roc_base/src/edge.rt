//! One entry of a list of predecessors.
ghost use Rattle.std.specs.Prelude.{◌≡◌, ◌||◌, IsTrue};
ghost use Rattle.roc_base.specs.Edge.{HasTag, joined};

use crate::{Shard, TxnId};
use std::marker::Model;

/// A transaction that comes before another one, as ROCOCO (OSDI 2014) tells it in a start's reply:
/// they meet in immediate groups, in deferrable ones, or in both, and `at` is the least shard that
/// saw it. At least one of the two tags is set, whatever the edge.
#[derive(Clone, Copy, Debug, PartialEq, Eq, PartialOrd, Ord, Hash)]
pub struct Edge {
    from: TxnId,
    imm: bool,
    def: bool,
    at: Shard,
}

impl Model for Edge {
    ghost use Rattle.roc_base.specs.Edge.{Dependency, HasTag};

    ghost Value = { Dependency };

    ghost view = { λ e. record { from = e.from; imm = e.imm; def = e.def; at = e.at } };

    ghost invariant = { λ e. HasTag (record { from = e.from; imm = e.imm; def = e.def; at = e.at }) };

    ghost inverse = { λ d. record { from = d.from; imm = d.imm; def = d.def; at = d.at } };
}

impl Edge {
    /// An edge from a transaction, with at least one of the tags for immediate and deferrable
    /// groups.
    pub fn new(from: TxnId, imm: bool, def: bool, at: Shard) -> Edge
        requires { IsTrue (imm || def) }
        ensures { result ≡ record { from = from; imm = imm; def = def; at = at } }
    {
        Edge { from, imm, def, at }
    }

    /// The transaction that comes before.
    pub fn from(self) -> TxnId
        ensures value { result ≡ self.from }
        ensures tagged { HasTag self }
    {
        self.from
    }

    /// Whether the two meet in immediate groups.
    pub fn imm(self) -> bool
        ensures value { result ≡ self.imm }
        ensures tagged { HasTag self }
    {
        self.imm
    }

    /// Whether the two meet in deferrable groups.
    pub fn def(self) -> bool
        ensures value { result ≡ self.def }
        ensures tagged { HasTag self }
    {
        self.def
    }

    /// The least shard that saw the two meet.
    pub fn at(self) -> Shard
        ensures value { result ≡ self.at }
        ensures tagged { HasTag self }
    {
        self.at
    }

    /// This edge and another from the same transaction as one edge: the tags of both, and the least
    /// shard. Of another transaction's edge the id is dropped.
    pub fn joined(self, other: Edge) -> Edge
        ensures { result ≡ joined self other }
    {
        Edge {
            from: self.from,
            imm: self.imm || other.imm,
            def: self.def || other.def,
            at: self.at.min(other.at),
        }
    }
}
