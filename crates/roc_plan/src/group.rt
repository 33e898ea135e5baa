//! The groups of a plan, as servers and coordinators see them.
use roc_base::Nums;

/// When a group runs: at its start, or once its transaction is decided (ROCOCO, OSDI 2014).
#[derive(Clone, Copy, Debug, PartialEq, Eq)]
pub enum Class {
    Immediate,
    Deferrable,
}

/// A value that a group takes: value `at` of the bound list of group `group` of its procedure.
#[derive(Clone, Copy, Debug, PartialEq, Eq)]
pub struct Input {
    pub group: u16,
    pub at: u16,
}

/// What a group runs with: its procedure's arguments, and the values that it takes from other
/// groups, in the order of `Plan::inputs`.
#[derive(Drop)]
pub struct Known {
    pub args: Nums,
    pub inputs: Nums,
}
