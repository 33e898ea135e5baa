//! What a plan keeps of its groups, so that its readers take no memory.
use crate::{Class, Input};

/// What a plan keeps of a group of a procedure.
#[derive(Drop)]
pub struct Outline {
    /// The numbers of its pieces, rising.
    pub pieces: Vec<u16>,
    /// When it runs: immediate where a piece of it is.
    pub class: Class,
    /// How many values it binds.
    pub bound: u16,
    /// The names that it takes from other groups, in the order in which they are bound.
    pub names: Vec<u16>,
    /// Where their values come from.
    pub inputs: Vec<Input>,
    /// The places in the reply of what it adds to it.
    pub outs: Vec<u16>,
}
