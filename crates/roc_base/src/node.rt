//! Where a message comes from and goes to.
use std::fmt;

/// A part of the data, by its number; one server keeps each shard. Printed as `sN`.
#[derive(Clone, Copy, Debug, PartialEq, Eq, PartialOrd, Ord, Hash)]
pub struct Shard(pub u8);

/// A sender or receiver of messages: the server of a shard, or a coordinator by its number.
/// Printed as `sN` and `cN`; servers come before coordinators.
#[derive(Clone, Copy, Debug, PartialEq, Eq, PartialOrd, Ord, Hash)]
pub enum Node {
    Server(Shard),
    Coord(u16),
}

impl fmt::Display for Shard {
    ghost use Rattle.std.specs.Prelude.{Some};
    ghost use Rattle.roc_base.specs.Node.{shard_text};

    ghost output = { λ shard. Some (shard_text shard) };

    fn fmt<W: fmt::Write>(&self, f: &mut fmt::Formatter<W>) -> fmt::Result {
        let number = self.0;
        write!(f, "s{number}")
    }
}

impl fmt::Display for Node {
    ghost use Rattle.std.specs.Prelude.{Some};
    ghost use Rattle.roc_base.specs.Node.{node_text};

    ghost output = { λ node. Some (node_text node) };

    fn fmt<W: fmt::Write>(&self, f: &mut fmt::Formatter<W>) -> fmt::Result {
        match self {
            Node::Server(shard) => write!(f, "{shard}"),
            Node::Coord(number) => write!(f, "c{number}"),
        }
    }
}
