//! Where coordinators were heard.
ghost use Rattle.std.specs.Prelude.{◌≡◌, Some, option_and_then, slice_get, slice_set};
ghost use Rattle.roc_node.specs.Posting.{none_heard, heard_of};

use roc_base::Node;
use roc_io::Addr;
use std::marker::Model;

/// Where each of sixteen coordinators was last heard, if it was. Contracts see a list of these addresses, by number.
#[derive(Drop)]
pub struct Heard {
    addrs: [Option<Addr>; 16],
}

impl Model for Heard {
    ghost use Rattle.roc_node.specs.Posting.{Hearsay};

    ghost Value = { Hearsay };

    ghost view = { λ h. h.addrs };

    ghost use Rattle.std.specs.Prelude.{◌≡◌, length};

    ghost invariant = { λ h. length h.addrs ≡ 16 };
}

impl Heard {
    /// No coordinator was heard.
    pub fn new() -> Heard
        ensures { result ≡ none_heard }
    {
        Heard { addrs: [None; 16] }
    }

    /// A datagram of this sender came from this address. What a server sends is not kept, and what a coordinator past the last one sends
    /// neither.
    pub fn hear(&mut self, sender: Node, from: Addr)
        ensures { self.new ≡ heard_of self.old sender from }
    {
        match sender {
            Node::Server(_) => {}
            Node::Coord(number) => self.hear_coordinator(number, from),
        }
    }

    fn hear_coordinator(&mut self, number: u16, from: Addr)
        ensures { self.new ≡ slice_set self.old number (Some from) }
    {
        let at = usize::from(number);
        if at < 16 {
            self.addrs[at] = Some(from);
        }
    }

    /// Where a coordinator was last heard.
    pub fn addr(&self, number: u16) -> Option<Addr>
        ensures { result ≡ option_and_then (λ addr. addr) (slice_get self.now number) }
    {
        match self.addrs.get(usize::from(number)) {
            Some(addr) => *addr,
            None => None,
        }
    }
}
