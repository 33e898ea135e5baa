//! The addresses of a cluster.

ghost use Rattle.std.specs.Prelude.{◌≡◌, ◌<◌, length, Some, slice_get};

use roc_base::Shard;
use roc_io::Addr;
use roc_sequence::Sequence;
use std::marker::Model;

/// Where the server of each shard is. Contracts see the list of the addresses, one for each shard in order.
#[derive(Drop)]
pub struct Cluster {
    addrs: Sequence<Addr>,
}

impl Model for Cluster {
    ghost use Rattle.std.specs.Prelude.{List};
    ghost use Rattle.roc_io.specs.declared.link.Addr.{Addr};

    ghost Value = { List Addr };

    ghost view = { λ c. c.addrs };
}

impl Cluster {
    pub(crate) fn new(addrs: Sequence<Addr>) -> Cluster
        ensures { result ≡ addrs }
    {
        Cluster { addrs }
    }

    /// The address of a shard. Takes no memory.
    pub fn addr(&self, shard: Shard) -> Addr
        requires { shard.0 < length self.now }
        ensures { slice_get self.now shard.0 ≡ Some result }
    {
        self.addrs.as_slice()[usize::from(shard.0)]
    }

    /// The addresses of all shards, in order. Takes no memory.
    pub fn addrs(&self) -> &[Addr]
        ensures { result.now ≡ self.now }
    {
        self.addrs.as_slice()
    }
}
