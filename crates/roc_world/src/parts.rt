//! The fields of a world.

use crate::looks::Look;
use crate::network::Network;
use roc_audit::{Entry, Order};
use roc_grown::{GrownCoord, GrownServer};
use roc_sequence::Sequence;

/// All nodes, and what was sent, seen and decided.
#[derive(Drop)]
pub(crate) struct Parts {
    /// The server of each shard, by number.
    pub servers: Vec<GrownServer>,
    /// The coordinators, by number.
    pub coords: Vec<GrownCoord>,
    pub network: Network,
    pub history: Sequence<Entry>,
    pub order: Order,
    pub looks: Vec<Look>,
}
