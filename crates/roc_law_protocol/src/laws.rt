//! What the laws of runs rest on.
ghost use Rattle.roc_rows.specs.Store.{Store};
ghost use Rattle.roc_law_log.specs.Scheme.{Scheme, IsSoundScheme};
ghost use Rattle.roc_law_protocol.specs.Inner.Given.{LogLaws, SerialLaws, StoreLaws};

use roc_law_log::laws::{
    ancestors_come_first, component_order_is_taken, conflicts_are_on_one_shard,
    lists_that_keep_follow, logs_follow, logs_grow, logs_keep_invariants, shards_keep_order,
    stores_are_shared_out,
};
use roc_law_orders::laws::{groups_stand_one_by_one, last_values_are_serial};
use roc_rows::laws::reads_after_writes;

/// What the laws of the protocol rest on: those of the log machine for each sound scheme, and those of stores.
pub fn machine_laws()
    ensures log { (S : Scheme) (start : Store) → IsSoundScheme S → LogLaws S start }
    ensures serial { (S : Scheme) (start : Store) → IsSoundScheme S → SerialLaws S start }
    ensures stores { StoreLaws }
{
    logs_keep_invariants();
    logs_grow();
    conflicts_are_on_one_shard();
    stores_are_shared_out();
    component_order_is_taken();
    lists_that_keep_follow();
    ancestors_come_first();
    shards_keep_order();
    groups_stand_one_by_one();
    logs_follow();
    last_values_are_serial();
    reads_after_writes();
}
