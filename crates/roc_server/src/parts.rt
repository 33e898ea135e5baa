//! What a server keeps, in parts of which a step is tried and then kept or taken back.
ghost use Rattle.std.specs.Prelude.{◌≡◌, [], None};
ghost use Rattle.roc_base.specs.declared.node.Shard.{Shard as At};
ghost use Rattle.roc_server.specs.Inner.Parts.{state_behind, state_of, CanRelease, IsIdle, IsSound};
ghost use Rattle.roc_server_lists.specs.ListsNow.{none_kept};
ghost use Rattle.roc_step.specs.Renewed.{renewed};

use roc_rows::Rows;
use roc_server_groups::ServerGroups;
use roc_server_lists::ServerLists;
use std::alloc::Global;

// The cells, the groups that started with an index from cells to the undecided ones, and the dependency lists with the watermarks.
#[derive(Drop)]
pub(crate) struct ServerParts {
    pub rows: Rows,
    pub groups: ServerGroups,
    pub lists: ServerLists,
}

impl ServerParts {
    // Cells, and nothing else. A savepoint of the cells is given up.
    pub(crate) fn new(alloc: Global, mut rows: Rows) -> ServerParts
        ensures store { result.rows.store ≡ rows.store }
        ensures saved { result.rows.saved ≡ None }
        ensures groups { result.groups.kept ≡ [] }
        ensures lists { result.lists.kept ≡ none_kept }
        ensures sound { IsSound result }
        ensures idle { IsIdle result }
    {
        rows.release();
        ServerParts {
            rows,
            groups: ServerGroups::new(alloc),
            lists: ServerLists::new(alloc),
        }
    }
}

// What was tried is kept, where something was. Takes no memory.
pub(crate) fn release(parts: &mut ServerParts)
    requires sound { IsSound parts.old }
    requires can { CanRelease parts.old }
    ensures state { (shard : At) → state_of shard parts.new ≡ state_behind shard parts.old }
    ensures sound { IsSound parts.new }
    ensures idle { IsIdle parts.new }
{
    parts
        .groups
        .release(parts.lists.newly(), parts.lists.over());
    parts.lists.release();
    parts.rows.release();
}

// What was tried is taken back, where something was. Takes no memory.
pub(crate) fn roll_back(parts: &mut ServerParts)
    requires sound { IsSound parts.old }
    ensures state { (shard : At) → state_of shard parts.new ≡ state_of shard parts.old }
    ensures sound { IsSound parts.new }
    ensures idle { IsIdle parts.new }
{
    parts.groups.rollback();
    parts.lists.rollback();
    parts.rows.rollback();
}

// All goes but the cells and the watermarks, and so does what was tried. Takes no memory.
pub(crate) fn renew(parts: &mut ServerParts)
    requires sound { IsSound parts.old }
    ensures state { (shard : At) → state_of shard parts.new ≡ renewed (state_of shard parts.old) }
    ensures sound { IsSound parts.new }
    ensures idle { IsIdle parts.new }
{
    parts.rows.rollback();
    parts.groups.renew();
    parts.lists.renew();
}
