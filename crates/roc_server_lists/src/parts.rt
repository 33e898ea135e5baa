//! What a server keeps of lists.
ghost use Rattle.std.specs.Prelude.{◌≡◌, []};
ghost use Rattle.roc_server_lists.specs.ListsNow.{no_lists, none_kept};
ghost use Rattle.roc_server_lists.specs.Inner.Parts.{kept_in, AreConsistent};

use roc_await::Waits;
use roc_server_table::ListTable;
use roc_server_taken::{Marks, Taken};
use std::alloc::Global;

// The lists as they were learnt with what is followed of them and the transactions that are decided by this, who waits for which list, the
// watermarks of coordinators, and the components that were taken.
#[derive(Drop)]
pub(crate) struct ListParts {
    pub table: ListTable,
    pub waits: Waits,
    pub marks: Marks,
    pub taken: Taken,
}

// No lists, and no watermark.
pub(crate) fn none(alloc: Global) -> ListParts
    ensures kept { kept_in result ≡ none_kept }
    ensures decided { result.table.decided ≡ [] }
    ensures sound { AreConsistent result }
{
    ListParts {
        table: ListTable::new(alloc),
        waits: Waits::new(alloc),
        marks: Marks::new(),
        taken: Taken::new(alloc),
    }
}

// All goes but the watermarks.
pub(crate) fn empty(alloc: Global, parts: &mut ListParts)
    ensures kept { kept_in parts.new ≡ record (kept_in parts.old) { lists = no_lists } }
    ensures decided { parts.new.table.decided ≡ [] }
    ensures sound { AreConsistent parts.new }
{
    parts.table = ListTable::new(alloc);
    parts.waits = Waits::new(alloc);
    parts.taken = Taken::new(alloc);
}
