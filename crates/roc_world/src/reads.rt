//! What is read of the nodes for a report.
ghost use Rattle.std.specs.Prelude.{◌≡◌, IfOk};
ghost use Rattle.std.specs.List.{flat_map};
ghost use Rattle.roc_rows.specs.Store.{entries};

use roc_base::{NoMemory, TxnId};
use roc_grown::{GrownCoord, GrownServer};
use roc_rows::Cell;
use std::alloc::Global;

/// The cells that are not 0, server by server.
pub(crate) fn cells_of(alloc: Global, servers: &[GrownServer]) -> Result<Vec<(Cell, i64)>, NoMemory>
    ensures { IfOk result (λ cells. cells.items ≡ flat_map (λ s. entries s.core.store) servers.now) }
{
    let mut cells = Vec::new(alloc);
    for server in servers {
        cells.extend_from_slice(&server.cells()?)?;
    }
    Ok(cells)
}

/// The transactions and views without a reply, coordinator by coordinator.
pub(crate) fn unanswered_of(alloc: Global, coords: &[GrownCoord]) -> Result<Vec<TxnId>, NoMemory>
    ensures { IfOk result (λ ids. ids.items ≡ flat_map (λ c. c.core.unanswered) coords.now) }
{
    let mut ids = Vec::new(alloc);
    for coord in coords {
        ids.extend_from_slice(coord.unanswered())?;
    }
    Ok(ids)
}
