//! Uses, less those that a later one covers.
ghost use Rattle.std.specs.Prelude.{◌≡◌, IfOk, OnOk};
ghost use Rattle.std.specs.List.{list_any};
ghost use Rattle.roc_server_groups.specs.Inner.Covered.{covers, with_use, AreSameUses};

use roc_base::NoMemory;
use roc_group::Access;
use std::alloc::Global;

// What is left of these uses where one is passed over for another of its cell that says as much: a group mostly reads a cell and writes it then.
pub(crate) fn uncovered(alloc: Global, cells: &[Access]) -> Result<Vec<Access>, NoMemory>
    ensures { IfOk result (λ uses. AreSameUses cells.now uses.items) }
{
    let mut uses = Vec::new(alloc);
    for at in (0..cells.len()).rev() {
        put_use(&mut uses, &cells[at])?;
    }
    Ok(uses)
}

// With one more use, unless another one says as much.
fn put_use(uses: &mut Vec<Access>, access: &Access) -> Result<(), NoMemory>
    ensures { OnOk result (uses.new.items ≡ with_use access.now uses.old.items) }
{
    if is_covered(uses.as_slice(), access) {
        return Ok(());
    }
    uses.push(*access)?;
    Ok(())
}

// Whether one of these uses says as much as another: it is of its cell, and writes where that one does.
fn is_covered(uses: &[Access], access: &Access) -> bool
    ensures { result ≡ list_any (λ other. covers other access.now) uses.now }
{
    uses.iter().any(|other| other.cell == access.cell && (other.writes || !access.writes))
}
