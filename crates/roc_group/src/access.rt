//! Uses of cells, and when they conflict.
ghost use Rattle.std.specs.Prelude.{◌≡◌};
ghost use Rattle.roc_group.specs.Accesses.{meets, do_conflict};

use roc_rows::Cell;

/// A cell that a group uses, and whether it writes it.
#[derive(Clone, Copy)]
pub struct Access {
    pub cell: Cell,
    pub writes: bool,
}

/// Whether two groups that use these cells conflict: they have a cell in common that one of the two
/// writes (transaction chopping, TODS 1995).
pub fn conflict(earlier: &[Access], later: &[Access]) -> bool
    ensures { result ≡ do_conflict earlier.now later.now }
{
    earlier.iter().any(|access| meets(access, later))
}

// Whether a use has its cell in common with one of these, and one of the two writes it.
fn meets(access: &Access, later: &[Access]) -> bool
    ensures { result ≡ meets later.now access.now }
{
    later.iter().any(|other| access.cell == other.cell && (access.writes || other.writes))
}
