//! Contention: an immediate piece may meet a piece of another instance.
ghost use Rattle.std.specs.Prelude.{◌≡◌};
ghost use Rattle.roc_conflict.specs.Classes.{is_immediate};
ghost use Rattle.roc_conflict.specs.Contended.{is_contended};

use crate::{Classes, Columns};
use roc_program::{PieceId, Workload};

/// Whether a piece is contended: it is immediate, and conflicts with a piece of another instance.
/// Two instances may be of one procedure, so a conflict with itself counts. Takes no memory. It goes through all pieces: of many
/// pieces, ask `Columns`.
pub fn contended(workload: &Workload, classes: &Classes, id: PieceId) -> bool
    ensures { result ≡ is_contended workload.now (is_immediate classes.now) id }
{
    classes.is_immediate(id) && Columns::of_all(workload).meet(workload, id)
}
