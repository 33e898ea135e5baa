//! What rows and marks tell of transactions: which are newly decided, and their components.
ghost use Rattle.std.specs.Prelude.{◌≡◌, map, IfOk};
ghost use Rattle.roc_sequence.specs.Places.{IsListed, NoneTwice};
ghost use Rattle.roc_base.specs.TxnId.{is_txn};
ghost use Rattle.roc_component.specs.Components.{AreTaken};
ghost use Rattle.roc_step.specs.Links.{without_links};
ghost use Rattle.roc_step.specs.New.{AreAllNew};
ghost use Rattle.roc_server_rows.specs.Rows.{row_links, AreWhole};
ghost use Rattle.roc_server_rows.specs.Except.{IsExceptLive};
ghost use Rattle.roc_server_rows.specs.LinksBut.{links_but};
ghost use Rattle.roc_server_table.specs.Inner.Kept.{decided_of, IsKept};

use crate::components::taken_of;
use roc_base::{NoMemory, TxnId};
use roc_sequence::Sequence;
use roc_server_rows::{Mark, Parts, ids_at, newly, number_of};

// The transactions that are decided and not marked so, each once, where links to the row `except` are not followed.
pub(crate) fn new_ids(
    parts: &Parts,
    marks: &mut [Mark],
    except: Option<usize>,
) -> Result<Vec<TxnId>, NoMemory>
    requires kept { IsKept parts.now marks.old }
    requires live { IsExceptLive except parts.now.rows.items }
    ensures kept { IsKept parts.now marks.new }
    ensures same { decided_of parts.now.rows.items marks.new ≡ decided_of parts.now.rows.items marks.old }
    ensures new { IfOk result (λ ids. AreAllNew (IsListed is_txn (decided_of parts.now.rows.items marks.old)) (links_but except parts.now.rows.items) ids.items) }
    ensures once { IfOk result (λ ids. NoneTwice is_txn ids.items) }
{
    match newly(parts.alloc, &parts.rows, marks, &parts.undecided, except) {
        Ok(numbers) => ids_at(parts.alloc, &parts.rows, &numbers),
        Err(fault) => Err(fault),
    }
}

// The same where entries that name one transaction are not followed.
pub(crate) fn new_ids_without(
    parts: &Parts,
    marks: &mut [Mark],
    id: TxnId,
) -> Result<Vec<TxnId>, NoMemory>
    requires kept { IsKept parts.now marks.old }
    ensures kept { IsKept parts.now marks.new }
    ensures same { decided_of parts.now.rows.items marks.new ≡ decided_of parts.now.rows.items marks.old }
    ensures new { IfOk result (λ ids. AreAllNew (IsListed is_txn (decided_of parts.now.rows.items marks.old)) (map (without_links (λ t. is_txn t id)) (row_links parts.now.rows.items)) ids.items) }
    ensures once { IfOk result (λ ids. NoneTwice is_txn ids.items) }
{
    let except = number_of(&parts.numbers, id);
    new_ids(parts, marks, except)
}

// The components of transactions as they are taken, where entries that name one transaction are not followed.
pub(crate) fn taken_without(
    parts: &Parts,
    id: TxnId,
    ids: &[TxnId],
) -> Result<Vec<Sequence<TxnId>>, NoMemory>
    requires { AreWhole parts.now }
    ensures { IfOk result (λ components. AreTaken (map (without_links (λ t. is_txn t id)) (row_links parts.now.rows.items)) ids.now components.items) }
{
    let except = number_of(&parts.numbers, id);
    taken_of(
        parts.alloc,
        &parts.numbers,
        &parts.rows,
        parts.stamp,
        ids,
        except,
    )
}
