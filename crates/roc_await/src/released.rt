//! Groups of lacks, once nobody has to wait any more for some transactions.
ghost use Rattle.std.specs.Prelude.{◌≡◌, IfOk};
ghost use Rattle.roc_await.specs.Inner.Groups.{all_lacks};
ghost use Rattle.roc_await.specs.Inner.Shortened.{all_but, AreShortened};

use crate::group::{Group, put};
use roc_base::{NoMemory, TxnId, is_among};
use roc_sequence::Sequence;
use std::alloc::Global;

// The groups without these among what is missing. What is decided then is still in a group, for which nothing is missing.
pub(crate) fn released(
    alloc: Global,
    groups: &[Group],
    gone: &[TxnId],
) -> Result<Vec<Group>, NoMemory>
    ensures { IfOk result (λ left. AreShortened gone.now (all_lacks groups.now) (all_lacks left.items)) }
{
    let mut left = Vec::new(alloc);
    for group in groups {
        put(&mut left, shorter(alloc, group, gone)?)?;
    }
    Ok(left)
}

// A group without these.
fn shorter(alloc: Global, group: &Group, gone: &[TxnId]) -> Result<Group, NoMemory>
    ensures { IfOk result (λ left. left ≡ record group.now { missing = all_but gone.now group.now.missing }) }
{
    let of = Sequence::from_slice(alloc, group.of.as_slice())?;
    let missing = Sequence::from_vec(all_but(alloc, group.missing.as_slice(), gone)?);
    Ok(Group { of, missing })
}

// Ids without these.
fn all_but(alloc: Global, ids: &[TxnId], gone: &[TxnId]) -> Result<Vec<TxnId>, NoMemory>
    ensures { IfOk result (λ left. left.items ≡ all_but gone.now ids.now) }
{
    Ok(
        ids.iter()
            .copied()
            .filter(|id| !is_among(gone, *id))
            .collect(alloc)?,
    )
}
