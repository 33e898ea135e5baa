//! Groups of lacks, once one more list is known.
ghost use Rattle.std.specs.Prelude.{◌≡◌, ◌∷◌, [], IfOk};
ghost use Rattle.roc_await.specs.Inner.Groups.{all_lacks};
ghost use Rattle.roc_await.specs.Inner.Grown.{AreGrown, IsGrownGroup};

use crate::group::{Group, put};
use crate::missing::push_others;
use roc_base::{NoMemory, TxnId, is_among};
use roc_component::rising;
use roc_sequence::Sequence;
use std::alloc::Global;

// The groups as they are once the list of a transaction is known for which these are missing: it is in one of them too.
pub(crate) fn grown(
    alloc: Global,
    mut groups: Vec<Group>,
    id: TxnId,
    fresh: &[TxnId],
) -> Result<Vec<Group>, NoMemory>
    ensures { IfOk result (λ grown. AreGrown id fresh.now (all_lacks groups.items) (all_lacks grown.items)) }
{
    let mut grown = Vec::new(alloc);
    while let Some(group) = groups.pop() {
        put(&mut grown, grow(alloc, group, id, fresh)?)?;
    }
    put(&mut grown, group_of(alloc, id, fresh)?)?;
    Ok(grown)
}

// A group as it is then.
fn grow(alloc: Global, group: Group, id: TxnId, fresh: &[TxnId]) -> Result<Group, NoMemory>
    ensures { IfOk result (λ grown. IsGrownGroup id fresh.now group grown) }
{
    if !is_among(group.missing.as_slice(), id) {
        return Ok(group);
    }
    let Group { of, missing } = group;
    let mut ids = Vec::new(alloc);
    push_others(alloc, missing.as_slice(), id, &mut ids)?;
    ids.extend_from_slice(fresh)?;
    let missing = Sequence::from_vec(rising(alloc, &ids)?);
    Ok(Group { of, missing })
}

// The group of one transaction.
fn group_of(alloc: Global, id: TxnId, missing: &[TxnId]) -> Result<Group, NoMemory>
    ensures { IfOk result (λ group. group ≡ record { of = id ∷ []; missing = missing.now }) }
{
    let of = Sequence::from_slice(alloc, &[id])?;
    let missing = Sequence::from_slice(alloc, missing)?;
    Ok(Group { of, missing })
}
