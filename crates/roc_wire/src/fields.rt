//! Reading the fields of a datagram: numbers, ids and edges.
ghost use Rattle.std.specs.Prelude.{◌≡◌, ◌≤◌, ◌||◌, IfOk, IsTrue};
ghost use Rattle.std.specs.Int.{w8, w16, w32, w64};
ghost use Rattle.roc_wire.specs.Fits.{rises};
ghost use Rattle.roc_wire.specs.Reading.{IsRead, number_read, within_read, above_read, num_read, id_read, shard_read, rising_read, edge_read};

use crate::WireFault;
use crate::numbers::{u16_from, u32_from, u64_from};
use roc_base::{Shard, TxnId};

pub(crate) fn u8_of(bytes: &[u8]) -> Result<(u8, &[u8]), WireFault>
    ensures { IsRead (λ x. (x.0, x.1.now)) result (number_read w8 bytes.now) }
{
    match bytes {
        [] => Err(WireFault::Short),
        [first, rest @ ..] => Ok((*first, rest)),
    }
}

pub(crate) fn u16_of(bytes: &[u8]) -> Result<(u16, &[u8]), WireFault>
    ensures { IsRead (λ x. (x.0, x.1.now)) result (number_read w16 bytes.now) }
{
    if bytes.len() < 2 {
        return Err(WireFault::Short);
    }
    let (front, rest) = bytes.split_at(2);
    Ok((u16_from(front), rest))
}

pub(crate) fn u32_of(bytes: &[u8]) -> Result<(u32, &[u8]), WireFault>
    ensures { IsRead (λ x. (x.0, x.1.now)) result (number_read w32 bytes.now) }
{
    if bytes.len() < 4 {
        return Err(WireFault::Short);
    }
    let (front, rest) = bytes.split_at(4);
    Ok((u32_from(front), rest))
}

pub(crate) fn u64_of(bytes: &[u8]) -> Result<(u64, &[u8]), WireFault>
    ensures { IsRead (λ x. (x.0, x.1.now)) result (number_read w64 bytes.now) }
{
    if bytes.len() < 8 {
        return Err(WireFault::Short);
    }
    let (front, rest) = bytes.split_at(8);
    Ok((u64_from(front), rest))
}

#[tactic(auto, unfolding(crate::specs::Reading::num_read))]
pub(crate) fn num_of(bytes: &[u8]) -> Result<(i64, &[u8]), WireFault>
    ensures { IsRead (λ x. (x.0, x.1.now)) result (num_read tt bytes.now) }
{
    let (number, rest) = u64_of(bytes)?;
    Ok((number.cast_signed(), rest))
}

#[tactic(auto, unfolding(crate::specs::Reading::within_read))]
pub(crate) fn u8_within(bytes: &[u8], low: u8, high: u8) -> Result<(u8, &[u8]), WireFault>
    ensures { IsRead (λ x. (x.0, x.1.now)) result (within_read w8 low high bytes.now) }
{
    let (number, rest) = u8_of(bytes)?;
    if low <= number && number <= high {
        Ok((number, rest))
    } else {
        Err(WireFault::Count)
    }
}

#[tactic(auto, unfolding(crate::specs::Reading::within_read))]
pub(crate) fn u16_within(bytes: &[u8], low: u16, high: u16) -> Result<(u16, &[u8]), WireFault>
    ensures given { IsRead (λ x. (x.0, x.1.now)) result (within_read w16 low high bytes.now) }
    ensures range { IfOk result (λ x. x.0 ≤ high) }
{
    let (number, rest) = u16_of(bytes)?;
    if low <= number && number <= high {
        Ok((number, rest))
    } else {
        Err(WireFault::Count)
    }
}

#[tactic(auto, unfolding(crate::specs::Reading::above_read))]
pub(crate) fn u32_above(bytes: &[u8], low: u32) -> Result<(u32, &[u8]), WireFault>
    ensures { IsRead (λ x. (x.0, x.1.now)) result (above_read w32 low bytes.now) }
{
    let (number, rest) = u32_of(bytes)?;
    if low < number {
        Ok((number, rest))
    } else {
        Err(WireFault::Count)
    }
}

#[tactic(auto, unfolding(crate::specs::Reading::id_read))]
pub(crate) fn id_of(bytes: &[u8]) -> Result<(TxnId, &[u8]), WireFault>
    ensures { IsRead (λ x. (x.0, x.1.now)) result (id_read bytes.now) }
{
    let (coord, rest) = u16_within(bytes, 0, 15)?;
    let (seq, rest) = u32_of(rest)?;
    Ok((TxnId { coord, seq }, rest))
}

#[tactic(auto, unfolding(crate::specs::Reading::shard_read))]
pub(crate) fn shard_of(bytes: &[u8]) -> Result<(Shard, &[u8]), WireFault>
    ensures { IsRead (λ x. (x.0, x.1.now)) result (shard_read bytes.now) }
{
    let (number, rest) = u8_within(bytes, 0, 63)?;
    Ok((Shard(number), rest))
}

pub(crate) fn is_rising(last: Option<TxnId>, id: TxnId) -> bool
    ensures { result ≡ rises last id }
{
    match last {
        None => true,
        Some(last) => last.coord < id.coord || (last.coord == id.coord && last.seq < id.seq),
    }
}

#[tactic(auto, unfolding(crate::specs::Reading::rising_read))]
pub(crate) fn rising_of(last: Option<TxnId>, bytes: &[u8]) -> Result<(TxnId, &[u8]), WireFault>
    ensures { IsRead (λ x. (x.0, x.1.now)) result (rising_read last bytes.now) }
{
    let (id, rest) = id_of(bytes)?;
    if is_rising(last, id) {
        Ok((id, rest))
    } else {
        Err(WireFault::Order)
    }
}

// Its transaction, whether it has each tag, and its shard.
#[tactic(auto, unfolding(crate::specs::Reading::edge_read))]
pub(crate) fn edge_of(
    last: Option<TxnId>,
    bytes: &[u8],
) -> Result<(TxnId, bool, bool, Shard, &[u8]), WireFault>
    ensures given { IsRead (λ x. (record { from = x.0; imm = x.1; def = x.2; at = x.3 }, x.4.now)) result (edge_read last bytes.now) }
    ensures tagged { IfOk result (λ x. IsTrue (x.1 || x.2)) }
{
    let (id, rest) = rising_of(last, bytes)?;
    let (tags, rest) = u8_within(rest, 1, 3)?;
    let (shard, rest) = shard_of(rest)?;
    Ok((id, tags != 2, tags != 1, shard, rest))
}
