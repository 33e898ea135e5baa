// What a call makes of the bytes of a file.
ghost use Rattle.std.specs.Prelude.{◌≡◌, ◌≤◌, ℕ, IfOk, length, take};
ghost use Rattle.roc_disk.specs.Answers.{put};
ghost use Rattle.roc_disk.specs.Stops.{Torn, Cut};

use std::alloc::{AllocError, Global};

/// What a stop leaves of each write and cut that was not synced.
#[derive(Clone, Copy, Debug, PartialEq, Eq)]
pub enum Tear {
    /// The file as it was before the call.
    Nothing,
    /// The first half of what was written; of a cut nothing.
    Half,
    /// All of it.
    Whole,
    /// This byte in the place of each that was written; of a cut nothing.
    Other(u8),
}

pub(crate) fn copied(alloc: Global, bytes: &[u8]) -> Result<Vec<u8>, AllocError>
    ensures { IfOk result (λ copy. copy.items ≡ bytes.now) }
{
    Ok(bytes.to_vec(alloc)?)
}

// A copy, as what is left of a write or of a cut that came to nothing.
fn untouched(alloc: Global, old: &[u8]) -> Result<Vec<u8>, AllocError>
    ensures torn { (at n : ℕ) → IfOk result (λ new. Torn at n old.now new.items) }
    ensures cut { (len : ℕ) → IfOk result (λ new. Cut len old.now new.items) }
{
    copied(alloc, old)
}

pub(crate) fn placed(
    alloc: Global,
    old: &[u8],
    at: usize,
    bytes: &[u8],
) -> Result<Vec<u8>, AllocError>
    requires { at ≤ length old.now }
    ensures { IfOk result (λ new. new.items ≡ put old.now at bytes.now) }
{
    let mut new = old[..at].to_vec(alloc)?;
    new.extend_from_slice(bytes)?;
    if bytes.len() < old.len() - at {
        new.extend_from_slice(&old[at + bytes.len()..])?;
    }
    Ok(new)
}

// The same, as what is left of a write of at least these bytes.
pub(crate) fn written_over(
    alloc: Global,
    old: &[u8],
    at: usize,
    bytes: &[u8],
) -> Result<Vec<u8>, AllocError>
    requires { at ≤ length old.now }
    ensures put { IfOk result (λ new. new.items ≡ put old.now at bytes.now) }
    ensures torn { (n : ℕ) → length bytes.now ≤ n → IfOk result (λ new. Torn at n old.now new.items) }
{
    placed(alloc, old, at, bytes)
}

pub(crate) fn torn(
    alloc: Global,
    old: &[u8],
    at: usize,
    bytes: &[u8],
    tear: Tear,
) -> Result<Vec<u8>, AllocError>
    ensures { IfOk result (λ new. Torn at (length bytes.now) old.now new.items) }
{
    if at > old.len() {
        return untouched(alloc, old);
    }
    match tear {
        Tear::Nothing => untouched(alloc, old),
        Tear::Half => written_over(alloc, old, at, &bytes[..bytes.len() / 2]),
        Tear::Whole => written_over(alloc, old, at, bytes),
        Tear::Other(byte) => all_other(alloc, old, at, bytes.len(), byte),
    }
}

fn all_other(
    alloc: Global,
    old: &[u8],
    at: usize,
    n: usize,
    byte: u8,
) -> Result<Vec<u8>, AllocError>
    requires { at ≤ length old.now }
    ensures { IfOk result (λ new. Torn at n old.now new.items) }
{
    let other: Vec<u8> = vec![in alloc; byte; n]?;
    written_over(alloc, old, at, &other)
}

pub(crate) fn shortened(alloc: Global, old: &[u8], len: usize) -> Result<Vec<u8>, AllocError>
    ensures cut { IfOk result (λ new. new.items ≡ take len old.now) }
    ensures torn { IfOk result (λ new. Cut len old.now new.items) }
{
    front(alloc, old, len)
}

fn front(alloc: Global, old: &[u8], len: usize) -> Result<Vec<u8>, AllocError>
    ensures { IfOk result (λ new. new.items ≡ take len old.now) }
{
    if len < old.len() {
        copied(alloc, &old[..len])
    } else {
        copied(alloc, old)
    }
}

pub(crate) fn torn_cut(
    alloc: Global,
    old: &[u8],
    len: usize,
    tear: Tear,
) -> Result<Vec<u8>, AllocError>
    ensures { IfOk result (λ new. Cut len old.now new.items) }
{
    match tear {
        Tear::Whole => shortened(alloc, old, len),
        _ => untouched(alloc, old),
    }
}
