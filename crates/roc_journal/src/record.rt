//! A record, and its bytes.
ghost use Rattle.std.specs.Prelude.{◌≡◌, [], ◌∷◌, ◌++◌, IfOk};
ghost use Rattle.roc_wire.specs.Fits.{IsSpellable};
ghost use Rattle.roc_journal.specs.Format.{record_bytes};

use roc_base::NoMemory;
use roc_msg::Msg;
use roc_wire::{Header, encode};
use std::alloc::Global;

/// A message that was kept, and the header that it came with.
#[derive(Drop)]
pub struct Record {
    /// The header of the datagram, with the tag of the journal.
    pub header: Header,
    /// The message.
    pub msg: Msg,
}

/// The bytes of a record, and a closed gate behind it, as [`Journal::append`](crate::Journal::append) takes them.
#[tactic(auto, unfolding(crate::specs::Format::record_bytes, crate::specs::Format::datagram_of))]
pub fn record_of(alloc: Global, header: &Header, msg: &Msg) -> Result<Vec<u8>, NoMemory>
    requires { IsSpellable header.now msg.now }
    ensures { IfOk result (λ bytes. bytes.items ≡ record_bytes (record { header = header.now; msg = msg.now }) ++ 0 ∷ []) }
{
    let datagram = encode(alloc, header, msg)?;
    let mut bytes = Vec::new(alloc);
    bytes.extend_from_slice(&(datagram.len() as u32).to_be_bytes())?;
    bytes.extend_from_slice(&datagram)?;
    bytes.push(0)?;
    Ok(bytes)
}
