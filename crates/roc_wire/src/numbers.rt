//! The numbers of a datagram, most significant byte first.
ghost use Rattle.std.specs.Prelude.{◌≡◌, ◌≤◌, ◌++◌, length, OnOk};
ghost use Rattle.std.specs.Int.{w8, w16, w32, w64, to_be_bytes, from_be_bytes};
ghost use Rattle.roc_wire.specs.Spelling.{num_bytes};

use byteorder::{BigEndian, ByteOrder};
use roc_base::NoMemory;

// The number of the first two bytes.
pub(crate) fn u16_from(bytes: &[u8]) -> u16
    requires { 2 ≤ length bytes.now }
    ensures { result ≡ from_be_bytes w16 bytes.now }
{
    BigEndian::read_u16(bytes)
}

// The number of the first four bytes.
pub(crate) fn u32_from(bytes: &[u8]) -> u32
    requires { 4 ≤ length bytes.now }
    ensures { result ≡ from_be_bytes w32 bytes.now }
{
    BigEndian::read_u32(bytes)
}

// The number of the first eight bytes.
pub(crate) fn u64_from(bytes: &[u8]) -> u64
    requires { 8 ≤ length bytes.now }
    ensures { result ≡ from_be_bytes w64 bytes.now }
{
    BigEndian::read_u64(bytes)
}

pub(crate) fn put_u8(out: &mut Vec<u8>, number: u8) -> Result<(), NoMemory>
    ensures { OnOk result (out.new.items ≡ out.old.items ++ to_be_bytes w8 number) }
{
    out.extend_from_slice(&number.to_be_bytes())?;
    Ok(())
}

pub(crate) fn put_u16(out: &mut Vec<u8>, number: u16) -> Result<(), NoMemory>
    ensures { OnOk result (out.new.items ≡ out.old.items ++ to_be_bytes w16 number) }
{
    let mut bytes = [0; 2];
    BigEndian::write_u16(&mut bytes, number);
    out.extend_from_slice(&bytes)?;
    Ok(())
}

pub(crate) fn put_u32(out: &mut Vec<u8>, number: u32) -> Result<(), NoMemory>
    ensures { OnOk result (out.new.items ≡ out.old.items ++ to_be_bytes w32 number) }
{
    let mut bytes = [0; 4];
    BigEndian::write_u32(&mut bytes, number);
    out.extend_from_slice(&bytes)?;
    Ok(())
}

pub(crate) fn put_u64(out: &mut Vec<u8>, number: u64) -> Result<(), NoMemory>
    ensures { OnOk result (out.new.items ≡ out.old.items ++ to_be_bytes w64 number) }
{
    let mut bytes = [0; 8];
    BigEndian::write_u64(&mut bytes, number);
    out.extend_from_slice(&bytes)?;
    Ok(())
}

pub(crate) fn put_i64(out: &mut Vec<u8>, number: i64) -> Result<(), NoMemory>
    ensures { OnOk result (out.new.items ≡ out.old.items ++ num_bytes number) }
{
    let mut bytes = [0; 8];
    BigEndian::write_i64(&mut bytes, number);
    out.extend_from_slice(&bytes)?;
    Ok(())
}
