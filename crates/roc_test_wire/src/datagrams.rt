//! Datagrams written out byte by byte, and their first faults.
ghost use Rattle.std.specs.Prelude.{◌≡◌, IfOk};

use roc_base::{Node, Shard, TxnId};
use roc_msg::Msg;
use roc_wire::{Header, WireFault, decode, encode, tag};
use std::alloc::Global;
use std::process::Abort;

const TAG: [u8; 8] = [1, 2, 3, 4, 5, 6, 7, 8];

/// Coordinator 0 starts group 0 of procedure 0 with the argument 5.
pub(crate) const START: &[u8] =
    b"RCO1\x02\x01\x01\x02\x03\x04\x05\x06\x07\x08\x01\x00\x00\x00\x00\x00\x00\x00\x00\x00\x00\x00\x00\x00\x01\x00\x00\x00\x00\x00\x00\x00\x05\x00\x00";

/// Shard 1 asks for the list of transaction 0.0.
pub(crate) const FETCH: &[u8] =
    b"RCO1\x02\x05\x01\x02\x03\x04\x05\x06\x07\x08\x00\x00\x01\x00\x00\x00\x00\x00\x00\x01";

/// A known with two entries of one transaction.
pub(crate) const TWICE: &[u8] =
    b"RCO1\x02\x06\x01\x02\x03\x04\x05\x06\x07\x08\x00\x00\x01\x00\x00\x00\x00\x00\x00\x00\x02\x00\x01\x00\x00\x00\x00\x02\x01\x00\x01\x00\x00\x00\x00\x02\x01";

/// Coordinator 0 has answered all its transactions below 1.
pub(crate) const ENDED: &[u8] =
    b"RCO1\x02\x08\x01\x02\x03\x04\x05\x06\x07\x08\x01\x00\x00\x00\x00\x00\x00\x00\x01";

pub(crate) fn written_again(alloc: Global, bytes: &[u8]) -> Result<Vec<u8>, WireFault>
    ensures { IfOk result (λ again. again.items ≡ bytes.now) }
{
    let (header, msg) = decode(alloc, bytes)?;
    Ok(encode(alloc, &header, &msg)?)
}

fn read(rt: &impl Abort, alloc: Global, bytes: &[u8]) -> (Header, Msg) {
    decode(alloc, bytes).expect(rt, "a datagram")
}

fn is_start(header: &Header, msg: &Msg) -> bool {
    match msg {
        Msg::Start { id, args, .. } => {
            header.tag == TAG
                && header.from == Node::Coord(0)
                && *id == TxnId { coord: 0, seq: 0 }
                && args.as_slice().first() == Some(&5)
        }
        _ => false,
    }
}

#[test]
fn a_start_is_read_and_written_again(rt: HostRuntime) {
    let (header, msg) = read(&rt, rt.alloc(), START);
    assert!(rt; is_start(&header, &msg));
    assert!(rt; written_again(rt.alloc(), START).is_ok());
}

fn is_fetch(header: &Header, msg: &Msg) -> bool {
    match msg {
        Msg::Fetch { asker, .. } => { header.from == Node::Server(Shard(1)) && *asker == Shard(1) }
        _ => false,
    }
}

#[test]
fn a_fetch_is_read(rt: HostRuntime) {
    let (header, msg) = read(&rt, rt.alloc(), FETCH);
    assert!(rt; is_fetch(&header, &msg));
}

fn is_end(header: &Header, msg: &Msg) -> bool {
    match msg {
        Msg::Ended { coord, below } => {
            header.from == Node::Coord(0) && *coord == 0 && *below == 1
        }
        _ => false,
    }
}

#[test]
fn an_end_is_read(rt: HostRuntime) {
    let (header, msg) = read(&rt, rt.alloc(), ENDED);
    assert!(rt; is_end(&header, &msg));
}

// Headers, and their first faults.
const HEADERS: [(&[u8], WireFault); 5] = [
    (b"", WireFault::Short),
    (b"RCO", WireFault::Short),
    (b"RCO2", WireFault::Magic),
    (b"RCO1\x01", WireFault::Version),
    (b"RCO1\x02\x0e", WireFault::Kind),
];

fn fault_of(alloc: Global, bytes: &[u8]) -> Option<WireFault> {
    decode(alloc, bytes).err()
}

fn are_refused(rt: &impl Abort, alloc: Global, cases: &[(&[u8], WireFault)]) {
    for case in cases {
        assert!(rt; fault_of(alloc, case.0) == Some(case.1));
    }
}

#[test]
fn headers_have_their_first_fault(rt: HostRuntime) {
    are_refused(&rt, rt.alloc(), &HEADERS);
}

#[test]
fn a_tag_is_the_front_of_a_digest(rt: HostRuntime) {
    assert!(rt; tag(b"abc") == [0xba, 0x78, 0x16, 0xbf, 0x8f, 0x01, 0xcf, 0xea]);
}
