//! Datagrams, written out byte by byte.
//!
//! The bytes are those of docs/FORMATS.md: magic, version, kind, tag, the role and the number of the sender, and the body of the kind.
use crate::same::{same, same_items};
use roc_io::{Addr, Datagram};
use std::alloc::Global;
use std::process::Abort;

/// The tag of the nodes.
pub(crate) const TAG: [u8; 8] = *b"tagoften";

/// A datagram with the address that it comes from or goes to.
pub(crate) type Packet = (Addr, &'static [u8]);

/// Coordinator 0 starts group 0 of procedure 0 for its transaction 0.0, with the argument 5.
pub(crate) const START: &[u8] =
    b"RCO1\x02\x01tagoften\x01\0\0\0\0\0\0\0\0\0\0\0\0\0\x01\0\0\0\0\0\0\0\x05\0\0";

/// The same under another tag.
pub(crate) const STRANGE_START: &[u8] =
    b"RCO1\x02\x01othertag\x01\0\0\0\0\0\0\0\0\0\0\0\0\0\x01\0\0\0\0\0\0\0\x05\0\0";

/// Shard 0 has started 0.0, and nothing comes before it.
pub(crate) const STARTOK: &[u8] = b"RCO1\x02\x02tagoften\0\0\0\0\0\0\0\0\0\0\0\0\0\0\0\0\0\0\0\0";

/// Coordinator 0 commits 0.0, and nothing comes before it.
pub(crate) const COMMIT: &[u8] = b"RCO1\x02\x03tagoften\x01\0\0\0\0\0\0\0\0\0\0\0\0";

/// Shard 0 gives 0 to the reply of 0.0.
pub(crate) const COMMITOK: &[u8] =
    b"RCO1\x02\x04tagoften\0\0\0\0\0\0\0\0\0\0\0\x01\0\0\0\0\0\0\0\0";

/// Coordinator 0 stops a server.
pub(crate) const STOP: &[u8] = b"RCO1\x02\x07tagoften\x01\0\0";

/// A known with two entries of one transaction, and so no datagram, whatever the tag.
pub(crate) const KNOWN_TWICE: &[u8] =
    b"RCO1\x02\x06\x01\x02\x03\x04\x05\x06\x07\x08\0\0\x01\0\0\0\0\0\0\0\x02\0\x01\0\0\0\0\x02\x01\0\x01\0\0\0\0\x02\x01";

/// A start of 0.0 that names procedure 1.
pub(crate) const START_OF_PROCEDURE_1: &[u8] =
    b"RCO1\x02\x01tagoften\x01\0\0\0\0\0\0\0\0\0\x01\0\0\0\x01\0\0\0\0\0\0\0\x05\0\0";

/// A start of 0.0 that names group 1.
pub(crate) const START_OF_GROUP_1: &[u8] =
    b"RCO1\x02\x01tagoften\x01\0\0\0\0\0\0\0\0\0\0\0\x01\0\x01\0\0\0\0\0\0\0\x05\0\0";

/// A start of 0.0 that has no arguments.
pub(crate) const START_WITHOUT_ARGUMENTS: &[u8] =
    b"RCO1\x02\x01tagoften\x01\0\0\0\0\0\0\0\0\0\0\0\0\0\0\0\0";

/// Shard 1 asks for the list of 9.9.
pub(crate) const FETCH_OF_NOTHING: &[u8] = b"RCO1\x02\x05tagoften\0\0\x01\0\x09\0\0\0\x09\x01";

/// Coordinator 0 starts procedure 1 for 0.0, with the arguments 0 and 1.
pub(crate) const ADD_OF_FIRST: &[u8] =
    b"RCO1\x02\x01tagoften\x01\0\0\0\0\0\0\0\0\0\x01\0\0\0\x02\0\0\0\0\0\0\0\0\0\0\0\0\0\0\0\x01\0\0";

/// Coordinator 1 starts the same for 1.0.
pub(crate) const ADD_OF_SECOND: &[u8] =
    b"RCO1\x02\x01tagoften\x01\0\x01\0\x01\0\0\0\0\0\x01\0\0\0\x02\0\0\0\0\0\0\0\0\0\0\0\0\0\0\0\x01\0\0";

/// A commit of 0.0 with an immediate edge from 1.0.
pub(crate) const COMMIT_BEHIND_SECOND: &[u8] =
    b"RCO1\x02\x03tagoften\x01\0\0\0\0\0\0\0\0\0\x01\0\x01\0\0\0\0\x01\0\0\0";

/// A commit of 1.0 with an immediate edge from 0.0.
pub(crate) const COMMIT_BEHIND_FIRST: &[u8] =
    b"RCO1\x02\x03tagoften\x01\0\x01\0\x01\0\0\0\0\0\x01\0\0\0\0\0\0\x01\0\0\0";

/// A commit of 0.0 with an immediate edge from 1.0, which shard 1 has told.
pub(crate) const COMMIT_BEHIND_OTHER_SHARD: &[u8] =
    b"RCO1\x02\x03tagoften\x01\0\0\0\0\0\0\0\0\0\x01\0\x01\0\0\0\0\x01\x01\0\0";

/// Shard 0 asks for the list of 1.0.
pub(crate) const FETCH_OF_SECOND: &[u8] = b"RCO1\x02\x05tagoften\0\0\0\0\x01\0\0\0\0\0";

/// Shard 63 asks for the list of 0.0.
pub(crate) const FETCH_OF_FIRST: &[u8] = b"RCO1\x02\x05tagoften\0\0?\0\0\0\0\0\0?";

/// Shard 0 has started 1.0, behind a deferrable edge from 0.0.
pub(crate) const STARTOK_BEHIND_FIRST: &[u8] =
    b"RCO1\x02\x02tagoften\0\0\0\0\x01\0\0\0\0\0\0\0\0\0\0\0\0\x01\0\0\0\0\0\0\x02\0\0\0";

/// Shard 0 gives 100 to the reply of 0.0.
pub(crate) const HUNDRED: &[u8] = b"RCO1\x02\x04tagoften\0\0\0\0\0\0\0\0\0\0\0\x01\0\0\0\0\0\0\0d";

/// Shard 0 gives 101 to the reply of 1.0.
pub(crate) const HUNDRED_AND_ONE: &[u8] =
    b"RCO1\x02\x04tagoften\0\0\0\0\x01\0\0\0\0\0\0\x01\0\0\0\0\0\0\0e";

/// The arrivals of a link.
pub(crate) fn arrivals_of(rt: &impl Abort, alloc: Global, packets: &[Packet]) -> Vec<Datagram> {
    let mut arrivals = Vec::new(alloc);
    for (from, bytes) in packets {
        let datagram = Datagram::copied(alloc, *from, bytes).expect(rt, "memory");
        arrivals.push(datagram).expect(rt, "memory");
    }
    arrivals
}

/// Asserts that exactly these datagrams were sent, in order.
pub(crate) fn are_sent(rt: &impl Abort, name: &str, found: &[Datagram], wanted: &[Packet]) {
    same(rt, name, &found.len(), &wanted.len());
    for (datagram, (to, bytes)) in found.iter().zip(wanted) {
        same(rt, name, &datagram.address(), to);
        same_items(rt, name, datagram.bytes(), bytes);
    }
}
