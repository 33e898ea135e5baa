//! Datagrams, each with a tag of zeros: an id is written COORDINATOR.SEQUENCE.
use roc_msg::Msg;
use roc_wire::decode;
use std::alloc::Global;
use std::process::Abort;

/// 0.0 starts group 0 of procedure 0 with the argument 5.
pub(crate) const START: &[u8] =
    b"RCO1\x02\x01\0\0\0\0\0\0\0\0\x01\0\0\0\0\0\0\0\0\0\0\0\0\0\x01\0\0\0\0\0\0\0\x05\0\0";

/// The same with the argument 6.
pub(crate) const START_AGAIN: &[u8] =
    b"RCO1\x02\x01\0\0\0\0\0\0\0\0\x01\0\0\0\0\0\0\0\0\0\0\0\0\0\x01\0\0\0\0\0\0\0\x06\0\0";

/// 1.0 starts that group.
pub(crate) const SECOND_START: &[u8] =
    b"RCO1\x02\x01\0\0\0\0\0\0\0\0\x01\0\0\0\x01\0\0\0\0\0\0\0\0\0\x01\0\0\0\0\0\0\0\x05\0\0";

/// 0.0 starts a group of procedure 1.
pub(crate) const NO_PROC: &[u8] =
    b"RCO1\x02\x01\0\0\0\0\0\0\0\0\x01\0\0\0\0\0\0\0\0\0\x01\0\0\0\x01\0\0\0\0\0\0\0\x05\0\0";

/// 0.0 starts group 1.
pub(crate) const NO_GROUP: &[u8] =
    b"RCO1\x02\x01\0\0\0\0\0\0\0\0\x01\0\0\0\0\0\0\0\0\0\0\0\x01\0\x01\0\0\0\0\0\0\0\x05\0\0";

/// 0.0 starts group 0 without arguments.
pub(crate) const NO_ARGS: &[u8] =
    b"RCO1\x02\x01\0\0\0\0\0\0\0\0\x01\0\0\0\0\0\0\0\0\0\0\0\0\0\0\0\0";

/// 0.0 commits, and nothing precedes it.
pub(crate) const COMMIT: &[u8] = b"RCO1\x02\x03\0\0\0\0\0\0\0\0\x01\0\0\0\0\0\0\0\0\0\0\0\0";

/// 0.0 commits behind 1.0.
pub(crate) const COMMIT_BEHIND: &[u8] =
    b"RCO1\x02\x03\0\0\0\0\0\0\0\0\x01\0\0\0\0\0\0\0\0\0\x01\0\x01\0\0\0\0\x02\0\0\0";

/// 0.0 commits with a fact that is unlike its own list.
pub(crate) const TORN_COMMIT: &[u8] =
    b"RCO1\x02\x03\0\0\0\0\0\0\0\0\x01\0\0\0\0\0\0\0\0\0\0\0\x01\0\0\0\0\0\0\0\x01\0\x01\0\0\0\0\x02\0";

/// 0.0 commits behind 1.0, by immediate groups.
pub(crate) const CIRCLE: &[u8] =
    b"RCO1\x02\x03\0\0\0\0\0\0\0\0\x01\0\0\0\0\0\0\0\0\0\x01\0\x01\0\0\0\0\x01\0\0\0";

/// 1.0 commits behind 0.0, by immediate groups.
pub(crate) const CIRCLE_BACK: &[u8] =
    b"RCO1\x02\x03\0\0\0\0\0\0\0\0\x01\0\0\0\x01\0\0\0\0\0\x01\0\0\0\0\0\0\x01\0\0\0";

/// Shard 0 has run 0.0, without numbers.
pub(crate) const COMMITOK: &[u8] = b"RCO1\x02\x04\0\0\0\0\0\0\0\0\x01\0\0\0\0\0\0\0\0\0\0\0";

/// Shard 63 asks for the list of 0.0.
pub(crate) const FETCH: &[u8] = b"RCO1\x02\x05\0\0\0\0\0\0\0\0\x01\0\0\0\0\0\0\0\0\x3f";

/// The list of 0.0 is empty.
pub(crate) const KNOWN: &[u8] = b"RCO1\x02\x06\0\0\0\0\0\0\0\0\x01\0\0\0\0\0\0\0\0\0\0";

/// A stop.
pub(crate) const STOP: &[u8] = b"RCO1\x02\x07\0\0\0\0\0\0\0\0\x01\0\0";

/// Coordinator 0 has answered what is below 3.
pub(crate) const ENDED_3: &[u8] = b"RCO1\x02\x08\0\0\0\0\0\0\0\0\x01\0\0\0\0\0\0\0\x03";

/// Coordinator 0 has answered what is below 2.
pub(crate) const ENDED_2: &[u8] = b"RCO1\x02\x08\0\0\0\0\0\0\0\0\x01\0\0\0\0\0\0\0\x02";

/// 1.4 is settled, and what coordinator 1 has answered is below 5.
pub(crate) const SETTLED: &[u8] = b"RCO1\x02\x09\0\0\0\0\0\0\0\0\x01\0\0\0\x01\0\0\0\x04\0\0\0\x05";

/// An answer to a read, without numbers.
pub(crate) const READOK: &[u8] =
    b"RCO1\x02\x0b\0\0\0\0\0\0\0\0\x01\0\0\0\x01\0\0\0\0\0\0\0\x01\0\0\0\0\0\0\0";

/// The view 1.0 reads group 0 of procedure 1 at place 0.
pub(crate) const READ: &[u8] =
    b"RCO1\x02\x0a\0\0\0\0\0\0\0\0\x01\0\0\0\x01\0\0\0\0\0\0\0\x01\0\x01\0\0\0\x01\0\0\0\0\0\0\0\0";

/// It reads procedure 0.
pub(crate) const READ_OF_0: &[u8] =
    b"RCO1\x02\x0a\0\0\0\0\0\0\0\0\x01\0\0\0\x01\0\0\0\0\0\0\0\x01\0\0\0\0\0\x01\0\0\0\0\0\0\0\0";

/// It reads procedure 2.
pub(crate) const READ_OF_2: &[u8] =
    b"RCO1\x02\x0a\0\0\0\0\0\0\0\0\x01\0\0\0\x01\0\0\0\0\0\0\0\x01\0\x02\0\0\0\x01\0\0\0\0\0\0\0\0";

/// It reads group 1.
pub(crate) const READ_GROUP_1: &[u8] =
    b"RCO1\x02\x0a\0\0\0\0\0\0\0\0\x01\0\0\0\x01\0\0\0\0\0\0\0\x01\0\x01\0\x01\0\x01\0\0\0\0\0\0\0\0";

/// It reads without arguments.
pub(crate) const READ_NO_ARGS: &[u8] =
    b"RCO1\x02\x0a\0\0\0\0\0\0\0\0\x01\0\0\0\x01\0\0\0\0\0\0\0\x01\0\x01\0\0\0\0";

/// It reads at place 1.
pub(crate) const READ_PLACE_1: &[u8] =
    b"RCO1\x02\x0a\0\0\0\0\0\0\0\0\x01\0\0\0\x01\0\0\0\0\0\0\0\x01\0\x01\0\0\0\x01\0\0\0\0\0\0\0\x01";

/// Shard 0 has started group 0 of 0.0.
pub(crate) const STARTOK: &[u8] =
    b"RCO1\x02\x02\0\0\0\0\0\0\0\0\x01\0\0\0\0\0\0\0\0\0\0\0\0\0\0\0\0\0\0\0";

/// Shard 0 has started group 0 of 0.1.
pub(crate) const STARTOK_OTHER: &[u8] =
    b"RCO1\x02\x02\0\0\0\0\0\0\0\0\x01\0\0\0\0\0\0\0\x01\0\0\0\0\0\0\0\0\0\0\0";

/// Shard 1 has started group 0 of 0.0.
pub(crate) const STARTOK_SHARD_1: &[u8] =
    b"RCO1\x02\x02\0\0\0\0\0\0\0\0\x01\0\0\0\0\0\0\0\0\0\0\x01\0\0\0\0\0\0\0\0";

/// The same with one number.
pub(crate) const COMMITOK_7: &[u8] =
    b"RCO1\x02\x04\0\0\0\0\0\0\0\0\x01\0\0\0\0\0\0\0\0\0\0\x01\0\0\0\0\0\0\0\x07";

/// The same with two.
pub(crate) const COMMITOK_7_8: &[u8] =
    b"RCO1\x02\x04\0\0\0\0\0\0\0\0\x01\0\0\0\0\0\0\0\0\0\0\x02\0\0\0\0\0\0\0\x07\0\0\0\0\0\0\0\x08";

/// The view 0.0 reads.
pub(crate) const FIRST_READ: &[u8] =
    b"RCO1\x02\x0a\0\0\0\0\0\0\0\0\x01\0\0\0\0\0\0\0\0\0\0\0\x01\0\x01\0\0\0\0";

/// Shard 0 answers round 1 of the view 0.0, with one version and one number.
pub(crate) const READOK_1: &[u8] =
    b"RCO1\x02\x0b\0\0\0\0\0\0\0\0\x01\0\0\0\0\0\0\0\0\0\0\0\x01\0\0\0\0\x01\0\0\0\0\0\0\0\0\0\x01\0\0\0\0\0\0\0\x05";

/// The same of round 2.
pub(crate) const READOK_2: &[u8] =
    b"RCO1\x02\x0b\0\0\0\0\0\0\0\0\x01\0\0\0\0\0\0\0\0\0\0\0\x02\0\0\0\0\x01\0\0\0\0\0\0\0\0\0\x01\0\0\0\0\0\0\0\x05";

/// The same of 0.1.
pub(crate) const READOK_OTHER: &[u8] =
    b"RCO1\x02\x0b\0\0\0\0\0\0\0\0\x01\0\0\0\0\0\0\0\x01\0\0\0\x01\0\0\0\0\x01\0\0\0\0\0\0\0\0\0\x01\0\0\0\0\0\0\0\x05";

/// The same of group 1.
pub(crate) const READOK_GROUP_1: &[u8] =
    b"RCO1\x02\x0b\0\0\0\0\0\0\0\0\x01\0\0\0\0\0\0\0\0\0\0\0\x01\0\x01\0\0\x01\0\0\0\0\0\0\0\0\0\x01\0\0\0\0\0\0\0\x05";

/// Shard 1 answers.
pub(crate) const READOK_SHARD_1: &[u8] =
    b"RCO1\x02\x0b\0\0\0\0\0\0\0\0\x01\0\0\0\0\0\0\0\0\0\0\0\x01\0\0\x01\0\x01\0\0\0\0\0\0\0\0\0\x01\0\0\0\0\0\0\0\x05";

/// The answer has two versions.
pub(crate) const READOK_VERSIONS: &[u8] =
    b"RCO1\x02\x0b\0\0\0\0\0\0\0\0\x01\0\0\0\0\0\0\0\0\0\0\0\x01\0\0\0\0\x02\0\0\0\0\0\0\0\0\0\0\0\0\0\0\0\0\0\x01\0\0\0\0\0\0\0\x05";

/// The message of a datagram.
pub(crate) fn message_of(rt: &impl Abort, alloc: Global, bytes: &[u8]) -> Msg {
    decode(alloc, bytes).expect(rt, "a datagram").1
}
