//! What is found is what is wanted. An assertion in a function of its own is proved once, and so is a call that wants memory.
use std::alloc::Global;
use std::fmt::Debug;
use std::process::Abort;

/// Fails where another value is found than is wanted.
pub(crate) fn same<T: PartialEq + Debug>(rt: &impl Abort, what: &str, found: &T, wanted: &T) {
    assert_eq!(rt; *found, *wanted, "{}", what);
}

/// Fails where other items are found than are wanted.
pub(crate) fn same_items<T: PartialEq + Debug>(
    rt: &impl Abort,
    what: &str,
    found: &[T],
    wanted: &[T],
) {
    assert_eq!(rt; found, wanted, "{}", what);
}

/// A copy of these bytes.
pub(crate) fn bytes_of(rt: &impl Abort, alloc: Global, bytes: &[u8]) -> Vec<u8> {
    bytes.to_vec(alloc).expect(rt, "memory")
}
