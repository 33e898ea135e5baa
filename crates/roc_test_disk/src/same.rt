//! What is found is what is wanted. An assertion in a function of its own is proved once.
use roc_disk::DiskDone;
use std::fmt::Debug;
use std::process::Abort;

/// Fails where another value is found than is wanted.
pub(crate) fn same<T: PartialEq + Debug>(rt: &impl Abort, what: &str, found: &T, wanted: &T) {
    assert_eq!(rt; *found, *wanted, "{}", what);
}

/// Fails where a call answers something else than is wanted.
pub(crate) fn answers(rt: &impl Abort, what: &str, found: DiskDone, wanted: DiskDone) {
    same(rt, what, &found, &wanted);
}

/// Fails where other bytes are found than are wanted.
pub(crate) fn holds(rt: &impl Abort, what: &str, found: &[u8], wanted: &[u8]) {
    assert_eq!(rt; found, wanted, "{}", what);
}
