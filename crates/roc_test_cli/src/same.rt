//! What is found is what is wanted. An assertion in a function of its own is proved once.
use std::fmt::Debug;
use std::process::Abort;

/// Fails where another value is found than is wanted.
pub(crate) fn same<T: PartialEq + Debug>(rt: &impl Abort, name: &str, found: &T, wanted: &T) {
    assert_eq!(rt; *found, *wanted, "{}", name);
}

/// Fails where other items are found than are wanted.
pub(crate) fn same_items<T: PartialEq + Debug>(
    rt: &impl Abort,
    name: &str,
    found: &[T],
    wanted: &[T],
) {
    assert_eq!(rt; found, wanted, "{}", name);
}
