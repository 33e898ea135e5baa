//! An assertion in a function of its own is proved once.
use std::process::Abort;

/// Fails where it is not so.
pub(crate) fn holds(rt: &impl Abort, name: &str, is_so: bool) {
    assert!(rt; is_so, "{}", name);
}
