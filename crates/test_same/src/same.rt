//! Comparisons that tests call, so that the proof of each has a call in place of a whole assertion.

use std::fmt::Debug;
use std::process::Abort;

/// What was found is what is wanted.
pub(crate) fn same<T: Copy + Debug + PartialEq>(rt: &impl Abort, found: T, wanted: T) {
    assert_eq!(rt; found, wanted);
}
