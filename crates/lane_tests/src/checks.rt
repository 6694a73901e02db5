//! How a test ends where something is wrong.

use std::process::Abort;

/// Ends the test where a look isn't as it should be.
pub(crate) fn is_right<R: Abort>(rt: &R, right: bool) {
    assert!(rt; right);
}

/// Ends the test where a case of its table goes otherwise, with the place of that case.
pub(crate) fn none_is_wrong<R: Abort>(rt: &R, first_wrong: Option<usize>) {
    assert_eq!(rt; first_wrong, None);
}
