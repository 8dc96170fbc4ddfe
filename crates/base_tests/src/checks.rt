//! How what a test gets is compared with what it wants.

use std::fmt::Debug;
use std::process::Abort;

/// Ends the test where a row of a table gives another value than it has to.
pub fn check_value<R: Abort, T: PartialEq + Debug>(rt: &R, row: &str, got: &T, want: &T) {
    assert_eq!(rt; got, want, "{row}");
}

/// Ends the test where bytes are not those that are wanted.
pub fn check_bytes<R: Abort>(rt: &R, got: &[u8], want: &[u8]) {
    assert_eq!(rt; got, want);
}
