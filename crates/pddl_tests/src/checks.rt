//! How what a test gets is compared with what it wants.

use std::fmt::Debug;
use std::process::Abort;

/// Ends the test where a text gives another value than it has to.
pub fn check_reply<R: Abort, T: PartialEq + Debug>(rt: &R, text: &[u8], got: &T, want: &T) {
    assert_eq!(rt; got, want, "{text:?}");
}

/// Ends the test where bytes are not those that are wanted.
pub fn check_bytes<R: Abort>(rt: &R, got: &[u8], want: &[u8]) {
    assert_eq!(rt; got, want);
}

/// Ends the test where a text is not the one that is wanted.
pub fn check_text<R: Abort>(rt: &R, got: &str, want: &str) {
    assert_eq!(rt; got, want);
}
