//! How what a test gets is compared with what it wants.

use bfgp_outside::MemorySink;
use std::fmt::Debug;
use std::process::Abort;

/// Ends the test where a text gives another value than it has to.
pub fn check_reply<R: Abort, T: PartialEq + Debug>(rt: &R, text: &str, got: &T, want: &T) {
    assert_eq!(rt; got, want, "{text}");
}

/// Ends the test where bytes are not those of the text that is wanted.
pub fn check_bytes<R: Abort>(rt: &R, got: &[u8], want: &str) {
    assert_eq!(rt; got, want.as_bytes());
}

/// Ends the test where a sink has not taken the text that is wanted.
pub fn check_written<R: Abort>(rt: &R, sink: &MemorySink, want: &str) {
    check_bytes(rt, sink.written(), want);
}
