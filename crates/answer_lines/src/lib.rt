//! The lines of answer documents: what each says by itself, and how long it may be.
//!
//! In specs/ read Lines first (which lines there are, and what they say), then Cuts (bytes that are cut, and numbers).
#![tactic(auto)]

mod bytes;
mod laws;
mod numbers;
mod read_lines;
mod room;

pub use bytes::cut_before;
pub use laws::{
    documents_are_of_lines, long_lines_are_operations, no_line_feed, one_ends, one_mark,
    one_number, one_verdict,
};
pub use read_lines::{ends_of, mark_of, number_after, verdict_of};
pub use room::{MAX_PLAIN_LINE, line_room};
