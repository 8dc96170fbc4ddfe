//! The summary of a search over a family of instances: what it is, and how it is written.
//!
//! In specs/ read Summary.
#![tactic(auto)]

mod sample;
mod splits;
mod writing;
mod written_lines;

pub use sample::Sample;
pub use writing::write_summary;
