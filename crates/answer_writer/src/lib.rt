//! The answer document: what it is, and how it is written.
//!
//! In specs/ read Document.
#![tactic(auto)]

mod writing;
mod written_lines;

pub use writing::{add_found, add_verdict, write_answer};
