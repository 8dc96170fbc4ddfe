//! The answer document, read.
//!
//! In specs/ read Reading: what bytes say. specs/Inner has what private functions promise each other; there read Following
//! first (what may follow at each place of a document).
#![tactic(auto)]

mod heading;
mod laws;
mod line_reader;
mod next_lines;
mod open_trees;
mod read_trees;
mod reading;
mod refusal;

pub use laws::{one_answer, written_answers_read_back};
pub use reading::read_answer;
pub use refusal::AnswerRefusal;
