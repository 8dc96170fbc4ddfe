//! The evidence of a search, as trees of partial programs, and what it shows.
//!
//! In specs/ read Covers first (what a tree shows), then Grammar (what an answer may say), then Accepted (when what it says
//! is shown). Splits counts the splits that trees tell.
#![tactic(auto)]

mod evidence;
mod laws;
mod ranges;

pub use evidence::{Answer, Mark, Outcome, Tree};
pub use laws::{
    accepted_answers_hold, covered_programs_do_not_solve, limits, passing_nobody_over_is_fair,
};
pub use ranges::{MAX_SPLITS, MAX_STEPS};
