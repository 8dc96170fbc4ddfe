//! The judgement on a partial program: its runs are brought to a verdict, and where it waits it has a key for the order of a search.
//!
//! Of `specs/` read `Judging`, which says what a judgement is, and which runs it asks for.
#![tactic(auto)]

mod judging;
mod standings;

pub use judging::{Ends, Judgement, judge};
pub use standings::{MAX_RUNS, Standings, standing};
