//! The repetitions of a run that are noticed by Brent's cycle finding: the configurations of steps 0, 1, 3, 7 and so on are
//! marked, and each is compared with those that follow, up to the next one that is marked.
//!
//! Of `specs/` read `Marks` and `Turns` first, which say what the marks are and how they move; then `Repetitions`, which says
//! what is noticed of a run.
#![tactic(auto)]

mod laws;
mod marks;
mod turn;

pub use laws::{limits, noticed_after_the_first, noticed_in_time, turns_notice};
pub use marks::{MAX_STEPS, Marks};
pub use turn::Turn;
