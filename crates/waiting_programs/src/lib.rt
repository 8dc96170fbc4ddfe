//! Partial programs that wait to be split, each with a suspended run on each instance. What two of them have in common stands
//! once: a program is linked to the one that it extends, and a run that a child does not take further is shared with its parent.
//!
//! Of `specs/` read `Programs`, which says what contracts see of them; `specs/Inner` says how they share their runs.
#![tactic(auto)]

mod holds;
mod kept;
mod moves;
mod programs;

pub use programs::{WaitingId, WaitingPrograms};
