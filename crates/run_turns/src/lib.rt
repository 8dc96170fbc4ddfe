//! Suspended runs of a partial program over any machine, which are brought to a verdict in turns.
//!
//! Of specs/ read Settling first, which says which runs these are, where they stand after a verdict, and what they do on the way;
//! the verdict itself stands in program_model's specs/, in Verdict.
#![tactic(auto)]

mod joining;
mod round;
mod settling;

pub use settling::settle;
