//! Runs of partial programs over any machine, which are suspended and advanced in turns.
//!
//! What a standing is stands in program_model's specs/, in Standing. Of specs/ read Runs first, which says for which step of a
//! program's run a suspended run stands, and what is told where it is advanced; Counts says how many copies that takes.
#![tactic(auto)]

mod configuration;
mod laws;
mod run;

pub use laws::{repetitions_are_noticed_in_time, runs_are_alike, runs_are_shared};
pub use run::Run;
