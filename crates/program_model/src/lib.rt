//! Planning programs over any machine: instructions and their alphabets, partial programs, the trait of machines, and what
//! runs come to.
//!
//! Of specs/ read Program and Run first, which say what a program is and how it runs; then Standing and Verdict, on where
//! runs stand and what is said of a program by that.
#![tactic(auto)]

mod alphabet;
mod instr;
mod laws;
mod machine;
mod outcome;
mod partial;
mod renaming;
mod standing;
mod verdict;

pub use alphabet::{CONDITIONS, MAX_LINES, MAX_OPS, alphabet_len, instr_at, rank_of};
pub use instr::Instr;
pub use laws::{
    at_most_one_verdict, completions_run_alike, limits, refuted_completions_fail, runs_stand_once,
};
pub use machine::{MAX_INSTANCES, MAX_POINTERS, Machine};
pub use outcome::RunOutcome;
pub use partial::Partial;
pub use renaming::Renaming;
pub use standing::{MAX_RUN, Stand};
pub use verdict::{Cause, Verdict};
