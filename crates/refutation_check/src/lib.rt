//! The checker of answers: it accepts exactly those whose evidence is true, by runs of its own.
//!
//! What is accepted stands in refutation_tree, specs/Accepted, and which children are twins in pointer_symmetry, specs/Twins.
//! A [`Walk`] goes over the marks of one tree after another and takes memory only when it is made; what is asked of the marks
//! stands in specs/Walking. specs/Inner has what private functions promise each other; there read Runs first (where a run stands).
#![tactic(auto)]

mod accepting;
mod configuration;
mod family;
mod grammar;
mod mark;
mod run;
mod trees;
mod trial;
mod walk;

pub use accepting::accepts;
pub use grammar::{last_size, says_refuted};
pub use walk::Walk;
