//! Renamings of pointers, canonical forms of operations, and twins: of the children of a partial program that differ in the
//! numbers of unused pointers alone, all but the canonical one.
//!
//! In specs/ read Renamed first (programs over renamed pointers), then Used, Twins (which children are twins) and Counterparts (why
//! they may be passed over).
#![tactic(auto)]

mod canonical_forms;
mod laws;
mod numbering;
mod pointer_sets;
mod renamings;
mod twins;

pub use canonical_forms::canonical;
pub use laws::{passing_twins_over_is_fair, renamed_programs_solve_alike, twins_have_counterparts};
pub use renamings::{compose, inverse};
pub use twins::{is_twin, used_by};
