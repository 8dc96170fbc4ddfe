//! Families of planning instances that are made from a number, as texts of PDDL.
//!
//! Of `specs/` read `Families` first, on sizes and bounds; then `Domains` and `Problems`, on what the texts say; and `Parts`, on the
//! planning tasks that they are. `laws` says that these texts are read without a refusal, as these tasks.
#![tactic(auto)]

mod domains;
mod kinds;
mod laws;
mod making;
mod pieces;
mod problems;
mod sizes;
mod texts;

pub use kinds::{Family, MAX_NUMBER};
pub use laws::{
    domains_are_read_without_a_refusal, families_have_few_atoms,
    instances_are_made_without_a_refusal, limits, problems_are_read_without_a_refusal,
    sizes_are_within_limits, tasks_are_made_without_a_refusal, texts_fit_into_files,
};
pub use making::family;
pub use texts::FamilyTexts;
