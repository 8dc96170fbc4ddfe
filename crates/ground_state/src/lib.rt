//! Planning tasks and instances of them by numbers, and states as sets of ground atoms. In `specs/` read `Task` first,
//! then `Ground` and `Action`; how states are lists of truth values need not be read: `src/laws.rt` says as laws which
//! atoms hold at the start and after an action, which are missing, and that the tests of types and of actions are
//! right. In `specs/Inner/` is what contracts between private functions cite, one file.
#![tactic(auto)]

mod action;
mod atoms;
mod bits;
mod laws;
mod numbering;
mod parts;
mod refusal;
mod table;
mod task;
mod types;
mod word;

pub use action::apply;
pub use atoms::Atoms;
pub use laws::{
    acting_gives_the_result_exactly_where_applicable, action_is_applicable_exactly_where_tested,
    atom_holds_at_the_start_exactly_where_listed,
    atom_holds_in_the_result_exactly_where_added_or_kept, goal_is_met_exactly_where_its_facts_hold,
    goal_is_met_exactly_where_listed, limits, missing_atoms_are_those_listed_that_do_not_hold,
    type_is_reached_exactly_where_tested, unmet_goal_has_a_fact_not_listed,
};
pub use parts::{
    Fact, InstanceParts, Lifted, MAX_ARITY, MAX_ATOMS, MAX_OBJECTS, MAX_PARAMETERS, ObjectEntry,
    PredicateEntry, SchemaEntry, TaskParts, Term, TypeEntry,
};
pub use refusal::GroundRefusal;
pub use table::AtomTable;
pub use task::{Instance, Task};
