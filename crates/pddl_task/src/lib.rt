//! From the texts of PDDL domains and problems to planning tasks and instances: names become numbers, and each fault of a
//! text is told with its place.
//! Of specs/ read Replies first (what `task` and `instance` answer), then Faults, Types and Parts; of specs/Inner, which
//! only the functions here cite, Faults; of src/ `making`, then `checks` (the first fault) and `entries` (the parts).
#![tactic(auto)]

mod arities;
mod atom_checks;
mod check;
mod checks;
mod cycles;
mod entries;
mod fault;
mod laws;
mod limits;
mod making;
mod names;
mod refusal;
mod twice;
mod typing;
mod worded;

pub use laws::{at_most_one_instance_reply, at_most_one_task_reply};
pub use making::{instance, task};
pub use refusal::{TaskRefusal, Which};
