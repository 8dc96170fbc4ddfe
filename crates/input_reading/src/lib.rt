//! Reads the files of a job: the machine over a domain and instances, a program, any further file, and the line that tells a
//! fault. The machine over texts that are held in memory is made here too.
//!
//! Of `specs/` read `Inputs` first: what is due of the files, step by step; then `Posed`: the task and the instances that they
//! hold; and `Faults`: the lines that tell a fault. `Inner` has what private functions owe each other.
#![tactic(auto)]

mod domain_reading;
mod fault;
mod file_reading;
mod halt;
mod instance_reading;
mod machine;
mod program_reading;
mod telling;

pub use fault::Fault;
pub use file_reading::read_input;
pub use halt::Halt;
pub use machine::{machine_for, machine_of_texts};
pub use program_reading::program_of;
pub use telling::tell;
