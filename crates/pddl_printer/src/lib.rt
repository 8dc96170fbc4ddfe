//! Printing texts of PDDL: a domain or a problem as a line of bytes that reads back as the same
//! text.
//!
//! What is believed: `specs/Printing.antt` (the words of a text, in order), then `specs/Alike.antt` (which texts say the same).
#![tactic(auto)]

mod formulas;
mod laws;
mod print;
mod sections;
mod words;

pub use laws::{printed_domain_reads, printed_problem_reads};
pub use print::{print_domain, print_problem};
