//! The report on a planning program over any machine: where its run stands on each instance, and how many it solves.
//!
//! Of specs/ read Report first, which says the text; Runs says what the runs' outcomes tell of the instances.
#![tactic(auto)]

mod answer;
mod laws;
mod lines;
mod reporting;

pub use answer::Report;
pub use laws::{at_most_one_report, reports_tell_solutions};
pub use reporting::report;
