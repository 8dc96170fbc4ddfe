//! Documents of answers, checked as they are read.
//!
//! Of specs/ read Documents first (what is accepted), then Files (what is told of a file) and Standing (for which bytes a checker
//! stands). Remaining, what is still to come of a document at each place of it, need not be believed: callers hand `StandsFor` on.
#![tactic(auto)]

mod checker;
mod file;
mod front;
mod laws;
mod progress;
mod reading;
mod said;
mod stage;

pub use checker::Checker;
pub use file::check_file;
pub use laws::accepted_documents_hold;
pub use piece_reading::ThroughRefusal as DocumentRefusal;
