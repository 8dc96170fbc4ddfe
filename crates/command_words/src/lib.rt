//! The words of a command: which job they are, and the usage text.
//!
//! Words are tested for their form first: uses of options in any order, and then names. Words of that form are handed to `clap`, and
//! the values come from its matches; all others are no job. `gen` has no options, and two names: those of a family and of a number.
//!
//! Of `specs/` read `Words`: the form of the words, as `JobOf`. `Inner` has what private functions owe each other.
#![tactic(auto)]

mod form;
mod job;
mod laws;
mod matching;
mod number;
mod reading;
mod refusal;
mod scanning;
mod usage;
mod value;

pub use job::{
    CheckJob, GenJob, Inputs, Job, LEAST_BUDGET, LEAST_RUN, RunJob, SynthJob, USUAL_BUDGET,
    USUAL_RUN,
};
pub use laws::{at_most_one_job, limits, the_job_of_words_keeps_its_limits};
pub use reading::job_of;
pub use refusal::JobRefusal;
pub use usage::usage_text;
