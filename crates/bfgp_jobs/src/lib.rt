//! The commands of the planner: the words of a command and the files that they name in, a status and what is written out.
//!
//! Of `specs/` read `Headline` first: what statuses 0, 1, 4 and 5 say, in the words of planning; and `Acceptance`: that `check` accepts
//! what `synth` wrote. Then `Due`: the one reply that is due for words and files; `Answers`: what each status says of what was
//! written; and `Process`: the number to end with. `Inner` has what private functions owe each other.
#![tactic(auto)]

mod check;
mod family_search;
mod laws;
mod process;
mod reply;
mod replying;
mod run;
mod searching;
mod status;
mod synth;
mod top;

pub use check::MAX_DOCUMENT_BYTES;
pub use laws::{at_most_one_reply_is_due, limits};
pub use process::{NO_WORDS, run_process};
pub use status::Status;
pub use top::bfgp;
