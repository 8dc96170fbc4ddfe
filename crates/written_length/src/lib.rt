//! How long the document may be of the answer that a search over input files gives.
#![tactic(auto)]

mod laws;

pub use laws::{operation_texts_are_short, searches_split_within_their_budget};
