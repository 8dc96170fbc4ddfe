//! How long the document of an answer may be.
#![tactic(auto)]

mod laws;
mod lengths;

pub use laws::{documents_fit, limits};
pub use lengths::{MAX_DOCUMENT_LENGTH, MAX_TEXT_LENGTH};
