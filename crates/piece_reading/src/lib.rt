//! Files that are read through in pieces: what takes the pieces, and the call that gives it a file's bytes to the end.
//!
//! Of `specs/` read `Taker` first (what a taker took), then `Through` (what reading a file through tells).
#![tactic(auto)]

mod taker;
mod through;

pub use taker::Taker;
pub use through::{PIECE_LENGTH, ThroughRefusal, read_through};
