//! A pool: values with counts. A value that several hold stands at one slot, and comes out where the last of them gives it up.
//!
//! Of `specs/` read `Pool`, which says what contracts see of a pool.
#![tactic(auto)]

mod held;
mod pool;

pub use pool::{Pool, Slot};
