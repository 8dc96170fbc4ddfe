//! The bounds of a search: its lines, its budget of splits, its limit of steps, and its order.
//!
//! `specs/Limits` says which bounds are within their limits.
#![tactic(auto)]

mod bounds;
mod laws;

pub use bounds::{Bounds, MAX_BUDGET};
pub use laws::limits;
