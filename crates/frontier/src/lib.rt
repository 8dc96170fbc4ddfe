//! A frontier: pairs of a key and a number, of which the one that comes first is taken out. It is a leftist heap, whose nodes are linked by their
//! places in one slab.
//!
//! Of `specs/` read `Pairs`, which says what contracts see of a frontier.
#![tactic(auto)]

mod frontier;
mod heap;
mod node;

pub use frontier::Frontier;
