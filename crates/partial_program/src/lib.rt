//! Partial programs that are kept as links: a node names its parent and the one instruction that it has beyond it. The nodes of
//! a chain stand in one slab, and a node is freed once it has neither a hold nor a child.
//!
//! Of `specs/` read `Chain`, which says what contracts see of a chain.
#![tactic(auto)]

mod chain;
mod idle;
mod node;

pub use chain::{Chain, NodeId};
