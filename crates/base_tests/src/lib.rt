//! Tests of the crates that all others stand on, which has no code of its own: a crate with tests is proved twice, and
//! these are proved here, once.
#![tactic(auto)]

#[cfg(test)]
mod checks;
#[cfg(test)]
mod containers;
#[cfg(test)]
mod files;
#[cfg(test)]
mod puts;
