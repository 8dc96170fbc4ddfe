//! Tests of the crates that write and read program texts and answer documents, which has no code of its own: a crate with
//! tests is proved twice, and these are proved here, once.
#![tactic(auto)]

#[cfg(test)]
mod astray;
#[cfg(test)]
mod checks;
#[cfg(test)]
mod documents;
#[cfg(test)]
mod programs;
#[cfg(test)]
mod sinks;
#[cfg(test)]
mod two_operations;
