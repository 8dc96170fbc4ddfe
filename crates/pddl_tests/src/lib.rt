//! Tests of the crates that read and print PDDL, which has no code of its own: a crate with tests is proved twice, and
//! these are proved here, once.
#![tactic(auto)]

#[cfg(test)]
mod checks;
#[cfg(test)]
mod lexing;
#[cfg(test)]
mod parsing;
#[cfg(test)]
mod places;
#[cfg(test)]
mod printing;
#[cfg(test)]
mod tasks;
#[cfg(test)]
mod texts;
