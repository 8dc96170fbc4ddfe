//! Tests of the words of commands, and of the texts of families, which has no code of its own: a crate with tests is proved
//! twice, and these are proved here, once.
#![tactic(auto)]

#[cfg(test)]
mod families;
#[cfg(test)]
mod jobs;
#[cfg(test)]
mod told_jobs;
