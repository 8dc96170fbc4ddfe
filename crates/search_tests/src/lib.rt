//! Tests of the crates on programs, runs, reports and the search, which has no code of its own: a crate with tests is proved
//! twice, and these are proved here, once.
#![tactic(auto)]

#[cfg(test)]
mod answers;
#[cfg(test)]
mod chains;
#[cfg(test)]
mod counters;
#[cfg(test)]
mod frontiers;
#[cfg(test)]
mod marks;
#[cfg(test)]
mod noticing;
#[cfg(test)]
mod orders;
#[cfg(test)]
mod pools;
#[cfg(test)]
mod programs;
#[cfg(test)]
mod renamings;
#[cfg(test)]
mod reports;
#[cfg(test)]
mod searches;
#[cfg(test)]
mod settling;
#[cfg(test)]
mod turns;
#[cfg(test)]
mod waiting;
