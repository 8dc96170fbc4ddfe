//! Tests of the checker of documents, over files in memory: that a document gets the same verdict of the command and of a checker
//! that is given it in pieces, however it is cut. The crate has no code of its own: a crate with tests is proved twice, and these
//! are proved here, once.
#![tactic(auto)]

#[cfg(test)]
mod calls;
#[cfg(test)]
mod changes;
#[cfg(test)]
mod checks;
#[cfg(test)]
mod documents;
#[cfg(test)]
mod files;
#[cfg(test)]
mod fronts;
#[cfg(test)]
mod given;
#[cfg(test)]
mod single_changes;
#[cfg(test)]
mod twins;
#[cfg(test)]
mod verdicts;
