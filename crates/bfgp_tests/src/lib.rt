//! Tests of the commands, over files in memory. The crate has no code of its own: a crate with tests is proved twice, and
//! these are proved here, once.
#![tactic(auto)]

#[cfg(test)]
mod asking_shelf;
#[cfg(test)]
mod bounds;
#[cfg(test)]
mod calls;
#[cfg(test)]
mod canonical_forms;
#[cfg(test)]
mod families;
#[cfg(test)]
mod faults;
#[cfg(test)]
mod files;
#[cfg(test)]
mod fresh_work;
#[cfg(test)]
mod given;
#[cfg(test)]
mod limits;
#[cfg(test)]
mod marked_texts;
#[cfg(test)]
mod operations;
#[cfg(test)]
mod orders;
#[cfg(test)]
mod other_forms;
#[cfg(test)]
mod program_files;
#[cfg(test)]
mod reading_order;
#[cfg(test)]
mod reports;
#[cfg(test)]
mod searches;
#[cfg(test)]
mod turns;
#[cfg(test)]
mod twins;
#[cfg(test)]
mod words;
