//! The names of a machine's operations, and planning programs as texts, written and read.
//!
//! In specs/ read Names and Texts first (how a program is written), then Lines and Reading (what a text says). Gathered says how
//! what is written comes to be put in few pieces. specs/Inner has what private functions promise each other.
#![tactic(auto)]

mod gathered;
mod instr_texts;
mod laws;
mod lines;
mod names;
mod reading;
mod refusal;
mod writing;

pub use gathered::Gathered;
pub use laws::{one_answer, texts_tell_instructions, written_programs_read_back};
pub use names::Names;
pub use reading::{read_instr, read_program};
pub use refusal::ProgramRefusal;
pub use writing::{add_program, instr_len, write_instr, write_program};
