//! What every crate of the planner shares: the want of memory, texts of bytes, lists, numbers in decimal, the limit of a
//! file, and the flags of planning programs.
//!
//! Of `specs/` read `Flags` first; then `Line` (lines with numbers) and `Counts` (counts that rise).
#![tactic(auto)]

mod decimal;
mod file;
mod flags;
mod laws;
mod list;
mod memory;
mod text;

pub use decimal::{SpacedNumber, read_decimal};
pub use file::MAX_FILE_BYTES;
pub use flags::{Cond, Sign, sign_of};
pub use laws::limits;
pub use list::List;
pub use memory::OutOfMemory;
pub use text::Text;
