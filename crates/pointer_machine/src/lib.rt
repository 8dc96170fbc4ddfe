//! The machine over pointers, a sign and ground atoms, on which planning programs run. In `specs/` read `Operations`
//! first, then `Renamed`, which says what operations and values are over renamed pointers, `Meaning`, which says what
//! each operation does and which values are those of an instance, and `Machine`; `Texts` says how operations are
//! written. All of them is to be believed: no room is kept for private functions.
#![tactic(auto)]

mod form;
mod laws;
mod machine;
mod meter;
mod operations;
mod pointing;
mod refusal;
mod renamed;
mod texts;

pub use form::{Args, Form};
pub use laws::{operations_are_counted, operations_differ};
pub use machine::PointerMachine;
pub use meter::Meter;
pub use pointing::Pointing;
pub use refusal::MachineRefusal;
