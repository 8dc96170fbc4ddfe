//! Orders of the search: six evaluations of a partial program that waits, orders of them, and the keys that they give; and the
//! trait of orders on pairs of a key and a number.
//!
//! Of `specs/` read `Evaluations` first, which says what each evaluation counts; then `Orders`, on the texts of orders; `Ranking`,
//! which says what an order on pairs is; and `Keys`, on the order by keys.
#![tactic(auto)]

mod by_key;
mod entries;
mod evaluation;
mod laws;
mod node_key;
mod order;
mod ranking;
mod refusal;
mod standing;
mod values;

pub use by_key::{ByKey, Compared};
pub use entries::{Key, MAX_ENTRIES};
pub use evaluation::Evaluation;
pub use laws::{at_most_one_reading, limits, names, refusals_come_early};
pub use node_key::key;
pub use order::Order;
pub use ranking::Ranking;
pub use refusal::OrderRefusal;
pub use standing::Standing;
