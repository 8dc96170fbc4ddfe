//! Reading PDDL: the bytes of a domain or of a problem, as the one text that they have by the
//! grammar.
//!
//! What is believed: `specs/Sections.antt` and `specs/Grammar.antt` (what a text is, over the forms of `pddl_forms`), then
//! `specs/Replies.antt` (what is refused, and where). What the code does lexeme by lexeme: `specs/Inner/SectionReading.antt`.
#![tactic(auto)]

mod actions;
mod atom_lists;
mod domain_sections;
mod keys;
mod laws;
mod parse;
mod problem_sections;
mod refusal;
mod shared_parts;
mod texts;

pub use laws::{domain_is_spelled, one_domain_reply, one_problem_reply, problem_is_spelled};
pub use parse::{domain, problem};
pub use pddl_forms::{AtomText, SharedWord, Typed, TypedWords, Word};
pub use refusal::ParseRefusal;
pub use texts::{ActionText, DomainText, PredText, ProblemText};
