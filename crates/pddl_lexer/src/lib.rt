//! The tokens of PDDL texts, and whether their parentheses are in order.
//!
//! What is believed: `specs/Lexing.antt` (what a token is, and the tokens of bytes), then `specs/Parentheses.antt`.
#![tactic(auto)]

mod laws;
mod lexer;
mod parentheses;

pub use laws::limits;
pub use lexer::{Kind, LexRefusal, Token, tokens};
pub use parentheses::{MAX_NESTING, Misplaced, misplaced_parenthesis};
