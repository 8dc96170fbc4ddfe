//! The forms of PDDL texts, read lexeme by lexeme: words, typed lists, atoms, formulas and effects.
//!
//! What is believed: `specs/Lexemes.antt`, then `specs/Forms.antt` (the grammar of the forms) and `specs/Offending.antt` (which
//! lexeme offends in a text, and how it is told). What the code does lexeme by lexeme: `specs/Inner/Reading.antt` first.
#![tactic(auto)]

mod cursor;
mod formulas;
mod item_lists;
mod shared_word;
mod stop;
mod texts;
mod typed_lists;
mod typed_words;

pub use cursor::{Cursor, Start};
pub use formulas::{Terms, atom, effect, formula, split_changes};
pub use item_lists::{ItemReader, conjunction, items};
pub use shared_word::SharedWord;
pub use stop::{Stop, Why};
pub use texts::{AtomChange, AtomText, Typed, Word};
pub use typed_lists::typed_list;
pub use typed_words::TypedWords;
