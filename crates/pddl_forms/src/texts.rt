use crate::shared_word::SharedWord;
use flag_rules::{List, Text};

/// A word of a text in lower case, with the place of its first byte. A variable keeps its `?`, a keyword its `:`.
#[derive(Debug, Drop)]
pub struct Word {
    pub text: Text,
    pub at: u32,
}

/// A word of a typed list, with the type that the list gives it, if any. The words of a group share the word of their type.
#[derive(Debug, Drop)]
pub struct Typed {
    pub word: Word,
    pub of: Option<SharedWord>,
}

/// An atom: its predicate's name, and names or variables.
#[derive(Debug, Drop)]
pub struct AtomText {
    pub head: Word,
    pub args: List<Word>,
}

/// What an effect does to an atom.
#[derive(Debug, Drop)]
pub enum AtomChange {
    Added(AtomText),
    Deleted(AtomText),
}
