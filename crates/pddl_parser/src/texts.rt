use flag_rules::List;
use pddl_forms::{AtomText, TypedWords, Word};

/// A predicate: its name, and its variables.
#[derive(Debug, Drop)]
pub struct PredText {
    pub head: Word,
    pub params: TypedWords,
}

/// An action: its parameters, the atoms of its precondition, and the atoms that its effect adds and
/// deletes, each in order of the text.
#[derive(Debug, Drop)]
pub struct ActionText {
    pub name: Word,
    pub params: TypedWords,
    pub pre: List<AtomText>,
    pub add: List<AtomText>,
    pub del: List<AtomText>,
}

/// The text of a domain. A section that is absent is empty.
#[derive(Debug, Drop)]
pub struct DomainText {
    pub name: Word,
    pub requirements: List<Word>,
    pub types: TypedWords,
    pub constants: TypedWords,
    pub predicates: List<PredText>,
    pub actions: List<ActionText>,
}

/// The text of a problem, with the atoms of its start and of its goal in order of the text. A
/// section that is absent is empty.
#[derive(Debug, Drop)]
pub struct ProblemText {
    pub name: Word,
    pub domain: Word,
    pub requirements: List<Word>,
    pub objects: TypedWords,
    pub init: List<AtomText>,
    pub goal: List<AtomText>,
}
