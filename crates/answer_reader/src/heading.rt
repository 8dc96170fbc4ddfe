use refutation_tree::Outcome;

/// What the lines of a document say before its trees.
#[derive(Clone, Copy, Debug, PartialEq, Eq, Drop)]
pub(crate) struct Heading {
    pub(crate) pointers: u8,
    pub(crate) lines: u8,
    pub(crate) instances: u8,
    pub(crate) outcome: Outcome,
}
