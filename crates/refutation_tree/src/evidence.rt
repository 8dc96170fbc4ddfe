use flag_rules::List;
use program_model::Partial;

/// What a tree says of one partial program.
#[derive(Clone, Copy, Debug, PartialEq, Eq, Drop)]
pub enum Mark {
    /// It was split at an undefined line, as the split of this number from 0; its children follow, one for each
    /// instruction of the line's alphabet.
    Split { line: u8, stamp: u32 },
    /// Its run on the instance ends after so many steps with an atom of the goal missing.
    Unmet { t: u8, steps: u64 },
    /// Its run on the instance comes to one configuration twice, after these numbers of steps.
    Loops { t: u8, from: u64, to: u64 },
    /// It is a renamed twin of a sibling.
    Twin,
    /// Its runs wait at undefined lines, and it was not split.
    Waiting,
    /// All its runs end with the goal met.
    Solved,
    /// Its run on the instance made as many steps as the limit allows.
    AtLimit { t: u8 },
}

/// The partial programs of one size, from the empty one on: the marks in preorder.
#[derive(Debug, Drop)]
pub struct Tree {
    /// How many lines the programs have, from 1.
    pub size: u8,
    pub marks: List<Mark>,
}

/// How a search ended.
#[derive(Clone, Copy, Debug, PartialEq, Eq, Drop)]
pub enum Outcome {
    /// A program of so many lines solves every instance.
    Program { size: u8 },
    /// No program of the sizes that were asked for does.
    Nothing,
    /// The budget of splits was spent at this size.
    SpentExpansions { size: u8 },
    /// At this size a run reached the limit of steps, on this instance.
    SpentRun { size: u8, t: u8 },
}

/// What a search found, with its evidence: a tree for each size that it came to, in order.
#[derive(Debug, Drop)]
pub struct Answer {
    /// How many pointers the machine has.
    pub pointers: u8,
    /// The greatest size that was asked for.
    pub lines: u8,
    /// How many instances there are.
    pub instances: u8,
    pub outcome: Outcome,
    pub trees: List<Tree>,
    /// The program that was found, if one was.
    pub program: Option<Partial>,
    /// The steps after which its run ends on each instance, in order; empty where no program was found.
    pub ends: List<u64>,
}
