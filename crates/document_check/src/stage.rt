use refutation_tree::Outcome;

/// The line that comes next in a document.
#[derive(Clone, Copy, Debug, PartialEq, Eq, Drop)]
pub(crate) enum Stage {
    /// The line that tells the form of the document.
    Form,
    /// The line that tells the pointers.
    Pointers,
    /// The line that tells the lines.
    Lines,
    /// The line that tells the instances.
    Instances,
    /// The line that tells the verdict.
    Verdict,
    /// The line that begins the tree after that of a size.
    Tree { outcome: Outcome, size: u8 },
    /// A mark of the tree of a size.
    Mark { outcome: Outcome, size: u8 },
    /// The line that begins the program of so many lines.
    Program { size: u8 },
    /// The instruction on a line of the program.
    Instr { line: u8 },
    /// Where the run of the program on an instance ends.
    Ends { t: u8 },
    /// The last line.
    End,
    /// No line: the document is whole.
    Nothing,
    /// No document of an accepted answer begins so.
    Rejected,
}
