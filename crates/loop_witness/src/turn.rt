/// What comes of a step that was counted.
#[derive(Clone, Copy, Debug, PartialEq, Eq, Drop)]
pub enum Turn {
    /// The run goes on, and the mark stays.
    Go,
    /// The run goes on, and the mark is at this step from now on: its configuration is to be marked.
    MarkHere,
    /// The configuration is the same after these numbers of steps.
    Repeat { from: u64, to: u64 },
}
