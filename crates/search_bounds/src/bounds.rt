use evaluations::Order;

/// The greatest budget of splits.
pub const MAX_BUDGET: u32 = 100_000;

/// How far a search goes, and which partial programs it looks at first.
#[derive(Debug, Drop)]
pub struct Bounds {
    /// How many lines a program has at most, from 1 to `MAX_LINES`.
    pub lines: u8,
    /// How many splits are made at most, over all sizes together; at most `MAX_BUDGET`.
    pub budget: u32,
    /// How many steps a run makes at most; at most `MAX_RUN`.
    pub run: u64,
    /// What the partial programs that wait are compared by.
    pub order: Order,
}
