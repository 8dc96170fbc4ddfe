/// The greatest number of steps that a document tells.
pub const MAX_STEPS: u64 = 10_000_000;

/// The greatest number of splits over all sizes; each stamp is below it.
pub const MAX_SPLITS: u32 = 100_000;
