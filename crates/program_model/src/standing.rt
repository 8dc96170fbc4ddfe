/// The greatest limit of steps of a run.
pub const MAX_RUN: u64 = 10_000_000;

/// Where a run of a partial program stands.
#[derive(Clone, Copy, Debug, PartialEq, Eq, Drop)]
pub enum Stand {
    /// It ended with the goal met.
    Ended,
    /// It ended with an atom of the goal missing.
    Unmet,
    /// It came to one configuration twice, after these numbers of steps.
    Repeats { from: u64, to: u64 },
    /// It waits on an undefined line.
    Waits { line: u8 },
    /// It made as many steps as its limit allows.
    AtLimit,
    /// It made as many steps as it was given for now, and goes on later.
    QuotaUsed,
}
