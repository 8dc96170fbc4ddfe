/// Why a run refutes its program.
#[derive(Clone, Copy, Debug, PartialEq, Eq, Drop)]
pub enum Cause {
    /// It ended after so many steps with an atom of the goal missing.
    Unmet { steps: u64 },
    /// It came to one configuration twice, after these numbers of steps.
    Loops { from: u64, to: u64 },
}

/// The verdict on a partial program, by where its runs stand.
#[derive(Clone, Copy, Debug, PartialEq, Eq, Drop)]
pub enum Verdict {
    /// The run on the instance `t` refutes it, and that on no lesser instance does.
    Refused { t: u8, cause: Cause },
    /// No run refutes it, and this is the least instance whose run is at its limit.
    AtLimit { t: u8 },
    /// All runs ended with the goal met or wait, and this is the greatest line at which one waits.
    Waiting { line: u8 },
    /// All runs ended with the goal met.
    Solved,
}
