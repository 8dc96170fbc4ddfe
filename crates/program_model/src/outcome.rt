ghost use Rattle.std.specs.Prelude.{◌≡◌};
ghost use Rattle.program_model.specs.Verdict.{cause_of};

use crate::{Cause, Stand};

/// The outcome of a program's run on an instance.
#[derive(Clone, Copy, Debug, PartialEq, Eq, Drop)]
pub struct RunOutcome {
    pub instance: u8,
    /// The steps after which it stands.
    pub steps: u64,
    /// How many atoms of the goal are missing there.
    pub missing: u32,
    pub standing: Stand,
}

impl RunOutcome {
    /// Why the run refutes its program, if it does.
    pub fn cause(&self) -> Option<Cause>
        ensures { result ≡ cause_of self.now }
    {
        match self.standing {
            Stand::Unmet => Some(Cause::Unmet { steps: self.steps }),
            Stand::Repeats { from, to } => Some(Cause::Loops { from, to }),
            Stand::Ended | Stand::Waits { .. } | Stand::AtLimit | Stand::QuotaUsed => None,
        }
    }
}
