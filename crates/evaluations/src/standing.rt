ghost use Rattle.std.specs.Prelude.{◌≡◌};
ghost use Rattle.evaluations.specs.Evaluations.{standing_of};

use program_model::{RunOutcome, Stand};

/// Where a run of a partial program stands, as far as evaluations look at it.
#[derive(Clone, Copy, Debug, Default, PartialEq, Eq, Drop)]
pub struct Standing {
    /// How many atoms of the goal are missing there.
    pub missing: u32,
    /// How many steps it has made.
    pub steps: u64,
    /// The undefined line at which it waits, if it does.
    pub waits: Option<u8>,
}

impl Standing {
    /// What is looked at of the outcome of a run.
    pub fn of(run: &RunOutcome) -> Standing
        ensures { result ≡ standing_of run.now }
    {
        let waits = match run.standing {
            Stand::Waits { line } => Some(line),
            _ => None,
        };
        Standing {
            missing: run.missing,
            steps: run.steps,
            waits,
        }
    }
}
