ghost use Rattle.std.specs.Prelude.{◌≡◌, ◌↔◌, IsTrue};
ghost use Rattle.refutation_tree.specs.Grammar.{IsInRange};
ghost use Rattle.refutation_check.specs.Walking.{SplitsOpen};
ghost use Rattle.refutation_check.specs.Inner.Walking.{first_step};

use program_model::Partial;
use refutation_tree::{MAX_SPLITS, MAX_STEPS, Mark};

/// Whether the numbers of a mark are within their ranges, where there are so many instances.
pub(crate) fn is_in_range(mark: Mark, instances: u8) -> bool
    ensures { IsTrue result ↔ IsInRange instances mark }
{
    match mark {
        Mark::Split { stamp, .. } => stamp < MAX_SPLITS,
        Mark::Unmet { t, steps } => t < instances && steps <= MAX_STEPS,
        Mark::Loops { t, from, to } => t < instances && from < to && to <= MAX_STEPS,
        Mark::AtLimit { t } => t < instances,
        Mark::Twin | Mark::Waiting | Mark::Solved => true,
    }
}

/// Whether a mark that is a split is of an undefined line.
pub(crate) fn splits_open(mark: Mark, program: &Partial) -> bool
    ensures { IsTrue result ↔ SplitsOpen program.now mark }
{
    match mark {
        Mark::Split { line, .. } => line < program.lines() && program.at(line).is_none(),
        _ => true,
    }
}

/// The first step of a run that a mark speaks of; 0 where it names no run.
pub(crate) fn first_step(mark: Mark) -> u64
    ensures { result ≡ first_step mark }
{
    match mark {
        Mark::Unmet { steps, .. } => steps,
        Mark::Loops { from, .. } => from,
        _ => 0,
    }
}
