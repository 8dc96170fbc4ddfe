ghost use Rattle.std.specs.Prelude.{◌≡◌, ◌-◌, ◌≤◌, All, count_by, is_none, length, sum_by};
ghost use Rattle.evaluations.specs.Evaluations.{different, greatest_waiting, instrs_of, is_jump};
ghost use Rattle.evaluations.specs.Inner.Lines.{stands_again};

use crate::Standing;
use program_model::{Instr, MAX_INSTANCES, MAX_RUN, Partial};

/// How many jumps stand on the lines.
pub(crate) fn jumps(partial: &Partial) -> u64
    ensures { result ≡ count_by is_jump (instrs_of partial.now) }
{
    (0..partial.lines())
        .filter(|line| matches!(partial.at(*line), Some(Instr::Goto { .. })))
        .count() as u64
}

/// How many lines are undefined.
pub(crate) fn undefined_lines(partial: &Partial) -> u64
    ensures { result ≡ count_by is_none partial.now }
{
    (0..partial.lines())
        .filter(|line| partial.at(*line).is_none())
        .count() as u64
}

/// How many more defined lines there are than different instructions on them: those whose instruction stands on a later line too.
pub(crate) fn repeated_instructions(partial: &Partial) -> u64
    ensures { result ≡ length (instrs_of partial.now) - different (instrs_of partial.now) }
{
    (0..partial.lines())
        .filter(|line| stands_again(partial, *line))
        .count() as u64
}

// Whether a line has an instruction that stands on a later line too.
fn stands_again(partial: &Partial, line: u8) -> bool
    ensures { result ≡ stands_again partial.now line }
{
    match partial.at(line) {
        Some(instr) => (line + 1..partial.lines()).any(|later| partial.at(later) == Some(instr)),
        None => false,
    }
}

/// How many lines stand behind the greatest line at which a run waits, or behind the first line, where no run waits.
pub(crate) fn lines_behind(partial: &Partial, standings: &[Standing]) -> u64
    ensures { result ≡ length partial.now - 1 - greatest_waiting standings.now }
{
    let last = partial.lines() - 1;
    let waiting = standings
        .iter()
        .filter_map(|standing| standing.waits)
        .max()
        .unwrap_or(0);
    u64::from(last.saturating_sub(waiting))
}

/// How many goal atoms are missing, over all runs.
pub(crate) fn missing_atoms(standings: &[Standing]) -> u64
    requires { length standings.now ≤ MAX_INSTANCES }
    ensures { result ≡ sum_by (λ standing. standing.missing) standings.now }
{
    standings
        .iter()
        .map(|standing| u64::from(standing.missing))
        .sum()
}

/// How many steps were made, over all runs.
pub(crate) fn steps(standings: &[Standing]) -> u64
    requires few { length standings.now ≤ MAX_INSTANCES }
    requires short { All (λ standing. standing.steps ≤ MAX_RUN) standings.now }
    ensures { result ≡ sum_by (λ standing. standing.steps) standings.now }
{
    standings.iter().map(|standing| standing.steps).sum()
}
