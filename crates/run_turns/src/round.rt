ghost use Rattle.std.specs.Prelude.{◌≡◌, ◌≤◌};
ghost use Rattle.program_model.specs.declared.standing.TheConstants.{MAX_RUN};
ghost use Rattle.program_model.specs.Program.{IsPartial};
ghost use Rattle.run_turns.specs.Settling.{AreRising, AreRunsOf};
ghost use Rattle.run_turns.specs.Inner.Rounds.{HaveGoneOn, IsRound};

use crate::joining::joined;
use interpreter::Run;
use program_model::{Cause, MAX_RUN, Machine, Partial, Verdict};

// The steps of a turn, at most.
const TURN: u64 = 64;

/// What a round of turns comes to.
pub(crate) enum Round {
    /// The run at a place, on an instance, refutes the program. Those at greater places had no turn.
    Refuted { place: usize, t: u8, cause: Cause },
    /// Some run goes on, and none was seen to refute the program.
    Unfinished,
    /// Each run stands, and none refutes the program: the verdict over them.
    Finished(Verdict),
}

/// A turn of each run, one after another, up to the first that refutes the program.
pub(crate) fn go_round<M: Machine>(
    machine: &M,
    partial: &Partial,
    runs: &mut [Run<M::Cfg>],
    limit: u64,
    meter: &mut M::Meter,
) -> Round
    requires partial { IsPartial (M.semantics machine.now).ops partial.now }
    requires limit { limit ≤ MAX_RUN }
    requires runs { AreRunsOf (M.semantics machine.now) (M.belongs machine.now) partial.now limit runs.old }
    requires rising { AreRising runs.old }
    ensures gone { HaveGoneOn (M.semantics machine.now) (M.belongs machine.now) partial.now limit runs.old runs.new
        (M.acts meter.old) (M.acts meter.new) (M.copies meter.old) (M.copies meter.new) }
    ensures round { IsRound (M.semantics machine.now) partial.now limit runs.old runs.new result }
{
    let mut so_far = Some(Verdict::Solved);
    for (place, run) in runs.iter_mut().enumerate() {
        let stand = run.advance(machine, partial, TURN, limit, meter);
        let outcome = run.outcome(machine, stand);
        if let Some(cause) = outcome.cause() {
            return Round::Refuted {
                place,
                t: run.instance(),
                cause,
            };
        }
        so_far = joined(so_far, &outcome);
    }
    match so_far {
        Some(verdict) => Round::Finished(verdict),
        None => Round::Unfinished,
    }
}
