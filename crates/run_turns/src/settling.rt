ghost use Rattle.std.specs.Prelude.{◌≡◌, ◌≤◌, ℕ, All};
ghost use Rattle.program_model.specs.declared.standing.TheConstants.{MAX_RUN};
ghost use Rattle.program_model.specs.Program.{Program, IsPartial, Extends};
ghost use Rattle.program_model.specs.Verdict.{IsVerdictOver};
ghost use Rattle.interpreter.specs.Counts.{RaisedAtMost};
ghost use Rattle.interpreter.specs.Runs.{IsRunOf};
ghost use Rattle.run_turns.specs.Settling.{instances_of, HasInstance, AreRising, AreRunsOf, HaveSettled, AreReached, operations_left, marks_left};

use crate::round::{Round, go_round};
use interpreter::Run;
use program_model::{MAX_RUN, Machine, Partial, Verdict};

/// Brings suspended runs of a partial program, in rising order of their instances, to a verdict on it within a limit of steps.
///
/// Turns of some steps go round the runs, so that a run which refutes the program soon is not kept waiting by one that goes on for
/// long. A run that refutes it stops those on greater instances; those on lesser ones go on, since one of them may refute it
/// later in its run. No memory is taken.
pub fn settle<M: Machine>(
    machine: &M,
    partial: &Partial,
    runs: &mut [Run<M::Cfg>],
    limit: u64,
    meter: &mut M::Meter,
) -> Verdict
    requires partial { IsPartial (M.semantics machine.now).ops partial.now }
    requires limit { limit ≤ MAX_RUN }
    requires runs { AreRunsOf (M.semantics machine.now) (M.belongs machine.now) partial.now limit runs.old }
    requires rising { AreRising runs.old }
    ensures verdict { IsVerdictOver (M.semantics machine.now) partial.now limit (HasInstance runs.old) result }
    ensures runs { AreRunsOf (M.semantics machine.now) (M.belongs machine.now) partial.now limit runs.new }
    ensures instances { instances_of runs.new ≡ instances_of runs.old }
    ensures settled { HaveSettled (M.semantics machine.now) partial.now limit runs.new result }
    ensures shared { (program : Program) → Extends program partial.now →
        All (IsRunOf (M.semantics machine.now) (M.belongs machine.now) program) runs.new }
    ensures acts { (reached : ℕ → ℕ) → AreReached (M.semantics machine.now) partial.now limit reached runs.old →
        RaisedAtMost (operations_left (M.semantics machine.now) partial.now reached runs.old) (M.acts meter.old) (M.acts meter.new) }
    ensures copies { (reached : ℕ → ℕ) → AreReached (M.semantics machine.now) partial.now limit reached runs.old →
        RaisedAtMost (marks_left reached runs.old) (M.copies meter.old) (M.copies meter.new) }
{
    let mut refusal = None;
    let mut count = runs.len();
    loop {
        match go_round(machine, partial, &mut runs[..count], limit, meter) {
            Round::Refuted { place, t, cause } => {
                refusal = Some(Verdict::Refused { t, cause });
                count = place;
            }
            Round::Unfinished => {}
            Round::Finished(verdict) => return refusal.unwrap_or(verdict),
        }
    }
}
