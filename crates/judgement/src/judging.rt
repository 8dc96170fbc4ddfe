ghost use Rattle.std.specs.Prelude.{◌≡◌, ◌⊎◌, ℕ, ◌<◌, ◌≤◌, All, max, map, filter_map, length, slice_get, IsSomeAnd};
ghost use Rattle.std.specs.List.{reduce};
ghost use Rattle.program_model.specs.declared.standing.TheConstants.{MAX_RUN};
ghost use Rattle.program_model.specs.Program.{IsPartial};
ghost use Rattle.interpreter.specs.Counts.{RaisedAtMost};
ghost use Rattle.run_turns.specs.Settling.{instances_of, HasInstance, AreRising, AreRunsOf, HasSettled, AreReached, operations_left, marks_left};
ghost use Rattle.judgement.specs.Judging.{IsSettledOn, IsJudgement, HaveSettledIn};

use crate::standings::{MAX_RUNS, Standings, standing};
use arrayvec::ArrayVec;
use evaluations::{Key, key};
use interpreter::Run;
use program_model::{Cause, MAX_RUN, Machine, Partial, Verdict};
use run_turns::settle;
use search_bounds::Bounds;

/// The steps after which runs ended, on the instances in order.
pub type Ends = ArrayVec<u64, MAX_RUNS>;

/// What the runs of a partial program say of it.
#[derive(Debug, Drop)]
pub enum Judgement {
    /// The run on an instance refutes it.
    Refused { t: u8, cause: Cause },
    /// The run on an instance is at its limit, and none refutes it.
    AtLimit { t: u8 },
    /// Some run waits at this line, and none at a greater one; each that does not wait ended with the goal met.
    Waiting { line: u8, key: Key },
    /// Its runs ended with the goal met.
    Solved { ends: Ends },
}

// The greatest line at which one of the runs waits.
fn greatest_waiting(standings: &Standings) -> Option<u8>
    ensures { result ≡ reduce max (filter_map (λ standing. standing.waits) standings.now.items) }
{
    standings.iter().filter_map(|standing| standing.waits).max()
}

// The steps after which runs ended that stand so.
fn ends_of(standings: &Standings) -> Ends
    ensures { result.items ≡ map (λ standing. standing.steps) standings.now.items }
{
    let mut ends = Ends::new();
    for standing in standings.iter() {
        ends.push(standing.steps);
    }
    ends
}

// The same standings once more.
fn copy_of(standings: &Standings) -> Standings
    ensures { result.items ≡ standings.now.items }
{
    let mut copy = Standings::new();
    for standing in standings.iter() {
        copy.push(*standing);
    }
    copy
}

// The judgement on a partial program of which all runs have settled, from suspended runs of it, and from where its runs on all
// other instances stand.
fn settled_judgement<M: Machine>(
    machine: &M,
    program: &Partial,
    bounds: &Bounds,
    known: &Standings,
    runs: &[Run<M::Cfg>],
) -> Judgement
    requires partial { IsPartial (M.semantics machine.now).ops program.now }
    requires limit { bounds.now.run ≤ MAX_RUN }
    requires runs { AreRunsOf (M.semantics machine.now) (M.belongs machine.now) program.now bounds.now.run runs.now }
    requires settled { All (HasSettled (M.semantics machine.now) program.now bounds.now.run) runs.now }
    requires all { length known.now.items ≡ (M.semantics machine.now).instances }
    requires known { (t : ℕ) → t < (M.semantics machine.now).instances → HasInstance runs.now t
        ⊎ IsSomeAnd (slice_get known.now.items t) (IsSettledOn (M.semantics machine.now) program.now bounds.now.run t) }
    ensures { IsJudgement (M.semantics machine.now) bounds.now.order program.now bounds.now.run result }
{
    let mut standings = copy_of(known);
    for run in runs.iter() {
        standings[run.instance() as usize] = standing(machine, program.lines(), run);
    }
    match greatest_waiting(&standings) {
        Some(line) => Judgement::Waiting {
            line,
            key: key(&bounds.order, program, standings.as_slice()),
        },
        None => Judgement::Solved {
            ends: ends_of(&standings),
        },
    }
}

/// The judgement on a partial program within the bounds of a search, from suspended runs of it, in rising order of their
/// instances, which are brought to a verdict, and from where its runs on all other instances are known to stand, each of which
/// ended with the goal met, or waits. Of what is known that of the suspended runs is not looked at. No memory is taken.
pub fn judge<M: Machine>(
    machine: &M,
    program: &Partial,
    bounds: &Bounds,
    known: &Standings,
    runs: &mut [Run<M::Cfg>],
    meter: &mut M::Meter,
) -> Judgement
    requires partial { IsPartial (M.semantics machine.now).ops program.now }
    requires limit { bounds.now.run ≤ MAX_RUN }
    requires runs { AreRunsOf (M.semantics machine.now) (M.belongs machine.now) program.now bounds.now.run runs.old }
    requires rising { AreRising runs.old }
    requires all { length known.now.items ≡ (M.semantics machine.now).instances }
    requires known { (t : ℕ) → t < (M.semantics machine.now).instances → HasInstance runs.old t
        ⊎ IsSomeAnd (slice_get known.now.items t) (IsSettledOn (M.semantics machine.now) program.now bounds.now.run t) }
    ensures judged { IsJudgement (M.semantics machine.now) bounds.now.order program.now bounds.now.run result }
    ensures runs { AreRunsOf (M.semantics machine.now) (M.belongs machine.now) program.now bounds.now.run runs.new }
    ensures instances { instances_of runs.new ≡ instances_of runs.old }
    ensures settled { HaveSettledIn (M.semantics machine.now) program.now bounds.now.run runs.new result }
    ensures acts { (reached : ℕ → ℕ) → AreReached (M.semantics machine.now) program.now bounds.now.run reached runs.old →
        RaisedAtMost (operations_left (M.semantics machine.now) program.now reached runs.old) (M.acts meter.old) (M.acts meter.new) }
    ensures copies { (reached : ℕ → ℕ) → AreReached (M.semantics machine.now) program.now bounds.now.run reached runs.old →
        RaisedAtMost (marks_left reached runs.old) (M.copies meter.old) (M.copies meter.new) }
{
    match settle(machine, program, runs, bounds.run, meter) {
        Verdict::Refused { t, cause } => Judgement::Refused { t, cause },
        Verdict::AtLimit { t } => Judgement::AtLimit { t },
        Verdict::Waiting { .. } | Verdict::Solved => {
            settled_judgement(machine, program, bounds, known, runs)
        }
    }
}
