ghost use Rattle.std.specs.Prelude.{◌≡◌, ◌<◌, ◌≤◌, List as Sequence, IfOk};
ghost use Rattle.program_model.specs.Semantics.{Semantics};
ghost use Rattle.program_model.specs.Program.{IsPartial, IsProgram};
ghost use Rattle.program_model.specs.declared.outcome.RunOutcome.{RunOutcome};
ghost use Rattle.program_model.specs.Outcome.{IsOutcome, AreOutcomes};
ghost use Rattle.flag_rules.specs.Counts.{raised};
ghost use Rattle.program_model.specs.Counts.{operations_made};
ghost use Rattle.program_model.specs.declared.standing.TheConstants.{MAX_RUN};
ghost use Rattle.instance_report.specs.Runs.{operations_of, is_solved};
ghost use Rattle.instance_report.specs.Report.{IsReport};

use crate::Report;
use crate::lines::{add_count, add_run};
use flag_rules::{OutOfMemory, Text};
use interpreter::Run;
use program_model::{Machine, Partial, RunOutcome, Stand};
use std::alloc::Global;

// Whether a run ended with the goal met.
fn is_solved(run: &RunOutcome) -> bool
    ensures { result ≡ is_solved run.now }
{
    matches!(run.standing, Stand::Ended)
}

// The outcome of a program's run on an instance, which is made in one turn of as many steps as its limit has.
fn outcome_on<M: Machine>(
    alloc: Global,
    machine: &M,
    program: &Partial,
    t: u8,
    limit: u64,
    meter: &mut M::Meter,
) -> Result<RunOutcome, OutOfMemory>
    requires instance { t < (M.semantics machine.now).instances }
    requires program { IsPartial (M.semantics machine.now).ops program.now }
    requires limit { limit ≤ MAX_RUN }
    ensures instance { IfOk result (λ outcome. outcome.instance ≡ t) }
    ensures outcome { IfOk result (λ outcome. IsOutcome (M.semantics machine.now) program.now limit outcome) }
    ensures acts { IfOk result (λ outcome. M.acts meter.new
        ≡ raised (M.acts meter.old) (operations_made (M.semantics machine.now) program.now t outcome.steps)) }
{
    let mut run = Run::fresh(alloc, machine, t)?;
    let standing = run.advance(machine, program, limit, limit, meter);
    Ok(run.outcome(machine, standing))
}

/// The report on a whole program, whose runs have a limit of steps. The operations of its runs are counted at the meter.
pub fn report<M: Machine>(
    alloc: Global,
    machine: &M,
    program: &Partial,
    run: u64,
    meter: &mut M::Meter,
) -> Result<Report, OutOfMemory>
    requires program { IsProgram (M.semantics machine.now).ops program.now }
    requires run { run ≤ MAX_RUN }
    ensures reports { IfOk result (λ report. IsReport (M.semantics machine.now) program.now run report) }
    ensures acts { IfOk result (λ _. (runs : Sequence RunOutcome) → AreOutcomes (M.semantics machine.now) program.now run runs →
        M.acts meter.new ≡ raised (M.acts meter.old) (operations_of (M.semantics machine.now) program.now runs)) }
{
    let instances = machine.instances();
    let mut text = Text::new(alloc);
    let mut solved = 0;
    for t in 0..instances {
        let outcome = outcome_on(alloc, machine, program, t, run, meter)?;
        add_run(&mut text, &outcome, run)?;
        solved += u8::from(is_solved(&outcome));
    }
    add_count(&mut text, solved, instances)?;
    Ok(Report {
        text,
        all_solved: solved == instances,
    })
}
