ghost use Rattle.std.specs.Prelude.{◌≡◌, ◌<◌, ◌≤◌, ◌↔◌, IsTrue, IfOk, length};
ghost use Rattle.program_model.specs.Semantics.{Semantics};
ghost use Rattle.program_model.specs.Program.{Program, Extends, IsPartial};
ghost use Rattle.program_model.specs.Run.{Ends};
ghost use Rattle.refutation_check.specs.Inner.Runs.{AreTrials, IsTrial, StandsAt};
ghost use Rattle.refutation_check.specs.Inner.Walking.{NamesRun, Refutes, first_step};

use crate::configuration::Configuration;
use crate::run::Run;
use flag_rules::OutOfMemory;
use program_model::{Machine, Partial};
use refutation_tree::{MAX_STEPS, Mark};
use std::alloc::Global;

/// What a mark is tried with: a run on an instance that goes on from where another one waits, and a configuration that it had.
#[derive(Drop)]
pub(crate) struct Trial<C: Drop> {
    going: Run<C>,
    kept: Configuration<C>,
}

/// New trials, one on each instance.
pub(crate) fn new_trials<M: Machine>(
    alloc: Global,
    machine: &M,
) -> Result<Vec<Trial<M::Cfg>>, OutOfMemory>
    ensures { IfOk result
        (λ trials. AreTrials (M.belongs machine.now) (M.semantics machine.now).instances trials.items) }
{
    let mut trials = Vec::new(alloc);
    for t in 0..machine.instances() {
        trials.push(Trial::new(alloc, machine, t)?)?;
    }
    Ok(trials)
}

impl<C: Drop> Trial<C> {
    // A new trial on an instance.
    fn new<M: Machine<Cfg = C>>(alloc: Global, machine: &M, t: u8) -> Result<Trial<C>, OutOfMemory>
        requires { t < (M.semantics machine.now).instances }
        ensures { IfOk result (λ trial. IsTrial (M.belongs machine.now) t trial) }
    {
        let going = Run::start(alloc, machine, t)?;
        let kept = Run::start(alloc, machine, t)?;
        Ok(Trial {
            going,
            kept: kept.here,
        })
    }

    /// Lets the run stand at the start.
    pub(crate) fn begin<M: Machine<Cfg = C>>(&mut self, machine: &M, t: u8)
        requires instance { t < (M.semantics machine.now).instances }
        requires trial { IsTrial (M.belongs machine.now) t self.old }
        ensures trial { IsTrial (M.belongs machine.now) t self.new }
        ensures going { (q : Program) → 0 < length q →
            StandsAt (M.semantics machine.now) (M.belongs machine.now) q t self.new.going }
        ensures steps { self.new.going.steps ≡ 0 }
    {
        self.going.begin(machine, t);
    }

    /// Lets the run stand where one that waits does, which goes on to a step as far as it can; or at the start, where the one
    /// that waits is past that step.
    pub(crate) fn set_out<M: Machine<Cfg = C>>(
        &mut self,
        machine: &M,
        waiting: &mut Run<C>,
        parent: &Partial,
        t: u8,
        steps: u64,
        meter: &mut M::Meter,
    )
        requires instance { t < (M.semantics machine.now).instances }
        requires few { steps ≤ MAX_STEPS }
        requires parent { IsPartial (M.semantics machine.now).ops parent.now }
        requires waiting { StandsAt (M.semantics machine.now) (M.belongs machine.now) parent.now t waiting.old }
        requires trial { IsTrial (M.belongs machine.now) t self.old }
        ensures waiting { StandsAt (M.semantics machine.now) (M.belongs machine.now) parent.now t waiting.new }
        ensures trial { IsTrial (M.belongs machine.now) t self.new }
        ensures going { StandsAt (M.semantics machine.now) (M.belongs machine.now) parent.now t self.new.going }
        ensures before { self.new.going.steps ≤ steps }
    {
        if waiting.steps > steps {
            self.going.begin(machine, t);
        } else {
            waiting.go_to(machine, parent, t, steps, meter);
            self.going.become_like(machine, waiting, meter);
        }
    }

    /// Whether the run that a mark names shows that a program is refuted, where the trial's run goes on to it.
    pub(crate) fn refutes<M: Machine<Cfg = C>>(
        &mut self,
        machine: &M,
        program: &Partial,
        t: u8,
        mark: Mark,
        meter: &mut M::Meter,
    ) -> bool
        requires partial { IsPartial (M.semantics machine.now).ops program.now }
        requires names { NamesRun (M.semantics machine.now).instances t mark }
        requires trial { IsTrial (M.belongs machine.now) t self.old }
        requires going { StandsAt (M.semantics machine.now) (M.belongs machine.now) program.now t self.old.going }
        requires before { self.old.going.steps ≤ first_step mark }
        ensures trial { IsTrial (M.belongs machine.now) t self.new }
        ensures refutes { IsTrue result ↔ Refutes (M.semantics machine.now) program.now mark }
    {
        match mark {
            Mark::Unmet { steps, .. } => {
                let missing = self.going.missing_at_end(machine, program, t, steps, meter);
                missing.unwrap_or(0) > 0
            }
            Mark::Loops { from, to, .. } => {
                self.going
                    .loops(&mut self.kept, machine, program, t, from, to, meter)
            }
            _ => false,
        }
    }

    /// Whether the run of a program ends after so many steps with the goal met.
    pub(crate) fn ends<M: Machine<Cfg = C>>(
        &mut self,
        machine: &M,
        program: &Partial,
        t: u8,
        steps: u64,
        meter: &mut M::Meter,
    ) -> bool
        requires instance { t < (M.semantics machine.now).instances }
        requires partial { IsPartial (M.semantics machine.now).ops program.now }
        requires few { steps ≤ MAX_STEPS }
        requires trial { IsTrial (M.belongs machine.now) t self.old }
        ensures trial { IsTrial (M.belongs machine.now) t self.new }
        ensures ends { IsTrue result ↔ Ends (M.semantics machine.now) program.now t steps }
    {
        self.going.begin(machine, t);
        self.going.missing_at_end(machine, program, t, steps, meter) == Some(0)
    }
}
