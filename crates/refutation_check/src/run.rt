ghost use Rattle.std.specs.Prelude.{◌≡◌, ℕ, ◌<◌, ◌≤◌, ◌↔◌, length, IsTrue, IfOk};
ghost use Rattle.program_model.specs.Semantics.{Semantics};
ghost use Rattle.program_model.specs.Program.{Program, IsPartial};
ghost use Rattle.program_model.specs.Run.{Loops};
ghost use Rattle.refutation_check.specs.Inner.Runs.{AllStandAt, AreRuns, StandsAt, HasMoved, HasCome, TellsEnd};

use crate::configuration::Configuration;
use flag_rules::OutOfMemory;
use program_model::{MAX_LINES, Machine, Partial};
use refutation_tree::MAX_STEPS;
use std::alloc::Global;

/// A run on its way: where it stands after so many steps.
#[derive(Drop)]
pub(crate) struct Run<C: Drop> {
    pub(crate) here: Configuration<C>,
    pub(crate) steps: u64,
}

/// New runs, one on each instance.
pub(crate) fn new_runs<M: Machine>(
    alloc: Global,
    machine: &M,
) -> Result<Vec<Run<M::Cfg>>, OutOfMemory>
    ensures { IfOk result
        (λ runs. AreRuns (M.belongs machine.now) (M.semantics machine.now).instances runs.items) }
{
    let mut runs = Vec::new(alloc);
    for t in 0..machine.instances() {
        runs.push(Run::start(alloc, machine, t)?)?;
    }
    Ok(runs)
}

/// Begins runs anew, one on each instance.
pub(crate) fn begin_all<M: Machine>(runs: &mut [Run<M::Cfg>], machine: &M)
    requires { AreRuns (M.belongs machine.now) (M.semantics machine.now).instances runs.old }
    ensures stand { (q : Program) → 0 < length q →
        AllStandAt (M.semantics machine.now) (M.belongs machine.now) q runs.new }
    ensures count { length runs.new ≡ length runs.old }
{
    for t in 0..machine.instances() {
        runs[usize::from(t)].begin(machine, t);
    }
}

impl<C: Drop> Run<C> {
    /// The run on an instance that has made no step.
    pub(crate) fn start<M: Machine<Cfg = C>>(
        alloc: Global,
        machine: &M,
        t: u8,
    ) -> Result<Run<C>, OutOfMemory>
        requires { t < (M.semantics machine.now).instances }
        ensures stands { (q : Program) → 0 < length q → IfOk result
            (λ run. StandsAt (M.semantics machine.now) (M.belongs machine.now) q t run) }
        ensures steps { IfOk result (λ run. run.steps ≡ 0) }
        ensures value { IfOk result (λ run. M.belongs machine.now t run.here.value) }
    {
        let here = Configuration {
            line: 0,
            value: machine.fresh(alloc, t)?,
        };
        Ok(Run { here, steps: 0 })
    }

    /// Begins the run anew.
    pub(crate) fn begin<M: Machine<Cfg = C>>(&mut self, machine: &M, t: u8)
        requires instance { t < (M.semantics machine.now).instances }
        requires value { M.belongs machine.now t self.old.here.value }
        ensures stands { (q : Program) → 0 < length q →
            StandsAt (M.semantics machine.now) (M.belongs machine.now) q t self.new }
        ensures steps { self.new.steps ≡ 0 }
        ensures value { M.belongs machine.now t self.new.here.value }
    {
        machine.begin(t, &mut self.here.value);
        self.here.line = 0;
        self.steps = 0;
    }

    /// Makes it the same as another one on its instance.
    pub(crate) fn become_like<M: Machine<Cfg = C>>(
        &mut self,
        machine: &M,
        other: &Run<C>,
        meter: &mut M::Meter,
    )
        requires { (t : ℕ) × M.belongs machine.now t other.now.here.value × M.belongs machine.now t self.old.here.value }
        ensures { self.new ≡ other.now }
    {
        self.here.become_like(machine, &other.here, meter);
        self.steps = other.steps;
    }

    // Makes the next step, if there is one.
    fn go_on<M: Machine<Cfg = C>>(
        &mut self,
        machine: &M,
        program: &Partial,
        t: u8,
        meter: &mut M::Meter,
    ) -> bool
        requires instance { t < (M.semantics machine.now).instances }
        requires partial { IsPartial (M.semantics machine.now).ops program.now }
        requires few { self.old.steps < MAX_STEPS }
        requires stands { StandsAt (M.semantics machine.now) (M.belongs machine.now) program.now t self.old }
        ensures stands { StandsAt (M.semantics machine.now) (M.belongs machine.now) program.now t self.new }
        ensures moved { HasMoved (M.semantics machine.now) program.now t self.old self.new result }
    {
        let line = self.here.line;
        if line == program.lines() - 1 {
            return false;
        }
        let Some(instr) = program.at(line) else {
            return false;
        };
        self.here.step(machine, t, instr, meter);
        self.steps += 1;
        true
    }

    /// Goes on to a step; or as far as there are steps.
    pub(crate) fn go_to<M: Machine<Cfg = C>>(
        &mut self,
        machine: &M,
        program: &Partial,
        t: u8,
        steps: u64,
        meter: &mut M::Meter,
    ) -> bool
        requires instance { t < (M.semantics machine.now).instances }
        requires partial { IsPartial (M.semantics machine.now).ops program.now }
        requires before { self.old.steps ≤ steps }
        requires few { steps ≤ MAX_STEPS }
        requires stands { StandsAt (M.semantics machine.now) (M.belongs machine.now) program.now t self.old }
        ensures stands { StandsAt (M.semantics machine.now) (M.belongs machine.now) program.now t self.new }
        ensures come { HasCome (M.semantics machine.now) program.now t steps self.new result }
        ensures before { self.new.steps ≤ steps }
    {
        while self.steps < steps {
            if !self.go_on(machine, program, t, meter) {
                return false;
            }
        }
        true
    }

    /// How many goal atoms are missing where the run ends after so many steps, if it does.
    pub(crate) fn missing_at_end<M: Machine<Cfg = C>>(
        &mut self,
        machine: &M,
        program: &Partial,
        t: u8,
        steps: u64,
        meter: &mut M::Meter,
    ) -> Option<u32>
        requires instance { t < (M.semantics machine.now).instances }
        requires partial { IsPartial (M.semantics machine.now).ops program.now }
        requires before { self.old.steps ≤ steps }
        requires few { steps ≤ MAX_STEPS }
        requires stands { StandsAt (M.semantics machine.now) (M.belongs machine.now) program.now t self.old }
        ensures told { TellsEnd (M.semantics machine.now) program.now t steps result }
        ensures value { M.belongs machine.now t self.new.here.value }
    {
        if self.go_to(machine, program, t, steps, meter) && self.here.line == program.lines() - 1 {
            Some(machine.missing(t, &self.here.value))
        } else {
            None
        }
    }

    /// Whether the run comes to one configuration after `from` and after `to` steps. The first is kept beside it.
    pub(crate) fn loops<M: Machine<Cfg = C>>(
        &mut self,
        kept: &mut Configuration<C>,
        machine: &M,
        program: &Partial,
        t: u8,
        from: u64,
        to: u64,
        meter: &mut M::Meter,
    ) -> bool
        requires instance { t < (M.semantics machine.now).instances }
        requires partial { IsPartial (M.semantics machine.now).ops program.now }
        requires before { self.old.steps ≤ from }
        requires order { from < to }
        requires few { to ≤ MAX_STEPS }
        requires stands { StandsAt (M.semantics machine.now) (M.belongs machine.now) program.now t self.old }
        requires kept { M.belongs machine.now t kept.old.value }
        ensures loops { IsTrue result ↔ Loops (M.semantics machine.now) program.now t from to }
        ensures value { M.belongs machine.now t self.new.here.value }
        ensures kept { M.belongs machine.now t kept.new.value }
    {
        if !self.go_to(machine, program, t, from, meter) {
            return false;
        }
        kept.become_like(machine, &self.here, meter);
        self.go_to(machine, program, t, to, meter) && self.here.is_same(machine, kept)
    }
}
