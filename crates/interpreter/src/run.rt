ghost use Rattle.std.specs.Prelude.{◌≡◌, ℕ, ◌-◌, ◌<◌, ◌≤◌, ◌↔◌, length, Some, IsTrue, IfOk};
ghost use Rattle.loop_witness.specs.Marks.{IsLatest};
ghost use Rattle.program_model.specs.Program.{Program, IsPartial, Extends};
ghost use Rattle.flag_rules.specs.Counts.{raised};
ghost use Rattle.program_model.specs.Counts.{op_count, operations_made};
ghost use Rattle.interpreter.specs.Counts.{marks_between, RaisedAtMost};
ghost use Rattle.interpreter.specs.Runs.{IsRunOf, IsTold};
ghost use Rattle.interpreter.specs.Inner.Progress.{IsNext, IsRepeated, marked_after, copies_after, HasStepped};

use crate::configuration::Configuration;
use flag_rules::OutOfMemory;
use loop_witness::{Marks, Turn};
use program_model::{Instr, MAX_LINES, MAX_RUN, Machine, Partial, RunOutcome, Stand};
use std::alloc::Global;

/// A run of a partial program on an instance, which is suspended after some steps. It holds what is needed to go on from there,
/// and not the program.
///
/// Repetitions are noticed by Brent's cycle finding: the configurations after the mark's step are compared with that one.
#[derive(Drop)]
pub struct Run<C: Drop> {
    instance: u8,
    here: Configuration<C>,
    marked: Configuration<C>,
    marks: Marks,
}

// What comes next in a run.
enum Next {
    // The step of this instruction.
    Step(Instr),
    // Nothing: it stands.
    Stop(Stand),
}

impl<C: Drop> Run<C> {
    /// The run on an instance that has made no step. It stands for the first step of every partial program.
    pub fn fresh<M: Machine<Cfg = C>>(
        alloc: Global,
        machine: &M,
        t: u8,
    ) -> Result<Run<C>, OutOfMemory>
        requires { t < (M.semantics machine.now).instances }
        ensures instance { IfOk result (λ run. run.instance ≡ t) }
        ensures steps { IfOk result (λ run. run.marks.steps ≡ 0) }
        ensures run { (program : Program) → IfOk result
            (λ run. IsRunOf (M.semantics machine.now) (M.belongs machine.now) program run) }
    {
        Ok(Run {
            instance: t,
            here: Configuration::first(alloc, machine, t)?,
            marked: Configuration::first(alloc, machine, t)?,
            marks: Marks::begin(),
        })
    }

    /// The instance.
    pub fn instance(&self) -> u8
        ensures { result ≡ self.now.instance }
    {
        self.instance
    }

    /// How many steps it has made.
    pub fn steps(&self) -> u64
        ensures { result ≡ self.now.marks.steps }
    {
        self.marks.steps()
    }

    /// The line where it stands, from 0.
    pub fn line(&self) -> u8
        ensures { result ≡ self.now.here.line }
    {
        self.here.line
    }

    /// The value that the machine has there.
    pub fn cfg(&self) -> &C
        ensures { result.now ≡ self.now.here.value }
    {
        &self.here.value
    }

    /// The same run once more. The values that it copies are counted at the meter.
    pub fn copy<M: Machine<Cfg = C>>(
        &self,
        alloc: Global,
        machine: &M,
        meter: &mut M::Meter,
    ) -> Result<Run<C>, OutOfMemory>
        requires { (program : Program) × IsRunOf (M.semantics machine.now) (M.belongs machine.now) program self.now }
        ensures same { IfOk result (λ run. run ≡ self.now) }
        ensures acts { M.acts meter.new ≡ M.acts meter.old }
        ensures copies { RaisedAtMost 2 (M.copies meter.old) (M.copies meter.new) }
    {
        let mut run = Run::fresh(alloc, machine, self.instance)?;
        run.become_like(machine, self, meter);
        Ok(run)
    }

    /// Makes it the same as another run on its instance, of whatever program. The values that it copies are counted at the
    /// meter. No memory is taken.
    pub fn become_like<M: Machine<Cfg = C>>(
        &mut self,
        machine: &M,
        from: &Run<C>,
        meter: &mut M::Meter,
    )
        requires run { (program : Program) × IsRunOf (M.semantics machine.now) (M.belongs machine.now) program self.old }
        requires from { (program : Program) × IsRunOf (M.semantics machine.now) (M.belongs machine.now) program from.now }
        requires instance { self.old.instance ≡ from.now.instance }
        ensures same { self.new ≡ from.now }
        ensures acts { M.acts meter.new ≡ M.acts meter.old }
        ensures copies { RaisedAtMost 2 (M.copies meter.old) (M.copies meter.new) }
    {
        self.here.become_like(machine, &from.here, meter);
        self.marked.become_like(machine, &from.marked, meter);
        self.marks = from.marks;
    }

    // Whether the run stands once more in the marked configuration.
    fn is_repeated<M: Machine<Cfg = C>>(&self, machine: &M) -> bool
        requires { (t : ℕ) × M.belongs machine.now t self.now.here.value
            × M.belongs machine.now t self.now.marked.value }
        ensures { IsTrue result ↔ IsRepeated self.now }
    {
        self.marks.mark() < self.marks.steps() && self.here.is_same(machine, &self.marked)
    }

    // The standing of a run that stands on the last line.
    fn end<M: Machine<Cfg = C>>(&self, machine: &M) -> Stand
        requires instance { self.now.instance < (M.semantics machine.now).instances }
        requires value { M.belongs machine.now self.now.instance self.now.here.value }
        ensures ended { (M.semantics machine.now).missing self.now.instance self.now.here.value ≡ 0 → result ≡ Stand.Ended }
        ensures unmet { 0 < (M.semantics machine.now).missing self.now.instance self.now.here.value → result ≡ Stand.Unmet }
    {
        if machine.missing(self.instance, &self.here.value) == 0 {
            Stand::Ended
        } else {
            Stand::Unmet
        }
    }

    // What comes next under a limit of steps, where the run is in the marked configuration once more or not.
    fn next<M: Machine<Cfg = C>>(
        &self,
        machine: &M,
        partial: &Partial,
        limit: u64,
        repeated: bool,
    ) -> Next
        requires partial { IsPartial (M.semantics machine.now).ops partial.now }
        requires run { IsRunOf (M.semantics machine.now) (M.belongs machine.now) partial.now self.now }
        requires steps { self.now.marks.steps ≤ limit }
        requires repeated { IsTrue repeated ↔ IsRepeated self.now }
        ensures next { IsNext (M.semantics machine.now) partial.now limit self.now result }
        ensures few { length partial.now ≤ MAX_LINES }
    {
        let line = self.here.line;
        if line == partial.lines() - 1 {
            return Next::Stop(self.end(machine));
        }
        let Some(instr) = partial.at(line) else {
            return Next::Stop(Stand::Waits { line });
        };
        if repeated {
            return Next::Stop(Stand::Repeats {
                from: self.marks.mark(),
                to: self.marks.steps(),
            });
        }
        if self.marks.steps() == limit {
            return Next::Stop(Stand::AtLimit);
        }
        Next::Step(instr)
    }

    // Marks the configuration where the run stands, where the mark moved there.
    fn follow_mark<M: Machine<Cfg = C>>(&mut self, machine: &M, turn: Turn, meter: &mut M::Meter)
        requires { (t : ℕ) × M.belongs machine.now t self.old.here.value
            × M.belongs machine.now t self.old.marked.value }
        ensures marked { self.new ≡ record self.old { marked = marked_after turn self.old.here self.old.marked } }
        ensures acts { M.acts meter.new ≡ M.acts meter.old }
        ensures copies { M.copies meter.new ≡ raised (M.copies meter.old) (copies_after turn) }
    {
        match turn {
            Turn::MarkHere => self.marked.become_like(machine, &self.here, meter),
            Turn::Go | Turn::Repeat { .. } => {}
        }
    }

    // Makes the step of an instruction, and tells whether the run is in the marked configuration once more.
    fn make_step<M: Machine<Cfg = C>>(
        &mut self,
        machine: &M,
        instr: Instr,
        meter: &mut M::Meter,
    ) -> bool
        requires instance { self.old.instance < (M.semantics machine.now).instances }
        requires line { self.old.here.line < MAX_LINES }
        requires op { (op : ℕ) → instr ≡ Instr.Op op → op < (M.semantics machine.now).ops }
        requires here { M.belongs machine.now self.old.instance self.old.here.value }
        requires marked { M.belongs machine.now self.old.instance self.old.marked.value }
        requires steps { self.old.marks.steps < MAX_RUN }
        requires latest { IsLatest self.old.marks }
        ensures stepped { HasStepped (M.semantics machine.now) instr self.old self.new result }
        ensures here { M.belongs machine.now self.old.instance self.new.here.value }
        ensures marked { M.belongs machine.now self.old.instance self.new.marked.value }
        ensures acts { M.acts meter.new ≡ raised (M.acts meter.old) (op_count (Some instr)) }
        ensures copies { RaisedAtMost (marks_between self.old.marks.steps self.new.marks.steps) (M.copies meter.old) (M.copies meter.new) }
    {
        self.here.step(machine, self.instance, instr, meter);
        let repeated = self.here.is_same(machine, &self.marked);
        let turn = self.marks.turn(repeated);
        self.follow_mark(machine, turn, meter);
        repeated
    }

    /// Makes the steps that come next, at most as many as the quota, and tells where the run stands under a limit of steps; or
    /// that the quota is used, where it stands nowhere yet. The operations that are made, and the values that are copied for
    /// marks, are counted at the meter.
    pub fn advance<M: Machine<Cfg = C>>(
        &mut self,
        machine: &M,
        partial: &Partial,
        quota: u64,
        limit: u64,
        meter: &mut M::Meter,
    ) -> Stand
        requires partial { IsPartial (M.semantics machine.now).ops partial.now }
        requires run { IsRunOf (M.semantics machine.now) (M.belongs machine.now) partial.now self.old }
        requires steps { self.old.marks.steps ≤ limit }
        requires limit { limit ≤ MAX_RUN }
        ensures run { IsRunOf (M.semantics machine.now) (M.belongs machine.now) partial.now self.new }
        ensures instance { self.new.instance ≡ self.old.instance }
        ensures later { self.old.marks.steps ≤ self.new.marks.steps }
        ensures in_limit { self.new.marks.steps ≤ limit }
        ensures told { IsTold (M.semantics machine.now) partial.now self.old.instance quota limit
            self.old.marks.steps self.new.marks.steps result }
        ensures acts { let made = operations_made (M.semantics machine.now) partial.now self.old.instance in
            M.acts meter.new ≡ raised (M.acts meter.old) (made self.new.marks.steps - made self.old.marks.steps) }
        ensures copies { let marks = marks_between self.old.marks.steps self.new.marks.steps in
            RaisedAtMost marks (M.copies meter.old) (M.copies meter.new) }
        ensures shared { (line : ℕ) (program : Program) → result ≡ Stand.Waits line → Extends program partial.now →
            IsRunOf (M.semantics machine.now) (M.belongs machine.now) program self.new }
    {
        let mut repeated = self.is_repeated(machine);
        let mut left = quota;
        loop {
            let instr = match self.next(machine, partial, limit, repeated) {
                Next::Stop(stand) => return stand,
                Next::Step(instr) => instr,
            };
            if left == 0 {
                return Stand::QuotaUsed;
            }
            repeated = self.make_step(machine, instr, meter);
            left -= 1;
        }
    }

    /// The outcome of the run, which stands so.
    pub fn outcome<M: Machine<Cfg = C>>(&self, machine: &M, standing: Stand) -> RunOutcome
        requires { (program : Program) × IsRunOf (M.semantics machine.now) (M.belongs machine.now) program self.now }
        ensures { result ≡ record {
          instance = self.now.instance;
          steps = self.now.marks.steps;
          missing = (M.semantics machine.now).missing self.now.instance self.now.here.value;
          standing = standing;
        } }
    {
        RunOutcome {
            instance: self.instance,
            steps: self.marks.steps(),
            missing: machine.missing(self.instance, &self.here.value),
            standing,
        }
    }
}
