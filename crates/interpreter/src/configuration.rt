ghost use Rattle.std.specs.Prelude.{◌≡◌, ℕ, ◌<◌, ◌↔◌, IsTrue, IfOk, IfSome, Some};
ghost use Rattle.program_model.specs.Run.{first, step};
ghost use Rattle.flag_rules.specs.Counts.{raised};
ghost use Rattle.program_model.specs.Counts.{op_count};
ghost use Rattle.interpreter.specs.Runs.{config_of};

use flag_rules::OutOfMemory;
use program_model::{Instr, MAX_LINES, Machine};
use std::alloc::Global;

/// A configuration: the line where a run stands, and the value of the machine.
#[derive(Drop)]
pub(crate) struct Configuration<C: Drop> {
    pub line: u8,
    pub value: C,
}

impl<C: Drop> Configuration<C> {
    /// The first one of an instance.
    pub(crate) fn first<M: Machine<Cfg = C>>(
        alloc: Global,
        machine: &M,
        t: u8,
    ) -> Result<Configuration<C>, OutOfMemory>
        requires { t < (M.semantics machine.now).instances }
        ensures first { IfOk result (λ here. config_of here ≡ first (M.semantics machine.now) t) }
        ensures value { IfOk result (λ here. M.belongs machine.now t here.value) }
    {
        Ok(Configuration {
            line: 0,
            value: machine.fresh(alloc, t)?,
        })
    }

    /// Makes the step of an instruction.
    pub(crate) fn step<M: Machine<Cfg = C>>(
        &mut self,
        machine: &M,
        t: u8,
        instr: Instr,
        meter: &mut M::Meter,
    )
        requires instance { t < (M.semantics machine.now).instances }
        requires line { self.old.line < MAX_LINES }
        requires op { (op : ℕ) → instr ≡ Instr.Op op → op < (M.semantics machine.now).ops }
        requires value { M.belongs machine.now t self.old.value }
        ensures stepped { IfSome (step (M.semantics machine.now) t instr (config_of self.old))
            (λ config. config_of self.new ≡ config) }
        ensures value { M.belongs machine.now t self.new.value }
        ensures acts { M.acts meter.new ≡ raised (M.acts meter.old) (op_count (Some instr)) }
        ensures copies { M.copies meter.new ≡ M.copies meter.old }
    {
        match instr {
            Instr::Op(op) => {
                machine.act(t, op, &mut self.value, meter);
                self.line += 1;
            }
            Instr::Goto { target, cond } => {
                self.line = if cond.holds(machine.sign(&self.value)) {
                    target
                } else {
                    self.line + 1
                };
            }
            Instr::End => {}
        }
    }

    /// Whether it is the same as another one of its instance.
    pub(crate) fn is_same<M: Machine<Cfg = C>>(&self, machine: &M, other: &Configuration<C>) -> bool
        requires { (t : ℕ) × M.belongs machine.now t self.now.value × M.belongs machine.now t other.now.value }
        ensures { IsTrue result ↔ (config_of self.now ≡ config_of other.now) }
    {
        self.line == other.line && machine.same(&self.value, &other.value)
    }

    /// Makes it the same as another one of its instance.
    pub(crate) fn become_like<M: Machine<Cfg = C>>(
        &mut self,
        machine: &M,
        other: &Configuration<C>,
        meter: &mut M::Meter,
    )
        requires { (t : ℕ) × M.belongs machine.now t other.now.value × M.belongs machine.now t self.old.value }
        ensures same { self.new ≡ other.now }
        ensures acts { M.acts meter.new ≡ M.acts meter.old }
        ensures copies { M.copies meter.new ≡ raised (M.copies meter.old) 1 }
    {
        self.line = other.line;
        machine.copy_into(&other.value, &mut self.value, meter);
    }
}
