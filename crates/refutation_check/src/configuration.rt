ghost use Rattle.std.specs.Prelude.{◌≡◌, ℕ, ◌<◌, ◌↔◌, IsTrue, IfSome};
ghost use Rattle.program_model.specs.Semantics.{Semantics};
ghost use Rattle.program_model.specs.Run.{step};
ghost use Rattle.refutation_check.specs.Inner.Runs.{config_of};

use program_model::{Instr, MAX_LINES, Machine};

/// A configuration: the line where a run stands, and the value of the machine.
#[derive(Drop)]
pub(crate) struct Configuration<C: Drop> {
    pub(crate) line: u8,
    pub(crate) value: C,
}

impl<C: Drop> Configuration<C> {
    /// Makes the step of an instruction; `end` has none.
    pub(crate) fn step<M: Machine<Cfg = C>>(
        &mut self,
        machine: &M,
        t: u8,
        instr: Instr,
        meter: &mut M::Meter,
    )
        requires instance { t < (M.semantics machine.now).instances }
        requires line { self.old.line < MAX_LINES }
        requires op { (op : ℕ) → instr ≡ Instr.Op op → op < (M.semantics machine.now).ops }
        requires value { M.belongs machine.now t self.old.value }
        ensures stepped { IfSome (step (M.semantics machine.now) t instr (config_of self.old))
            (λ config. config_of self.new ≡ config) }
        ensures value { M.belongs machine.now t self.new.value }
    {
        match instr {
            Instr::Op(op) => {
                machine.act(t, op, &mut self.value, meter);
                self.line += 1;
            }
            Instr::Goto { target, cond } => {
                self.line = if cond.holds(machine.sign(&self.value)) {
                    target
                } else {
                    self.line + 1
                };
            }
            Instr::End => {}
        }
    }

    /// Whether it is the same as another one of its instance.
    pub(crate) fn is_same<M: Machine<Cfg = C>>(&self, machine: &M, other: &Configuration<C>) -> bool
        requires { (t : ℕ) × M.belongs machine.now t self.now.value × M.belongs machine.now t other.now.value }
        ensures { IsTrue result ↔ (config_of self.now ≡ config_of other.now) }
    {
        self.line == other.line && machine.same(&self.value, &other.value)
    }

    /// Makes it the same as another one of its instance.
    pub(crate) fn become_like<M: Machine<Cfg = C>>(
        &mut self,
        machine: &M,
        other: &Configuration<C>,
        meter: &mut M::Meter,
    )
        requires { (t : ℕ) × M.belongs machine.now t other.now.value × M.belongs machine.now t self.old.value }
        ensures { self.new ≡ other.now }
    {
        self.line = other.line;
        machine.copy_into(&other.value, &mut self.value, meter);
    }
}
