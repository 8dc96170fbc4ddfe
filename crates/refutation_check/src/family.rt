ghost use Rattle.std.specs.Prelude.{◌≡◌, ◌+◌, ◌<◌, ◌↔◌, IsTrue, All, IfOk, Some, length, slice_get};
ghost use Rattle.program_model.specs.Semantics.{Semantics};
ghost use Rattle.program_model.specs.Alphabet.{alphabet};
ghost use Rattle.program_model.specs.Program.{Extends, IsOpen, IsPartial};
ghost use Rattle.refutation_tree.specs.Grammar.{child_programs};
ghost use Rattle.refutation_check.specs.Walking.{IsOpenFamily, waiting};
ghost use Rattle.refutation_check.specs.Inner.Runs.{AreRuns, IsTrial};
ghost use Rattle.refutation_check.specs.Inner.Walking.{NamesRun, Refutes, skips_first};

use crate::mark::first_step;
use crate::run::{Run, begin_all, new_runs};
use crate::trial::Trial;
use flag_rules::OutOfMemory;
use pointer_symmetry::{is_twin, used_by};
use program_model::{Instr, Machine, Partial, alphabet_len, instr_at};
use refutation_tree::Mark;
use std::alloc::Global;

/// The children of a partial program that was split at a line, from a rank on; how many they are; the set of the pointers that
/// it uses; and its runs, one on each instance, where they stand.
#[derive(Drop)]
pub(crate) struct Family<C: Drop> {
    parent: Partial,
    line: u8,
    rank: u32,
    children: u32,
    used: u8,
    runs: Vec<Run<C>>,
}

impl<C: Drop> Family<C> {
    /// A family that no partial program was split into yet.
    pub(crate) fn new<M: Machine<Cfg = C>>(
        alloc: Global,
        machine: &M,
    ) -> Result<Family<C>, OutOfMemory>
        ensures { IfOk result (λ family. AreRuns (M.belongs machine.now) (M.semantics machine.now).instances
            family.runs.items) }
    {
        Ok(Family {
            parent: Partial::empty(1),
            line: 0,
            rank: 0,
            children: 0,
            used: 0,
            runs: new_runs(alloc, machine)?,
        })
    }

    /// Becomes all children of a partial program that is split at a line.
    pub(crate) fn split<M: Machine<Cfg = C>>(&mut self, machine: &M, parent: Partial, line: u8)
        requires partial { IsPartial (M.semantics machine.now).ops parent }
        requires here { IsOpen parent line }
        requires runs { AreRuns (M.belongs machine.now) (M.semantics machine.now).instances self.old.runs.items }
        ensures family { IsOpenFamily (M.semantics machine.now) (M.belongs machine.now) self.new }
        ensures parent { self.new.parent ≡ parent }
        ensures line { self.new.line ≡ line }
        ensures rank { self.new.rank ≡ 0 }
        ensures runs { AreRuns (M.belongs machine.now) (M.semantics machine.now).instances self.new.runs.items }
    {
        self.children = alphabet_len(machine.ops(), parent.lines(), line);
        self.used = used_by(machine, &parent);
        self.parent = parent;
        self.line = line;
        self.rank = 0;
        begin_all(&mut self.runs, machine);
    }

    // The instruction of the rank, which the child of the rank adds to the parent.
    fn instr<M: Machine<Cfg = C>>(&self, machine: &M) -> Instr
        requires { IsOpenFamily (M.semantics machine.now) (M.belongs machine.now) self.now }
        ensures { slice_get (alphabet (M.semantics machine.now).ops (length self.now.parent) self.now.line)
            self.now.rank ≡ Some result }
    {
        instr_at(machine.ops(), self.parent.lines(), self.line, self.rank)
    }

    /// The child of the rank.
    pub(crate) fn child<M: Machine<Cfg = C>>(&self, machine: &M) -> Partial
        requires { IsOpenFamily (M.semantics machine.now) (M.belongs machine.now) self.now }
        ensures value { slice_get (child_programs (M.semantics machine.now).ops self.now.parent self.now.line)
            self.now.rank ≡ Some result }
        ensures partial { IsPartial (M.semantics machine.now).ops result }
    {
        let mut child = self.parent.copy();
        child.define(self.line, self.instr(machine));
        child
    }

    /// Whether the child of the rank is a twin of a sibling.
    pub(crate) fn child_is_twin<M: Machine<Cfg = C>>(&self, machine: &M) -> bool
        requires { IsOpenFamily (M.semantics machine.now) (M.belongs machine.now) self.now }
        ensures { result ≡ skips_first (waiting (M.semantics machine.now) self.now) }
    {
        is_twin(machine, self.used, self.instr(machine))
    }

    /// Goes on to the next child; tells whether there is one.
    pub(crate) fn go_on<M: Machine<Cfg = C>>(&mut self, machine: &M) -> bool
        requires { IsOpenFamily (M.semantics machine.now) (M.belongs machine.now) self.old }
        ensures parent { self.new.parent ≡ self.old.parent }
        ensures line { self.new.line ≡ self.old.line }
        ensures rank { self.new.rank ≡ self.old.rank + 1 }
        ensures used { self.new.used ≡ self.old.used }
        ensures children { self.new.children ≡ self.old.children }
        ensures runs { self.new.runs ≡ self.old.runs }
        ensures left { IsTrue result ↔ (self.new.rank
            < length (child_programs (M.semantics machine.now).ops self.old.parent self.old.line)) }
    {
        self.rank += 1;
        self.rank < self.children
    }

    /// Whether the run that a mark names shows that a program which extends the parent is refuted. The run goes on from where
    /// the parent's run stands.
    pub(crate) fn refutes<M: Machine<Cfg = C>>(
        &mut self,
        trial: &mut Trial<C>,
        machine: &M,
        program: &Partial,
        t: u8,
        mark: Mark,
        meter: &mut M::Meter,
    ) -> bool
        requires family { IsOpenFamily (M.semantics machine.now) (M.belongs machine.now) self.old }
        requires runs { AreRuns (M.belongs machine.now) (M.semantics machine.now).instances self.old.runs.items }
        requires partial { IsPartial (M.semantics machine.now).ops program.now }
        requires extends { Extends program.now self.old.parent }
        requires names { NamesRun (M.semantics machine.now).instances t mark }
        requires trial { IsTrial (M.belongs machine.now) t trial.old }
        ensures family { IsOpenFamily (M.semantics machine.now) (M.belongs machine.now) self.new }
        ensures runs { AreRuns (M.belongs machine.now) (M.semantics machine.now).instances self.new.runs.items }
        ensures parent { self.new.parent ≡ self.old.parent }
        ensures line { self.new.line ≡ self.old.line }
        ensures rank { self.new.rank ≡ self.old.rank }
        ensures trial { IsTrial (M.belongs machine.now) t trial.new }
        ensures refutes { IsTrue result ↔ Refutes (M.semantics machine.now) program.now mark }
    {
        let waiting = &mut self.runs[usize::from(t)];
        trial.set_out(machine, waiting, &self.parent, t, first_step(mark), meter);
        trial.refutes(machine, program, t, mark, meter)
    }
}

/// So many families that no partial program was split into yet.
pub(crate) fn new_families<M: Machine>(
    alloc: Global,
    machine: &M,
    count: u8,
) -> Result<Vec<Family<M::Cfg>>, OutOfMemory>
    ensures count { IfOk result (λ families. length families.items ≡ count) }
    ensures runs { IfOk result (λ families. All
        (λ family. AreRuns (M.belongs machine.now) (M.semantics machine.now).instances family.runs.items) families.items) }
{
    let mut families = Vec::new(alloc);
    for _ in 0..count {
        families.push(Family::new(alloc, machine)?)?;
    }
    Ok(families)
}
