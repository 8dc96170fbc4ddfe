ghost use Rattle.std.specs.Prelude.{◌≡◌, ℕ, ◌+◌, ◌<◌, ◌≤◌, ◌∷◌, List as Sequence, length, take, IfOk, IsTrue, ◌↔◌};
ghost use Rattle.program_model.specs.Semantics.{Semantics};
ghost use Rattle.program_model.specs.Program.{IsPartial};
ghost use Rattle.program_text.specs.Names.{AreNames};
ghost use Rattle.refutation_tree.specs.Grammar.{IsFromOneTo, last_size};
ghost use Rattle.refutation_check.specs.Walking.{IsWalk, pending};
ghost use Rattle.document_check.specs.Remaining.{LastLine, EndsToCome, InstrsToCome, ProgramToCome, TreesToCome, MarksToCome, HeadingToCome};
ghost use Rattle.document_check.specs.Standing.{Expects, FitsStage, IsProgress, IsReadTo, IsTreeSize};
ghost use Rattle.document_check.specs.Inner.Steps.{Remains, Steps};
ghost use Rattle.document_check.specs.declared.stage.Stage.TheVariants as stages;

use crate::said::{says, says_number};
use crate::stage::Stage;
use answer_lines::{ends_of, mark_of, verdict_of};
use flag_rules::OutOfMemory;
use program_model::{MAX_INSTANCES, MAX_LINES, MAX_POINTERS, Machine, Partial};
use program_text::{Names, read_instr};
use refutation_check::{Walk, last_size, says_refuted};
use refutation_tree::Outcome;
use std::alloc::Global;

/// How far a document was read: which line comes next, and what the lines that follow have to fit to: the walk over the marks of
/// the tree that is read, and the program as far as it was read; each is a stand-in before its part of the document comes.
#[derive(Drop)]
pub(crate) struct Progress<C: Drop> {
    stage: Stage,
    walk: Walk<C>,
    program: Partial,
}

impl<C: Drop> Progress<C> {
    /// Nothing was read.
    pub(crate) fn start<M: Machine<Cfg = C>>(
        alloc: Global,
        machine: &M,
    ) -> Result<Progress<C>, OutOfMemory>
        ensures stage { IfOk result (λ progress. progress.stage ≡ stages.Form) }
        ensures walk { IfOk result (λ progress. IsWalk (M.semantics machine.now) (M.belongs machine.now) progress.walk) }
    {
        Ok(Progress {
            stage: Stage::Form,
            walk: Walk::new(alloc, machine)?,
            program: Partial::empty(1),
        })
    }

    /// Whether the document is whole.
    pub(crate) fn is_whole(&self) -> bool
        ensures { IsTrue result ↔ (self.now.stage ≡ stages.Nothing) }
    {
        self.stage == Stage::Nothing
    }

    /// Whether no document of an accepted answer begins as it was read.
    pub(crate) fn is_rejected(&self) -> bool
        ensures { IsTrue result ↔ (self.now.stage ≡ stages.Rejected) }
    {
        self.stage == Stage::Rejected
    }

    /// Rejects the document.
    pub(crate) fn reject(&mut self)
        ensures stage { self.new.stage ≡ stages.Rejected }
        ensures walk { self.new.walk ≡ self.old.walk }
    {
        self.stage = Stage::Rejected;
    }

    /// Goes on by a line of the document.
    pub(crate) fn take_line<M: Machine<Cfg = C>>(
        &mut self,
        machine: &M,
        names: &Names,
        lines: u8,
        line: &[u8],
        meter: &mut M::Meter,
    )
        requires are_names { AreNames names.now }
        requires names { length names.now ≡ (M.semantics machine.now).ops }
        requires progress { IsProgress (M.semantics machine.now) (M.belongs machine.now) lines self.old }
        ensures progress { IsProgress (M.semantics machine.now) (M.belongs machine.now) lines self.new }
        ensures steps { Steps (M.semantics machine.now) names.now lines self.old line.now self.new }
    {
        self.stage = self.after(machine, names, lines, line, meter);
    }

    // What comes after a line of the document.
    fn after<M: Machine<Cfg = C>>(
        &mut self,
        machine: &M,
        names: &Names,
        lines: u8,
        line: &[u8],
        meter: &mut M::Meter,
    ) -> Stage
        requires are_names { AreNames names.now }
        requires names { length names.now ≡ (M.semantics machine.now).ops }
        requires progress { IsProgress (M.semantics machine.now) (M.belongs machine.now) lines self.old }
        ensures walk { IsWalk (M.semantics machine.now) (M.belongs machine.now) self.new.walk }
        ensures remains { let m = M.semantics machine.now in Remains m names.now lines
            self.new.walk self.new.program (λ more. Expects m names.now lines self.old (line.now ∷ more)) result }
    {
        match self.stage {
            Stage::Form => self.after_form(line),
            Stage::Pointers => self.after_pointers(machine, line),
            Stage::Lines => self.after_lines(lines, line),
            Stage::Instances => self.after_instances(machine, line),
            Stage::Verdict => self.after_verdict(machine, lines, line),
            Stage::Tree { outcome, size } => self.after_tree(machine, lines, outcome, size, line),
            Stage::Mark { outcome, size } => {
                self.after_mark(machine, lines, outcome, size, line, meter)
            }
            Stage::Program { size } => self.after_program(machine, size, line),
            Stage::Instr { line: place } => self.after_instr(machine, names, place, line),
            Stage::Ends { t } => self.after_ends(machine, t, line, meter),
            Stage::End => self.after_end(line),
            Stage::Nothing | Stage::Rejected => Stage::Rejected,
        }
    }

    // What comes after the line that tells the form.
    fn after_form(&self, line: &[u8]) -> Stage
        ensures { (m : Semantics C) (texts : Sequence (Sequence ℕ)) (lines : ℕ) →
            Remains m texts lines self.now.walk self.now.program (λ more. HeadingToCome m texts lines 0 (line.now ∷ more)) result }
    {
        if says(line, b"bfgp answer 1") {
            Stage::Pointers
        } else {
            Stage::Rejected
        }
    }

    // What comes after the line that tells the pointers.
    fn after_pointers<M: Machine<Cfg = C>>(&self, machine: &M, line: &[u8]) -> Stage
        ensures { (texts : Sequence (Sequence ℕ)) (lines : ℕ) → Remains (M.semantics machine.now) texts lines
            self.now.walk self.now.program (λ more. HeadingToCome (M.semantics machine.now) texts lines 1 (line.now ∷ more)) result }
    {
        if says_number(line, b"pointers", MAX_POINTERS, machine.pointers()) {
            Stage::Lines
        } else {
            Stage::Rejected
        }
    }

    // What comes after the line that tells the lines.
    fn after_lines(&self, lines: u8, line: &[u8]) -> Stage
        ensures { (m : Semantics C) (texts : Sequence (Sequence ℕ)) →
            Remains m texts lines self.now.walk self.now.program (λ more. HeadingToCome m texts lines 2 (line.now ∷ more)) result }
    {
        if says_number(line, b"lines", MAX_LINES, lines) {
            Stage::Instances
        } else {
            Stage::Rejected
        }
    }

    // What comes after the line that tells the instances.
    fn after_instances<M: Machine<Cfg = C>>(&self, machine: &M, line: &[u8]) -> Stage
        ensures { (texts : Sequence (Sequence ℕ)) (lines : ℕ) → IsFromOneTo MAX_LINES lines → Remains (M.semantics machine.now) texts lines
            self.now.walk self.now.program (λ more. HeadingToCome (M.semantics machine.now) texts lines 3 (line.now ∷ more)) result }
    {
        if says_number(line, b"instances", MAX_INSTANCES, machine.instances()) {
            Stage::Verdict
        } else {
            Stage::Rejected
        }
    }

    // What comes after the verdict.
    fn after_verdict<M: Machine<Cfg = C>>(&self, machine: &M, lines: u8, line: &[u8]) -> Stage
        requires { IsFromOneTo MAX_LINES lines }
        ensures { (texts : Sequence (Sequence ℕ)) → Remains (M.semantics machine.now) texts lines
            self.now.walk self.now.program (λ more. HeadingToCome (M.semantics machine.now) texts lines 4 (line.now ∷ more)) result }
    {
        match verdict_of(line, lines, machine.instances()) {
            Some(outcome) => Stage::Tree { outcome, size: 0 },
            None => Stage::Rejected,
        }
    }

    // What comes after the line that begins the tree after that of a size.
    fn after_tree<M: Machine<Cfg = C>>(
        &mut self,
        machine: &M,
        lines: u8,
        outcome: Outcome,
        size: u8,
        line: &[u8],
    ) -> Stage
        requires fits { IsTreeSize lines (size + 1) (last_size lines outcome) }
        requires walk { IsWalk (M.semantics machine.now) (M.belongs machine.now) self.old.walk }
        ensures walk { IsWalk (M.semantics machine.now) (M.belongs machine.now) self.new.walk }
        ensures remains { (texts : Sequence (Sequence ℕ)) → Remains (M.semantics machine.now) texts lines
            self.new.walk self.new.program (λ more. TreesToCome (M.semantics machine.now) texts lines outcome size (line.now ∷ more)) result }
    {
        let next = size + 1;
        let covering = says_refuted(outcome, next);
        if !says_number(line, b"tree", MAX_LINES, next) {
            return Stage::Rejected;
        }
        self.walk.begin(machine, next, covering);
        Stage::Mark {
            outcome,
            size: next,
        }
    }

    // What comes after a mark of the tree of a size.
    fn after_mark<M: Machine<Cfg = C>>(
        &mut self,
        machine: &M,
        lines: u8,
        outcome: Outcome,
        size: u8,
        line: &[u8],
        meter: &mut M::Meter,
    ) -> Stage
        requires fits { FitsStage (M.semantics machine.now) lines self.old.walk self.old.program (stages.Mark outcome size) }
        requires walk { IsWalk (M.semantics machine.now) (M.belongs machine.now) self.old.walk }
        ensures walk { IsWalk (M.semantics machine.now) (M.belongs machine.now) self.new.walk }
        ensures remains { (texts : Sequence (Sequence ℕ)) → let m = M.semantics machine.now in Remains m texts lines
            self.new.walk self.new.program (λ more. MarksToCome m texts lines outcome size self.old.walk.covering (pending m self.old.walk) (line.now ∷ more)) result }
    {
        let Some(mark) = mark_of(line, machine.instances()) else {
            return Stage::Rejected;
        };
        if !self.walk.take(machine, mark, meter) {
            return Stage::Rejected;
        }
        if !self.walk.is_done(machine) {
            return Stage::Mark { outcome, size };
        }
        self.after_last_mark(lines, outcome, size)
    }

    // What comes after the last mark of the tree of a size.
    fn after_last_mark(&self, lines: u8, outcome: Outcome, size: u8) -> Stage
        requires { IsTreeSize lines size (last_size lines outcome) }
        ensures { (m : Semantics C) (texts : Sequence (Sequence ℕ)) →
            Remains m texts lines self.now.walk self.now.program (λ more. TreesToCome m texts lines outcome size more) result }
    {
        if size < last_size(lines, outcome) {
            return Stage::Tree { outcome, size };
        }
        match outcome {
            Outcome::Program { size } => Stage::Program { size },
            _ => Stage::End,
        }
    }

    // What comes after the line that begins a program of so many lines.
    fn after_program<M: Machine<Cfg = C>>(&mut self, machine: &M, size: u8, line: &[u8]) -> Stage
        requires { IsFromOneTo MAX_LINES size }
        ensures walk { self.new.walk ≡ self.old.walk }
        ensures remains { (texts : Sequence (Sequence ℕ)) (lines : ℕ) → Remains (M.semantics machine.now) texts lines
            self.new.walk self.new.program (λ more. ProgramToCome (M.semantics machine.now) texts size (line.now ∷ more)) result }
    {
        if !says(line, b"program") {
            return Stage::Rejected;
        }
        self.program = Partial::empty(size);
        Stage::Instr { line: 0 }
    }

    // What comes after the instruction on a line of the program.
    fn after_instr<M: Machine<Cfg = C>>(
        &mut self,
        machine: &M,
        names: &Names,
        place: u8,
        line: &[u8],
    ) -> Stage
        requires are_names { AreNames names.now }
        requires names { length names.now ≡ (M.semantics machine.now).ops }
        requires fits { IsReadTo (M.semantics machine.now).ops self.old.program place }
        ensures walk { self.new.walk ≡ self.old.walk }
        ensures remains { (lines : ℕ) → Remains (M.semantics machine.now) names.now lines
            self.new.walk self.new.program (λ more. InstrsToCome (M.semantics machine.now) names.now (length self.old.program) (take place self.old.program) (line.now ∷ more)) result }
    {
        let size = self.program.lines();
        if place + 1 == size {
            return self.after_last_instr(machine, place, line);
        }
        let Some(instr) = read_instr(names, size, place, line) else {
            return Stage::Rejected;
        };
        self.program.define(place, instr);
        Stage::Instr { line: place + 1 }
    }

    // What comes after the last line of the program.
    fn after_last_instr<M: Machine<Cfg = C>>(&self, machine: &M, place: u8, line: &[u8]) -> Stage
        requires fits { IsReadTo (M.semantics machine.now).ops self.now.program place }
        requires last { place + 1 ≡ length self.now.program }
        ensures { (texts : Sequence (Sequence ℕ)) (lines : ℕ) → Remains (M.semantics machine.now) texts lines
            self.now.walk self.now.program (λ more. InstrsToCome (M.semantics machine.now) texts (length self.now.program) (take place self.now.program) (line.now ∷ more)) result }
    {
        if says(line, b"end") {
            self.before_ends(0, machine.instances())
        } else {
            Stage::Rejected
        }
    }

    // Where the end of the run on an instance comes next, or the last line where there is no such instance.
    fn before_ends(&self, t: u8, instances: u8) -> Stage
        ensures { (m : Semantics C) (texts : Sequence (Sequence ℕ)) (lines : ℕ) →
            IsPartial m.ops self.now.program → instances ≡ m.instances → t ≤ m.instances →
            Remains m texts lines self.now.walk self.now.program (λ more. EndsToCome m self.now.program t more) result }
    {
        if t < instances {
            Stage::Ends { t }
        } else {
            Stage::End
        }
    }

    // What comes after the line that tells where the run of the program on an instance ends.
    fn after_ends<M: Machine<Cfg = C>>(
        &mut self,
        machine: &M,
        t: u8,
        line: &[u8],
        meter: &mut M::Meter,
    ) -> Stage
        requires walk { IsWalk (M.semantics machine.now) (M.belongs machine.now) self.old.walk }
        requires fits { IsPartial (M.semantics machine.now).ops self.old.program × (t < (M.semantics machine.now).instances) }
        ensures walk { IsWalk (M.semantics machine.now) (M.belongs machine.now) self.new.walk }
        ensures remains { (texts : Sequence (Sequence ℕ)) (lines : ℕ) → Remains (M.semantics machine.now) texts lines
            self.new.walk self.new.program (λ more. EndsToCome (M.semantics machine.now) self.old.program t (line.now ∷ more)) result }
    {
        let instances = machine.instances();
        let Some(steps) = ends_of(line, t) else {
            return Stage::Rejected;
        };
        if !self.walk.ends(machine, &self.program, t, steps, meter) {
            return Stage::Rejected;
        }
        self.before_ends(t + 1, instances)
    }

    // What comes after the last line.
    fn after_end(&self, line: &[u8]) -> Stage
        ensures { (m : Semantics C) (texts : Sequence (Sequence ℕ)) (lines : ℕ) →
            Remains m texts lines self.now.walk self.now.program (λ more. LastLine (line.now ∷ more)) result }
    {
        if says(line, b"end of answer") {
            Stage::Nothing
        } else {
            Stage::Rejected
        }
    }
}
