ghost use Rattle.std.specs.Prelude.{◌≡◌, ℕ, ◌+◌, ◌*◌, ◌<◌, ◌≤◌, ◌^◌, [], ◌∷◌, All, length, map, sum_by, IfOk, OnOk, IfSome, IsSomeAnd};
ghost use Rattle.program_model.specs.declared.machine.TheConstants.{MAX_INSTANCES};
ghost use Rattle.program_model.specs.Alphabet.{alphabet};
ghost use Rattle.program_model.specs.Program.{Program, IsPartial, IsOpen, IsInstr, with_line};
ghost use Rattle.interpreter.specs.Counts.{RaisedAtMost};
ghost use Rattle.interpreter.specs.Runs.{IsRunOf};
ghost use Rattle.run_turns.specs.Settling.{instances_of};
ghost use Rattle.judgement.specs.Judging.{run_standing};
ghost use Rattle.waiting_programs.specs.Programs.{kept_at, kept_count};
ghost use Rattle.pointer_symmetry.specs.Used.{AreUsed};
ghost use Rattle.synthesis.specs.BestFirst.{best_first};
ghost use Rattle.synthesis.specs.FreshWork.{AreStandingSteps, made_for, operations_of_child, copies_of_child, operations_of_split, copies_of_split};
ghost use Rattle.synthesis.specs.Inner.Nodes.{MOST_CHILDREN, HasGrown, CanGrow};
ghost use Rattle.synthesis.specs.Inner.Keeping.{runs_waiting_at, IsKeptFor, IsParent, IsDraft, KeepsChild, KeepsChildren};
ghost use Rattle.synthesis.specs.Inner.Splitting.{AreNumbers, AddsNewest, AddsChild, AddsChildren};
ghost use Rattle.synthesis.specs.Inner.Working.{Counts, counts};

use crate::newest::Newest;
use crate::nodes::{Best, Held, Nodes};
use crate::searcher::Searcher;
use flag_rules::OutOfMemory;
use interpreter::Run;
use judgement::{Judgement, Standings, judge, standing};
use pointer_symmetry::{is_twin, used_by};
use program_model::{Instr, Machine, Partial, alphabet_len, instr_at};
use std::mem;
use waiting_programs::{WaitingId, WaitingPrograms};

/// A node that is being split at a line: the number under which its program is kept, the program, and where its runs stand.
/// `used` are the pointers that the program uses, as a set.
#[derive(Drop)]
pub(crate) struct Parent {
    pub id: WaitingId,
    pub line: u8,
    pub program: Partial,
    pub used: u8,
    pub standings: Standings,
}

/// A child of a node as it is being made: its program, and the runs that go on in it. One after another is made of it, until one
/// waits, which keeps the runs.
#[derive(Drop)]
pub(crate) struct Draft<C: Drop> {
    pub program: Partial,
    pub runs: Vec<Run<C>>,
}

impl<M: Machine> Searcher<'_, M> {
    /// Splits the best of the nodes that wait. What its children tell is given back.
    pub(crate) fn split_best(
        &self,
        nodes: &mut Nodes<M::Cfg>,
        stamp: u32,
        meter: &mut M::Meter,
    ) -> Result<Newest, OutOfMemory>
        requires { (from size : ℕ) × (before : Counts) × CanGrow (best_first (M.semantics self.now.machine.now) self.now.bounds.now) (M.belongs self.now.machine.now)
            self.now.bounds.now.budget size from stamp nodes.old before (counts (M.acts meter.old) (M.copies meter.old)) }
        ensures { IfOk result (λ newest. (from size : ℕ) (before : Counts) →
            CanGrow (best_first (M.semantics self.now.machine.now) self.now.bounds.now) (M.belongs self.now.machine.now)
            self.now.bounds.now.budget size from stamp nodes.old before (counts (M.acts meter.old) (M.copies meter.old)) →
            HasGrown (best_first (M.semantics self.now.machine.now) self.now.bounds.now) (M.belongs self.now.machine.now)
            self.now.bounds.now.budget size from (stamp + 1) nodes.new before (counts (M.acts meter.new) (M.copies meter.new)) newest) }
    {
        let best = nodes.take_best(stamp);
        let parent = self.parent(&nodes.programs, &best);
        let newest = self.add_children(nodes, &parent, meter)?;
        nodes.programs.release(best.id);
        Ok(newest)
    }

    // A node that is to be split, with its program, the pointers that it uses, and where its runs stand.
    fn parent(&self, programs: &WaitingPrograms<M::Cfg>, best: &Best) -> Parent
        requires kept { IsSomeAnd (kept_at programs.now.kept best.now.id) (λ waiting.
            IsKeptFor (M.semantics self.now.machine.now) (M.belongs self.now.machine.now) self.now.bounds.now.run waiting.program waiting) }
        requires partial { IfSome (kept_at programs.now.kept best.now.id) (λ waiting. IsPartial (M.semantics self.now.machine.now).ops waiting.program) }
        ensures id { result.id ≡ best.now.id }
        ensures line { result.line ≡ best.now.line }
        ensures program { IfSome (kept_at programs.now.kept best.now.id) (λ waiting. result.program ≡ waiting.program) }
        ensures used { AreUsed (M.semantics self.now.machine.now) result.program result.used }
        ensures standings { IfSome (kept_at programs.now.kept best.now.id) (λ waiting.
            result.standings.items ≡ map (run_standing (M.semantics self.now.machine.now) (length waiting.program)) waiting.runs) }
    {
        let program = programs.program(best.id);
        let mut standings = Standings::new();
        for t in 0..self.machine.instances() {
            let run = programs.run(best.id, t);
            standings.push(standing(self.machine, program.lines(), run));
        }
        let used = used_by(self.machine, &program);
        Parent {
            id: best.id,
            line: best.line,
            program,
            used,
            standings,
        }
    }

    // Copies of the runs of a program that wait at a line.
    fn copies_at(
        &self,
        programs: &WaitingPrograms<M::Cfg>,
        id: WaitingId,
        line: u8,
        meter: &mut M::Meter,
    ) -> Result<Vec<Run<M::Cfg>>, OutOfMemory>
        requires { IsSomeAnd (kept_at programs.now.kept id) (λ waiting.
            IsKeptFor (M.semantics self.now.machine.now) (M.belongs self.now.machine.now) self.now.bounds.now.run waiting.program waiting) }
        ensures same { IfOk result (λ copies. IfSome (kept_at programs.now.kept id) (λ waiting. copies.items ≡ runs_waiting_at line waiting.runs)) }
        ensures acts { M.acts meter.new ≡ M.acts meter.old }
        ensures copies { IfOk result (λ copies. RaisedAtMost (2 * length copies.items) (M.copies meter.old) (M.copies meter.new)) }
    {
        let mut copies = Vec::new(self.alloc);
        for t in 0..self.machine.instances() {
            let run = programs.run(id, t);
            if run.line() == line {
                copies.push(run.copy(self.alloc, self.machine, meter)?)?;
            }
        }
        Ok(copies)
    }

    // Makes runs the same as those of a program that wait at a line, on the same instances.
    fn refill(
        &self,
        programs: &WaitingPrograms<M::Cfg>,
        id: WaitingId,
        line: u8,
        runs: &mut [Run<M::Cfg>],
        meter: &mut M::Meter,
    )
        requires kept { IsSomeAnd (kept_at programs.now.kept id) (λ waiting.
            IsKeptFor (M.semantics self.now.machine.now) (M.belongs self.now.machine.now) self.now.bounds.now.run waiting.program waiting) }
        requires runs { All (λ run. (program : Program) × IsRunOf (M.semantics self.now.machine.now) (M.belongs self.now.machine.now) program run) runs.old }
        requires instances { IfSome (kept_at programs.now.kept id) (λ waiting. instances_of runs.old ≡ instances_of (runs_waiting_at line waiting.runs)) }
        ensures same { IfSome (kept_at programs.now.kept id) (λ waiting. runs.new ≡ runs_waiting_at line waiting.runs) }
        ensures acts { M.acts meter.new ≡ M.acts meter.old }
        ensures copies { RaisedAtMost (2 * length runs.new) (M.copies meter.old) (M.copies meter.new) }
    {
        for run in runs.iter_mut() {
            let from = programs.run(id, run.instance());
            run.become_like(self.machine, from, meter);
        }
    }

    // Begins the child of a node for an instruction, with the runs that wait at the line. Memory is taken only where the draft
    // has no runs.
    fn begin_child(
        &self,
        programs: &WaitingPrograms<M::Cfg>,
        parent: &Parent,
        instr: Instr,
        draft: &mut Draft<M::Cfg>,
        meter: &mut M::Meter,
    ) -> Result<(), OutOfMemory>
        requires parent { IsParent (M.semantics self.now.machine.now) (M.belongs self.now.machine.now) self.now.bounds.now.run programs.now.kept parent.now }
        requires draft { IsDraft (M.semantics self.now.machine.now) (M.belongs self.now.machine.now) programs.now.kept parent.now draft.old }
        ensures program { OnOk result (draft.new.program ≡ with_line parent.now.program parent.now.line instr) }
        ensures same { OnOk result (IfSome (kept_at programs.now.kept parent.now.id) (λ waiting. draft.new.runs.items ≡ runs_waiting_at parent.now.line waiting.runs)) }
        ensures acts { M.acts meter.new ≡ M.acts meter.old }
        ensures copies { OnOk result (RaisedAtMost (2 * length draft.new.runs.items) (M.copies meter.old) (M.copies meter.new)) }
    {
        draft.program.define(parent.line, instr);
        if draft.runs.is_empty() {
            draft.runs = self.copies_at(programs, parent.id, parent.line, meter)?;
        } else {
            self.refill(
                programs,
                parent.id,
                parent.line,
                draft.runs.as_mut_slice(),
                meter,
            );
        }
        Ok(())
    }

    // Adds the children of a node that is split.
    fn add_children(
        &self,
        nodes: &mut Nodes<M::Cfg>,
        parent: &Parent,
        meter: &mut M::Meter,
    ) -> Result<Newest, OutOfMemory>
        requires parent { IsParent (M.semantics self.now.machine.now) (M.belongs self.now.machine.now) self.now.bounds.now.run nodes.old.programs.kept parent.now }
        requires few { length nodes.old.held.items + MOST_CHILDREN < 2 ^ 32 }
        requires few_kept { kept_count nodes.old.programs.kept ≤ length nodes.old.held.items }
        requires numbers { AreNumbers nodes.old.held.items nodes.old.frontier.pairs }
        ensures few { IfOk result (λ _. length nodes.new.held.items ≤ length nodes.old.held.items + MOST_CHILDREN) }
        ensures adds { IfOk result (λ newest. AddsChildren (best_first (M.semantics self.now.machine.now) self.now.bounds.now)
            parent.now.program parent.now.line
            (alphabet (M.semantics self.now.machine.now).ops (length parent.now.program) parent.now.line)
            nodes.old.held.items nodes.new.held.items nodes.old.frontier.pairs nodes.new.frontier.pairs newest) }
        ensures keeps { IfOk result (λ _. KeepsChildren (M.semantics self.now.machine.now) (M.belongs self.now.machine.now) self.now.bounds.now.run
            parent.now.program parent.now.line
            (alphabet (M.semantics self.now.machine.now).ops (length parent.now.program) parent.now.line)
            nodes.old.held.items nodes.new.held.items nodes.old.programs.kept nodes.new.programs.kept) }
        ensures acts { IfOk result (λ _. (reached : Program → ℕ → ℕ) → AreStandingSteps (M.semantics self.now.machine.now) self.now.bounds.now.run reached →
            RaisedAtMost (operations_of_split (best_first (M.semantics self.now.machine.now) self.now.bounds.now) reached (parent.now.program, parent.now.line)) (M.acts meter.old) (M.acts meter.new)) }
        ensures copies { IfOk result (λ _. (reached : Program → ℕ → ℕ) → AreStandingSteps (M.semantics self.now.machine.now) self.now.bounds.now.run reached →
            RaisedAtMost (copies_of_split (best_first (M.semantics self.now.machine.now) self.now.bounds.now) reached (parent.now.program, parent.now.line)) (M.copies meter.old) (M.copies meter.new)) }
    {
        let ops = self.machine.ops();
        let lines = parent.program.lines();
        let children = alphabet_len(ops, lines, parent.line);
        nodes.reserve(children as usize, self.machine.instances() as usize)?;
        let mut newest = Newest::none();
        let mut draft = Draft {
            program: parent.program.copy(),
            runs: Vec::new(self.alloc),
        };
        for rank in 0..children {
            let instr = instr_at(ops, lines, parent.line, rank);
            self.add_next(nodes, parent, instr, &mut draft, &mut newest, meter)?;
        }
        Ok(newest)
    }

    // Adds the next child of a node, which is that for an instruction. Where it is a twin, it is passed over.
    fn add_next(
        &self,
        nodes: &mut Nodes<M::Cfg>,
        parent: &Parent,
        instr: Instr,
        draft: &mut Draft<M::Cfg>,
        newest: &mut Newest,
        meter: &mut M::Meter,
    ) -> Result<(), OutOfMemory>
        requires parent { IsParent (M.semantics self.now.machine.now) (M.belongs self.now.machine.now) self.now.bounds.now.run nodes.old.programs.kept parent.now }
        requires instr { IsInstr (M.semantics self.now.machine.now).ops (length parent.now.program) parent.now.line instr }
        requires draft { IsDraft (M.semantics self.now.machine.now) (M.belongs self.now.machine.now) nodes.old.programs.kept parent.now draft.old }
        requires few { length nodes.old.held.items + 1 < 2 ^ 32 }
        requires few_kept { kept_count nodes.old.programs.kept ≤ length nodes.old.held.items }
        requires numbers { AreNumbers nodes.old.held.items nodes.old.frontier.pairs }
        requires spare { 0 < nodes.old.frontier.spare }
        requires room { 0 < nodes.old.programs.room }
        requires run_room { (M.semantics self.now.machine.now).instances ≤ nodes.old.programs.run_room }
        ensures adds { OnOk result (AddsChild (best_first (M.semantics self.now.machine.now) self.now.bounds.now)
            parent.now.program parent.now.line instr
            nodes.old.held.items nodes.new.held.items nodes.old.frontier.pairs nodes.new.frontier.pairs newest.old newest.new) }
        ensures keeps { OnOk result (KeepsChild (M.semantics self.now.machine.now) (M.belongs self.now.machine.now) self.now.bounds.now.run
            parent.now.program parent.now.line instr
            nodes.old.held.items nodes.new.held.items nodes.old.programs.kept nodes.new.programs.kept) }
        ensures acts { OnOk result ((reached : Program → ℕ → ℕ) → AreStandingSteps (M.semantics self.now.machine.now) self.now.bounds.now.run reached →
            RaisedAtMost (sum_by (operations_of_child (best_first (M.semantics self.now.machine.now) self.now.bounds.now) reached parent.now.program parent.now.line)
            (made_for (best_first (M.semantics self.now.machine.now) self.now.bounds.now) reached parent.now.program parent.now.line (instr ∷ []))) (M.acts meter.old) (M.acts meter.new)) }
        ensures copies { OnOk result ((reached : Program → ℕ → ℕ) → AreStandingSteps (M.semantics self.now.machine.now) self.now.bounds.now.run reached →
            RaisedAtMost (sum_by (copies_of_child (best_first (M.semantics self.now.machine.now) self.now.bounds.now) reached parent.now.program parent.now.line)
            (made_for (best_first (M.semantics self.now.machine.now) self.now.bounds.now) reached parent.now.program parent.now.line (instr ∷ []))) (M.copies meter.old) (M.copies meter.new)) }
        ensures draft { OnOk result (IsDraft (M.semantics self.now.machine.now) (M.belongs self.now.machine.now) nodes.new.programs.kept parent.now draft.new) }
        ensures spare { OnOk result (nodes.old.frontier.spare ≤ nodes.new.frontier.spare + 1) }
        ensures room { OnOk result (nodes.old.programs.room ≤ nodes.new.programs.room + 1) }
        ensures run_room { OnOk result (nodes.old.programs.run_room ≤ nodes.new.programs.run_room + (M.semantics self.now.machine.now).instances) }
    {
        if is_twin(self.machine, parent.used, instr) {
            return nodes.add_decided(Held::Twin);
        }
        self.add_child(nodes, parent, instr, draft, newest, meter)
    }

    // Adds the child of a node for an instruction.
    fn add_child(
        &self,
        nodes: &mut Nodes<M::Cfg>,
        parent: &Parent,
        instr: Instr,
        draft: &mut Draft<M::Cfg>,
        newest: &mut Newest,
        meter: &mut M::Meter,
    ) -> Result<(), OutOfMemory>
        requires parent { IsParent (M.semantics self.now.machine.now) (M.belongs self.now.machine.now) self.now.bounds.now.run nodes.old.programs.kept parent.now }
        requires instr { IsInstr (M.semantics self.now.machine.now).ops (length parent.now.program) parent.now.line instr }
        requires draft { IsDraft (M.semantics self.now.machine.now) (M.belongs self.now.machine.now) nodes.old.programs.kept parent.now draft.old }
        requires few { length nodes.old.held.items + 1 < 2 ^ 32 }
        requires few_kept { kept_count nodes.old.programs.kept ≤ length nodes.old.held.items }
        requires numbers { AreNumbers nodes.old.held.items nodes.old.frontier.pairs }
        requires spare { 0 < nodes.old.frontier.spare }
        requires room { 0 < nodes.old.programs.room }
        requires run_room { (M.semantics self.now.machine.now).instances ≤ nodes.old.programs.run_room }
        ensures adds { OnOk result (AddsNewest (best_first (M.semantics self.now.machine.now) self.now.bounds.now)
            (with_line parent.now.program parent.now.line instr)
            nodes.old.held.items nodes.new.held.items nodes.old.frontier.pairs nodes.new.frontier.pairs newest.old newest.new) }
        ensures keeps { OnOk result (KeepsChild (M.semantics self.now.machine.now) (M.belongs self.now.machine.now) self.now.bounds.now.run
            parent.now.program parent.now.line instr
            nodes.old.held.items nodes.new.held.items nodes.old.programs.kept nodes.new.programs.kept) }
        ensures acts { OnOk result ((reached : Program → ℕ → ℕ) → AreStandingSteps (M.semantics self.now.machine.now) self.now.bounds.now.run reached →
            RaisedAtMost (operations_of_child (best_first (M.semantics self.now.machine.now) self.now.bounds.now) reached parent.now.program parent.now.line (with_line parent.now.program parent.now.line instr)) (M.acts meter.old) (M.acts meter.new)) }
        ensures copies { OnOk result ((reached : Program → ℕ → ℕ) → AreStandingSteps (M.semantics self.now.machine.now) self.now.bounds.now.run reached →
            RaisedAtMost (copies_of_child (best_first (M.semantics self.now.machine.now) self.now.bounds.now) reached parent.now.program parent.now.line (with_line parent.now.program parent.now.line instr)) (M.copies meter.old) (M.copies meter.new)) }
        ensures draft { OnOk result (IsDraft (M.semantics self.now.machine.now) (M.belongs self.now.machine.now) nodes.new.programs.kept parent.now draft.new) }
        ensures spare { OnOk result (nodes.old.frontier.spare ≤ nodes.new.frontier.spare + 1) }
        ensures room { OnOk result (nodes.old.programs.room ≤ nodes.new.programs.room + 1) }
        ensures run_room { OnOk result (nodes.old.programs.run_room ≤ nodes.new.programs.run_room + (M.semantics self.now.machine.now).instances) }
    {
        self.begin_child(&nodes.programs, parent, instr, draft, meter)?;
        let judgement = judge(
            self.machine,
            &draft.program,
            self.bounds,
            &parent.standings,
            draft.runs.as_mut_slice(),
            meter,
        );
        newest.see(&draft.program, &judgement)?;
        match judgement {
            Judgement::Refused { t, cause } => nodes.add_decided(Held::Refused { t, cause }),
            Judgement::AtLimit { t } => nodes.add_decided(Held::AtLimit { t }),
            Judgement::Solved { .. } => nodes.add_decided(Held::Solved),
            Judgement::Waiting { line, key } => {
                let runs = mem::replace(&mut draft.runs, Vec::new(self.alloc));
                let id = nodes
                    .programs
                    .child(self.alloc, parent.id, parent.line, instr, runs)?;
                nodes.add_waiting(line, key, id)
            }
        }
    }
}
