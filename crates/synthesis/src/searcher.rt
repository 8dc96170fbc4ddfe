ghost use Rattle.std.specs.Prelude.{◌≡◌, ℕ, ◌+◌, ◌<◌, ◌≤◌, ◌^◌, [], ◌∷◌, ◌++◌, List as Sequence, length, map, All, IsPermutation, IfOk, OnOk};
ghost use Rattle.std.specs.List.{range_with_len};
ghost use Rattle.program_model.specs.Program.{Program};
ghost use Rattle.program_model.specs.declared.alphabet.TheConstants.{MAX_LINES};
ghost use Rattle.program_model.specs.declared.machine.TheConstants.{MAX_INSTANCES};
ghost use Rattle.interpreter.specs.Counts.{RaisedAtMost};
ghost use Rattle.interpreter.specs.Runs.{IsRunOf};
ghost use Rattle.run_turns.specs.Settling.{instances_of};
ghost use Rattle.judgement.specs.Judging.{run_standing};
ghost use Rattle.synthesis.specs.Search.{Node};
ghost use Rattle.synthesis.specs.Answers.{Concludes, tree_of};
ghost use Rattle.search_bounds.specs.Limits.{AreWithinLimits};
ghost use Rattle.synthesis.specs.BestFirst.{best_first, IsBestFirstAnswer};
ghost use Rattle.synthesis.specs.FreshWork.{AreStandingSteps, fresh_operations, fresh_copies};
ghost use Rattle.synthesis.specs.Inner.Nodes.{AreInPreorder, LinksOn, IsSoundEnd, HasGrown, close_of, IsEndingOn, IsSearched};
ghost use Rattle.synthesis.specs.Inner.Working.{counts, HasWorkedFor};

use crate::fill::filled;
use crate::newest::{Ending, Found, Newest};
use crate::nodes::Nodes;
use crate::walk::tree_of;
use flag_rules::{List, OutOfMemory};
use interpreter::Run;
use judgement::{Standings, judge, standing};
use program_model::{Machine, Partial};
use refutation_tree::{Answer, Outcome, Tree};
use search_bounds::Bounds;
use std::alloc::Global;
use waiting_programs::WaitingPrograms;

/// Searches for a smallest program of at most so many lines that solves every instance of a machine.
///
/// Sizes are tried from 1 on, and of the nodes of a size that wait, the best by the order is split first; of equally good ones
/// the one that was made first. Children that are twins are marked so and passed over: no run is made for them. A run that waits is kept where it stands, and all
/// partial programs below share it. So no more operations and copies are counted at the meter than fresh ones. An error is want of
/// memory alone.
pub fn search<M: Machine>(
    alloc: Global,
    machine: &M,
    bounds: &Bounds,
    meter: &mut M::Meter,
) -> Result<Answer, OutOfMemory>
    requires { AreWithinLimits bounds.now }
    ensures answer { IfOk result (λ answer. IsBestFirstAnswer (M.semantics machine.now) bounds.now answer) }
    ensures acts { IfOk result (λ answer. (reached : Program → ℕ → ℕ) → AreStandingSteps (M.semantics machine.now) bounds.now.run reached →
        RaisedAtMost (fresh_operations (best_first (M.semantics machine.now) bounds.now) reached answer.trees) (M.acts meter.old) (M.acts meter.new)) }
    ensures copies { IfOk result (λ answer. (reached : Program → ℕ → ℕ) → AreStandingSteps (M.semantics machine.now) bounds.now.run reached →
        RaisedAtMost (fresh_copies (best_first (M.semantics machine.now) bounds.now) reached answer.trees) (M.copies meter.old) (M.copies meter.new)) }
{
    let searcher = Searcher {
        alloc,
        machine,
        bounds,
    };
    searcher.search_sizes(meter)
}

/// A search over a machine, within bounds.
#[derive(Drop)]
pub(crate) struct Searcher<'a, M: Machine> {
    pub alloc: Global,
    pub machine: &'a M,
    pub bounds: &'a Bounds,
    ghost within: { AreWithinLimits bounds.now },
}

/// A size that is closed.
#[derive(Drop)]
pub(crate) struct Searched {
    pub tree: Tree,
    /// How many splits were made for all sizes up to this one.
    pub stamp: u32,
    /// How it ends the search; without an ending it is refuted.
    pub ending: Option<Ending>,
}

/// A size of which the root alone was made.
#[derive(Drop)]
struct Start<C: Drop> {
    nodes: Nodes<C>,
    newest: Newest,
}

impl<M: Machine> Searcher<'_, M> {
    /// Searches the sizes in turn.
    fn search_sizes(&self, meter: &mut M::Meter) -> Result<Answer, OutOfMemory>
        ensures answer { IfOk result (λ answer. IsBestFirstAnswer (M.semantics self.now.machine.now) self.now.bounds.now answer) }
        ensures worked { IfOk result (λ answer. HasWorkedFor (best_first (M.semantics self.now.machine.now) self.now.bounds.now) answer.trees
            (counts (M.acts meter.old) (M.copies meter.old)) (counts (M.acts meter.new) (M.copies meter.new))) }
    {
        let mut trees = List::new(self.alloc);
        let mut stamp = 0;
        for refuted in 0..self.bounds.lines {
            let size = refuted + 1;
            let Searched {
                tree,
                stamp: after,
                ending,
            } = self.search_size(size, stamp, meter)?;
            trees.push(tree)?;
            if let Some(ending) = ending {
                return self.ended(size, ending, trees);
            }
            stamp = after;
        }
        Ok(self.answer(trees, Outcome::Nothing, None, List::new(self.alloc)))
    }

    /// The answer where a size ends the search.
    fn ended(&self, size: u8, ending: Ending, trees: List<Tree>) -> Result<Answer, OutOfMemory>
        requires { IsEndingOn (best_first (M.semantics self.now.machine.now) self.now.bounds.now) ending }
        ensures pointers { IfOk result (λ answer. answer.pointers ≡ (M.semantics self.now.machine.now).pointers) }
        ensures asked { IfOk result (λ answer. answer.lines ≡ self.now.bounds.now.lines) }
        ensures instances { IfOk result (λ answer. answer.instances ≡ (M.semantics self.now.machine.now).instances) }
        ensures trees { IfOk result (λ answer. answer.trees ≡ trees) }
        ensures concludes { IfOk result (λ answer.
            Concludes (best_first (M.semantics self.now.machine.now) self.now.bounds.now) size (close_of (Some ending)) answer) }
    {
        let none = List::new(self.alloc);
        match ending {
            Ending::Solved(Found { program, ends }) => {
                let whole = filled(self.machine.ops(), &program);
                let ends = List::from_vec(Vec::from_slice(self.alloc, ends.as_slice())?);
                Ok(self.answer(trees, Outcome::Program { size }, Some(whole), ends))
            }
            Ending::RunSpent { t } => Ok(self.answer(
                trees,
                Outcome::SpentRun { size, t },
                None,
                none,
            )),
            Ending::BudgetSpent => Ok(self.answer(
                trees,
                Outcome::SpentExpansions { size },
                None,
                none,
            )),
        }
    }

    /// An answer on the machine, within the bounds.
    fn answer(
        &self,
        trees: List<Tree>,
        outcome: Outcome,
        program: Option<Partial>,
        ends: List<u64>,
    ) -> Answer
        ensures { result ≡ record {
          pointers = (M.semantics self.now.machine.now).pointers;
          lines = self.now.bounds.now.lines;
          instances = (M.semantics self.now.machine.now).instances;
          outcome = outcome;
          trees = trees;
          program = program;
          ends = ends;
        } }
    {
        Answer {
            pointers: self.machine.pointers(),
            lines: self.bounds.lines,
            instances: self.machine.instances(),
            outcome,
            trees,
            program,
            ends,
        }
    }

    /// Searches the programs of a size, after so many splits of lesser sizes.
    fn search_size(
        &self,
        size: u8,
        from: u32,
        meter: &mut M::Meter,
    ) -> Result<Searched, OutOfMemory>
        requires some { 0 < size }
        requires few { size ≤ self.now.bounds.now.lines }
        ensures searched { IfOk result (IsSearched (best_first (M.semantics self.now.machine.now) self.now.bounds.now)
            self.now.bounds.now.budget size from (counts (M.acts meter.old) (M.copies meter.old)) (counts (M.acts meter.new) (M.copies meter.new))) }
        ensures sound { IfOk result (λ searched.
            IsSoundEnd (best_first (M.semantics self.now.machine.now) self.now.bounds.now) searched.ending) }
    {
        let Start {
            mut nodes,
            mut newest,
        } = self.start(size, meter)?;
        let mut stamp = from;
        loop {
            if let Some(ending) = newest.ending() {
                return self.closed(size, &nodes, stamp, Some(ending));
            }
            if !nodes.has_waiting() {
                return self.closed(size, &nodes, stamp, None);
            }
            if stamp >= self.bounds.budget {
                return self.closed(size, &nodes, stamp, Some(Ending::BudgetSpent));
            }
            newest = self.split_best(&mut nodes, stamp, meter)?;
            stamp += 1;
        }
    }

    /// The root of a size alone, and what it tells.
    fn start(&self, size: u8, meter: &mut M::Meter) -> Result<Start<M::Cfg>, OutOfMemory>
        requires some { 0 < size }
        requires few { size ≤ MAX_LINES }
        ensures { IfOk result (λ start. (budget from : ℕ) →
            HasGrown (best_first (M.semantics self.now.machine.now) self.now.bounds.now) (M.belongs self.now.machine.now)
            budget size from from start.nodes (counts (M.acts meter.old) (M.copies meter.old)) (counts (M.acts meter.new) (M.copies meter.new)) start.newest) }
    {
        let program = Partial::empty(size);
        let mut runs = self.fresh_runs()?;
        let standings = self.standings_of(size, runs.as_slice());
        let judgement = judge(
            self.machine,
            &program,
            self.bounds,
            &standings,
            runs.as_mut_slice(),
            meter,
        );
        let mut newest = Newest::none();
        newest.see(&program, &judgement)?;
        let (programs, id) = WaitingPrograms::new(self.alloc, size, runs)?;
        let mut nodes = Nodes::new(self.alloc, programs);
        nodes.reserve(1, 0)?;
        nodes.add_root(judgement, id)?;
        Ok(Start { nodes, newest })
    }

    // A fresh run on each instance.
    fn fresh_runs(&self) -> Result<Vec<Run<M::Cfg>>, OutOfMemory>
        ensures instances { IfOk result (λ runs. instances_of runs.items ≡ range_with_len 0 (M.semantics self.now.machine.now).instances) }
        ensures few { IfOk result (λ runs. length runs.items ≤ MAX_INSTANCES) }
        ensures fresh { IfOk result (λ runs. All (λ run. run.marks.steps ≡ 0) runs.items) }
        ensures runs { (program : Program) → IfOk result (λ runs.
            All (IsRunOf (M.semantics self.now.machine.now) (M.belongs self.now.machine.now) program) runs.items) }
    {
        let mut runs = Vec::with_capacity(self.alloc, self.machine.instances() as usize)?;
        for t in 0..self.machine.instances() {
            runs.push(Run::fresh(self.alloc, self.machine, t)?)?;
        }
        Ok(runs)
    }

    // Where runs of a program of so many lines stand.
    fn standings_of(&self, lines: u8, runs: &[Run<M::Cfg>]) -> Standings
        requires some { 0 < lines }
        requires few { length runs.now ≤ MAX_INSTANCES }
        requires runs { (program : Program) × All (IsRunOf (M.semantics self.now.machine.now) (M.belongs self.now.machine.now) program) runs.now }
        ensures { result.items ≡ map (run_standing (M.semantics self.now.machine.now) lines) runs.now }
    {
        let mut standings = Standings::new();
        for run in runs.iter() {
            standings.push(standing(self.machine, lines, run));
        }
        standings
    }

    /// A size that is closed, with its tree.
    fn closed(
        &self,
        size: u8,
        nodes: &Nodes<M::Cfg>,
        stamp: u32,
        ending: Option<Ending>,
    ) -> Result<Searched, OutOfMemory>
        requires some_lines { 0 < size }
        requires few_lines { size ≤ MAX_LINES }
        requires some { 0 < length nodes.now.held.items }
        requires few { length nodes.now.held.items < 2 ^ 32 }
        requires links { LinksOn (M.semantics self.now.machine.now).ops size nodes.now.held.items }
        ensures { IfOk result (λ searched. (searched.stamp ≡ stamp) × (searched.ending ≡ ending)
            × ((standing : Sequence Node) → AreInPreorder (M.semantics self.now.machine.now).ops size nodes.now.held.items (0 ∷ []) standing → searched.tree ≡ tree_of size standing)) }
    {
        let tree = tree_of(self.alloc, nodes.held.as_slice(), self.machine.ops(), size)?;
        Ok(Searched {
            tree,
            stamp,
            ending,
        })
    }
}
