ghost use Rattle.std.specs.Prelude.{◌≡◌, ◌≢◌, ◌+◌, ◌*◌, ◌<◌, ◌≤◌, ◌^◌, [], ◌∷◌, ◌++◌, IsTrue, ◌↔◌, length, All, IsPermutation, OnOk, IsSome};
ghost use Rattle.program_model.specs.declared.machine.TheConstants.{MAX_INSTANCES};
ghost use Rattle.waiting_programs.specs.Programs.{kept_at};
ghost use Rattle.synthesis.specs.Search.{mark_of};
ghost use Rattle.synthesis.specs.Inner.Nodes.{state_of, IsDecided, MOST_CHILDREN};
ghost use Rattle.synthesis.specs.Inner.Splitting.{AreNumbers, IsHeldWaiting, TakesBest, AddsJudged};
ghost use Rattle.synthesis.specs.Inner.Keeping.{KeepsRoot};

use evaluations::{ByKey, Compared, Key};
use flag_rules::OutOfMemory;
use frontier::Frontier;
use judgement::Judgement;
use program_model::Cause;
use refutation_tree::Mark;
use std::alloc::Global;
use std::mem;
use waiting_programs::{WaitingId, WaitingPrograms};

/// What is held of a node.
#[derive(Debug, Drop)]
pub(crate) enum Held {
    /// The run on an instance refutes it.
    Refused { t: u8, cause: Cause },
    /// The run on an instance is at its limit.
    AtLimit { t: u8 },
    Solved,
    /// It waits to be split at a line of its program, which is kept with its runs under a number.
    Waiting { line: u8, id: WaitingId },
    /// It was split at a line, as the split of a number. Its children stand in a row, the first of them at a number.
    Split { line: u8, stamp: u32, first: u32 },
    /// It is a twin, and is passed over.
    Twin,
}

impl Held {
    /// How the node is marked in the tree of its size.
    pub(crate) fn mark(&self) -> Mark
        ensures { result ≡ mark_of (state_of self.now) }
    {
        match self {
            Held::Refused { t, cause } => mark_of_cause(*t, *cause),
            Held::AtLimit { t } => Mark::AtLimit { t: *t },
            Held::Solved => Mark::Solved,
            Held::Waiting { .. } => Mark::Waiting,
            Held::Split { line, stamp, .. } => Mark::Split {
                line: *line,
                stamp: *stamp,
            },
            Held::Twin => Mark::Twin,
        }
    }
}

// The mark of a node that the run on an instance refutes.
fn mark_of_cause(t: u8, cause: Cause) -> Mark
    ensures { result ≡ mark_of (state_of (Held.Refused t cause)) }
{
    match cause {
        Cause::Unmet { steps } => Mark::Unmet { t, steps },
        Cause::Loops { from, to } => Mark::Loops { t, from, to },
    }
}

/// A node that waited and is to be split: its line, and the number under which its program is kept.
#[derive(Debug, Drop)]
pub(crate) struct Best {
    pub line: u8,
    pub id: WaitingId,
}

/// The nodes of one size, by their numbers, a frontier of those that wait, and the programs of these with their runs.
#[derive(Drop)]
pub(crate) struct Nodes<C: Drop> {
    pub held: Vec<Held>,
    pub frontier: Frontier<ByKey>,
    pub compared: Compared,
    pub programs: WaitingPrograms<C>,
}

impl<C: Drop> Nodes<C> {
    /// No nodes.
    pub(crate) fn new(alloc: Global, programs: WaitingPrograms<C>) -> Nodes<C>
        ensures held { result.held.items ≡ [] }
        ensures pairs { result.frontier.pairs ≡ [] }
        ensures programs { result.programs ≡ programs }
    {
        Nodes {
            held: Vec::new(alloc),
            frontier: Frontier::new(alloc),
            compared: Compared::zero(),
            programs,
        }
    }

    /// Whether one of them waits.
    pub(crate) fn has_waiting(&self) -> bool
        ensures { IsTrue result ↔ (self.now.frontier.pairs ≢ []) }
    {
        !self.frontier.is_empty()
    }

    /// Makes room for so many more nodes, each of which may wait with so many runs of its own.
    pub(crate) fn reserve(&mut self, nodes: usize, runs: usize) -> Result<(), OutOfMemory>
        requires nodes { nodes ≤ MOST_CHILDREN }
        requires runs { runs ≤ MAX_INSTANCES }
        ensures frontier { OnOk result (nodes ≤ self.new.frontier.spare) }
        ensures room { OnOk result (nodes ≤ self.new.programs.room) }
        ensures run_room { OnOk result (nodes * runs ≤ self.new.programs.run_room) }
        ensures held { self.new.held.items ≡ self.old.held.items }
        ensures pairs { self.new.frontier.pairs ≡ self.old.frontier.pairs }
        ensures kept { self.new.programs.kept ≡ self.old.programs.kept }
    {
        self.held.reserve(nodes)?;
        self.frontier.reserve(nodes)?;
        self.programs.reserve(nodes, nodes * runs)
    }

    /// Adds a node, with the next number, that does not wait.
    pub(crate) fn add_decided(&mut self, held: Held) -> Result<(), OutOfMemory>
        requires { IsDecided held }
        ensures held { OnOk result (self.new.held.items ≡ self.old.held.items ++ held ∷ []) }
        ensures frontier { self.new.frontier ≡ self.old.frontier }
        ensures programs { self.new.programs ≡ self.old.programs }
    {
        self.held.push(held)?;
        Ok(())
    }

    /// Adds a node, with the next number, that waits at a line and has a key; its program is kept under a number.
    pub(crate) fn add_waiting(
        &mut self,
        line: u8,
        key: Key,
        id: WaitingId,
    ) -> Result<(), OutOfMemory>
        requires few { length self.old.held.items < 2 ^ 32 }
        requires numbers { AreNumbers self.old.held.items self.old.frontier.pairs }
        requires spare { 0 < self.old.frontier.spare }
        ensures held { OnOk result (self.new.held.items ≡ self.old.held.items ++ Held.Waiting line id ∷ []) }
        ensures pairs { OnOk result (IsPermutation ((key, length self.old.held.items) ∷ self.old.frontier.pairs) self.new.frontier.pairs) }
        ensures spare { self.new.frontier.spare + 1 ≡ self.old.frontier.spare }
        ensures programs { self.new.programs ≡ self.old.programs }
    {
        let number = self.held.len() as u32;
        self.frontier.push(key, number, &mut self.compared);
        self.held.push(Held::Waiting { line, id })?;
        Ok(())
    }

    /// Adds the root of a size, which is judged so. Its program, which is kept under a number, is given up if it does not wait.
    pub(crate) fn add_root(
        &mut self,
        judgement: Judgement,
        id: WaitingId,
    ) -> Result<(), OutOfMemory>
        requires none { self.old.held.items ≡ [] }
        requires no_pairs { self.old.frontier.pairs ≡ [] }
        requires spare { 0 < self.old.frontier.spare }
        requires kept { IsSome (kept_at self.old.programs.kept id) }
        ensures adds { OnOk result (AddsJudged judgement [] self.new.held.items [] self.new.frontier.pairs) }
        ensures keeps { OnOk result (KeepsRoot id self.new.held.items self.old.programs.kept self.new.programs.kept) }
    {
        let held = match judgement {
            Judgement::Waiting { line, key } => return self.add_waiting(line, key, id),
            Judgement::Refused { t, cause } => Held::Refused { t, cause },
            Judgement::AtLimit { t } => Held::AtLimit { t },
            Judgement::Solved { .. } => Held::Solved,
        };
        self.programs.release(id);
        self.add_decided(held)
    }

    /// Takes out the node that waits and has the least key and number, to be split: its children are to have the next numbers.
    pub(crate) fn take_best(&mut self, stamp: u32) -> Best
        requires some { self.old.frontier.pairs ≢ [] }
        requires few { length self.old.held.items < 2 ^ 32 }
        requires waiting { All (λ pair. IsHeldWaiting self.old.held.items pair.1) self.old.frontier.pairs }
        ensures best { TakesBest stamp self.old.held.items self.new.held.items self.old.frontier.pairs self.new.frontier.pairs result }
        ensures programs { self.new.programs ≡ self.old.programs }
    {
        let (_, number) = self.frontier.pop_least(&mut self.compared).unwrap();
        let first = self.held.len() as u32;
        let held = &mut self.held[number as usize];
        let Held::Waiting { line, .. } = held else {
            unreachable!()
        };
        let line = *line;
        match mem::replace(held, Held::Split { line, stamp, first }) {
            Held::Waiting { id, .. } => Best { line, id },
            _ => unreachable!(),
        }
    }
}
