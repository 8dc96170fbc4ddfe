ghost use Rattle.std.specs.Prelude.{◌≡◌, ◌+◌, ◌<◌, ◌≤◌, ◌↔◌, [], ◌++◌, IsTrue, IfOk, IfSome, IfNone, Some, drop};
ghost use Rattle.program_model.specs.Semantics.{Semantics};
ghost use Rattle.program_model.specs.Program.{IsOpen, IsPartial, empty};
ghost use Rattle.program_model.specs.Run.{Ends};
ghost use Rattle.refutation_tree.specs.Covers.{children};
ghost use Rattle.pointer_symmetry.specs.Twins.{twins};
ghost use Rattle.refutation_check.specs.Walking.{IsSameWalk, IsWalk, Stands, Takes, open_lines, pending, rooted};
ghost use Rattle.refutation_check.specs.Inner.Walking.{IsNext, NamesRun, Refutes, as_next, skips_first};

use crate::family::{Family, new_families};
use crate::mark::{is_in_range, splits_open};
use crate::trial::{Trial, new_trials};
use flag_rules::OutOfMemory;
use program_model::{MAX_LINES, Machine, Partial};
use refutation_tree::{MAX_STEPS, Mark};
use std::alloc::Global;

/// How many partial programs may be split on a path of a tree: each split defines a line, and the last line is defined in the root.
pub(crate) const LONGEST_PATH: u8 = MAX_LINES - 1;

/// A walk over the marks of a tree, and of further trees after it. Each mark stands for the next of the partial programs that
/// are pending: the children of those that were split, on a stack; at first the root. A walk takes all of its memory when it is
/// made.
#[derive(Drop)]
pub struct Walk<C: Drop> {
    covering: bool,
    root: Option<Partial>,
    depth: usize,
    families: Vec<Family<C>>,
    trials: Vec<Trial<C>>,
}

impl<C: Drop> Walk<C> {
    /// A walk over no tree yet. It takes memory for each instance of the machine: for a run at each place of the longest path, and for two
    /// configurations. No other call of a walk takes memory.
    pub fn new<M: Machine<Cfg = C>>(alloc: Global, machine: &M) -> Result<Walk<C>, OutOfMemory>
        ensures walk { IfOk result (λ walk. IsWalk (M.semantics machine.now) (M.belongs machine.now) walk) }
        ensures pending { IfOk result (λ walk. pending (M.semantics machine.now) walk ≡ []) }
    {
        let families = new_families(alloc, machine, LONGEST_PATH)?;
        let trials = new_trials(alloc, machine)?;
        Ok(Walk {
            covering: false,
            root: None,
            depth: 0,
            families,
            trials,
        })
    }

    /// Begins with a tree from the empty program of a size on, which has to cover it or need not.
    pub fn begin<M: Machine<Cfg = C>>(&mut self, machine: &M, size: u8, covering: bool)
        requires from_one { 0 < size }
        requires short { size ≤ MAX_LINES }
        requires walk { IsWalk (M.semantics machine.now) (M.belongs machine.now) self.old }
        ensures walk { IsWalk (M.semantics machine.now) (M.belongs machine.now) self.new }
        ensures covering { self.new.covering ≡ covering }
        ensures pending { pending (M.semantics machine.now) self.new ≡ rooted (Some (empty size)) }
    {
        self.covering = covering;
        self.root = Some(Partial::empty(size));
        self.depth = 0;
    }

    // The next partial program that is pending, if there is one.
    fn next<M: Machine<Cfg = C>>(&self, machine: &M) -> Option<Partial>
        requires { IsWalk (M.semantics machine.now) (M.belongs machine.now) self.now }
        ensures partial { IfSome result (λ program. IsPartial (M.semantics machine.now).ops program) }
        ensures next { IfSome result (λ program. IsNext (M.semantics machine.now) self.now program) }
        ensures narrow { IfSome result (λ program. open_lines program + self.now.depth < MAX_LINES) }
        ensures none { IfNone result (pending (M.semantics machine.now) self.now ≡ []) }
    {
        match self.families[..self.depth].last() {
            Some(family) => Some(family.child(machine)),
            None => match &self.root {
                Some(root) => Some(root.copy()),
                None => None,
            },
        }
    }

    /// Whether each partial program has its mark.
    pub fn is_done<M: Machine<Cfg = C>>(&self, machine: &M) -> bool
        requires { IsWalk (M.semantics machine.now) (M.belongs machine.now) self.now }
        ensures { IsTrue result ↔ (pending (M.semantics machine.now) self.now ≡ []) }
    {
        self.next(machine).is_none()
    }

    // The next partial program is no longer pending.
    fn go_past_next<M: Machine<Cfg = C>>(&mut self, machine: &M)
        requires { IsWalk (M.semantics machine.now) (M.belongs machine.now) self.old }
        ensures walk { IsWalk (M.semantics machine.now) (M.belongs machine.now) self.new }
        ensures covering { self.new.covering ≡ self.old.covering }
        ensures depth { self.new.depth ≤ self.old.depth }
        ensures pending { let m = M.semantics machine.now in pending m self.new ≡ drop 1 (pending m self.old) }
    {
        if self.depth == 0 {
            self.root = None;
            return;
        }
        let last = self.depth - 1;
        let family = &mut self.families[last];
        if !family.go_on(machine) {
            self.depth = last;
        }
    }

    // The children of a partial program that is split at a line are pending, before the others.
    fn split<M: Machine<Cfg = C>>(&mut self, machine: &M, program: Partial, line: u8)
        requires walk { IsWalk (M.semantics machine.now) (M.belongs machine.now) self.old }
        requires partial { IsPartial (M.semantics machine.now).ops program }
        requires here { IsOpen program line }
        requires narrow { open_lines program + self.old.depth < MAX_LINES }
        ensures walk { IsWalk (M.semantics machine.now) (M.belongs machine.now) self.new }
        ensures covering { self.new.covering ≡ self.old.covering }
        ensures pending { let m = M.semantics machine.now in
            pending m self.new ≡ children (twins m) m.ops program line ++ pending m self.old }
    {
        let family = &mut self.families[self.depth];
        family.split(machine, program, line);
        self.depth += 1;
    }

    // Whether the run that a mark names shows that the next partial program is refuted.
    fn refutes<M: Machine<Cfg = C>>(
        &mut self,
        machine: &M,
        program: &Partial,
        t: u8,
        mark: Mark,
        meter: &mut M::Meter,
    ) -> bool
        requires walk { IsWalk (M.semantics machine.now) (M.belongs machine.now) self.old }
        requires partial { IsPartial (M.semantics machine.now).ops program.now }
        requires next { IsNext (M.semantics machine.now) self.old program.now }
        requires names { NamesRun (M.semantics machine.now).instances t mark }
        ensures same { IsSameWalk (M.semantics machine.now) (M.belongs machine.now) self.old self.new }
        ensures depth { self.new.depth ≡ self.old.depth }
        ensures refutes { IsTrue result ↔ Refutes (M.semantics machine.now) program.now mark }
    {
        let trial = &mut self.trials[usize::from(t)];
        if self.depth == 0 {
            trial.begin(machine, t);
            return trial.refutes(machine, program, t, mark, meter);
        }
        let last = self.depth - 1;
        let family = &mut self.families[last];
        family.refutes(trial, machine, program, t, mark, meter)
    }

    // Whether the next partial program may be passed over: it is a twin of a sibling. The root has no sibling.
    fn skips_next<M: Machine<Cfg = C>>(&self, machine: &M) -> bool
        requires { IsWalk (M.semantics machine.now) (M.belongs machine.now) self.now }
        ensures { result ≡ skips_first (pending (M.semantics machine.now) self.now) }
    {
        match self.families[..self.depth].last() {
            Some(family) => family.child_is_twin(machine),
            None => false,
        }
    }

    // Whether a mark stands for the next partial program.
    fn stands<M: Machine<Cfg = C>>(
        &mut self,
        machine: &M,
        program: &Partial,
        mark: Mark,
        meter: &mut M::Meter,
    ) -> bool
        requires walk { IsWalk (M.semantics machine.now) (M.belongs machine.now) self.old }
        requires partial { IsPartial (M.semantics machine.now).ops program.now }
        requires next { IsNext (M.semantics machine.now) self.old program.now }
        ensures same { IsSameWalk (M.semantics machine.now) (M.belongs machine.now) self.old self.new }
        ensures depth { self.new.depth ≡ self.old.depth }
        ensures stands { let m = M.semantics machine.now in IsTrue result
            ↔ Stands m self.old.covering (as_next m self.old program.now) mark }
    {
        if !is_in_range(mark, machine.instances()) || !splits_open(mark, program) {
            return false;
        }
        match mark {
            Mark::Unmet { t, .. } | Mark::Loops { t, .. } if self.covering => {
                self.refutes(machine, program, t, mark, meter)
            }
            Mark::Twin if self.covering => self.skips_next(machine),
            _ => !self.covering || matches!(mark, Mark::Split { .. }),
        }
    }

    /// Takes the next mark; tells whether it stands for the next partial program. Where it does not, no marks after it make the tree stand.
    pub fn take<M: Machine<Cfg = C>>(
        &mut self,
        machine: &M,
        mark: Mark,
        meter: &mut M::Meter,
    ) -> bool
        requires { IsWalk (M.semantics machine.now) (M.belongs machine.now) self.old }
        ensures walk { IsWalk (M.semantics machine.now) (M.belongs machine.now) self.new }
        ensures takes { Takes (M.semantics machine.now) mark self.old self.new result }
    {
        let Some(program) = self.next(machine) else {
            return false;
        };
        if !self.stands(machine, &program, mark, meter) {
            return false;
        }
        self.go_past_next(machine);
        if let Mark::Split { line, .. } = mark {
            self.split(machine, program, line);
        }
        true
    }

    /// Whether the run of a program on an instance ends after so many steps with the goal met. The walk stays where it is.
    pub fn ends<M: Machine<Cfg = C>>(
        &mut self,
        machine: &M,
        program: &Partial,
        t: u8,
        steps: u64,
        meter: &mut M::Meter,
    ) -> bool
        requires instance { t < (M.semantics machine.now).instances }
        requires partial { IsPartial (M.semantics machine.now).ops program.now }
        requires few { steps ≤ MAX_STEPS }
        requires walk { IsWalk (M.semantics machine.now) (M.belongs machine.now) self.old }
        ensures same { IsSameWalk (M.semantics machine.now) (M.belongs machine.now) self.old self.new }
        ensures ends { IsTrue result ↔ Ends (M.semantics machine.now) program.now t steps }
    {
        let trial = &mut self.trials[usize::from(t)];
        trial.ends(machine, program, t, steps, meter)
    }
}
