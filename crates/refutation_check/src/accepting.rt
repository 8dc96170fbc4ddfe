ghost use Rattle.std.specs.Prelude.{◌≡◌, ◌<◌, ◌≤◌, ◌↔◌, IsTrue, IfOk, All, length};
ghost use Rattle.program_model.specs.Semantics.{Semantics};
ghost use Rattle.program_model.specs.Program.{IsPartial};
ghost use Rattle.refutation_tree.specs.Accepted.{AreEndsFrom, IsAccepted};
ghost use Rattle.pointer_symmetry.specs.Twins.{twins};
ghost use Rattle.refutation_check.specs.Walking.{IsWalk};

use crate::grammar::{fits_outcome, is_headed};
use crate::trees::has_trees;
use crate::walk::Walk;
use flag_rules::OutOfMemory;
use program_model::{Machine, Partial};
use refutation_tree::{Answer, MAX_STEPS};
use std::alloc::Global;

// Whether the runs of a program end after so many steps, on the instances in order, with the goal met.
fn all_end<M: Machine>(
    walk: &mut Walk<M::Cfg>,
    machine: &M,
    program: &Partial,
    steps: &[u64],
    meter: &mut M::Meter,
) -> bool
    requires partial { IsPartial (M.semantics machine.now).ops program.now }
    requires one_for_each { length steps.now ≡ (M.semantics machine.now).instances }
    requires in_range { All (λ j. j ≤ MAX_STEPS) steps.now }
    requires walk { IsWalk (M.semantics machine.now) (M.belongs machine.now) walk.old }
    ensures { IsTrue result ↔ AreEndsFrom (M.semantics machine.now) program.now 0 steps.now }
{
    for t in 0..machine.instances() {
        if !walk.ends(machine, program, t, steps[usize::from(t)], meter) {
            return false;
        }
    }
    true
}

/// Whether an answer is accepted for a machine and a number of lines: it is of the grammar over the machine's operations, its
/// numbers are the machine's and these lines, each tree of a size that it says is refuted covers, where twins of siblings may be
/// passed over, and the ends of its program's runs are true. All runs are made here, and what is a twin is found here. What an
/// accepted answer shows is the law [`refutation_tree::accepted_answers_hold`]: its program is least, or there is none of so
/// many lines. The law needs that passing over loses no solution: [`pointer_symmetry::passing_twins_over_is_fair`].
pub fn accepts<M: Machine>(
    alloc: Global,
    machine: &M,
    lines: u8,
    answer: &Answer,
    meter: &mut M::Meter,
) -> Result<bool, OutOfMemory>
    ensures { let m = M.semantics machine.now in
        IfOk result (λ accepted. IsTrue accepted ↔ IsAccepted m (twins m) lines answer.now) }
{
    let mut walk = Walk::new(alloc, machine)?;
    if !is_headed(machine, lines, answer)
        || !fits_outcome(machine.ops(), answer)
        || !has_trees(&mut walk, machine, answer, meter)
    {
        return Ok(false);
    }
    match &answer.program {
        Some(program) => Ok(all_end(&mut walk, machine, program, answer.ends.as_slice(), meter)),
        None => Ok(true),
    }
}
