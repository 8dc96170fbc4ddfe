ghost use Rattle.std.specs.Prelude.{◌≡◌, ◌<◌, ◌≤◌, ◌↔◌, IsTrue};
ghost use Rattle.program_model.specs.Semantics.{Semantics};
ghost use Rattle.refutation_tree.specs.Grammar.{last_size};
ghost use Rattle.refutation_check.specs.Walking.{Holds, IsWalk};
ghost use Rattle.refutation_check.specs.Inner.Judging.{HasTrees};

use crate::grammar::{last_size, says_refuted};
use crate::walk::Walk;
use program_model::{MAX_LINES, Machine};
use refutation_tree::{Answer, Tree};

// Whether a tree is of the grammar, and covers, if it has to.
fn holds<M: Machine>(
    walk: &mut Walk<M::Cfg>,
    machine: &M,
    covering: bool,
    tree: &Tree,
    meter: &mut M::Meter,
) -> bool
    requires from_one { 1 ≤ tree.now.size }
    requires short { tree.now.size ≤ MAX_LINES }
    requires walk { IsWalk (M.semantics machine.now) (M.belongs machine.now) walk.old }
    ensures walk { IsWalk (M.semantics machine.now) (M.belongs machine.now) walk.new }
    ensures holds { IsTrue result ↔ Holds (M.semantics machine.now) covering tree.now }
{
    walk.begin(machine, tree.size, covering);
    for mark in tree.marks.as_slice() {
        if !walk.take(machine, *mark, meter) {
            return false;
        }
    }
    walk.is_done(machine)
}

/// Whether there is a tree for each size that has one, in order, of the grammar, which covers where the outcome says that its
/// size is refuted.
pub(crate) fn has_trees<M: Machine>(
    walk: &mut Walk<M::Cfg>,
    machine: &M,
    answer: &Answer,
    meter: &mut M::Meter,
) -> bool
    requires short { last_size answer.now.lines answer.now.outcome ≤ MAX_LINES }
    requires walk { IsWalk (M.semantics machine.now) (M.belongs machine.now) walk.old }
    ensures walk { IsWalk (M.semantics machine.now) (M.belongs machine.now) walk.new }
    ensures has { IsTrue result ↔ HasTrees (M.semantics machine.now) answer.now }
{
    let outcome = answer.outcome;
    let last = last_size(answer.lines, outcome);
    let trees = answer.trees.as_slice();
    if trees.len() != usize::from(last) {
        return false;
    }
    for place in 0..last {
        let size = place + 1;
        let tree = &trees[usize::from(place)];
        if tree.size != size || !holds(walk, machine, says_refuted(outcome, size), tree, meter) {
            return false;
        }
    }
    true
}
