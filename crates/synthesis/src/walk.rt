ghost use Rattle.std.specs.Prelude.{◌≡◌, ◌<◌, ◌≤◌, ◌^◌, ◌∷◌, [], List as Sequence, length, IfOk, OnOk};
ghost use Rattle.synthesis.specs.Search.{Node};
ghost use Rattle.synthesis.specs.Answers.{tree_of};
ghost use Rattle.synthesis.specs.Inner.Nodes.{AreInPreorder, LinksOn};
ghost use Rattle.synthesis.specs.Inner.Walking.{AddsMarks};

use crate::nodes::Held;
use flag_rules::{List, OutOfMemory};
use program_model::{MAX_LINES, MAX_OPS, alphabet_len};
use refutation_tree::{Mark, Tree};
use std::alloc::Global;

// Adds the marks of a node, and of all nodes below it, in preorder.
fn add_marks(
    held: &[Held],
    ops: u32,
    size: u8,
    number: u32,
    marks: &mut Vec<Mark>,
) -> Result<(), OutOfMemory>
    requires some_ops { 0 < ops }
    requires few_ops { ops ≤ MAX_OPS }
    requires some_lines { 0 < size }
    requires few_lines { size ≤ MAX_LINES }
    requires few { length held.now < 2 ^ 32 }
    requires links { LinksOn ops size held.now }
    requires here { number < length held.now }
    ensures { OnOk result (AddsMarks ops size held.now number marks.old.items marks.new.items) }
{
    let node = &held[number as usize];
    marks.push(node.mark())?;
    if let Held::Split { line, first, .. } = node {
        let first = *first;
        for child in first..first + alphabet_len(ops, size, *line) {
            add_marks(held, ops, size, child, marks)?;
        }
    }
    Ok(())
}

/// The tree of a size, from its nodes by their numbers: that of the root is 0.
pub(crate) fn tree_of(alloc: Global, held: &[Held], ops: u32, size: u8) -> Result<Tree, OutOfMemory>
    requires some_ops { 0 < ops }
    requires few_ops { ops ≤ MAX_OPS }
    requires some_lines { 0 < size }
    requires few_lines { size ≤ MAX_LINES }
    requires few { length held.now < 2 ^ 32 }
    requires some { 0 < length held.now }
    requires links { LinksOn ops size held.now }
    ensures { IfOk result (λ tree. (nodes : Sequence Node) → AreInPreorder ops size held.now (0 ∷ []) nodes → tree ≡ tree_of size nodes) }
{
    let mut marks = Vec::with_capacity(alloc, held.len())?;
    add_marks(held, ops, size, 0, &mut marks)?;
    Ok(Tree {
        size,
        marks: List::from_vec(marks),
    })
}
