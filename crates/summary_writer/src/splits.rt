ghost use Rattle.std.specs.Prelude.{◌≡◌, ◌≤◌, length, count_by};
ghost use Rattle.program_model.specs.declared.alphabet.TheConstants.{MAX_LINES};
ghost use Rattle.refutation_tree.specs.Splits.{is_split, splits_of};

use refutation_tree::{Mark, Tree};

/// How many splits the trees of all sizes tell. Each tree may tell nearly as many as a `u64` counts.
pub(crate) fn splits_of(trees: &[Tree]) -> u128
    requires { length trees.now ≤ MAX_LINES }
    ensures { result ≡ splits_of trees.now }
{
    trees
        .iter()
        .map(|tree| splits_in(tree.marks.as_slice()) as u128)
        .sum()
}

// How many splits a tree with these marks tells.
fn splits_in(marks: &[Mark]) -> usize
    ensures { result ≡ count_by is_split marks.now }
{
    marks
        .iter()
        .filter(|mark| matches!(mark, Mark::Split { .. }))
        .count()
}
