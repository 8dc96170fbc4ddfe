ghost use Rattle.std.specs.Prelude.{◌≡◌, ℕ, ◌<◌, ◌≤◌, length, List as Sequence, [], ◌∷◌};
ghost use Rattle.program_model.specs.Program.{empty};
ghost use Rattle.program_text.specs.Names.{AreNames};
ghost use Rattle.answer_reader.specs.declared.heading.Heading.{Heading as HeadingValue};
ghost use Rattle.refutation_tree.specs.declared.evidence.Tree.{Tree as TreeValue};
ghost use Rattle.answer_reader.specs.Inner.Following.{IsHeading, past_trees, past_tree, past_marks};
ghost use Rattle.refutation_tree.specs.Grammar.{last_size};
ghost use Rattle.answer_reader.specs.Inner.ReadingOn.{ReadsOn};

use crate::AnswerRefusal;
use crate::heading::Heading;
use crate::line_reader::Reader;
use crate::next_lines::{read_mark, read_tree_line};
use crate::open_trees::OpenTrees;
use flag_rules::List;
use program_model::{MAX_LINES, MAX_OPS, Partial};
use refutation_tree::{Mark, Outcome, Tree};
use std::alloc::Global;

/// Reads a tree for each size, up to the last one that has a tree.
pub(crate) fn read_trees(
    alloc: Global,
    reader: &mut Reader,
    ops: u32,
    heading: Heading,
) -> Result<List<Tree>, AnswerRefusal>
    requires some { 0 < ops }
    requires few { ops ≤ MAX_OPS }
    requires heading { IsHeading heading }
    ensures { (texts : Sequence (Sequence ℕ)) → AreNames texts → length texts ≡ ops →
        ReadsOn texts (past_tree heading []) (λ trees. past_trees heading trees heading.outcome) reader.old reader.new result }
{
    let mut trees = List::new(alloc);
    for count in 0..last_size(heading) {
        let size = count + 1;
        read_tree_line(reader, size)?;
        let marks = read_marks(alloc, reader, ops, heading.instances, size)?;
        trees.push(Tree { size, marks })?;
    }
    Ok(trees)
}

// The greatest size that has a tree.
fn last_size(heading: Heading) -> u8
    ensures { result ≡ last_size heading.lines heading.outcome }
{
    match heading.outcome {
        Outcome::Program { size } => size,
        Outcome::Nothing => heading.lines,
        Outcome::SpentExpansions { size } => size,
        Outcome::SpentRun { size, .. } => size,
    }
}

// Reads the marks of the tree of a size.
fn read_marks(
    alloc: Global,
    reader: &mut Reader,
    ops: u32,
    instances: u8,
    size: u8,
) -> Result<List<Mark>, AnswerRefusal>
    requires some { 0 < ops }
    requires few { ops ≤ MAX_OPS }
    requires from_one { 1 ≤ size }
    requires short { size ≤ MAX_LINES }
    ensures { (texts : Sequence (Sequence ℕ)) (heading : HeadingValue) (trees : Sequence TreeValue) → AreNames texts → length texts ≡ ops → heading.instances ≡ instances →
        ReadsOn texts (past_marks heading trees [] (empty size ∷ [])) (λ marks. past_marks heading trees marks []) reader.old reader.new result }
{
    let mut marks = List::new(alloc);
    let mut pending = OpenTrees::new(alloc, ops);
    let mut next = Some(Partial::empty(size));
    while let Some(program) = next {
        let mark = read_mark(reader, instances, &program)?;
        marks.push(mark)?;
        if let Mark::Split { line, .. } = mark {
            pending.split(program, line)?;
        }
        next = pending.take_next();
    }
    Ok(marks)
}
