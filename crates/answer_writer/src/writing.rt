ghost use Rattle.std.specs.Prelude.{[], ◌∷◌, length, map, flat_map};
ghost use Rattle.flag_rules.specs.Line.{lines_of};
ghost use Rattle.bfgp_outside.specs.Sink.{Puts};
ghost use Rattle.program_text.specs.Gathered.{Gathers};
ghost use Rattle.refutation_tree.specs.Grammar.{IsGrammatical};
ghost use Rattle.answer_writer.specs.Document.{document, document_lines, head_lines, verdict_line, tree_lines, mark_line, program_lines, ends_lines};

use crate::written_lines::{MAX_LINE, ends_line, line_text, mark_line, number_line, verdict_line};
use arrayvec::ArrayVec;
use bfgp_outside::{Sink, SinkFailed};
use program_text::{Gathered, Names, add_program};
use refutation_tree::{Answer, Mark, Outcome, Tree};

/// Puts the document of an answer, in pieces of some kilobytes. It takes no memory.
pub fn write_answer<K: Sink>(sink: &mut K, answer: &Answer, names: &Names) -> Result<(), SinkFailed>
    requires { IsGrammatical (length names.now) answer.now }
    ensures { Puts K.written K.faults sink.old sink.new result (document names.now answer.now) }
{
    let mut gathered = Gathered::new();
    add_answer(sink, &mut gathered, answer, names)?;
    gathered.put(sink)
}

// Gathers all lines.
fn add_answer<K: Sink>(
    sink: &mut K,
    gathered: &mut Gathered,
    answer: &Answer,
    names: &Names,
) -> Result<(), SinkFailed>
    requires { IsGrammatical (length names.now) answer.now }
    ensures { Gathers K.written K.faults sink.old sink.new gathered.old gathered.new result (lines_of (document_lines names.now answer.now)) }
{
    add_head(sink, gathered, answer)?;
    add_evidence(sink, gathered, answer)?;
    add_found(sink, gathered, answer, names)?;
    add_ends(sink, gathered, answer.ends.as_slice())?;
    add_line(sink, gathered, &line_text(b"end of answer", &[]))
}

// Gathers a line.
fn add_line<K: Sink>(
    sink: &mut K,
    gathered: &mut Gathered,
    text: &ArrayVec<u8, MAX_LINE>,
) -> Result<(), SinkFailed>
    ensures { Gathers K.written K.faults sink.old sink.new gathered.old gathered.new result (lines_of (text.now.items ∷ [])) }
{
    gathered.add_line(sink, text.as_slice())
}

// Gathers the form of the document, and what was asked.
fn add_head<K: Sink>(
    sink: &mut K,
    gathered: &mut Gathered,
    answer: &Answer,
) -> Result<(), SinkFailed>
    ensures { Gathers K.written K.faults sink.old sink.new gathered.old gathered.new result (lines_of (head_lines answer.now)) }
{
    add_line(sink, gathered, &line_text(b"bfgp answer 1", &[]))?;
    add_line(sink, gathered, &number_line(b"pointers", answer.pointers))?;
    add_line(sink, gathered, &number_line(b"lines", answer.lines))?;
    add_line(sink, gathered, &number_line(b"instances", answer.instances))
}

// Gathers the verdict and the trees.
fn add_evidence<K: Sink>(
    sink: &mut K,
    gathered: &mut Gathered,
    answer: &Answer,
) -> Result<(), SinkFailed>
    ensures { Gathers K.written K.faults sink.old sink.new gathered.old gathered.new result (lines_of (verdict_line answer.now.outcome ∷ flat_map tree_lines answer.now.trees)) }
{
    add_verdict(sink, gathered, answer.outcome)?;
    add_trees(sink, gathered, answer.trees.as_slice())
}

/// Gathers the line of a verdict.
pub fn add_verdict<K: Sink>(
    sink: &mut K,
    gathered: &mut Gathered,
    outcome: Outcome,
) -> Result<(), SinkFailed>
    ensures { Gathers K.written K.faults sink.old sink.new gathered.old gathered.new result (lines_of (verdict_line outcome ∷ [])) }
{
    add_line(sink, gathered, &verdict_line(outcome))
}

fn add_trees<K: Sink>(
    sink: &mut K,
    gathered: &mut Gathered,
    trees: &[Tree],
) -> Result<(), SinkFailed>
    ensures { Gathers K.written K.faults sink.old sink.new gathered.old gathered.new result (lines_of (flat_map tree_lines trees.now)) }
{
    for tree in trees {
        add_tree(sink, gathered, tree)?;
    }
    Ok(())
}

fn add_tree<K: Sink>(sink: &mut K, gathered: &mut Gathered, tree: &Tree) -> Result<(), SinkFailed>
    ensures { Gathers K.written K.faults sink.old sink.new gathered.old gathered.new result (lines_of (tree_lines tree.now)) }
{
    add_line(sink, gathered, &number_line(b"tree", tree.size))?;
    add_marks(sink, gathered, tree.marks.as_slice())
}

fn add_marks<K: Sink>(
    sink: &mut K,
    gathered: &mut Gathered,
    marks: &[Mark],
) -> Result<(), SinkFailed>
    ensures { Gathers K.written K.faults sink.old sink.new gathered.old gathered.new result (lines_of (map mark_line marks.now)) }
{
    for mark in marks {
        add_line(sink, gathered, &mark_line(*mark))?;
    }
    Ok(())
}

/// Gathers the program after a line that says so, if one was found.
pub fn add_found<K: Sink>(
    sink: &mut K,
    gathered: &mut Gathered,
    answer: &Answer,
    names: &Names,
) -> Result<(), SinkFailed>
    requires { IsGrammatical (length names.now) answer.now }
    ensures { Gathers K.written K.faults sink.old sink.new gathered.old gathered.new result (lines_of (program_lines names.now answer.now.program)) }
{
    match &answer.program {
        Some(program) => {
            add_line(sink, gathered, &line_text(b"program", &[]))?;
            add_program(sink, gathered, names, program)
        }
        None => Ok(()),
    }
}

// Gathers the steps after which the program's runs end.
fn add_ends<K: Sink>(sink: &mut K, gathered: &mut Gathered, ends: &[u64]) -> Result<(), SinkFailed>
    ensures { Gathers K.written K.faults sink.old sink.new gathered.old gathered.new result (lines_of (ends_lines 0 ends.now)) }
{
    for (t, steps) in ends.iter().enumerate() {
        add_line(sink, gathered, &ends_line(t as u64, *steps))?;
    }
    Ok(())
}
