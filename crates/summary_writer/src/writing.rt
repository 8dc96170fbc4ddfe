ghost use Rattle.std.specs.Prelude.{◌≡◌, ◌≤◌, [], ◌∷◌, length};
ghost use Rattle.flag_rules.specs.Line.{lines_of};
ghost use Rattle.bfgp_outside.specs.Sink.{Puts};
ghost use Rattle.program_model.specs.declared.alphabet.TheConstants.{MAX_LINES};
ghost use Rattle.program_text.specs.Gathered.{Gathers};
ghost use Rattle.refutation_tree.specs.Grammar.{IsGrammatical};
ghost use Rattle.family_gen.specs.Families.{sizes_of};
ghost use Rattle.summary_writer.specs.Summary.{summary, summary_lines, family_lines, result_lines};

use crate::Sample;
use crate::splits::splits_of;
use crate::written_lines::{MAX_LINE, family_line, sizes_line, splits_line};
use answer_writer::{add_found, add_verdict};
use arrayvec::ArrayVec;
use bfgp_outside::{Sink, SinkFailed};
use program_text::{Gathered, Names};
use refutation_tree::Answer;

/// Puts the summary of what a search over a sample came to, in pieces of some kilobytes. Where the sink fails, a front of it may
/// have been put. It takes no memory.
pub fn write_summary<K: Sink>(
    sink: &mut K,
    sample: &Sample,
    answer: &Answer,
    names: &Names,
) -> Result<(), SinkFailed>
    requires sizes { sample.now.sizes ≡ sizes_of sample.now.family sample.now.number }
    requires answer { IsGrammatical (length names.now) answer.now }
    ensures { Puts K.written K.faults sink.old sink.new result (summary names.now sample.now.family sample.now.number answer.now) }
{
    let mut gathered = Gathered::new();
    add_summary(sink, &mut gathered, sample, answer, names)?;
    gathered.put(sink)
}

// Gathers all lines.
fn add_summary<K: Sink>(
    sink: &mut K,
    gathered: &mut Gathered,
    sample: &Sample,
    answer: &Answer,
    names: &Names,
) -> Result<(), SinkFailed>
    requires sizes { sample.now.sizes ≡ sizes_of sample.now.family sample.now.number }
    requires answer { IsGrammatical (length names.now) answer.now }
    ensures { Gathers K.written K.faults sink.old sink.new gathered.old gathered.new result (lines_of (summary_lines names.now sample.now.family sample.now.number answer.now)) }
{
    add_sample(sink, gathered, sample)?;
    add_result(sink, gathered, answer)?;
    add_found(sink, gathered, answer, names)
}

// Gathers the family and its number, and the sizes of its instances.
fn add_sample<K: Sink>(
    sink: &mut K,
    gathered: &mut Gathered,
    sample: &Sample,
) -> Result<(), SinkFailed>
    requires { sample.now.sizes ≡ sizes_of sample.now.family sample.now.number }
    ensures { Gathers K.written K.faults sink.old sink.new gathered.old gathered.new result (lines_of (family_lines sample.now.family sample.now.number)) }
{
    add_line(sink, gathered, &family_line(sample.family, sample.number))?;
    add_line(sink, gathered, &sizes_line(sample.sizes.as_slice()))
}

// Gathers the verdict and how many splits were made.
fn add_result<K: Sink>(
    sink: &mut K,
    gathered: &mut Gathered,
    answer: &Answer,
) -> Result<(), SinkFailed>
    requires { length answer.now.trees ≤ MAX_LINES }
    ensures { Gathers K.written K.faults sink.old sink.new gathered.old gathered.new result (lines_of (result_lines answer.now)) }
{
    add_verdict(sink, gathered, answer.outcome)?;
    add_line(
        sink,
        gathered,
        &splits_line(splits_of(answer.trees.as_slice())),
    )
}

// Gathers a line.
fn add_line<K: Sink>(
    sink: &mut K,
    gathered: &mut Gathered,
    text: &ArrayVec<u8, MAX_LINE>,
) -> Result<(), SinkFailed>
    ensures { Gathers K.written K.faults sink.old sink.new gathered.old gathered.new result (lines_of (text.now.items ∷ [])) }
{
    gathered.add_line(sink, text.as_slice())
}
