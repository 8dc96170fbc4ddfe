ghost use Rattle.std.specs.Prelude.{◌≡◌, ◌+◌, ◌*◌, ◌≤◌, ◌++◌, length, flat_map, codes};
ghost use Rattle.arrayvec.specs.ArrayVec.{array_vec_len};
ghost use Rattle.flag_rules.specs.Line.{then_number};
ghost use Rattle.answer_writer.specs.Document.{verdict_line, mark_line};

use arrayvec::ArrayVec;
use flag_rules::SpacedNumber;
use refutation_tree::{Mark, Outcome};

/// How long a line is at most, without its line feed: one letter and three numbers, each after a space.
pub(crate) const MAX_LINE: usize = 64;

/// A line of a word and some numbers, each after a space. It takes no memory.
pub(crate) fn line_text(word: &[u8], numbers: &[u64]) -> ArrayVec<u8, MAX_LINE>
    requires { length word.now + 21 * length numbers.now ≤ MAX_LINE }
    ensures { result.items ≡ word.now ++ flat_map then_number numbers.now }
{
    let mut text = ArrayVec::new();
    add(&mut text, word);
    for number in numbers {
        add(&mut text, SpacedNumber::of(*number).as_slice());
    }
    text
}

// Adds bytes for which there is room.
fn add(text: &mut ArrayVec<u8, MAX_LINE>, bytes: &[u8])
    requires { array_vec_len text.old + length bytes.now ≤ MAX_LINE }
    ensures { text.new.items ≡ text.old.items ++ bytes.now }
{
    text.try_extend_from_slice(bytes).unwrap();
}

/// A line of a word and a number.
pub(crate) fn number_line(word: &[u8], number: u8) -> ArrayVec<u8, MAX_LINE>
    requires { length word.now + 21 ≤ MAX_LINE }
    ensures { result.items ≡ word.now ++ then_number number }
{
    line_text(word, &[u64::from(number)])
}

/// The line of the steps after which a program's run on an instance ends.
pub(crate) fn ends_line(t: u64, steps: u64) -> ArrayVec<u8, MAX_LINE>
    ensures { result.items ≡ codes "ends" ++ then_number t ++ then_number steps }
{
    line_text(b"ends", &[t, steps])
}

/// The line of a verdict.
pub(crate) fn verdict_line(outcome: Outcome) -> ArrayVec<u8, MAX_LINE>
    ensures { result.items ≡ verdict_line outcome }
{
    match outcome {
        Outcome::Program { size } => line_text(b"verdict program", &[u64::from(size)]),
        Outcome::Nothing => line_text(b"verdict none", &[]),
        Outcome::SpentExpansions { size } => {
            line_text(b"verdict spent expansions", &[u64::from(size)])
        }
        Outcome::SpentRun { size, t } => {
            line_text(b"verdict spent run", &[u64::from(size), u64::from(t)])
        }
    }
}

/// The line of a mark.
pub(crate) fn mark_line(mark: Mark) -> ArrayVec<u8, MAX_LINE>
    ensures { result.items ≡ mark_line mark }
{
    match mark {
        Mark::Split { line, stamp } => line_text(b"s", &[u64::from(line), u64::from(stamp)]),
        Mark::Unmet { t, steps } => line_text(b"f", &[u64::from(t), steps]),
        Mark::Loops { t, from, to } => line_text(b"l", &[u64::from(t), from, to]),
        Mark::Twin => line_text(b"t", &[]),
        Mark::Waiting => line_text(b"o", &[]),
        Mark::Solved => line_text(b"g", &[]),
        Mark::AtLimit { t } => line_text(b"r", &[u64::from(t)]),
    }
}
