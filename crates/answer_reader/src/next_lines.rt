ghost use Rattle.std.specs.Prelude.{◌≡◌, ◌+◌, ◌<◌, ◌≤◌, ◌++◌, IsTrue, codes, length, IfSome, IfNone};
ghost use Rattle.program_model.specs.Program.{IsInstr};
ghost use Rattle.program_text.specs.Texts.{instr_text};
ghost use Rattle.refutation_tree.specs.declared.evidence.Mark.{Mark};
ghost use Rattle.flag_rules.specs.Line.{then_number};
ghost use Rattle.refutation_tree.specs.Grammar.{IsFromOneTo};
ghost use Rattle.answer_reader.specs.Inner.Following.{MayMark, IsMarkOn};
ghost use Rattle.answer_lines.specs.Lines.{IsVerdictOf};
ghost use Rattle.answer_reader.specs.Inner.ReadingOn.{TakesSuch};

use crate::AnswerRefusal;
use crate::line_reader::Reader;
use answer_lines::{ends_of, mark_of, number_after, verdict_of};
use program_model::{Instr, MAX_LINES, Partial};
use program_text::{Names, read_instr};
use refutation_tree::{MAX_STEPS, Mark, Outcome};

/// Reads a line that has to be this one.
pub(crate) fn read_known(reader: &mut Reader, text: &[u8]) -> Result<(), AnswerRefusal>
    ensures { TakesSuch (λ _ line. line ≡ text.now) reader.old reader.new result }
{
    let number = reader.number();
    let line = reader.next_line()?;
    if line == text {
        Ok(())
    } else {
        Err(AnswerRefusal::Line(number))
    }
}

/// Reads a line that has to say a number, from 1 to another, after some words.
pub(crate) fn read_number(reader: &mut Reader, words: &[u8], most: u8) -> Result<u8, AnswerRefusal>
    ensures { TakesSuch (λ number line. IsFromOneTo most number × (line ≡ words.now ++ then_number number)) reader.old reader.new result }
{
    let number = reader.number();
    let line = reader.next_line()?;
    number_after(line, words, most).ok_or(AnswerRefusal::Line(number))
}

/// Reads a line that has to tell an outcome, where so many lines were asked for and there are so many instances.
pub(crate) fn read_outcome(
    reader: &mut Reader,
    lines: u8,
    instances: u8,
) -> Result<Outcome, AnswerRefusal>
    requires { 1 ≤ lines }
    ensures { TakesSuch (λ outcome line. IsVerdictOf lines instances line outcome) reader.old reader.new result }
{
    let number = reader.number();
    let line = reader.next_line()?;
    verdict_of(line, lines, instances).ok_or(AnswerRefusal::Line(number))
}

/// Reads a line that has to be the mark of a partial program, where there are so many instances.
pub(crate) fn read_mark(
    reader: &mut Reader,
    instances: u8,
    program: &Partial,
) -> Result<Mark, AnswerRefusal>
    ensures { TakesSuch (λ mark line. IsMarkOn instances program.now line mark) reader.old reader.new result }
{
    let number = reader.number();
    let line = reader.next_line()?;
    mark_on(line, instances, program).ok_or(AnswerRefusal::Line(number))
}

// The mark of a partial program that a line says.
fn mark_on(line: &[u8], instances: u8, program: &Partial) -> Option<Mark>
    ensures some { IfSome result (λ mark. IsMarkOn instances program.now line.now mark) }
    ensures none { IfNone result ((mark : Mark) → ¬ IsMarkOn instances program.now line.now mark) }
{
    let lines = program.lines();
    let mark = mark_of(line, instances)?;
    if may_mark(program, lines, mark) {
        Some(mark)
    } else {
        None
    }
}

// Whether a mark may be that of a partial program of so many lines: what it splits is undefined.
fn may_mark(program: &Partial, lines: u8, mark: Mark) -> bool
    requires { lines ≡ length program.now }
    ensures yes { IsTrue result → MayMark program.now mark }
    ensures no { MayMark program.now mark → IsTrue result }
{
    match mark {
        Mark::Split { line, .. } => line < lines && program.at(line).is_none(),
        _ => true,
    }
}

/// Reads a line that has to say after how many steps the run on an instance ends.
pub(crate) fn read_steps(reader: &mut Reader, t: u8) -> Result<u64, AnswerRefusal>
    ensures { TakesSuch (λ steps line. (steps ≤ MAX_STEPS) × (line ≡ codes "ends" ++ then_number t ++ then_number steps)) reader.old reader.new result }
{
    let number = reader.number();
    let line = reader.next_line()?;
    ends_of(line, t).ok_or(AnswerRefusal::Line(number))
}

/// Reads a line that has to be an instruction of an inner line of a program of so many lines.
pub(crate) fn read_instr_line(
    reader: &mut Reader,
    names: &Names,
    lines: u8,
    line: u8,
) -> Result<Instr, AnswerRefusal>
    requires lines { lines ≤ MAX_LINES }
    requires line { line + 1 < lines }
    ensures { TakesSuch (λ instr text. IsInstr (length names.now) lines line instr × (instr_text names.now instr ≡ text)) reader.old reader.new result }
{
    let number = reader.number();
    let text = reader.next_line()?;
    read_instr(names, lines, line, text).ok_or(AnswerRefusal::Line(number))
}

/// Reads the line that begins the tree of a size.
pub(crate) fn read_tree_line(reader: &mut Reader, size: u8) -> Result<(), AnswerRefusal>
    requires some { 1 ≤ size }
    requires few { size ≤ MAX_LINES }
    ensures { TakesSuch (λ _ line. line ≡ codes "tree" ++ then_number size) reader.old reader.new result }
{
    let number = reader.number();
    let line = reader.next_line()?;
    if number_after(line, b"tree", MAX_LINES) == Some(size) {
        Ok(())
    } else {
        Err(AnswerRefusal::Line(number))
    }
}
