ghost use Rattle.std.specs.Prelude.{◌+◌, ◌<◌, ◌≤◌, length};
ghost use Rattle.program_model.specs.Program.{IsPartial};
ghost use Rattle.synthesis.specs.Answers.{Fills};
ghost use Rattle.synthesis.specs.Inner.Filling.{FillsBelow};

use program_model::{MAX_LINES, MAX_OPS, Partial, instr_at};

// The rank of the instruction that fills an undefined line.
const FILLING_RANK: u32 = 0;

// Fills a line, where it is undefined, if the lines before it were filled.
fn fill_line(ops: u32, partial: &Partial, program: &mut Partial, line: u8)
    requires some { 0 < ops }
    requires few { ops ≤ MAX_OPS }
    requires line { line + 1 < length partial.now }
    requires lines { length partial.now ≤ MAX_LINES }
    requires before { FillsBelow ops partial.now line program.old }
    ensures { FillsBelow ops partial.now (line + 1) program.new }
{
    if partial.at(line).is_none() {
        program.define(line, instr_at(ops, partial.lines(), line, FILLING_RANK));
    }
}

/// A program with its undefined lines filled by the first instructions of their alphabets.
pub(crate) fn filled(ops: u32, partial: &Partial) -> Partial
    requires some { 0 < ops }
    requires few { ops ≤ MAX_OPS }
    requires partial { IsPartial ops partial.now }
    ensures { Fills ops partial.now result }
{
    let mut program = partial.copy();
    for line in 0..partial.lines() - 1 {
        fill_line(ops, partial, &mut program, line);
    }
    program
}
