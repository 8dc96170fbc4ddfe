ghost use Rattle.std.specs.Prelude.{◌≡◌, ◌<◌, ◌≤◌, ◌↔◌, IsTrue, length, All};
ghost use Rattle.program_model.specs.Semantics.{Semantics};
ghost use Rattle.program_model.specs.Program.{IsProgram};
ghost use Rattle.refutation_tree.specs.Grammar.{FitsOutcome, HasNoProgram, HasProgram, last_size};
ghost use Rattle.refutation_tree.specs.Accepted.{SaysRefuted};
ghost use Rattle.refutation_check.specs.Inner.Judging.{HasInstr, IsHeaded};

use program_model::{MAX_LINES, MAX_OPS, Machine, Partial, rank_of};
use refutation_tree::{Answer, MAX_STEPS, Outcome};

/// The greatest size that has a tree, where so many lines were asked for.
pub fn last_size(lines: u8, outcome: Outcome) -> u8
    ensures { result ≡ last_size lines outcome }
{
    match outcome {
        Outcome::Program { size } => size,
        Outcome::Nothing => lines,
        Outcome::SpentExpansions { size } => size,
        Outcome::SpentRun { size, .. } => size,
    }
}

/// Whether an outcome says that no program of a size solves every instance.
pub fn says_refuted(outcome: Outcome, size: u8) -> bool
    ensures { IsTrue result ↔ SaysRefuted outcome size }
{
    match outcome {
        Outcome::Program { size: last } => size < last,
        Outcome::Nothing => true,
        Outcome::SpentExpansions { size: last } => size < last,
        Outcome::SpentRun { size: last, .. } => size < last,
    }
}

/// Whether the numbers of an answer are those of the machine and the lines that were asked for, in their ranges.
pub(crate) fn is_headed<M: Machine>(machine: &M, lines: u8, answer: &Answer) -> bool
    ensures { IsTrue result ↔ IsHeaded (M.semantics machine.now) lines answer.now }
{
    let last = last_size(answer.lines, answer.outcome);
    answer.pointers == machine.pointers()
        && answer.lines == lines
        && answer.instances == machine.instances()
        && (1..=MAX_LINES).contains(&answer.lines)
        && (1..=answer.lines).contains(&last)
}

// Whether a line of a partial program is defined, with an instruction of its alphabet.
fn has_instr(ops: u32, program: &Partial, line: u8) -> bool
    requires ops { ops ≤ MAX_OPS }
    requires line { line < length program.now }
    ensures { IsTrue result ↔ HasInstr ops program.now line }
{
    match program.at(line) {
        Some(instr) => rank_of(ops, program.lines(), line, instr).is_some(),
        None => false,
    }
}

// Whether a partial program is a program.
fn is_program(ops: u32, program: &Partial) -> bool
    requires { ops ≤ MAX_OPS }
    ensures { IsTrue result ↔ IsProgram ops program.now }
{
    for line in 0..program.lines() {
        if !has_instr(ops, program, line) {
            return false;
        }
    }
    true
}

// Whether there is a program of so many lines, and a number of steps for each instance.
fn has_program(ops: u32, size: u8, answer: &Answer) -> bool
    requires { ops ≤ MAX_OPS }
    ensures { IsTrue result ↔ HasProgram ops size answer.now }
{
    let Some(program) = &answer.program else {
        return false;
    };
    is_program(ops, program)
        && program.lines() == size
        && answer.ends.len() == usize::from(answer.instances)
        && answer
            .ends
            .as_slice()
            .iter()
            .all(|steps| *steps <= MAX_STEPS)
}

// Whether there is neither a program nor an end of its runs.
fn has_no_program(answer: &Answer) -> bool
    ensures { IsTrue result ↔ HasNoProgram answer.now }
{
    answer.program.is_none() && answer.ends.is_empty()
}

/// Whether there is a program exactly where the outcome is that one was found, over so many operations.
pub(crate) fn fits_outcome(ops: u32, answer: &Answer) -> bool
    requires { ops ≤ MAX_OPS }
    ensures { IsTrue result ↔ FitsOutcome ops answer.now answer.now.outcome }
{
    match answer.outcome {
        Outcome::Program { size } => has_program(ops, size, answer),
        Outcome::Nothing | Outcome::SpentExpansions { .. } => has_no_program(answer),
        Outcome::SpentRun { t, .. } => t < answer.instances && has_no_program(answer),
    }
}
