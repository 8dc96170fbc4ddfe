ghost use Rattle.std.specs.Prelude.{◌≡◌, ◌+◌, ◌<◌, ◌≤◌, ◌↔◌, length, Contains, IsTrue, IfSome, IfNone};
ghost use Rattle.program_model.specs.Program.{IsInstr};
ghost use Rattle.program_text.specs.Texts.{instr_text};
ghost use Rattle.program_text.specs.Reading.{Reads, Says, MayStand, HasEnd};

use crate::instr_texts::has_text;
use crate::lines::{InstructionLine, count_lines, instruction_lines};
use crate::{Names, ProgramRefusal};
use flag_rules::MAX_FILE_BYTES;
use program_model::{Instr, MAX_LINES, Partial, alphabet_len, instr_at};
use std::alloc::Global;

/// The program that a text says.
pub fn read_program(alloc: Global, bytes: &[u8], names: &Names) -> Result<Partial, ProgramRefusal>
    requires { length bytes.now ≤ MAX_FILE_BYTES }
    ensures { Reads names.now bytes.now result }
{
    let count = count_lines(bytes);
    if count > usize::from(MAX_LINES) {
        return Err(ProgramRefusal::TooLong(count as u32));
    }
    let lines = instruction_lines(alloc, bytes)?;
    program_of(names, lines.as_slice())
}

// The program of some instruction lines.
fn program_of(names: &Names, lines: &[InstructionLine]) -> Result<Partial, ProgramRefusal>
    requires { length lines.now ≤ MAX_LINES }
    ensures { Says names.now lines.now result }
{
    if has_end(lines) {
        program_with_end(names, lines)
    } else {
        Err(ProgramRefusal::NoEnd)
    }
}

// Whether the last of some instruction lines is `end`.
fn has_end(lines: &[InstructionLine]) -> bool
    ensures { IsTrue result ↔ HasEnd lines.now }
{
    match lines {
        [.., last] => last.text.as_slice() == b"end".as_slice(),
        [] => false,
    }
}

// The program of some instruction lines, the last of which is `end`.
fn program_with_end(names: &Names, lines: &[InstructionLine]) -> Result<Partial, ProgramRefusal>
    requires some { 0 < length lines.now }
    requires few { length lines.now ≤ MAX_LINES }
    requires end { HasEnd lines.now }
    ensures { Says names.now lines.now result }
{
    let count = lines.len() as u8;
    let mut program = Partial::empty(count);
    for place in 0..count - 1 {
        let line = &lines[usize::from(place)];
        match read_instr(names, count, place, line.text.as_slice()) {
            Some(instr) => program.define(place, instr),
            None => return Err(ProgramRefusal::Line(line.number)),
        }
    }
    Ok(program)
}

/// The instruction with this text in the alphabet of a line that is not the last, if there is one.
pub fn read_instr(names: &Names, lines: u8, line: u8, text: &[u8]) -> Option<Instr>
    requires lines { lines ≤ MAX_LINES }
    requires line { line + 1 < lines }
    ensures some { IfSome result (λ instr. IsInstr (length names.now) lines line instr × (instr_text names.now instr ≡ text.now)) }
    ensures none { IfNone result (¬ MayStand names.now lines line text.now) }
{
    match names.find(text) {
        Some(op) => Some(Instr::Op(op)),
        None => jump_of(names, lines, line, text),
    }
}

// The same for a text that no operation has. It is compared with that of each jump: there are few.
fn jump_of(names: &Names, lines: u8, line: u8, text: &[u8]) -> Option<Instr>
    requires lines { lines ≤ MAX_LINES }
    requires line { line + 1 < lines }
    requires no_operation { ¬ Contains names.now text.now }
    ensures some { IfSome result (λ instr. IsInstr (length names.now) lines line instr × (instr_text names.now instr ≡ text.now)) }
    ensures none { IfNone result (¬ MayStand names.now lines line text.now) }
{
    let ops = names.count();
    for rank in ops..alphabet_len(ops, lines, line) {
        let jump = instr_at(ops, lines, line, rank);
        if has_text(names, jump, text) {
            return Some(jump);
        }
    }
    None
}
