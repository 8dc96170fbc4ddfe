ghost use Rattle.std.specs.Prelude.{◌≡◌, ◌+◌, ◌<◌, ◌≤◌, length};
ghost use Rattle.program_model.specs.Program.{line_at, empty, with_line, without_line};

use crate::{Instr, MAX_LINES};
use std::marker::Model;

/// A program of 1 to `MAX_LINES` lines, each with an instruction or undefined. It is a fixed table and takes no memory.
/// Contracts see it as the list of its lines.
#[derive(Debug, Drop)]
pub struct Partial {
    table: [Option<Instr>; MAX_LINES as usize],
    lines: u8,
}

impl Model for Partial {
    ghost use Rattle.std.specs.Prelude.{◌≡◌, ◌<◌, ◌≤◌, length, take};
    ghost use Rattle.program_model.specs.declared.alphabet.TheConstants.{MAX_LINES};
    ghost use Rattle.program_model.specs.Program.{Program};

    ghost Value = { Program };

    ghost view = { λ partial. take partial.lines partial.table };

    ghost invariant = { λ partial. (0 < partial.lines) × (partial.lines ≤ MAX_LINES) × (length partial.table ≡ MAX_LINES) };
}

impl Partial {
    /// The program that has `end` on its last line, and nothing on the others.
    pub fn empty(lines: u8) -> Partial
        requires some { 0 < lines }
        requires few { lines ≤ MAX_LINES }
        ensures { result ≡ empty lines }
    {
        let mut table = [None; MAX_LINES as usize];
        table[usize::from(lines - 1)] = Some(Instr::End);
        Partial { table, lines }
    }

    /// How many lines there are.
    pub fn lines(&self) -> u8
        ensures count { result ≡ length self.now }
        ensures some { 0 < length self.now }
        ensures few { length self.now ≤ MAX_LINES }
    {
        self.lines
    }

    /// The instruction on a line, from 0; `None` where the line is undefined or not there.
    pub fn at(&self, line: u8) -> Option<Instr>
        ensures value { result ≡ line_at self.now line }
        ensures some { 0 < length self.now }
        ensures few { length self.now ≤ MAX_LINES }
    {
        if line < self.lines {
            self.table[usize::from(line)]
        } else {
            None
        }
    }

    /// Puts an instruction on a line that is not the last.
    pub fn define(&mut self, line: u8, instr: Instr)
        requires { line + 1 < length self.old }
        ensures { self.new ≡ with_line self.old line instr }
    {
        self.table[usize::from(line)] = Some(instr);
    }

    /// Makes a line that is not the last undefined.
    pub fn undefine(&mut self, line: u8)
        requires { line + 1 < length self.old }
        ensures { self.new ≡ without_line self.old line }
    {
        self.table[usize::from(line)] = None;
    }

    /// The same program once more.
    pub fn copy(&self) -> Partial
        ensures { result ≡ self.now }
    {
        Partial {
            table: self.table,
            lines: self.lines,
        }
    }
}
