ghost use Rattle.std.specs.Prelude.{◌≡◌, ℕ, ◌<◌, ◌≤◌, List, [], Some, length, codes, IfOk};
ghost use Rattle.program_model.specs.Program.{Program};
ghost use Rattle.program_text.specs.Names.{AreNames};
ghost use Rattle.answer_reader.specs.declared.heading.Heading.{Heading};
ghost use Rattle.refutation_tree.specs.declared.evidence.Tree.{Tree};
ghost use Rattle.answer_reader.specs.Inner.Following.{IsHeading, at_form, at_program, at_end, past_trees, past_tree, past_ends};
ghost use Rattle.refutation_tree.specs.Grammar.{last_size};
ghost use Rattle.answer_reader.specs.Reading.{Reads};
ghost use Rattle.answer_reader.specs.Inner.ReadingOn.{ReadsOn};

use crate::AnswerRefusal;
use crate::heading::Heading;
use crate::line_reader::Reader;
use crate::next_lines::{read_instr_line, read_known, read_number, read_outcome, read_steps};
use crate::read_trees::read_trees;
use flag_rules::List;
use program_model::{Instr, MAX_INSTANCES, MAX_LINES, MAX_POINTERS, Partial};
use program_text::Names;
use refutation_tree::{Answer, Outcome};
use std::alloc::Global;

/// The answer that a document says. `Line` comes exactly where the bytes are no document, with the number of the first line such
/// that the lines up to it begin none; `OutOfMemory` may come at any bytes.
pub fn read_answer(alloc: Global, bytes: &[u8], names: &Names) -> Result<Answer, AnswerRefusal>
    ensures { Reads names.now bytes.now result }
{
    let ops = names.count();
    let mut reader = Reader::new(bytes);
    let heading = read_heading(&mut reader)?;
    let trees = read_trees(alloc, &mut reader, ops, heading)?;
    let found = read_found(alloc, &mut reader, names, heading)?;
    read_known(&mut reader, b"end of answer")?;
    if !reader.is_at_end() {
        return Err(AnswerRefusal::Line(reader.number()));
    }
    Ok(Answer {
        pointers: heading.pointers,
        lines: heading.lines,
        instances: heading.instances,
        outcome: heading.outcome,
        trees,
        program: found.program,
        ends: found.ends,
    })
}

// Reads the lines before the trees.
fn read_heading(reader: &mut Reader) -> Result<Heading, AnswerRefusal>
    ensures known { IfOk result IsHeading }
    ensures on { (texts : List (List ℕ)) → AreNames texts → ReadsOn texts at_form (λ heading. past_tree heading []) reader.old reader.new result }
{
    read_known(reader, b"bfgp answer 1")?;
    let pointers = read_number(reader, b"pointers", MAX_POINTERS)?;
    let lines = read_number(reader, b"lines", MAX_LINES)?;
    let instances = read_number(reader, b"instances", MAX_INSTANCES)?;
    let outcome = read_outcome(reader, lines, instances)?;
    Ok(Heading {
        pointers,
        lines,
        instances,
        outcome,
    })
}

// A program that was found, if one was, and the steps after which its runs end.
#[derive(Debug, Drop)]
struct Found {
    program: Option<Partial>,
    ends: List<u64>,
}

// Reads the program and its ends, if the outcome is that one was found.
fn read_found(
    alloc: Global,
    reader: &mut Reader,
    names: &Names,
    heading: Heading,
) -> Result<Found, AnswerRefusal>
    requires { IsHeading heading }
    ensures { (trees : List Tree) → AreNames names.now → ReadsOn names.now (past_trees heading trees heading.outcome) (λ found. at_end heading trees found.program found.ends) reader.old reader.new result }
{
    let Outcome::Program { size } = heading.outcome else {
        return Ok(Found {
            program: None,
            ends: List::new(alloc),
        });
    };
    let program = read_program(reader, names, size)?;
    let ends = read_ends(alloc, reader, heading.instances)?;
    Ok(Found {
        program: Some(program),
        ends,
    })
}

// Reads a program of so many lines.
fn read_program(reader: &mut Reader, names: &Names, size: u8) -> Result<Partial, AnswerRefusal>
    requires some { 1 ≤ size }
    requires few { size ≤ MAX_LINES }
    ensures { (heading : Heading) (trees : List Tree) → AreNames names.now → ReadsOn names.now (at_program heading trees size) (λ program. past_ends heading trees program []) reader.old reader.new result }
{
    read_known(reader, b"program")?;
    let mut program = Partial::empty(size);
    for line in 0..size - 1 {
        let instr = read_instr_line(reader, names, size, line)?;
        program.define(line, instr);
    }
    read_known(reader, b"end")?;
    Ok(program)
}

// Reads the steps after which the runs on so many instances end.
fn read_ends(alloc: Global, reader: &mut Reader, instances: u8) -> Result<List<u64>, AnswerRefusal>
    ensures { (texts : List (List ℕ)) (heading : Heading) (trees : List Tree) (program : Program) → AreNames texts → heading.instances ≡ instances →
        ReadsOn texts (past_ends heading trees program []) (λ ends. at_end heading trees (Some program) ends) reader.old reader.new result }
{
    let mut ends = List::new(alloc);
    for t in 0..instances {
        let steps = read_steps(reader, t)?;
        ends.push(steps)?;
    }
    Ok(ends)
}
