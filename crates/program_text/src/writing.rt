ghost use Rattle.std.specs.Prelude.{◌≡◌, ◌<◌, length};
ghost use Rattle.flag_rules.specs.Line.{line};
ghost use Rattle.bfgp_outside.specs.Sink.{Puts};
ghost use Rattle.program_model.specs.Program.{IsProgram};
ghost use Rattle.program_text.specs.Gathered.{Gathers};
ghost use Rattle.program_text.specs.Texts.{instr_text, program_text, program_line, HasText};

use crate::instr_texts::jump_text;
use crate::{Gathered, Names};
use bfgp_outside::{Sink, SinkFailed};
use program_model::{Instr, Partial};

/// How many bytes `write_instr` puts.
pub fn instr_len(names: &Names, instr: Instr) -> usize
    requires { HasText names.now instr }
    ensures { result ≡ length (line (instr_text names.now instr)) }
{
    let text = match instr {
        Instr::Op(op) => names.text(op).len(),
        Instr::Goto { target, cond } => jump_text(target, cond).len(),
        Instr::End => b"end".len(),
    };
    text + 1
}

/// Puts an instruction in a line of its own. It takes no memory.
pub fn write_instr<K: Sink>(sink: &mut K, names: &Names, instr: Instr) -> Result<(), SinkFailed>
    requires { HasText names.now instr }
    ensures { Puts K.written K.faults sink.old sink.new result (line (instr_text names.now instr)) }
{
    let mut gathered = Gathered::new();
    add_instr(sink, &mut gathered, names, instr)?;
    gathered.put(sink)
}

/// Puts a program, each instruction in a line of its own. It takes no memory.
pub fn write_program<K: Sink>(
    sink: &mut K,
    names: &Names,
    program: &Partial,
) -> Result<(), SinkFailed>
    requires { IsProgram (length names.now) program.now }
    ensures { Puts K.written K.faults sink.old sink.new result (program_text names.now program.now) }
{
    let mut gathered = Gathered::new();
    add_program(sink, &mut gathered, names, program)?;
    gathered.put(sink)
}

/// Gathers a program, each instruction in a line of its own.
pub fn add_program<K: Sink>(
    sink: &mut K,
    gathered: &mut Gathered,
    names: &Names,
    program: &Partial,
) -> Result<(), SinkFailed>
    requires { IsProgram (length names.now) program.now }
    ensures { Gathers K.written K.faults sink.old sink.new gathered.old gathered.new result (program_text names.now program.now) }
{
    for place in 0..program.lines() {
        add_instr(sink, gathered, names, program.at(place).unwrap())?;
    }
    Ok(())
}

// Gathers an instruction in a line of its own.
fn add_instr<K: Sink>(
    sink: &mut K,
    gathered: &mut Gathered,
    names: &Names,
    instr: Instr,
) -> Result<(), SinkFailed>
    requires { HasText names.now instr }
    ensures { Gathers K.written K.faults sink.old sink.new gathered.old gathered.new result (line (instr_text names.now instr)) }
{
    match instr {
        Instr::Op(op) => gathered.add_line(sink, names.text(op)),
        Instr::Goto { target, cond } => {
            gathered.add_line(sink, jump_text(target, cond).as_slice())
        }
        Instr::End => gathered.add_line(sink, b"end"),
    }
}
