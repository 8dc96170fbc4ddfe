ghost use Rattle.std.specs.Prelude.{◌≤◌, length, IfOk, IfErr};
ghost use Rattle.program_model.specs.Program.{IsProgram};
ghost use Rattle.program_text.specs.Names.{AreNames};
ghost use Rattle.pointer_machine.specs.Machine.{meaning_of};
ghost use Rattle.pointer_machine.specs.Texts.{operation_texts};
ghost use Rattle.flag_rules.specs.declared.file.TheConstants.{MAX_FILE_BYTES};
ghost use Rattle.input_reading.specs.Steps.{Gives};
ghost use Rattle.input_reading.specs.Inputs.{program_due};
ghost use Rattle.input_reading.specs.Inner.Causes.{TellsOther};

use crate::fault::Fault;
use crate::halt::Halt;
use crate::telling::refuse;
use pointer_machine::PointerMachine;
use program_model::Partial;
use program_text::{Names, read_program};
use std::alloc::Global;

/// Reads the bytes of a program file, over the operations of a machine.
pub fn program_of(
    alloc: Global,
    machine: &PointerMachine,
    name: &[u8],
    bytes: &[u8],
) -> Result<Partial, Halt>
    requires names { AreNames (operation_texts machine.now.task machine.now.pointers) }
    requires short { length bytes.now ≤ MAX_FILE_BYTES }
    ensures due { Gives (program_due machine.now name.now bytes.now) result }
    ensures is_program { IfOk result (IsProgram (meaning_of machine.now).ops) }
    ensures cause { IfErr result TellsOther }
{
    let texts = machine.op_texts(alloc)?;
    let names = Names::build(alloc, texts)?;
    match read_program(alloc, bytes, &names) {
        Ok(program) => Ok(program),
        Err(refusal) => Err(refuse(alloc, name, Fault::of_program(refusal))),
    }
}
