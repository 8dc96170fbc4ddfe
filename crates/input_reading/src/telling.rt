ghost use Rattle.std.specs.Prelude.{◌≡◌, IfOk};
ghost use Rattle.input_reading.specs.Faults.{fault_line};
ghost use Rattle.input_reading.specs.Inner.Telling.{IsTelling, IsRefusing};

use crate::fault::Fault;
use crate::halt::Halt;
use flag_rules::{OutOfMemory, Text};
use std::alloc::Global;

/// Ends a job with the line that tells a fault of the file with this name, or for want of memory.
pub fn tell(alloc: Global, name: &[u8], fault: Fault) -> Halt
    ensures { IsTelling name.now fault result }
{
    match fault_line(alloc, name, fault) {
        Ok(line) => Halt::Refused(line),
        Err(_) => Halt::OutOfMemory,
    }
}

/// Ends a job at a refusal: with the line of its fault, or, where it is none, for want of memory.
pub(crate) fn refuse(alloc: Global, name: &[u8], fault: Option<Fault>) -> Halt
    ensures { IsRefusing name.now fault result }
{
    match fault {
        Some(fault) => tell(alloc, name, fault),
        None => Halt::OutOfMemory,
    }
}

fn fault_line(alloc: Global, name: &[u8], fault: Fault) -> Result<Text, OutOfMemory>
    ensures { IfOk result (λ line. line ≡ fault_line name.now fault) }
{
    let mut line = Text::of(alloc, b"input ")?;
    line.append(name)?;
    line.append(b" ")?;
    line.append(format!(in alloc; "{fault}")?.as_bytes())?;
    line.push(b'\n')?;
    Ok(line)
}
