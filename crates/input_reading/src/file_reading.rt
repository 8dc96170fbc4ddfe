ghost use Rattle.std.specs.Prelude.{◌≤◌, length, IfOk, IfErr};
ghost use Rattle.bfgp_outside.specs.Causes.{RoseIf};
ghost use Rattle.bfgp_outside.specs.Shelf.{Knowing, GoesOn, Asks};
ghost use Rattle.input_reading.specs.Steps.{Gives};
ghost use Rattle.input_reading.specs.Inputs.{file_due};
ghost use Rattle.input_reading.specs.Causes.{HaltCause, is_read_fault};

use crate::fault::Fault;
use crate::halt::Halt;
use crate::telling::tell;
use bfgp_outside::{ReadRefusal, Shelf, read_whole};
use flag_rules::Text;
use std::alloc::Global;

/// Reads a file of at most `limit` bytes whole.
pub fn read_input<S: Shelf>(
    alloc: Global,
    shelf: &mut S,
    name: &[u8],
    limit: u64,
) -> Result<Text, Halt>
    ensures due { Knowing (S.files shelf.old) (λ files. Gives (file_due files limit name.now) result) }
    ensures within { IfOk result (λ text. length text ≤ limit) }
    ensures cause { IfErr result (HaltCause (S.absences shelf.old) (S.absences shelf.new)) }
    ensures reads { RoseIf (is_read_fault result) (S.faults shelf.old) (S.faults shelf.new) }
    ensures goes_on { GoesOn S.files S.faults S.absences shelf.old shelf.new }
    ensures asks { Asks (S.asked shelf.old) (S.asked shelf.new) name.now }
{
    match read_whole(alloc, shelf, name, limit) {
        Ok(text) => Ok(text),
        Err(ReadRefusal::Absent) => Err(tell(alloc, name, Fault::Absent)),
        Err(ReadRefusal::TooLong) => Err(tell(alloc, name, Fault::TooLong)),
        Err(ReadRefusal::Failed) => Err(Halt::ReadFault),
        Err(ReadRefusal::OutOfMemory) => Err(Halt::OutOfMemory),
    }
}
