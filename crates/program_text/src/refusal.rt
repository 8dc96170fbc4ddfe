ghost use Rattle.std.specs.Prelude.{◌≡◌};
ghost use Rattle.program_text.specs.declared.refusal.ProgramRefusal.TheVariants.{OutOfMemory as NoMemory};

use flag_rules::OutOfMemory;
use thiserror::Error;

/// Why a text is read as no program.
#[derive(Clone, Copy, Debug, PartialEq, Eq, Error)]
pub enum ProgramRefusal {
    /// There are so many instruction lines, which is more than a program may have.
    #[error("the program has {0} lines")]
    TooLong(u32),
    /// There is no instruction line, or the last one is not `end`.
    #[error("the program does not end with `end`")]
    NoEnd,
    /// The number, among all lines and from 1, of the first instruction line that may not stand at its place.
    #[error("line {0} may not stand at its place")]
    Line(u32),
    /// Memory could not be had.
    #[error("out of memory")]
    OutOfMemory,
}

impl From<OutOfMemory> for ProgramRefusal {
    ghost from_gives = { λ _ refusal. refusal ≡ NoMemory };

    fn from(_: OutOfMemory) -> Self {
        ProgramRefusal::OutOfMemory
    }
}
