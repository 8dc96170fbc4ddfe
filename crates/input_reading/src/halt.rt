use flag_rules::{OutOfMemory, Text};

/// Why reading ends before its last step.
#[derive(Debug, Drop)]
pub enum Halt {
    /// A file is refused; this line tells its fault.
    Refused(Text),
    /// A file could not be read.
    ReadFault,
    /// Memory could not be had.
    OutOfMemory,
}

impl From<OutOfMemory> for Halt {
    ghost use Rattle.std.specs.Prelude.{◌≡◌};
    ghost use Rattle.input_reading.specs.declared.halt.Halt.TheVariants.{OutOfMemory as Memory};

    ghost from_gives = { λ _ halt. halt ≡ Memory };

    fn from(_: OutOfMemory) -> Self {
        Halt::OutOfMemory
    }
}
