ghost use Rattle.std.specs.Prelude.{◌≡◌};
ghost use Rattle.std.specs.Process.{exit_status};
ghost use Rattle.bfgp_jobs.specs.Exit.{exit_number};

use std::process::ExitCode;

/// How a run of the planner ended. The number of a status is the process's exit status.
#[derive(Clone, Copy, Debug, PartialEq, Eq)]
pub enum Status {
    /// A program was found and written, the given document is accepted, or the given program solves all instances.
    Done = 0,
    /// No program of at most as many lines as were asked for solves, the given document is not accepted, or the given program
    /// does not solve all instances.
    No = 1,
    /// The words are no job; the usage text was written.
    Usage = 2,
    /// A file is absent, too long or refused; one fault line was written.
    Input = 3,
    /// The search spent its budget of splits.
    SpentExpansions = 4,
    /// The search ended at a run that reached its limit of steps.
    SpentRun = 5,
    /// A file could not be read; nothing was written.
    ReadFault = 6,
    /// The output could not be written; a prefix of it was.
    WriteFault = 7,
    /// Memory could not be had; nothing was written.
    OutOfMemory = 8,
}

impl Status {
    /// What the process ends with.
    pub fn exit_code(self) -> ExitCode
        ensures { exit_status result ≡ exit_number self }
    {
        ExitCode::from(self as u8)
    }
}
