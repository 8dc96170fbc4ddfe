ghost use Rattle.std.specs.Prelude.{◌≡◌};
ghost use Rattle.pointer_machine.specs.declared.refusal.MachineRefusal.TheVariants.{OutOfMemory as memory_refusal};

use flag_rules::OutOfMemory;
use std::alloc::{AllocError, AllocFailed};
use thiserror::Error;

/// Why no machine was made.
#[derive(Clone, Copy, Debug, PartialEq, Eq, Drop, Error)]
pub enum MachineRefusal {
    /// There would be this many operations, more than `MAX_OPS`.
    #[error("{0} operations are too many")]
    TooManyOps(u64),
    /// Memory could not be had.
    #[error("out of memory")]
    OutOfMemory,
}

impl From<OutOfMemory> for MachineRefusal {
    ghost from_gives = { λ _ refusal. refusal ≡ memory_refusal };

    fn from(_: OutOfMemory) -> Self {
        MachineRefusal::OutOfMemory
    }
}

impl From<AllocError> for MachineRefusal {
    ghost from_gives = { λ _ refusal. refusal ≡ memory_refusal };

    fn from(_: AllocError) -> Self {
        MachineRefusal::OutOfMemory
    }
}

impl<T: Drop> From<AllocFailed<T>> for MachineRefusal {
    ghost from_gives = { λ _ refusal. refusal ≡ memory_refusal };

    fn from(_: AllocFailed<T>) -> Self {
        MachineRefusal::OutOfMemory
    }
}
