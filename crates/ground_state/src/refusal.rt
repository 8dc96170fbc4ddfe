ghost use Rattle.std.specs.Prelude.{◌≡◌};
ghost use Rattle.ground_state.specs.declared.refusal.GroundRefusal.TheVariants.{OutOfMemory as memory_refusal};

use flag_rules::OutOfMemory;
use std::alloc::{AllocError, AllocFailed};
use thiserror::Error;

/// Why no table of atoms was made.
#[derive(Clone, Copy, Debug, PartialEq, Eq, Drop, Error)]
pub enum GroundRefusal {
    /// The instance has this many ground atoms, more than `MAX_ATOMS`.
    #[error("{0} ground atoms are too many")]
    TooManyAtoms(u64),
    /// Memory could not be had.
    #[error("out of memory")]
    OutOfMemory,
}

impl From<OutOfMemory> for GroundRefusal {
    ghost from_gives = { λ _ refusal. refusal ≡ memory_refusal };

    fn from(_: OutOfMemory) -> Self {
        GroundRefusal::OutOfMemory
    }
}

impl From<AllocError> for GroundRefusal {
    ghost from_gives = { λ _ refusal. refusal ≡ memory_refusal };

    fn from(_: AllocError) -> Self {
        GroundRefusal::OutOfMemory
    }
}

impl<T: Drop> From<AllocFailed<T>> for GroundRefusal {
    ghost from_gives = { λ _ refusal. refusal ≡ memory_refusal };

    fn from(_: AllocFailed<T>) -> Self {
        GroundRefusal::OutOfMemory
    }
}
