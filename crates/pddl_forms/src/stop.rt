ghost use Rattle.std.specs.Prelude.{◌≡◌};
ghost use Rattle.pddl_forms.specs.declared.stop.Stop.TheVariants.{OutOfMemory as NoMemory};

use flag_rules::OutOfMemory;
use std::alloc::AllocError;

/// The kind of a fault: a form that the grammar has not, or one that this reader leaves out.
#[derive(Clone, Copy, Debug)]
pub enum Why {
    Shape,
    Unsupported,
}

/// Why reading stopped. After `Refused` the cursor stands at the offending token.
#[derive(Clone, Copy, Debug)]
pub enum Stop {
    Refused(Why),
    OutOfMemory,
}

impl From<OutOfMemory> for Stop {
    ghost from_gives = { λ _ stop. stop ≡ NoMemory };

    fn from(_: OutOfMemory) -> Self {
        Stop::OutOfMemory
    }
}

impl From<AllocError> for Stop {
    ghost from_gives = { λ _ stop. stop ≡ NoMemory };

    fn from(_: AllocError) -> Self {
        Stop::OutOfMemory
    }
}
