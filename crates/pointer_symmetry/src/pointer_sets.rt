ghost use Rattle.std.specs.Prelude.{◌≡◌, ◌<◌, ◌==◌, ◌||◌, ℕ, true, false};
ghost use Rattle.program_model.specs.declared.machine.TheConstants.{MAX_POINTERS};
ghost use Rattle.pointer_symmetry.specs.Used.{has};

/// Whether a pointer is in a set.
pub(crate) fn contains(set: u8, pointer: u8) -> bool
    requires { pointer < MAX_POINTERS }
    ensures { result ≡ has set pointer }
{
    set >> pointer & 1 == 1
}

/// The set with one pointer more.
pub(crate) fn with(set: u8, pointer: u8) -> u8
    requires { pointer < MAX_POINTERS }
    ensures { (other : ℕ) → has result other ≡ (has set other || other == pointer) }
{
    set | 1 << pointer
}

/// The least pointer that is not in a set.
pub(crate) fn least_outside(set: u8) -> u8
    requires { (pointer : ℕ) × (pointer < MAX_POINTERS) × (has set pointer ≡ false) }
    ensures outside { has set result ≡ false }
    ensures least { (pointer : ℕ) → pointer < result → has set pointer ≡ true }
{
    set.trailing_ones() as u8
}
