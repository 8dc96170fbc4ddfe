ghost use Rattle.std.specs.Prelude.{◌≡◌};

use crate::MAX_BUDGET;

/// A law: the greatest budget of a search, as a number.
pub fn limits()
    ensures { MAX_BUDGET ≡ 100000 }
{}
