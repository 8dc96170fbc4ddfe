ghost use Rattle.std.specs.Prelude.{◌≡◌};

use crate::MAX_NESTING;

/// A law: lists are nested at most 64 deep.
pub fn limits()
    ensures nesting { MAX_NESTING ≡ 64 }
{}
