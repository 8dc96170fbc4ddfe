ghost use Rattle.std.specs.Prelude.{◌≡◌};

use crate::MAX_FILE_BYTES;

/// The limits, as numbers.
pub fn limits()
    ensures file_bytes { MAX_FILE_BYTES ≡ 1048576 }
{}
