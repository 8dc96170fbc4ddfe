ghost use Rattle.std.specs.Prelude.{ℕ, ◌≤◌, List, length, Option, IfOk};
ghost use Rattle.std.specs.Result.{result_err};
ghost use Rattle.bfgp_outside.specs.Shelf.{Files, Told, ReadsHeld, CountsFaults, GoesOn, AsksFor};

use thiserror::Error;

/// Why a read gave nothing.
#[derive(Clone, Copy, Debug, PartialEq, Eq, Error)]
pub enum ShelfFault {
    /// No file is held under the name.
    #[error("no such file")]
    Absent,
    /// The shelf could not read.
    #[error("the file could not be read")]
    Failed,
}

/// A place that holds files by name.
pub trait Shelf {
    /// The bytes held under each name, where the shelf tells them.
    ghost files: { Self → Option Files };

    /// How many calls have failed. It stands still at the last value of a `u64`.
    ghost faults: { Self → ℕ };

    /// How many calls asked for a file that is not held. It stands still at the last value of a `u64`.
    ghost absences: { Self → ℕ };

    /// The names that were asked for so far, one for each read, where the shelf tells them.
    ghost asked: { Self → Option (List (List ℕ)) };

    /// Reads bytes of a file from a place on, counted from 0, and answers how many of them came.
    fn read_at(&mut self, name: &[u8], from: u64, into: &mut [u8]) -> Result<usize, ShelfFault>
        ensures bound { IfOk result (λ m. m ≤ length into.new) }
        ensures bytes { Told (files self.old) name.now (λ held. ReadsHeld held from result into.new) }
        ensures counts { CountsFaults faults absences self.old self.new (result_err result) }
        ensures goes_on { GoesOn files faults absences self.old self.new }
        ensures asks { AsksFor (asked self.old) (asked self.new) name.now 1 };
}
