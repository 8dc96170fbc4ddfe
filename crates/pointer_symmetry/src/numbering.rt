ghost use Rattle.std.specs.Prelude.{◌≡◌, ◌<◌, ℕ, length, false};
ghost use Rattle.program_model.specs.declared.machine.TheConstants.{MAX_POINTERS};
ghost use Rattle.pointer_symmetry.specs.Used.{has};
ghost use Rattle.pointer_symmetry.specs.Inner.Numbering.{IsNumbered};

use crate::pointer_sets::{contains, least_outside, with};
use program_model::MAX_POINTERS;

/// The new numbers of pointers, while they are given.
#[derive(Drop)]
pub(crate) struct Numbering {
    /// The number of each pointer: its own, until it is given a new one.
    pub images: [u8; MAX_POINTERS as usize],
    /// The pointers that have their new number.
    pub numbered: u8,
    /// The numbers that are given.
    pub given: u8,
}

impl Numbering {
    /// Gives a pointer that has no new number the least that is not given.
    pub(crate) fn number(&mut self, pointer: u8)
        requires pointer { pointer < MAX_POINTERS }
        requires images { length self.old.images ≡ MAX_POINTERS }
        requires room { has self.old.numbered pointer ≡ false →
            (number : ℕ) × (number < MAX_POINTERS) × (has self.old.given number ≡ false) }
        ensures { IsNumbered self.old pointer self.new }
    {
        if !contains(self.numbered, pointer) {
            let least = least_outside(self.given);
            self.images[usize::from(pointer)] = least;
            self.numbered = with(self.numbered, pointer);
            self.given = with(self.given, least);
        }
    }
}
