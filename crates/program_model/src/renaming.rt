ghost use Rattle.std.specs.Prelude.{◌≡◌, ◌<◌, ◌↔◌, length, take, slice_index, Contains, IsTrue, MatchOption};
ghost use Rattle.std.specs.List.{range_with_len};
ghost use Rattle.program_model.specs.Renaming.{image, IsRenaming};

use crate::MAX_POINTERS;
use std::marker::Model;

/// A permutation of the four pointer numbers; a machine of fewer pointers is renamed by one that keeps its pointers among
/// themselves. Contracts see it as the list of the new numbers.
#[derive(Debug, Drop)]
pub struct Renaming {
    images: [u8; MAX_POINTERS as usize],
}

impl Model for Renaming {
    ghost use Rattle.std.specs.Prelude.{ℕ, List};
    ghost use Rattle.program_model.specs.Renaming.{IsRenaming};

    ghost Value = { List ℕ };

    ghost view = { λ renaming. renaming.images };

    ghost invariant = { λ renaming. IsRenaming renaming.images };
}

// Whether a pointer's number stands at a place, and stands at none before.
fn is_new_at(place: usize, numbers: &[u8]) -> bool
    requires { place < length numbers.now }
    ensures { let number = slice_index numbers.now place in
        IsTrue result ↔ (number < MAX_POINTERS) × ¬ Contains (take place numbers.now) number }
{
    numbers[place] < MAX_POINTERS && !numbers[..place].contains(&numbers[place])
}

// Whether each pointer's number stands once among as many numbers.
#[tactic(auto, using(crate::proofs::Renamings::new_at_each, crate::proofs::Renamings::new_at))]
fn is_permutation(numbers: &[u8]) -> bool
    requires { length numbers.now ≡ MAX_POINTERS }
    ensures { IsTrue result ↔ IsRenaming numbers.now }
{
    for place in 0..numbers.len() {
        if !is_new_at(place, numbers) {
            return false;
        }
    }
    true
}

impl Renaming {
    /// The renaming that leaves each number as it is.
    pub fn same() -> Renaming
        ensures { result ≡ range_with_len 0 MAX_POINTERS }
    {
        Renaming {
            images: [0, 1, 2, 3],
        }
    }

    /// The renaming with these new numbers, in order; `None` exactly where they are no permutation.
    pub fn new(images: [u8; MAX_POINTERS as usize]) -> Option<Renaming>
        ensures { MatchOption result (¬ IsRenaming images) (λ renaming. renaming ≡ images) }
    {
        if is_permutation(images.as_slice()) {
            Some(Renaming { images })
        } else {
            None
        }
    }

    /// The new number of a pointer; a number past the four stays.
    pub fn of(&self, pointer: u8) -> u8
        ensures value { result ≡ image self.now pointer }
        ensures permutation { IsRenaming self.now }
    {
        match self.images.get(usize::from(pointer)) {
            Some(&number) => number,
            None => pointer,
        }
    }
}
