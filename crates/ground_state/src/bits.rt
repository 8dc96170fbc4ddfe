ghost use Rattle.std.specs.Prelude.{◌≡◌, ◌↔◌, ◌<◌, IsTrue, false, true, Some, length, replicate, slice_get, slice_set, IfOk};
ghost use Rattle.ground_state.specs.State.{missing};

use crate::word::{is_set, missing_in_words, with_false, with_true};
use flag_rules::OutOfMemory;
use std::alloc::Global;
use std::marker::Model;

/// A row of truth values, packed into words. Contracts see it as the list of them.
#[derive(Debug, Drop)]
pub(crate) struct Bits {
    count: u32,
    /// Just enough words. Behind the last value each place is false, so that whole words can be compared and counted.
    words: Vec<u64>,
}

impl Model for Bits {
    ghost use Rattle.std.specs.Prelude.{List, Bool};
    ghost use Rattle.ground_state.specs.Inner.Packing.{values_of, IsPacked};

    ghost Value = { List Bool };

    ghost view = { λ bits. values_of bits.count bits.words.items };

    ghost invariant = { λ bits. IsPacked bits.count bits.words.items };
}

impl Bits {
    /// So many values, all false.
    pub(crate) fn none(alloc: Global, count: u32) -> Result<Bits, OutOfMemory>
        ensures { IfOk result (λ bits. bits ≡ replicate count false) }
    {
        let enough = count.div_ceil(u64::BITS);
        let words = vec![in alloc; 0; enough as usize]?;
        Ok(Bits { count, words })
    }

    /// A copy.
    pub(crate) fn copy(&self, alloc: Global) -> Result<Bits, OutOfMemory>
        ensures { IfOk result (λ bits. bits ≡ self.now) }
    {
        Ok(Bits {
            count: self.count,
            words: Vec::from_slice(alloc, self.words.as_slice())?,
        })
    }

    /// The value at a place, from 0.
    pub(crate) fn get(&self, place: u32) -> bool
        requires { place < length self.now }
        ensures { slice_get self.now place ≡ Some result }
    {
        let at = (place / u64::BITS) as usize;
        is_set(self.words[at], place % u64::BITS)
    }

    /// Makes the value at a place true.
    pub(crate) fn set_true(&mut self, place: u32)
        requires { place < length self.old }
        ensures { self.new ≡ slice_set self.old place true }
    {
        let at = (place / u64::BITS) as usize;
        self.words[at] = with_true(self.words[at], place % u64::BITS);
    }

    /// Makes the value at a place false.
    pub(crate) fn set_false(&mut self, place: u32)
        requires { place < length self.old }
        ensures { self.new ≡ slice_set self.old place false }
    {
        let at = (place / u64::BITS) as usize;
        self.words[at] = with_false(self.words[at], place % u64::BITS);
    }

    /// Takes over the values of another row of the same length.
    pub(crate) fn copy_from(&mut self, other: &Bits)
        requires { length self.old ≡ length other.now }
        ensures { self.new ≡ other.now }
    {
        self.words.copy_from_slice(other.words.as_slice());
    }

    /// Whether the two rows have the same values.
    pub(crate) fn equals(&self, other: &Bits) -> bool
        ensures { IsTrue result ↔ (self.now ≡ other.now) }
    {
        self.count == other.count && self.words.as_slice() == other.words.as_slice()
    }

    /// At how many places the value is true here and false in another row of the same length.
    pub(crate) fn missing_in(&self, other: &Bits) -> u32
        requires { length self.now ≡ length other.now }
        ensures { result ≡ missing self.now other.now }
    {
        missing_in_words(self.words.as_slice(), other.words.as_slice())
    }
}
