ghost use Rattle.std.specs.Prelude.{◌≡◌, ◌+◌, ◌*◌, ◌^◌, ◌<◌, ◌≤◌, IfOk};
ghost use Rattle.family_gen.specs.Families.{sizes_from, sizes_of};

use crate::kinds::{Family, MAX_NUMBER};
use flag_rules::{List, OutOfMemory};
use std::alloc::Global;

/// How the sizes of a family's instances go round.
#[derive(Drop)]
struct Round {
    /// The least size.
    least: u32,
    /// How many sizes there are.
    span: u32,
    /// How far it is from the size of an instance to that of the next.
    stride: u32,
    /// How many instances there are.
    count: u32,
    ghost some: { 0 < span },
    ghost small: { least + span ≤ 2 ^ 16 },
    ghost short: { stride * count ≤ 2 ^ 16 },
}

const ROWS_OF_LAMPS: Round = Round {
    least: 2,
    span: 255,
    stride: 37,
    count: 8,
};

const CORRIDORS: Round = Round {
    least: 3,
    span: 8,
    stride: 5,
    count: 3,
};

impl Round {
    /// The sizes from where a number stands.
    fn sizes(self, alloc: Global, number: u32) -> Result<List<u16>, OutOfMemory>
        requires { number ≤ MAX_NUMBER }
        ensures { IfOk result (λ sizes. sizes ≡ sizes_from self.least self.span self.stride self.count number) }
    {
        let mut sizes = List::new(alloc);
        for instance in 0..self.count {
            let place = (number + self.stride * instance) % self.span;
            sizes.push((self.least + place) as u16)?;
        }
        Ok(sizes)
    }
}

/// The sizes of a family's instances at a number.
pub(crate) fn sizes(alloc: Global, which: Family, number: u32) -> Result<List<u16>, OutOfMemory>
    requires { number ≤ MAX_NUMBER }
    ensures { IfOk result (λ sizes. sizes ≡ sizes_of which number) }
{
    let round = match which {
        Family::Lights => ROWS_OF_LAMPS,
        Family::Corridor => CORRIDORS,
    };
    round.sizes(alloc, number)
}
