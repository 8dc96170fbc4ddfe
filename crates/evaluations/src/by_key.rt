ghost use Rattle.std.specs.Prelude.{◌≡◌};
ghost use Rattle.flag_rules.specs.Counts.{counted};
ghost use Rattle.evaluations.specs.Keys.{comes_before};
ghost use Rattle.evaluations.specs.Inner.KeyOrder.{by_key};

use crate::{Key, Ranking};
use std::cmp::Ordering;
use std::marker::Model;

/// A count of comparisons. Contracts see the number.
#[derive(Debug, Drop)]
pub struct Compared {
    count: u64,
}

impl Model for Compared {
    ghost use Rattle.std.specs.Prelude.{ℕ};

    ghost Value = { ℕ };

    ghost view = { λ compared. compared.count };
}

impl Compared {
    /// No comparison.
    pub fn zero() -> Compared
        ensures { result ≡ 0 }
    {
        Compared { count: 0 }
    }

    /// One comparison more, up to the last value of the type.
    fn raise(&mut self)
        ensures { self.new ≡ counted self.old }
    {
        self.count = self.count.saturating_add(1);
    }

    fn count(&self) -> u64
        ensures { result ≡ self.now }
    {
        self.count
    }
}

/// The order by keys, the least first: entry by entry, and a key before those that it begins; of equal keys the one with the lesser
/// number is first.
pub struct ByKey;

impl Ranking for ByKey {
    type Key = Key;

    type Tally = Compared;

    ghost comes_before = { comes_before };

    ghost compared = { λ tally. tally };

    ghost is_ranking = { by_key };

    fn before(a: &Key, a_number: u32, b: &Key, b_number: u32, tally: &mut Compared) -> bool {
        tally.raise();
        match a.as_slice().cmp(b.as_slice()) {
            Ordering::Less => true,
            Ordering::Equal => a_number < b_number,
            Ordering::Greater => false,
        }
    }

    fn compared(tally: &Compared) -> u64 {
        tally.count()
    }
}
