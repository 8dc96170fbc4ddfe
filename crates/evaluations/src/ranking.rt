ghost use Rattle.std.specs.Prelude.{◌≡◌, ℕ, Bool};
ghost use Rattle.flag_rules.specs.Counts.{counted};
ghost use Rattle.evaluations.specs.Ranking.{IsRanking};

/// An order on pairs of a key and a number, whose comparisons are counted. No call makes a tally, so code that is generic
/// over orders can compare only at the tally that it was given. No call takes memory.
pub trait Ranking {
    /// What is compared first.
    type Key: Drop;

    /// The count of the comparisons made.
    type Tally;

    /// Whether a key with a number comes before another key with another number.
    ghost comes_before: { Self.Key → ℕ → Self.Key → ℕ → Bool };

    /// The comparisons counted at a tally.
    ghost compared: { Self.Tally → ℕ };

    /// Whether a key with a number comes before another; counts the comparison.
    fn before(
        a: &Self::Key,
        a_number: u32,
        b: &Self::Key,
        b_number: u32,
        tally: &mut Self::Tally,
    ) -> bool
        ensures answer { result ≡ comes_before a.now a_number b.now b_number }
        ensures counted { compared tally.new ≡ counted (compared tally.old) };

    /// How many comparisons were made at a tally, up to the last value of the type.
    fn compared(tally: &Self::Tally) -> u64
        ensures { result ≡ compared tally.now };

    /// It is an order.
    ghost is_ranking: { IsRanking comes_before };
}
