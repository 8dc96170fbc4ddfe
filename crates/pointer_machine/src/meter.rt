ghost use Rattle.std.specs.Prelude.{◌≡◌};

/// Counts of the operations made and the values copied on a machine; each stops at the last value of its type.
#[derive(Debug, Drop)]
pub struct Meter {
    pub(crate) acts: u64,
    pub(crate) copies: u64,
}

impl Meter {
    /// A meter at which nothing was counted yet.
    pub fn zero() -> Meter
        ensures acts { result.acts ≡ 0 }
        ensures copies { result.copies ≡ 0 }
    {
        Meter { acts: 0, copies: 0 }
    }
}
