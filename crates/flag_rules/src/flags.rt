ghost use Rattle.std.specs.Prelude.{◌≡◌, ℤ};
ghost use Rattle.flag_rules.specs.Flags.{sign_of_int, holds_at};

/// The sign of the last result, which both flags are read from: the zero flag is set exactly at `Zero`, and the carry
/// flag exactly at `Positive`. A run starts with `Negative`, where neither is set.
#[derive(Clone, Copy, Debug, PartialEq, Eq)]
pub enum Sign {
    Negative,
    Zero,
    Positive,
}

/// The condition of a jump, on the flags.
#[derive(Clone, Copy, Debug, PartialEq, Eq)]
pub enum Cond {
    /// The zero flag is set.
    Zero,
    /// The zero flag is not set.
    Nonzero,
    /// The carry flag is set.
    Carry,
    /// The carry flag is not set.
    Nocarry,
}

/// The sign of a result.
pub fn sign_of(res: i64) -> Sign
    ensures { result ≡ sign_of_int res }
{
    if res < 0 {
        Sign::Negative
    } else if res == 0 {
        Sign::Zero
    } else {
        Sign::Positive
    }
}

impl Cond {
    /// Whether the condition holds at a sign.
    pub fn holds(self, sign: Sign) -> bool
        ensures { result ≡ holds_at self sign }
    {
        match self {
            Cond::Zero => sign == Sign::Zero,
            Cond::Nonzero => sign != Sign::Zero,
            Cond::Carry => sign == Sign::Positive,
            Cond::Nocarry => sign != Sign::Positive,
        }
    }
}
