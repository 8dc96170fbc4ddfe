use evaluations::Order;
use search_bounds::Bounds;

/// The greatest number that a family is made from.
pub const MAX_NUMBER: u32 = 99_999_999;

/// How many lines the programs have at most for which a family is searched.
const LINES: u8 = 5;

/// How many steps their runs make at most.
const RUN: u64 = 100_000;

/// A family of planning instances over one domain.
#[derive(Clone, Copy, Debug, PartialEq, Eq, Drop)]
pub enum Family {
    /// Rows of lamps, which are all to be lit.
    Lights,
    /// Corridors of cells, whose last one is to be reached.
    Corridor,
}

impl Family {
    ghost use Rattle.std.specs.Prelude.{◌≡◌};
    ghost use Rattle.family_gen.specs.Families.{family_name, pointers_of, bounds_of};

    /// The name of the family, as commands and summaries have it, and its domain.
    pub fn name(self) -> &'static str
        ensures { result.now ≡ family_name self }
    {
        match self {
            Family::Lights => "lights",
            Family::Corridor => "corridor",
        }
    }

    /// How many pointers its programs have.
    pub(crate) fn pointers(self) -> u8
        ensures { result ≡ pointers_of self }
    {
        match self {
            Family::Lights => 1,
            Family::Corridor => 2,
        }
    }

    /// How far it is searched.
    pub(crate) fn bounds(self) -> Bounds
        ensures { result ≡ bounds_of self }
    {
        let budget = match self {
            Family::Lights => 10_000,
            Family::Corridor => 100_000,
        };
        Bounds {
            lines: LINES,
            budget,
            run: RUN,
            order: Order::usual(),
        }
    }
}
