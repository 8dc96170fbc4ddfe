ghost use Rattle.std.specs.Prelude.{◌≡◌};
ghost use Rattle.pddl_task.specs.Faults.{fault_at, comes_before, rank_of};
ghost use Rattle.pddl_task.specs.Inner.Faults.{earlier_of};

use pddl_parser::Word;

/// The kinds of faults that have a place, in the order in which they are told where one place has two.
#[derive(Clone, Copy, Debug, PartialEq, Eq)]
pub(crate) enum FaultKind {
    /// A word stands a second time.
    Twice,
    /// A type, a predicate or a name is none.
    Unknown,
    /// An atom has another number of arguments than its predicate has parameters.
    Arity,
    /// A type does not stand under `object`.
    TypeCycle,
    /// A problem is of another domain.
    OtherDomain,
}

/// A fault of a text, and the place of its word.
#[derive(Clone, Copy, Debug, PartialEq, Eq)]
pub(crate) struct Fault {
    pub(crate) kind: FaultKind,
    pub(crate) at: u32,
}

impl FaultKind {
    /// The place of the kind in the order.
    fn rank(self) -> u8
        ensures { result ≡ rank_of self }
    {
        self as u8
    }
}

impl Fault {
    /// The fault of a word.
    pub(crate) fn of(kind: FaultKind, word: &Word) -> Fault
        ensures { result ≡ fault_at kind word.now }
    {
        Fault { kind, at: word.at }
    }

    /// Whether it is told rather than another one.
    fn comes_before(self, other: Fault) -> bool
        ensures { result ≡ comes_before self other }
    {
        self.at < other.at || self.at == other.at && self.kind.rank() < other.kind.rank()
    }
}

/// The fault that is told rather than the other one, where there are such.
pub(crate) fn earlier(one: Option<Fault>, other: Option<Fault>) -> Option<Fault>
    ensures { result ≡ earlier_of one other }
{
    match (one, other) {
        (Some(fault), Some(second)) if second.comes_before(fault) => Some(second),
        (Some(fault), _) => Some(fault),
        (None, second) => second,
    }
}
