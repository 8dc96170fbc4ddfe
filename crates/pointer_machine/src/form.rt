ghost use Rattle.std.specs.Prelude.{◌≡◌, ◌≤◌, length};
ghost use Rattle.std.specs.Str.{bytes_eq};
ghost use Rattle.std.specs.Cmp.Rules.{comparing};
ghost use Rattle.std.proofs.Common.{rules};
ghost use Rattle.ground_state.specs.declared.parts.TheConstants.{MAX_PARAMETERS};

use ground_state::MAX_PARAMETERS;
use smallvec::SmallVec;
use std::alloc::Global;
use std::marker::Model;

/// The pointers for the parameters of an action, in order: at most `MAX_PARAMETERS`, so that the list takes no memory.
#[derive(Debug, Drop)]
pub struct Args {
    pointers: SmallVec<u8, MAX_PARAMETERS>,
}

impl Model for Args {
    ghost use Rattle.std.specs.Prelude.{ℕ, ◌≤◌, List, length};
    ghost use Rattle.ground_state.specs.declared.parts.TheConstants.{MAX_PARAMETERS};

    ghost Value = { List ℕ };

    ghost view = { λ args. args.pointers.items };

    ghost invariant = { λ args. length args.pointers.items ≤ MAX_PARAMETERS };
}

impl Args {
    /// The list of these pointers. It takes no memory.
    pub fn of(alloc: Global, pointers: &[u8]) -> Args
        requires { length pointers.now ≤ MAX_PARAMETERS }
        ensures { result ≡ pointers.now }
    {
        Args {
            pointers: SmallVec::from_slice(alloc, pointers).unwrap(),
        }
    }

    /// The pointers, in order.
    pub fn as_slice(&self) -> &[u8]
        ensures pointers { result.now ≡ self.now }
        ensures few { length self.now ≤ MAX_PARAMETERS }
    {
        self.pointers.as_slice()
    }
}

impl PartialEq for Args {
    ghost eq = { bytes_eq };

    ghost laws = { Prim.search (comparing, rules) };

    fn eq(&self, other: &Self) -> bool {
        self.as_slice() == other.as_slice()
    }
}

impl Eq for Args {
    ghost laws = { Prim.search (comparing, rules) };
}

/// An operation of a machine over ground atoms. Pointers are numbered from 0.
#[derive(Debug, PartialEq, Eq, Drop)]
pub enum Form {
    /// Acts by the action schema of a number at the objects that the pointers stand at, where that is applicable.
    Act { schema: u32, args: Args },
    /// Tells whether the atom of the predicate of a number at the objects that the pointers stand at is true.
    Test { pred: u32, args: Args },
    /// Moves the pointer to the next object, where there is one.
    Inc(u8),
    /// Moves the pointer to the object before, where there is one.
    Dec(u8),
    /// Moves the pointer to object 0.
    Clear(u8),
    /// Moves the first pointer to the object of the second one.
    Set(u8, u8),
    /// Compares the object of the first pointer with that of the second one.
    Cmp(u8, u8),
}
