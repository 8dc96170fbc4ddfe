ghost use Rattle.std.specs.Prelude.{◌≡◌, ◌↔◌, IsTrue, IfOk, length};
ghost use Rattle.ground_state.specs.State.{missing};
ghost use Rattle.ground_state.specs.Ground.{IsAtom, IsStateOf, Holds};

use crate::AtomTable;
use crate::bits::Bits;
use flag_rules::OutOfMemory;
use std::alloc::Global;
use std::marker::Model;

/// A set of ground atoms: a state of the table that it was started from. Contracts see it as the list that says of
/// each ground atom whether it is true.
#[derive(Debug, Drop)]
pub struct Atoms {
    pub(crate) bits: Bits,
}

impl Model for Atoms {
    ghost use Rattle.ground_state.specs.State.{State};

    ghost Value = { State };

    ghost view = { λ atoms. atoms.bits };
}

impl Atoms {
    /// The atoms that are true at the start.
    pub fn start(alloc: Global, table: &AtomTable) -> Result<Atoms, OutOfMemory>
        ensures initial { IfOk result (λ atoms. atoms ≡ table.now.initial) }
        ensures fits { IfOk result (IsStateOf table.now) }
    {
        Ok(Atoms {
            bits: table.initial.copy(alloc)?,
        })
    }

    /// Makes exactly the atoms of the start true again.
    pub fn reset(&mut self, table: &AtomTable)
        requires { IsStateOf table.now self.old }
        ensures initial { self.new ≡ table.now.initial }
        ensures fits { IsStateOf table.now self.new }
    {
        self.bits.copy_from(&table.initial);
    }

    /// Whether a ground atom is true. `pred` is the number of a predicate, `args` are the numbers of its objects.
    pub fn holds(&self, table: &AtomTable, pred: u32, args: &[u16]) -> bool
        requires state { IsStateOf table.now self.now }
        requires atom { IsAtom table.now (record { pred = pred; args = args.now }) }
        ensures { IsTrue result ↔ Holds table.now self.now (record { pred = pred; args = args.now }) }
    {
        self.bits.get(table.numbering.place_of(pred, args))
    }

    /// How many different atoms of the goal are not true.
    pub fn missing(&self, table: &AtomTable) -> u32
        requires { IsStateOf table.now self.now }
        ensures { result ≡ missing table.now.goal self.now }
    {
        table.goal.missing_in(&self.bits)
    }

    /// Makes another set of the same table equal to this one.
    pub fn copy_into(&self, to: &mut Atoms)
        requires { length to.old ≡ length self.now }
        ensures { to.new ≡ self.now }
    {
        to.bits.copy_from(&self.bits);
    }

    /// Whether the two sets have the same atoms.
    pub fn equals(&self, other: &Atoms) -> bool
        ensures { IsTrue result ↔ (self.now ≡ other.now) }
    {
        self.bits.equals(&other.bits)
    }
}
