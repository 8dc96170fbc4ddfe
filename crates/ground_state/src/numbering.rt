ghost use Rattle.std.specs.Prelude.{◌≡◌, ◌^◌, ◌<◌, ◌≤◌, All, Some, length, map, slice_get, IfOk};
ghost use Rattle.std.specs.List.{list_all};
ghost use Rattle.ground_state.specs.declared.parts.TheConstants.{MAX_ATOMS};
ghost use Rattle.ground_state.specs.declared.parts.PredicateEntry.{PredicateEntry};
ghost use Rattle.ground_state.specs.Instance.{IsFact};
ghost use Rattle.ground_state.specs.GroundAtoms.{atom_count, ground_atoms, tuples};
ghost use Rattle.ground_state.specs.State.{those_of, is_true, with_atoms, without_atoms};
ghost use Rattle.ground_state.specs.Action.{object_of, grounded};
ghost use Rattle.ground_state.specs.Inner.Lifting.{IsBound, IsLiftedAt};

use crate::bits::Bits;
use crate::{Fact, Lifted, PredicateEntry, Term};
use flag_rules::OutOfMemory;
use std::alloc::Global;
use std::marker::Model;

/// How the ground atoms are numbered: the atoms of a predicate come one after another from its first number on, in
/// the order of their objects, which are read as the digits of a number. Contracts see how many objects there are,
/// and the arities of the predicates.
#[derive(Debug, Drop)]
pub(crate) struct Numbering {
    objects: u16,
    arities: Vec<u8>,
    firsts: Vec<u32>,
    count: u32,
}

impl Model for Numbering {
    ghost use Rattle.std.specs.Prelude.{◌≡◌, ℕ, ◌≤◌, List, length, EachIndex, slice_index, take};
    ghost use Rattle.ground_state.specs.declared.parts.TheConstants.{MAX_ATOMS};
    ghost use Rattle.ground_state.specs.GroundAtoms.{atom_count};

    ghost Value = { ℕ × List ℕ };

    ghost view = { λ numbering. (numbering.objects, numbering.arities.items) };

    ghost invariant = { λ numbering.
        (numbering.count ≡ atom_count numbering.objects numbering.arities.items)
        × (numbering.count ≤ MAX_ATOMS)
        × (length numbering.firsts.items ≡ length numbering.arities.items)
        × EachIndex numbering.firsts.items
        (λ k. slice_index numbering.firsts.items k ≡ atom_count numbering.objects (take k numbering.arities.items)) };
}

impl Numbering {
    /// The numbering of the atoms over so many objects, where there are few enough.
    pub(crate) fn of(
        alloc: Global,
        objects: u16,
        predicates: &[PredicateEntry],
    ) -> Result<Numbering, OutOfMemory>
        requires { atom_count objects (map (λ (entry : PredicateEntry). entry.arity) predicates.now) ≤ MAX_ATOMS }
        ensures { IfOk result (λ numbering.
            numbering ≡ (objects, map (λ (entry : PredicateEntry). entry.arity) predicates.now)) }
    {
        let mut arities = Vec::new(alloc);
        let mut firsts = Vec::new(alloc);
        let mut count = 0;
        for predicate in predicates {
            arities.push(predicate.arity)?;
            firsts.push(count)?;
            count += u32::from(objects).pow(u32::from(predicate.arity));
        }
        Ok(Numbering {
            objects,
            arities,
            firsts,
            count,
        })
    }

    /// How many objects there are.
    pub(crate) fn objects(&self) -> u16
        ensures { result ≡ self.now.0 }
    {
        self.objects
    }

    /// How many ground atoms there are.
    pub(crate) fn count(&self) -> u32
        ensures count { result ≡ atom_count self.now.0 self.now.1 }
        ensures few { result ≤ MAX_ATOMS }
    {
        self.count
    }

    /// The number of a ground atom, which is its place among all of them.
    pub(crate) fn place_of(&self, pred: u32, args: &[u16]) -> u32
        requires { IsFact self.now.0 self.now.1 (record { pred = pred; args = args.now }) }
        ensures { slice_get (ground_atoms self.now.0 self.now.1) result ≡ Some (record { pred = pred; args = args.now }) }
    {
        self.firsts[pred as usize] + place_in_tuples(u32::from(self.objects), args)
    }

    /// The set of some ground atoms, of which some may be listed more than once.
    pub(crate) fn those_of(&self, alloc: Global, facts: &[Fact]) -> Result<Bits, OutOfMemory>
        requires { All (IsFact self.now.0 self.now.1) facts.now }
        ensures { IfOk result (λ bits. bits ≡ those_of self.now.0 self.now.1 facts.now) }
    {
        let mut bits = Bits::none(alloc, self.count)?;
        for fact in facts {
            bits.set_true(self.place_of(fact.pred, fact.args.as_slice()));
        }
        Ok(bits)
    }

    /// The number of a schema's atom at the objects of its parameters.
    fn place_at(&self, atom: &Lifted, args: &[u16]) -> u32
        requires { IsLiftedAt self.now.0 self.now.1 args.now atom.now }
        ensures { slice_get (ground_atoms self.now.0 self.now.1) result
            ≡ Some (grounded args.now atom.now) }
    {
        let place = place_in_tuples_at(u32::from(self.objects), atom.args.as_slice(), args);
        self.firsts[atom.pred as usize] + place
    }

    /// Whether a schema's atom at the objects of its parameters is true.
    fn is_true_at(&self, state: &Bits, atom: &Lifted, args: &[u16]) -> bool
        requires state { length state.now ≡ atom_count self.now.0 self.now.1 }
        requires atom { IsLiftedAt self.now.0 self.now.1 args.now atom.now }
        ensures { result ≡ is_true self.now.0 self.now.1 state.now (grounded args.now atom.now) }
    {
        state.get(self.place_at(atom, args))
    }

    /// Whether some atoms of a schema at the objects of its parameters are all true.
    pub(crate) fn are_true_at(&self, state: &Bits, atoms: &[Lifted], args: &[u16]) -> bool
        requires state { length state.now ≡ atom_count self.now.0 self.now.1 }
        requires atoms { All (IsLiftedAt self.now.0 self.now.1 args.now) atoms.now }
        ensures { result ≡ list_all
            (λ atom. is_true self.now.0 self.now.1 state.now (grounded args.now atom)) atoms.now }
    {
        atoms.iter().all(|atom| self.is_true_at(state, atom, args))
    }

    /// Makes some atoms of a schema at the objects of its parameters false.
    pub(crate) fn delete_at(&self, state: &mut Bits, atoms: &[Lifted], args: &[u16])
        requires state { length state.old ≡ atom_count self.now.0 self.now.1 }
        requires atoms { All (IsLiftedAt self.now.0 self.now.1 args.now) atoms.now }
        ensures { state.new ≡ without_atoms state.old
            (those_of self.now.0 self.now.1 (map (grounded args.now) atoms.now)) }
    {
        for atom in atoms {
            state.set_false(self.place_at(atom, args));
        }
    }

    /// Makes some atoms of a schema at the objects of its parameters true.
    pub(crate) fn add_at(&self, state: &mut Bits, atoms: &[Lifted], args: &[u16])
        requires state { length state.old ≡ atom_count self.now.0 self.now.1 }
        requires atoms { All (IsLiftedAt self.now.0 self.now.1 args.now) atoms.now }
        ensures { state.new ≡ with_atoms state.old
            (those_of self.now.0 self.now.1 (map (grounded args.now) atoms.now)) }
    {
        for atom in atoms {
            state.set_true(self.place_at(atom, args));
        }
    }
}

/// The place of some objects in the list of all tuples of so many: they are read as the digits of a number.
fn place_in_tuples(objects: u32, args: &[u16]) -> u32
    requires few { objects ^ length args.now ≤ MAX_ATOMS }
    requires in_range { All (λ object. object < objects) args.now }
    ensures { slice_get (tuples objects (length args.now)) result ≡ Some args.now }
{
    let mut place = 0;
    for object in args {
        place = place * objects + u32::from(*object);
    }
    place
}

/// The same place for the objects that some arguments of a schema's atom stand for.
fn place_in_tuples_at(objects: u32, terms: &[Term], args: &[u16]) -> u32
    requires few { objects ^ length terms.now ≤ MAX_ATOMS }
    requires bound { All (IsBound (length args.now)) terms.now }
    requires in_range { All (λ object. object < objects) (map (object_of args.now) terms.now) }
    ensures { slice_get (tuples objects (length terms.now)) result
        ≡ Some (map (object_of args.now) terms.now) }
{
    let mut place = 0;
    for term in terms {
        place = place * objects + u32::from(term.object(args));
    }
    place
}
