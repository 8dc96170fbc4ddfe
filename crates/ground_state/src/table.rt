ghost use Rattle.std.specs.Prelude.{◌≡◌, ◌<◌, ◌≤◌, Err, IfOk, IsOkUnless, length, map};
ghost use Rattle.ground_state.specs.declared.parts.ObjectEntry.{ObjectEntry};
ghost use Rattle.ground_state.specs.declared.parts.PredicateEntry.{PredicateEntry};
ghost use Rattle.ground_state.specs.declared.parts.TheConstants.{MAX_ATOMS, MAX_OBJECTS};
ghost use Rattle.ground_state.specs.Task.{ArePredicates};
ghost use Rattle.ground_state.specs.Instance.{IsInstance};
ghost use Rattle.ground_state.specs.GroundAtoms.{atom_count};
ghost use Rattle.ground_state.specs.Ground.{ground_of, atoms_needed, atoms_in};

use crate::bits::Bits;
use crate::numbering::Numbering;
use crate::{GroundRefusal, Instance, MAX_ATOMS, ObjectEntry, PredicateEntry, Task};
use flag_rules::OutOfMemory;
use std::alloc::Global;
use std::marker::Model;

/// The ground atoms of an instance by numbers, with those that are true at the start and those of the goal.
/// Contracts see what the instance comes to, and no number of an atom.
#[derive(Debug, Drop)]
pub struct AtomTable {
    object_types: Vec<u32>,
    pub(crate) numbering: Numbering,
    pub(crate) initial: Bits,
    pub(crate) goal: Bits,
}

impl Model for AtomTable {
    ghost use Rattle.std.specs.Prelude.{◌≡◌, length};
    ghost use Rattle.ground_state.specs.GroundAtoms.{atom_count};
    ghost use Rattle.ground_state.specs.Ground.{Ground};

    ghost Value = { Ground };

    ghost view = { λ table. record {
      object_types = table.object_types.items;
      arities = table.numbering.1;
      initial = table.initial;
      goal = table.goal;
    } };

    ghost invariant = { λ table.
        (table.numbering.0 ≡ length table.object_types.items)
        × (length table.initial ≡ atom_count table.numbering.0 table.numbering.1)
        × (length table.goal ≡ atom_count table.numbering.0 table.numbering.1) };
}

impl AtomTable {
    /// The table of an instance's ground atoms.
    ///
    /// `TooManyAtoms` comes exactly where there are more than `MAX_ATOMS`, with how many there are.
    pub fn of(alloc: Global, task: &Task, instance: &Instance) -> Result<AtomTable, GroundRefusal>
        requires { IsInstance task.now instance.now }
        ensures table { IfOk result (λ table. table ≡ ground_of task.now instance.now) }
        ensures too_many { let count = atoms_needed task.now instance.now in
            MAX_ATOMS < count → result ≡ Err (GroundRefusal.TooManyAtoms count) }
        ensures few_enough { atoms_needed task.now instance.now ≤ MAX_ATOMS →
            IsOkUnless result GroundRefusal.OutOfMemory }
    {
        let task = task.parts();
        let instance = instance.parts();
        let predicates = task.predicates.as_slice();
        let objects = instance.objects.as_slice();
        let count = count_atoms(objects.len() as u64, predicates);
        if count > MAX_ATOMS {
            return Err(GroundRefusal::TooManyAtoms(count));
        }
        let numbering = Numbering::of(alloc, objects.len() as u16, predicates)?;
        let initial = numbering.those_of(alloc, instance.init.as_slice())?;
        let goal = numbering.those_of(alloc, instance.goal.as_slice())?;
        let object_types = types_of(alloc, objects)?;
        Ok(AtomTable {
            object_types,
            numbering,
            initial,
            goal,
        })
    }

    /// How many objects there are, from 1 to `MAX_OBJECTS`.
    pub fn objects(&self) -> u16
        ensures { result ≡ length self.now.object_types }
    {
        self.numbering.objects()
    }

    /// The types of the objects, in their order.
    pub(crate) fn object_types(&self) -> &[u32]
        ensures { result.now ≡ self.now.object_types }
    {
        self.object_types.as_slice()
    }

    /// How many ground atoms there are, over all objects and without regard to types.
    pub fn atoms(&self) -> u32
        ensures count { result ≡ atoms_in self.now }
        ensures few { result ≤ MAX_ATOMS }
    {
        self.numbering.count()
    }
}

/// The types of some objects, in their order.
fn types_of(alloc: Global, objects: &[ObjectEntry]) -> Result<Vec<u32>, OutOfMemory>
    ensures { IfOk result (λ types. types.items ≡ map (λ (entry : ObjectEntry). entry.of) objects.now) }
{
    Ok(objects.iter().map(|object| object.of).collect(alloc)?)
}

/// How many ground atoms there are over so many objects.
fn count_atoms(objects: u64, predicates: &[PredicateEntry]) -> u64
    requires few { objects ≤ MAX_OBJECTS }
    requires fit { ArePredicates predicates.now }
    ensures { result ≡ atom_count objects (map (λ (entry : PredicateEntry). entry.arity) predicates.now) }
{
    let mut count = 0;
    for predicate in predicates {
        count += objects.pow(u32::from(predicate.arity));
    }
    count
}
