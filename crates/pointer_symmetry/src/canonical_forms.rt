ghost use Rattle.std.specs.Prelude.{◌≡◌, ◌<◌};
ghost use Rattle.pointer_symmetry.specs.Used.{has};
ghost use Rattle.pointer_symmetry.specs.Twins;

use crate::numbering::Numbering;
use program_model::{Machine, Renaming};

// The new numbers of the pointers in the canonical form of an operation.
fn canonical_renaming<M: Machine>(machine: &M, used: u8, op: u32) -> Renaming
    requires { op < (M.semantics machine.now).ops }
    ensures { let m = M.semantics machine.now in result ≡ Twins.canonical_renaming (has used) m.pointers (m.pointers_of op) }
{
    machine.treats_pointers_alike();
    let pointers = machine.pointers();
    let mut numbering = Numbering {
        images: [0, 1, 2, 3],
        numbered: used,
        given: used,
    };
    for place in 0..machine.places(op) {
        numbering.number(machine.pointer_at(op, place));
    }
    for pointer in 0..pointers {
        numbering.number(pointer);
    }
    match Renaming::new(numbering.images) {
        Some(renaming) => renaming,
        None => unreachable!(),
    }
}

/// The canonical form of an operation under a set of used pointers, as `used_by` gives it.
pub fn canonical<M: Machine>(machine: &M, used: u8, op: u32) -> u32
    requires { op < (M.semantics machine.now).ops }
    ensures value { result ≡ Twins.canonical (M.semantics machine.now) (has used) op }
    ensures within { result < (M.semantics machine.now).ops }
{
    machine.treats_pointers_alike();
    let _few = machine.pointers();
    machine.rename(&canonical_renaming(machine, used, op), op)
}
