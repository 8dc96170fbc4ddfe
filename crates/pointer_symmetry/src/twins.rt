ghost use Rattle.std.specs.Prelude.{◌≡◌, ◌<◌, ◌==◌, ◌||◌, not, Bool, ℕ};
ghost use Rattle.std.specs.List.{list_any};
ghost use Rattle.program_model.specs.declared.machine.TheConstants.{MAX_POINTERS};
ghost use Rattle.program_model.specs.Program.{Program, IsPartial};
ghost use Rattle.pointer_symmetry.specs.Used.{has, names, AreUsed};
ghost use Rattle.pointer_symmetry.specs.Twins;

use crate::pointer_sets::{contains, least_outside, with};
use program_model::{Instr, Machine, Partial};

// A set of pointers, and those of an operation.
fn with_pointers_of<M: Machine>(machine: &M, set: u8, op: u32) -> u8
    requires { op < (M.semantics machine.now).ops }
    ensures { (pointer : ℕ) → has result pointer ≡
        (has set pointer || list_any (λ other. other == pointer) ((M.semantics machine.now).pointers_of op)) }
{
    let _few = machine.pointers();
    let mut all = set;
    for place in 0..machine.places(op) {
        all = with(all, machine.pointer_at(op, place));
    }
    all
}

// A set of pointers, and those that a line names.
fn with_pointers_on<M: Machine>(machine: &M, set: u8, line: Option<Instr>) -> u8
    requires { (op : ℕ) → line ≡ Some (Instr.Op op) → op < (M.semantics machine.now).ops }
    ensures { (pointer : ℕ) → has result pointer ≡ (has set pointer || names (M.semantics machine.now) pointer line) }
{
    match line {
        Some(Instr::Op(op)) => with_pointers_of(machine, set, op),
        Some(Instr::Goto { .. } | Instr::End) | None => set,
    }
}

/// The pointers that stand on the defined lines of a partial program, as a set: pointer p is in it where bit p is 1.
pub fn used_by<M: Machine>(machine: &M, partial: &Partial) -> u8
    requires { IsPartial (M.semantics machine.now).ops partial.now }
    ensures { AreUsed (M.semantics machine.now) partial.now result }
{
    let mut used = 0;
    for line in 0..partial.lines() {
        used = with_pointers_on(machine, used, partial.at(line));
    }
    used
}

// Whether an operation is not its canonical form: one of its pointers that are new where it first names them is not the least new one.
fn has_another_form<M: Machine>(machine: &M, used: u8, op: u32) -> bool
    requires { op < (M.semantics machine.now).ops }
    ensures { (told : ℕ → Bool) → ((pointer : ℕ) → pointer < MAX_POINTERS → has used pointer ≡ told pointer) →
        result ≡ not (Twins.canonical (M.semantics machine.now) told op == op) }
{
    machine.treats_pointers_alike();
    let _few = machine.pointers();
    let mut taken = used;
    for place in 0..machine.places(op) {
        let pointer = machine.pointer_at(op, place);
        if !contains(taken, pointer) {
            if pointer != least_outside(taken) {
                return true;
            }
            taken = with(taken, pointer);
        }
    }
    false
}

/// Whether an instruction is not its canonical form under a set of used pointers. A jump and `end` are their own.
pub fn is_twin<M: Machine>(machine: &M, used: u8, instr: Instr) -> bool
    requires { (op : ℕ) → instr ≡ Instr.Op op → op < (M.semantics machine.now).ops }
    ensures value { result ≡ Twins.is_twin (M.semantics machine.now) (has used) instr }
    ensures twins { (program : Program) → AreUsed (M.semantics machine.now) program used →
        result ≡ Twins.twins (M.semantics machine.now) program instr }
{
    match instr {
        Instr::Op(op) => has_another_form(machine, used, op),
        Instr::Goto { .. } | Instr::End => false,
    }
}
