ghost use Rattle.std.specs.Prelude.{◌≡◌, ◌≢◌, ◌<◌, ◌^◌, ◌↔◌, IsTrue, Any, All, map, length, slice_index, IfOk};
ghost use Rattle.ground_state.specs.declared.parts.TypeEntry.{TypeEntry};
ghost use Rattle.ground_state.specs.Task.{ancestor};
ghost use Rattle.pddl_task.specs.Types.{root, type_of, type_names, types_of};
ghost use Rattle.pddl_task.specs.Faults.{IsFirst, IsTypeCycle};
ghost use Rattle.pddl_task.specs.Inner.Faults.{AreTops, IsRootless};

use crate::check::{Check, first_of};
use crate::fault::{Fault, FaultKind};
use crate::names::Names;
use crate::typing::{ROOT, given_type};
use flag_rules::OutOfMemory;
use ground_state::TypeEntry;
use pddl_parser::Typed;
use std::alloc::Global;

/// The first type whose parents never reach `object`, or `object` where it is given another parent.
pub(crate) fn first_cycle(
    alloc: Global,
    names: &Names,
    entries: &[TypeEntry],
    types: &[Typed],
) -> Result<Option<Fault>, OutOfMemory>
    requires names { names.now ≡ type_names types.now }
    requires entries { entries.now ≡ types_of types.now }
    requires few { length names.now < 2 ^ 32 }
    ensures { IfOk result (IsFirst (λ fault. Any (IsTypeCycle types.now fault) types.now)) }
{
    let tops = tops(alloc, entries)?;
    first_of(&CycleCheck { names, tops: &tops }, types)
}

/// The check of types, where these are their names and the types that stand far above them.
#[derive(Clone, Copy)]
struct CycleCheck<'a> {
    names: &'a Names,
    tops: &'a [u32],
}

impl Check<Typed> for CycleCheck<'_> {
    ghost use Rattle.pddl_task.specs.Inner.Faults.{IsRootless};

    ghost IsFault = { λ check. IsRootless check.names.now check.tops.now };

    fn first_fault(&self, typed: &Typed) -> Result<Option<Fault>, OutOfMemory> {
        Ok(cycle_at(self.names, self.tops, typed))
    }
}

/// The fault of a type, where it never reaches `object`, or is `object` with another parent.
fn cycle_at(names: &Names, tops: &[u32], typed: &Typed) -> Option<Fault>
    ensures { IsFirst (λ fault. IsRootless names.now tops.now fault typed.now) result }
{
    let top = tops.get(names.number(typed.word.text.as_slice())).copied();
    if top != Some(0) || is_moved_root(typed) {
        return Some(Fault::of(FaultKind::TypeCycle, &typed.word));
    }
    None
}

/// Whether a word of `:types` is `object` with another parent.
fn is_moved_root(typed: &Typed) -> bool
    ensures { IsTrue result ↔ ((typed.now.word.text ≡ root) × (type_of typed.now ≢ root)) }
{
    typed.word.text.as_slice() == ROOT.as_slice() && given_type(typed) != ROOT.as_slice()
}

/// For each type the one that stands so far above it that it is `object` exactly where the parents reach it, by pointer
/// doubling.
fn tops(alloc: Global, entries: &[TypeEntry]) -> Result<Vec<u32>, OutOfMemory>
    requires few { length entries.now < 2 ^ 32 }
    requires parents { All (λ (entry : TypeEntry). entry.parent < length entries.now) entries.now }
    requires root { ancestor entries.now 1 0 ≡ 0 }
    ensures { IfOk result (λ tops. AreTops entries.now tops.items) }
{
    let mut above = Vec::new(alloc);
    for entry in entries {
        above.push(entry.parent)?;
    }
    let mut steps = 1;
    while steps < entries.len() {
        above = twice_as_far(alloc, &above)?;
        steps *= 2;
    }
    Ok(above)
}

/// The types that stand twice as far above as these do.
fn twice_as_far(alloc: Global, above: &[u32]) -> Result<Vec<u32>, OutOfMemory>
    requires { All (λ number. number < length above.now) above.now }
    ensures { IfOk result (λ further. further.items ≡ map (slice_index above.now) above.now) }
{
    let mut further = Vec::new(alloc);
    for number in above {
        further.push(above[*number as usize])?;
    }
    Ok(further)
}
