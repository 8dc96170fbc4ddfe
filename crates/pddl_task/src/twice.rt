ghost use Rattle.std.specs.Prelude.{◌≡◌, Some, None, map, if◌then◌else◌, OnOk, IfOk};
ghost use Rattle.pddl_task.specs.declared.fault.FaultKind.TheVariants.{Twice};
ghost use Rattle.pddl_task.specs.Names.{with_name, is_among};
ghost use Rattle.pddl_task.specs.Faults.{IsFirst, IsTwice, fault_at};

use crate::fault::{Fault, FaultKind, earlier};
use crate::names::Names;
use crate::worded::Worded;
use flag_rules::OutOfMemory;
use pddl_parser::Word;
use std::alloc::Global;

/// The first item whose word is one of some names or that of an item before it.
pub(crate) fn first_twice<W: Worded>(
    alloc: Global,
    mut seen: Names,
    items: &[W],
) -> Result<Option<Fault>, OutOfMemory>
    ensures { IfOk result (IsFirst (IsTwice seen (map W.word items.now))) }
{
    let mut first = None;
    for item in items {
        let again = seen_again(alloc, &mut seen, item.word())?;
        first = earlier(first, again);
    }
    Ok(first)
}

/// The fault of a word that was seen before, and it is seen now.
fn seen_again(alloc: Global, seen: &mut Names, word: &Word) -> Result<Option<Fault>, OutOfMemory>
    ensures fault { IfOk result (λ fault. fault ≡
        (if is_among word.now.text seen.old then Some (fault_at Twice word.now) else None)) }
    ensures names { OnOk result (seen.new ≡ with_name seen.old word.now.text) }
{
    if seen.add(alloc, word.text.as_slice())? {
        return Ok(None);
    }
    Ok(Some(Fault::of(FaultKind::Twice, word)))
}
