ghost use Rattle.std.specs.Prelude.{Any, IfOk};
ghost use Rattle.pddl_task.specs.Faults.{IsFirst};

use crate::fault::{Fault, earlier};
use flag_rules::OutOfMemory;

/// A check of items of one kind, each of which may have faults.
pub(crate) trait Check<T> {
    ghost use Rattle.pddl_task.specs.declared.fault.Fault.{Fault};

    ghost IsFault: { Self → Fault → T → Type 0 };

    /// The first fault of an item.
    fn first_fault(&self, item: &T) -> Result<Option<Fault>, OutOfMemory>
        ensures { IfOk result (IsFirst (λ fault. IsFault self.now fault item.now)) };
}

/// The first fault of some items.
pub(crate) fn first_of<T, C: Check<T>>(check: &C, items: &[T]) -> Result<Option<Fault>, OutOfMemory>
    ensures { IfOk result (IsFirst (λ fault. Any (C.IsFault check.now fault) items.now)) }
{
    let mut first = None;
    for item in items {
        let of_item = check.first_fault(item)?;
        first = earlier(first, of_item);
    }
    Ok(first)
}
