ghost use Rattle.std.specs.Prelude.{◌≡◌, ℕ, ◌+◌, ◌<◌, ◌≤◌, ◌^◌, All, [], length, IfOk, OnOk, OnErr};
ghost use Rattle.state_pool.specs.Pool.{count_at};
ghost use Rattle.waiting_programs.specs.Programs.{with_runs};
ghost use Rattle.waiting_programs.specs.Inner.Holds.{times, AreDistinct, values_at, AreHeld, Exchanges};

use crate::holds::{put_in_place, share_all};
use flag_rules::OutOfMemory;
use interpreter::Run;
use state_pool::{Pool, Slot};
use std::alloc::Global;

/// Keeps runs in the place of those on their instances.
fn put_runs<C: Drop>(pool: &mut Pool<Run<C>>, slots: &mut [Slot], moved: Vec<Run<C>>)
    requires among { All (λ run. run.instance < length slots.old) moved.items }
    requires spare { length moved.items ≤ pool.old.spare }
    requires held { AreHeld pool.old slots.old }
    requires distinct { AreDistinct slots.old }
    ensures exchanged { Exchanges pool.old pool.new slots.old slots.new }
    ensures runs { values_at pool.new slots.new ≡ with_runs (values_at pool.old slots.old) moved.items }
    ensures distinct { AreDistinct slots.new }
    ensures spare { pool.old.spare ≤ pool.new.spare + length moved.items }
{
    for run in moved {
        let place = run.instance() as usize;
        put_in_place(pool, slots, place, run);
    }
}

/// The slots of a child: it shares the runs at its parent's slots, but for those that moved, which it keeps at slots of its own.
pub(crate) fn share_and_move<C: Drop>(
    alloc: Global,
    pool: &mut Pool<Run<C>>,
    slots: &[Slot],
    moved: Vec<Run<C>>,
) -> Result<Vec<Slot>, OutOfMemory>
    requires among { All (λ run. run.instance < length slots.now) moved.items }
    requires spare { length moved.items ≤ pool.old.spare }
    requires held { AreHeld pool.old slots.now }
    requires fit { (slot : ℕ) → count_at pool.old slot + times slot slots.now < 2 ^ 32 }
    requires distinct { AreDistinct slots.now }
    ensures taken { IfOk result (λ own. Exchanges pool.old pool.new [] own.items) }
    ensures runs { IfOk result (λ own. values_at pool.new own.items ≡ with_runs (values_at pool.old slots.now) moved.items) }
    ensures distinct { IfOk result (λ own. AreDistinct own.items) }
    ensures spare { OnOk result (pool.old.spare ≤ pool.new.spare + length moved.items) }
    ensures refused { OnErr result (pool.new ≡ pool.old) }
{
    let mut own = Vec::from_slice(alloc, slots)?;
    share_all(pool, own.as_slice());
    put_runs(pool, own.as_mut_slice(), moved);
    Ok(own)
}
