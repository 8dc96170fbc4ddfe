ghost use Rattle.std.specs.Prelude.{◌≡◌, ℕ, ◌+◌, ◌<◌, ◌≤◌, ◌^◌, [], length, slice_set, IfOk};
ghost use Rattle.state_pool.specs.Pool.{count_at};
ghost use Rattle.waiting_programs.specs.Inner.Holds.{times, AreDistinct, values_at, AreHeld, Exchanges};

use flag_rules::OutOfMemory;
use state_pool::{Pool, Slot};
use std::alloc::Global;
use std::mem;

/// A pool of values alone, each held once, and their slots in order.
pub(crate) fn keep_all<T: Drop>(
    alloc: Global,
    values: Vec<T>,
) -> Result<(Pool<T>, Vec<Slot>), OutOfMemory>
    ensures counts { IfOk result (λ made. (slot : ℕ) → count_at made.0 slot ≡ times slot made.1.items) }
    ensures values { IfOk result (λ made. values_at made.0 made.1.items ≡ values.items) }
    ensures distinct { IfOk result (λ made. AreDistinct made.1.items) }
{
    let mut pool = Pool::new(alloc);
    pool.reserve(values.len())?;
    let mut slots = Vec::with_capacity(alloc, values.len())?;
    for value in values {
        slots.push(pool.keep(value))?;
    }
    Ok((pool, slots))
}

/// Holds the value of each slot once more.
pub(crate) fn share_all<T>(pool: &mut Pool<T>, slots: &[Slot])
    requires held { AreHeld pool.old slots.now }
    requires fit { (slot : ℕ) → count_at pool.old slot + times slot slots.now < 2 ^ 32 }
    ensures shared { Exchanges pool.old pool.new [] slots.now }
    ensures spare { pool.new.spare ≡ pool.old.spare }
{
    for slot in slots {
        pool.share(*slot);
    }
}

/// Holds the value of each slot once less.
pub(crate) fn release_all<T: Drop>(pool: &mut Pool<T>, slots: &[Slot])
    requires held { AreHeld pool.old slots.now }
    ensures released { Exchanges pool.old pool.new slots.now [] }
    ensures spare { pool.old.spare ≤ pool.new.spare }
{
    for slot in slots {
        pool.release(*slot);
    }
}

/// Keeps a value in the place of one that a list names, which is held once less.
pub(crate) fn put_in_place<T: Drop>(pool: &mut Pool<T>, slots: &mut [Slot], place: usize, value: T)
    requires within { place < length slots.old }
    requires spare { 0 < pool.old.spare }
    requires held { AreHeld pool.old slots.old }
    requires distinct { AreDistinct slots.old }
    ensures exchanged { Exchanges pool.old pool.new slots.old slots.new }
    ensures values { values_at pool.new slots.new ≡ slice_set (values_at pool.old slots.old) place value }
    ensures distinct { AreDistinct slots.new }
    ensures spare { pool.old.spare ≤ pool.new.spare + 1 }
{
    let own = pool.keep(value);
    let shared = mem::replace(&mut slots[place], own);
    pool.release(shared);
}
