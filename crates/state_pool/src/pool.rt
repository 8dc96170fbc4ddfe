ghost use Rattle.std.specs.Prelude.{◌≡◌, ◌+◌, ◌<◌, ◌≤◌, ◌^◌, ◌==◌, [], Some, None, if◌then◌else◌, OnOk};
ghost use Rattle.state_pool.specs.Pool.{value_at, count_at, IsLive, live_count, ChangesOnly};

use crate::held::Held;
use flag_rules::OutOfMemory;
use slab::Slab;
use std::alloc::Global;
use std::marker::Model;

/// The number of a slot. Only a pool makes one, where it keeps a value.
#[derive(Clone, Copy, Debug, PartialEq, Eq)]
pub struct Slot {
    place: usize,
}

impl Model for Slot {
    ghost use Rattle.std.specs.Prelude.{ℕ};

    ghost Value = { ℕ };

    ghost view = { λ s. s.place };

    ghost inverse = { λ place. record { place = place } };
}

/// Values with counts. Contracts see what stands at each slot, and how many more values may be kept before memory is needed.
#[derive(Drop)]
pub struct Pool<T> {
    entries: Slab<Held<T>>,
}

impl<T> Model for Pool<T> {
    ghost use Rattle.std.specs.Prelude.{◌-◌};
    ghost use Rattle.slab.specs.Slab.{slab_len};
    ghost use Rattle.state_pool.specs.Pool.{Pool as Slots};

    ghost Value = { Slots T };

    ghost use Rattle.state_pool.specs.Inner.Entries.{AreCounted};

    ghost view = { λ p. record { slots = p.entries.slots; spare = p.entries.capacity - slab_len p.entries } };

    ghost invariant = { λ p. AreCounted p.entries.slots };
}

impl<T> Pool<T> {
    /// A pool without values, which takes its memory from `alloc` where it is reserved.
    pub fn new(alloc: Global) -> Pool<T>
        ensures { result.slots ≡ [] }
    {
        Pool {
            entries: Slab::new(alloc),
        }
    }

    /// Makes room for at least so many more values.
    pub fn reserve(&mut self, n: usize) -> Result<(), OutOfMemory>
        ensures room { OnOk result (n ≤ self.new.spare) }
        ensures spare { self.old.spare ≤ self.new.spare }
        ensures slots { self.new.slots ≡ self.old.slots }
    {
        self.entries.reserve(n)?;
        Ok(())
    }

    /// Keeps a value at a slot that was not live, where it is held once. It takes no memory.
    pub fn keep(&mut self, value: T) -> Slot
        requires spare { 0 < self.old.spare }
        ensures fresh { count_at self.old result ≡ 0 }
        ensures value { value_at self.new result ≡ Some value }
        ensures count { count_at self.new result ≡ 1 }
        ensures others { ChangesOnly self.old self.new result }
        ensures spare { self.new.spare + 1 ≡ self.old.spare }
    {
        Slot {
            place: self.entries.insert_reserved(Held { value, count: 1 }),
        }
    }

    /// Holds the value of a slot once more.
    pub fn share(&mut self, slot: Slot)
        requires live { IsLive self.old slot }
        requires fits { count_at self.old slot + 1 < 2 ^ 32 }
        ensures value { value_at self.new slot ≡ value_at self.old slot }
        ensures count { count_at self.new slot ≡ count_at self.old slot + 1 }
        ensures others { ChangesOnly self.old self.new slot }
        ensures spare { self.new.spare ≡ self.old.spare }
    {
        self.entries[slot.place].count += 1;
    }

    /// Holds the value of a slot once less. The value comes out where it is held no more.
    pub fn release(&mut self, slot: Slot) -> Option<T>
        requires live { IsLive self.old slot }
        ensures count { count_at self.new slot + 1 ≡ count_at self.old slot }
        ensures out { result ≡ (if count_at self.new slot == 0 then value_at self.old slot else None) }
        ensures value { IsLive self.new slot → value_at self.new slot ≡ value_at self.old slot }
        ensures others { ChangesOnly self.old self.new slot }
        ensures spare { self.old.spare ≤ self.new.spare }
    {
        let held = &mut self.entries[slot.place];
        held.count -= 1;
        if held.count > 0 {
            return None;
        }
        Some(self.entries.remove(slot.place).value)
    }

    /// The value of a slot.
    pub fn get(&self, slot: Slot) -> &T
        requires { IsLive self.now slot }
        ensures { value_at self.now slot ≡ Some result.now }
    {
        &self.entries[slot.place].value
    }

    /// How often the value of a slot is held.
    pub fn held(&self, slot: Slot) -> u32
        requires { IsLive self.now slot }
        ensures { result ≡ count_at self.now slot }
    {
        self.entries[slot.place].count
    }

    /// How many slots are live.
    pub fn count(&self) -> usize
        ensures { result ≡ live_count self.now }
    {
        self.entries.len()
    }
}
