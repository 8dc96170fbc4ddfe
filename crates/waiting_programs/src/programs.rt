ghost use Rattle.std.specs.Prelude.{◌≡◌, ◌≢◌, ℕ, ◌+◌, ◌<◌, ◌≤◌, ◌^◌, Some, None, length, slice_get, IfOk, OnOk, OnErr, IfSome, IsSomeAnd, IsSome};
ghost use Rattle.program_model.specs.declared.alphabet.TheConstants.{MAX_LINES};
ghost use Rattle.program_model.specs.Program.{empty, IsOpen};
ghost use Rattle.waiting_programs.specs.Programs.{kept_at, kept_count, Becomes, child_of, AreAmong};

use crate::holds::{keep_all, release_all};
use crate::kept::Kept;
use crate::moves::share_and_move;
use flag_rules::OutOfMemory;
use interpreter::Run;
use partial_program::Chain;
use program_model::{Instr, Partial};
use slab::Slab;
use state_pool::Pool;
use std::alloc::Global;
use std::marker::Model;

/// The number of a program that waits. After the program was given up another may get it.
#[derive(Clone, Copy, Debug, PartialEq, Eq)]
pub struct WaitingId {
    place: usize,
}

impl Model for WaitingId {
    ghost use Rattle.std.specs.Prelude.{ℕ};

    ghost Value = { ℕ };

    ghost view = { λ id. id.place };

    ghost inverse = { λ place. record { place = place } };
}

/// Partial programs of as many lines each that wait, with their runs. Contracts see the program and the runs of each, and for
/// how many more programs, and more runs, there is room.
#[derive(Drop)]
pub struct WaitingPrograms<C: Drop> {
    chain: Chain,
    runs: Pool<Run<C>>,
    kept: Slab<Kept>,
}

impl<C: Drop> Model for WaitingPrograms<C> {
    ghost use Rattle.std.specs.Prelude.{◌-◌, min};
    ghost use Rattle.slab.specs.Slab.{slab_len};
    ghost use Rattle.waiting_programs.specs.Programs.{Programs};

    ghost Value = { Programs C };

    ghost use Rattle.waiting_programs.specs.Inner.Sharing.{seen, AreShared};

    ghost view = { λ p. record {
      kept = seen p.chain.nodes p.runs p.kept.slots;
      room = min p.chain.spare (p.kept.capacity - slab_len p.kept);
      run_room = p.runs.spare;
    } };

    ghost invariant = { λ p. AreShared p.chain.nodes p.runs p.kept.slots };
}

impl<C: Drop> WaitingPrograms<C> {
    /// The empty program of so many lines alone, with its runs; and its number.
    pub fn new(
        alloc: Global,
        lines: u8,
        runs: Vec<Run<C>>,
    ) -> Result<(WaitingPrograms<C>, WaitingId), OutOfMemory>
        requires some { 0 < lines }
        requires few { lines ≤ MAX_LINES }
        ensures made { IfOk result (λ made. kept_at made.0.kept made.1 ≡ Some (record { program = empty lines; runs = runs.items })) }
        ensures alone { IfOk result (λ made. (other : ℕ) → other ≢ made.1 → kept_at made.0.kept other ≡ None) }
        ensures count { IfOk result (λ made. kept_count made.0.kept ≡ 1) }
    {
        let chain = Chain::new(alloc, lines)?;
        let (runs, slots) = keep_all(alloc, runs)?;
        let node = chain.root();
        let mut kept = Slab::with_capacity(alloc, 1)?;
        let place = kept.insert_reserved(Kept { node, slots });
        let programs = WaitingPrograms { chain, runs, kept };
        Ok((programs, WaitingId { place }))
    }

    /// Makes room for at least so many more programs, and so many more runs.
    pub fn reserve(&mut self, programs: usize, runs: usize) -> Result<(), OutOfMemory>
        ensures room { OnOk result (programs ≤ self.new.room) }
        ensures run_room { OnOk result (runs ≤ self.new.run_room) }
        ensures no_less_room { self.old.room ≤ self.new.room }
        ensures no_less_run_room { self.old.run_room ≤ self.new.run_room }
        ensures kept { self.new.kept ≡ self.old.kept }
    {
        self.chain.reserve(programs)?;
        self.kept.reserve(programs)?;
        self.runs.reserve(runs)?;
        Ok(())
    }

    /// Keeps the child of a program, which has an instruction on a line that is undefined in its parent. The runs that moved stand
    /// in place of its parent's on their instances; it shares the others. Where there is no memory for the list of its runs, nothing
    /// is kept, and all is as before.
    pub fn child(
        &mut self,
        alloc: Global,
        parent: WaitingId,
        line: u8,
        instr: Instr,
        moved: Vec<Run<C>>,
    ) -> Result<WaitingId, OutOfMemory>
        requires open { IsSomeAnd (kept_at self.old.kept parent) (λ waiting. IsOpen waiting.program line) }
        requires among { IsSomeAnd (kept_at self.old.kept parent) (λ waiting. AreAmong waiting.runs moved.items) }
        requires room { 0 < self.old.room }
        requires run_room { length moved.items ≤ self.old.run_room }
        requires few { kept_count self.old.kept + 1 < 2 ^ 32 }
        ensures fresh { IfOk result (λ id. kept_at self.old.kept id ≡ None) }
        ensures kept { IfOk result (λ id. IfSome (kept_at self.old.kept parent) (λ waiting.
            Becomes self.old.kept self.new.kept id (Some (child_of waiting line instr moved.items)))) }
        ensures count { OnOk result (kept_count self.new.kept ≡ kept_count self.old.kept + 1) }
        ensures room { OnOk result (self.new.room + 1 ≡ self.old.room) }
        ensures run_room { OnOk result (self.old.run_room ≤ self.new.run_room + length moved.items) }
        ensures refused { OnErr result (self.new ≡ self.old) }
    {
        let above = &self.kept[parent.place];
        let slots = share_and_move(alloc, &mut self.runs, above.slots.as_slice(), moved)?;
        let node = self.chain.child(above.node, line, instr);
        let place = self.kept.insert_reserved(Kept { node, slots });
        Ok(WaitingId { place })
    }

    /// Gives up a program. Those of its runs that no other shares are gone with it.
    pub fn release(&mut self, id: WaitingId)
        requires { IsSome (kept_at self.old.kept id) }
        ensures kept { Becomes self.old.kept self.new.kept id None }
        ensures count { kept_count self.new.kept + 1 ≡ kept_count self.old.kept }
        ensures room { self.old.room ≤ self.new.room }
        ensures run_room { self.old.run_room ≤ self.new.run_room }
    {
        let Kept { node, slots } = self.kept.remove(id.place);
        release_all(&mut self.runs, slots.as_slice());
        self.chain.release(node);
    }

    /// A program that waits.
    pub fn program(&self, id: WaitingId) -> Partial
        requires { IsSome (kept_at self.now.kept id) }
        ensures { IfSome (kept_at self.now.kept id) (λ waiting. result ≡ waiting.program) }
    {
        let mut program = Partial::empty(1);
        self.chain
            .write_into(self.kept[id.place].node, &mut program);
        program
    }

    /// The run of a program on an instance.
    pub fn run(&self, id: WaitingId, t: u8) -> &Run<C>
        requires { IsSomeAnd (kept_at self.now.kept id) (λ waiting. t < length waiting.runs) }
        ensures { IfSome (kept_at self.now.kept id) (λ waiting. slice_get waiting.runs t ≡ Some result.now) }
    {
        self.runs.get(self.kept[id.place].slots[t as usize])
    }
}
