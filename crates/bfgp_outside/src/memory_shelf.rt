ghost use Rattle.std.specs.Prelude.{◌≡◌, [], ◌∷◌, ◌++◌, length, take, drop, OnOk, OnErr};
ghost use Rattle.std.specs.Option.{option_copied};
ghost use Rattle.std.specs.FinMap.{empty, insert, get};
ghost use Rattle.bfgp_outside.specs.Inner.Held.{files_of};
ghost use Rattle.bfgp_outside.specs.MemoryShelf.{next_read, count_of, filled, after_read};

use crate::{Shelf, ShelfFault};
use flag_rules::{OutOfMemory, Text};
use std::alloc::Global;
use std::marker::Model;

/// A file that is held under a name.
#[derive(Drop)]
struct Held {
    name: Text,
    bytes: Text,
}

/// A shelf in memory, whose reads can be made to fail. Reads are numbered from 0.
#[derive(Drop)]
pub struct MemoryShelf {
    alloc: Global,
    /// The newest first: of a name the first one counts.
    held: Vec<Held>,
    failing: Vec<u64>,
    reads: u64,
    faults: u64,
    absences: u64,
}

impl Model for MemoryShelf {
    ghost use Rattle.bfgp_outside.specs.Inner.Held.{files_of};
    ghost use Rattle.bfgp_outside.specs.MemoryShelf.{ShelfState, shelf_code};

    ghost Value = { ShelfState };

    ghost coded = { shelf_code };

    ghost view = { λ shelf. record {
      held = files_of shelf.held.items;
      failing = shelf.failing.items;
      reads = shelf.reads;
      faults = shelf.faults;
      absences = shelf.absences;
    } };
}

impl MemoryShelf {
    /// A shelf that holds nothing, none of whose reads fail.
    pub fn new(alloc: Global) -> MemoryShelf
        ensures { result ≡ record { held = empty; failing = []; reads = 0; faults = 0; absences = 0 } }
    {
        MemoryShelf {
            alloc,
            held: Vec::new(alloc),
            failing: Vec::new(alloc),
            reads: 0,
            faults: 0,
            absences: 0,
        }
    }

    /// Puts a file under a name, in place of one that is held there.
    pub fn add(&mut self, name: &[u8], bytes: &[u8]) -> Result<(), OutOfMemory>
        ensures ok { OnOk result
            (self.new ≡ record self.old { held = insert self.old.held name.now bytes.now }) }
        ensures err { OnErr result (self.new ≡ self.old) }
    {
        let held = Held {
            name: Text::of(self.alloc, name)?,
            bytes: Text::of(self.alloc, bytes)?,
        };
        self.held.insert(0, held)?;
        Ok(())
    }

    /// Makes the read of a number fail. Reads are numbered from 0, and each call is one.
    pub fn fail_at(&mut self, call: u64) -> Result<(), OutOfMemory>
        ensures ok { OnOk result (self.new ≡ record self.old { failing = self.old.failing ++ call ∷ [] }) }
        ensures err { OnErr result (self.new ≡ self.old) }
    {
        self.failing.push(call)?;
        Ok(())
    }
}

// The bytes of the first file of a name.
fn bytes_of<'a>(held: &'a [Held], name: &[u8]) -> Option<&'a [u8]>
    ensures { option_copied result ≡ get (files_of held.now) name.now }
{
    for file in held {
        if file.name.as_slice() == name {
            return Some(file.bytes.as_slice());
        }
    }
    None
}

// Copies the bytes from a place on, as many as there is room for, and answers how many these were.
fn copy_from(bytes: &[u8], from: u64, into: &mut [u8]) -> usize
    ensures count { result ≡ length (take (length into.old) (drop from bytes.now)) }
    ensures filled { into.new ≡ take (length into.old) (drop from bytes.now) ++ drop result into.old }
{
    let from = bytes.len().min(from as usize);
    let rest = &bytes[from..];
    let count = rest.len().min(into.len());
    into[..count].copy_from_slice(&rest[..count]);
    count
}

impl Shelf for MemoryShelf {
    ghost use Rattle.std.specs.Prelude.{Some, None};
    ghost use Rattle.std.specs.FinMap.{get};

    ghost files = { λ shelf. Some (get shelf.held) };

    ghost faults = { λ shelf. shelf.faults };

    ghost absences = { λ shelf. shelf.absences };

    ghost asked = { λ _. None };

    /// Reads a file that is held, as many bytes as there is room for. It fails where the read's number
    /// was given to `fail_at`.
    fn read_at(&mut self, name: &[u8], from: u64, into: &mut [u8]) -> Result<usize, ShelfFault>
        ensures answer { result ≡ count_of (next_read self.old name.now from (length into.old)) }
        ensures filled { into.new ≡
            filled (next_read self.old name.now from (length into.old)) into.old }
        ensures after { self.new ≡ after_read self.old result }
    {
        let fails = self.failing.contains(&self.reads);
        self.reads = self.reads.saturating_add(1);
        if fails {
            self.faults = self.faults.saturating_add(1);
            return Err(ShelfFault::Failed);
        }
        match bytes_of(&self.held, name) {
            Some(bytes) => Ok(copy_from(bytes, from, into)),
            None => {
                self.absences = self.absences.saturating_add(1);
                Err(ShelfFault::Absent)
            }
        }
    }
}
