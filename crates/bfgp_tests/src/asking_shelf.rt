//! A shelf over another one that writes down which files it is asked for.

ghost use Rattle.std.specs.Prelude.{◌≡◌};

use bfgp_outside::{Shelf, ShelfFault};
use flag_rules::{OutOfMemory, Text};
use std::alloc::Global;

/// The shelf that has the files, and what was asked of it.
#[derive(Drop)]
pub struct AskingShelf<S: Drop> {
    files: S,
    asked: Text,
    is_whole: bool,
    failed: u64,
}

impl<S: Drop> AskingShelf<S> {
    /// A shelf of these files that was asked for none.
    pub fn new(alloc: Global, files: S) -> AskingShelf<S> {
        AskingShelf {
            files,
            asked: Text::new(alloc),
            is_whole: true,
            failed: 0,
        }
    }

    /// The names of the files that were read from their first byte on, in order, each after a space; none where memory was
    /// wanting for them.
    pub fn asked(&self) -> Option<&[u8]> {
        self.is_whole.then_some(self.asked.as_slice())
    }

    /// How many reads failed.
    pub fn failed(&self) -> u64 {
        self.failed
    }

    // Writes a name down, where a file is read from its first byte on.
    fn write_down(&mut self, name: &[u8], from: u64)
        ensures { self.new.files ≡ self.old.files }
    {
        if from == 0 && append_word(&mut self.asked, name).is_err() {
            self.is_whole = false;
        }
    }

    fn count_failure(&mut self, answer: Result<usize, ShelfFault>)
        ensures { self.new.files ≡ self.old.files }
    {
        if let Err(ShelfFault::Failed) = answer {
            self.failed = self.failed.saturating_add(1);
        }
    }
}

fn append_word(text: &mut Text, word: &[u8]) -> Result<(), OutOfMemory> {
    text.push(b' ')?;
    text.append(word)
}

impl<S: Shelf + Drop> Shelf for AskingShelf<S> {
    ghost use Rattle.std.specs.Prelude.{None};

    ghost files = { λ shelf. S.files shelf.files };

    ghost faults = { λ shelf. S.faults shelf.files };

    ghost absences = { λ shelf. S.absences shelf.files };

    ghost asked = { λ _. None };

    fn read_at(&mut self, name: &[u8], from: u64, into: &mut [u8]) -> Result<usize, ShelfFault> {
        self.write_down(name, from);
        let answer = self.files.read_at(name, from, into);
        self.count_failure(answer);
        answer
    }
}
