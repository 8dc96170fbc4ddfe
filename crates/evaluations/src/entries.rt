ghost use Rattle.std.specs.Prelude.{◌≡◌, ◌<◌, ◌≤◌, [], ◌∷◌, ◌++◌, length};

use arrayvec::ArrayVec;
use std::marker::Model;

/// The greatest number of entries of a key.
pub const MAX_ENTRIES: usize = 6;

/// The key of a node: a short list of numbers. Contracts see that list. It takes no memory.
#[derive(Debug, Drop)]
pub struct Key {
    entries: ArrayVec<u64, MAX_ENTRIES>,
}

impl Model for Key {
    ghost use Rattle.std.specs.Prelude.{List, ℕ};

    ghost Value = { List ℕ };

    ghost view = { λ key. key.entries.items };
}

impl Key {
    /// The key of these entries.
    pub fn of(entries: &[u64]) -> Key
        requires { length entries.now ≤ MAX_ENTRIES }
        ensures { result ≡ entries.now }
    {
        let mut key = ArrayVec::new();
        key.try_extend_from_slice(entries).unwrap();
        Key { entries: key }
    }

    /// The key with no entry, which comes before all others.
    pub fn empty() -> Key
        ensures { result ≡ [] }
    {
        Key {
            entries: ArrayVec::new(),
        }
    }

    /// Puts an entry behind the others.
    pub(crate) fn push(&mut self, entry: u64)
        requires { length self.old < MAX_ENTRIES }
        ensures { self.new ≡ self.old ++ entry ∷ [] }
    {
        self.entries.push(entry);
    }

    /// The entries, in order.
    pub fn as_slice(&self) -> &[u64]
        ensures { result.now ≡ self.now }
    {
        self.entries.as_slice()
    }
}
