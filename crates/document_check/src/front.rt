ghost use Rattle.std.specs.Prelude.{◌≡◌, ◌+◌, ◌≤◌, ◌↔◌, ◌++◌, [], length, IfOk, IsTrue};

use flag_rules::OutOfMemory;
use std::alloc::Global;
use std::marker::Model;

/// The front of a line whose end did not come yet, in room that was made once.
#[derive(Drop)]
pub(crate) struct Front {
    bytes: Vec<u8>,
    filled: usize,
}

impl Model for Front {
    ghost use Rattle.std.specs.Prelude.{◌≤◌, length, take};
    ghost use Rattle.document_check.specs.Fronts.{LineFront};

    ghost Value = { LineFront };

    ghost view = { λ f. record { bytes = take f.filled f.bytes.items; room = length f.bytes.items } };

    ghost invariant = { λ f. f.filled ≤ length f.bytes.items };
}

impl Front {
    /// Room for a line of at most so many bytes.
    pub(crate) fn new(alloc: Global, room: usize) -> Result<Front, OutOfMemory>
        ensures bytes { IfOk result (λ front. front.bytes ≡ []) }
        ensures room { IfOk result (λ front. front.room ≡ room) }
    {
        let bytes = vec![in alloc; 0; room]?;
        Ok(Front { bytes, filled: 0 })
    }

    /// The bytes that came.
    pub(crate) fn as_slice(&self) -> &[u8]
        ensures { result.now ≡ self.now.bytes }
    {
        &self.bytes[..self.filled]
    }

    /// Whether none came.
    pub(crate) fn is_empty(&self) -> bool
        ensures { IsTrue result ↔ (self.now.bytes ≡ []) }
    {
        self.as_slice().is_empty()
    }

    /// Whether a line of so many bytes has room.
    pub(crate) fn has_room(&self, length: usize) -> bool
        ensures { IsTrue result ↔ (length ≤ self.now.room) }
    {
        length <= self.bytes.len()
    }

    /// Whether there is room for more bytes, which are added then.
    pub(crate) fn add(&mut self, more: &[u8]) -> bool
        ensures fits { IsTrue result ↔ (length self.old.bytes + length more.now ≤ self.old.room) }
        ensures bytes { IsTrue result → self.new.bytes ≡ self.old.bytes ++ more.now }
        ensures room { self.new.room ≡ self.old.room }
    {
        if more.len() > self.bytes.len() - self.filled {
            return false;
        }
        let from = self.filled;
        self.filled += more.len();
        self.bytes[from..self.filled].copy_from_slice(more);
        true
    }

    /// Forgets the bytes that came.
    pub(crate) fn clear(&mut self)
        ensures bytes { self.new.bytes ≡ [] }
        ensures room { self.new.room ≡ self.old.room }
    {
        self.filled = 0;
    }
}
