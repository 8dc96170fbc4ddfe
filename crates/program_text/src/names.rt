ghost use Rattle.std.specs.Prelude.{◌≡◌, ◌<◌, ◌≤◌, [], length, map, slice_get, slice_index_or, Some, Contains, IfSome, IfNone, IfOk};
ghost use Rattle.program_text.specs.Names.{AreNames};

use flag_rules::{List, OutOfMemory, Text};
use indexmap::IndexSet;
use program_model::MAX_OPS;
use std::alloc::Global;
use std::marker::Model;

/// The texts of a machine's operations, numbered as the operations are. A text is found by hashing. Contracts see the list
/// of the texts.
#[derive(Drop)]
pub struct Names {
    texts: IndexSet<Vec<u8>>,
}

impl Model for Names {
    ghost use Rattle.std.specs.Prelude.{List, ℕ, map, vec_items};
    ghost use Rattle.program_text.specs.Names.{AreNames};

    ghost Value = { List (List ℕ) };

    ghost view = { λ names. map vec_items names.texts.keys };

    ghost invariant = { λ names. AreNames (map vec_items names.texts.keys) };
}

impl Names {
    /// The names with these texts, in order.
    pub fn build(alloc: Global, texts: List<Text>) -> Result<Names, OutOfMemory>
        requires { AreNames texts }
        ensures { IfOk result (λ names. names ≡ texts) }
    {
        let mut names = IndexSet::new(alloc);
        for text in texts.into_vec() {
            names.insert(text.into_vec())?;
        }
        Ok(Names { texts: names })
    }

    /// How many names there are.
    pub fn count(&self) -> u32
        ensures count { result ≡ length self.now }
        ensures some { 0 < length self.now }
        ensures few { length self.now ≤ MAX_OPS }
        ensures are_names { AreNames self.now }
    {
        self.texts.len() as u32
    }

    /// The operation with a text, if there is one.
    pub fn find(&self, text: &[u8]) -> Option<u32>
        ensures some { IfSome result (λ op. slice_get self.now op ≡ Some text.now) }
        ensures none { IfNone result (¬ Contains self.now text.now) }
    {
        let place = self.texts.get_index_of(text)?;
        Some(place as u32)
    }

    /// The text of an operation.
    pub fn text(&self, op: u32) -> &[u8]
        requires { op < length self.now }
        ensures { result.now ≡ slice_index_or self.now op [] }
    {
        self.texts[op as usize].as_slice()
    }
}
