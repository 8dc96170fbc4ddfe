ghost use Rattle.std.specs.Prelude.{◌≡◌, [], ◌<◌, ◌^◌, not, length, map, get_or, OnOk, IfOk};
ghost use Rattle.pddl_task.specs.Names.{with_name, with_names, number_of, is_among};
ghost use Rattle.pddl_task.specs.Types.{text_of};
ghost use Rattle.pddl_task.specs.Inner.Names.{place_among, different};

use crate::worded::Worded;
use flag_rules::OutOfMemory;
use indexmap::IndexSet;
use std::alloc::Global;
use std::marker::Model;

/// Different names, numbered from 0 in the order in which they were first added. Contracts see the list of the names.
#[derive(Drop)]
pub(crate) struct Names {
    names: IndexSet<Vec<u8>>,
}

impl Model for Names {
    ghost use Rattle.std.specs.Prelude.{List, ℕ, map, vec_items};

    ghost Value = { List (List ℕ) };

    ghost view = { λ table. map vec_items table.names.keys };
}

impl Names {
    /// No names.
    pub(crate) fn new(alloc: Global) -> Names
        ensures { result ≡ [] }
    {
        Names {
            names: IndexSet::new(alloc),
        }
    }

    /// The names of some items, each once.
    pub(crate) fn of<W: Worded>(alloc: Global, items: &[W]) -> Result<Names, OutOfMemory>
        ensures { IfOk result (λ names. names ≡ different (map text_of (map W.word items.now))) }
    {
        let mut names = Names::new(alloc);
        names.add_all(alloc, items)?;
        Ok(names)
    }

    /// Adds the names of some items.
    pub(crate) fn add_all<W: Worded>(
        &mut self,
        alloc: Global,
        items: &[W],
    ) -> Result<(), OutOfMemory>
        ensures { OnOk result (self.new ≡ with_names self.old (map text_of (map W.word items.now))) }
    {
        for item in items {
            self.add(alloc, item.word().text.as_slice())?;
        }
        Ok(())
    }

    /// Adds a name where it is not there yet, and tells whether that was so. A name that is there is not copied.
    pub(crate) fn add(&mut self, alloc: Global, name: &[u8]) -> Result<bool, OutOfMemory>
        ensures added { IfOk result (λ new. new ≡ not (is_among name.now self.old)) }
        ensures names { OnOk result (self.new ≡ with_name self.old name.now) }
    {
        if self.holds(name) {
            return Ok(false);
        }
        Ok(self.names.insert(Vec::from_slice(alloc, name)?)?)
    }

    /// The number of a name, if it is there.
    pub(crate) fn find(&self, name: &[u8]) -> Option<usize>
        ensures { result ≡ place_among self.now name.now }
    {
        self.names.get_index_of(name)
    }

    /// The number of a name; of a name that is not there, how many there are.
    pub(crate) fn number(&self, name: &[u8]) -> usize
        ensures { result ≡ number_of self.now name.now }
    {
        self.find(name).unwrap_or(self.len())
    }

    /// The same number in 32 bits, where there are not too many names.
    pub(crate) fn small_number(&self, name: &[u8]) -> u32
        requires { length self.now < 2 ^ 32 }
        ensures { result ≡ number_of self.now name.now }
    {
        self.number(name) as u32
    }

    /// Whether a name is there.
    pub(crate) fn holds(&self, name: &[u8]) -> bool
        ensures { result ≡ is_among name.now self.now }
    {
        self.names.contains(name)
    }

    /// How many names there are.
    pub(crate) fn len(&self) -> usize
        ensures { result ≡ length self.now }
    {
        self.names.len()
    }

    /// The name of a number.
    pub(crate) fn name(&self, number: usize) -> &[u8]
        requires { number < length self.now }
        ensures { result.now ≡ get_or self.now number [] }
    {
        self.names[number].as_slice()
    }
}
