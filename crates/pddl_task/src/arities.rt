ghost use Rattle.std.specs.Prelude.{◌≡◌, [], ◌∷◌, ◌++◌, length, if◌then◌else◌, IfOk, OnOk};
ghost use Rattle.pddl_task.specs.Inner.Arities.{AreAritiesOf, arity_in};
ghost use Rattle.pddl_task.specs.Names.{with_name, is_among};

use crate::names::Names;
use flag_rules::OutOfMemory;
use pddl_parser::PredText;
use std::alloc::Global;

/// How many parameters the predicate of each name has, which is the first with that name.
#[derive(Drop)]
pub(crate) struct Arities {
    heads: Names,
    counts: Vec<usize>,
}

impl Arities {
    /// Those of some predicates.
    pub(crate) fn of(alloc: Global, predicates: &[PredText]) -> Result<Arities, OutOfMemory>
        ensures { IfOk result (AreAritiesOf predicates.now) }
    {
        let mut arities = Arities {
            heads: Names::new(alloc),
            counts: Vec::new(alloc),
        };
        for predicate in predicates {
            arities.note(alloc, predicate)?;
        }
        Ok(arities)
    }

    /// Notes a predicate where its name is new.
    fn note(&mut self, alloc: Global, predicate: &PredText) -> Result<(), OutOfMemory>
        ensures heads { OnOk result (self.new.heads ≡ with_name self.old.heads predicate.now.head.text) }
        ensures counts { OnOk result (self.new.counts.items ≡ (if is_among predicate.now.head.text self.old.heads
            then self.old.counts.items else self.old.counts.items ++ length predicate.now.params ∷ [])) }
    {
        if self.heads.add(alloc, predicate.head.text.as_slice())? {
            self.counts.push(predicate.params.len())?;
        }
        Ok(())
    }

    /// How many parameters the predicate of a name has, if there is one.
    pub(crate) fn count(&self, name: &[u8]) -> Option<usize>
        ensures { result ≡ arity_in self.now name.now }
    {
        self.counts.get(self.heads.number(name)).copied()
    }
}
