ghost use Rattle.std.specs.Prelude.{◌≡◌, IfOk};

use crate::texts::Word;
use flag_rules::OutOfMemory;
use std::alloc::Global;
use std::marker::Model;
use std::rc::Rc;

/// A word that is held once, however many share it. Contracts see it as the word.
#[derive(Debug, Drop)]
pub struct SharedWord {
    shared: Rc<Word>,
}

impl Model for SharedWord {
    ghost use Rattle.pddl_forms.specs.declared.texts.Word.{Word as Whole};

    ghost Value = { Whole };

    ghost view = { λ word. word.shared.value };
}

impl SharedWord {
    /// The word, which others may now share.
    pub fn new(alloc: Global, word: Word) -> Result<SharedWord, OutOfMemory>
        ensures { IfOk result (λ shared. shared ≡ word) }
    {
        Ok(SharedWord {
            shared: Rc::new(alloc, word)?,
        })
    }

    /// The word itself.
    pub fn word(&self) -> &Word
        ensures { result.now ≡ self.now }
    {
        self.shared.as_ref()
    }

    /// One more holder of the same word. It takes no memory: want of it is answered only where there are as many holders as can
    /// be counted.
    pub fn share(&self) -> Result<SharedWord, OutOfMemory>
        ensures { IfOk result (λ shared. shared ≡ self.now) }
    {
        Ok(SharedWord {
            shared: self.shared.clone()?,
        })
    }
}
