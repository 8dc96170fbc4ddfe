ghost use Rattle.std.specs.Prelude.{◌≡◌};

use pddl_parser::{ActionText, PredText, Typed, Word};

/// What stands in a text under a word of its own.
pub(crate) trait Worded {
    ghost use Rattle.pddl_forms.specs.declared.texts.Word.{Word};

    ghost word: { Self → Word };

    fn word(&self) -> &Word
        ensures { result.now ≡ word self.now };
}

impl Worded for Typed {
    ghost use Rattle.pddl_task.specs.Types.{word_of};

    ghost word = { word_of };

    fn word(&self) -> &Word {
        &self.word
    }
}

impl Worded for PredText {
    ghost use Rattle.pddl_task.specs.Faults.{head_of};

    ghost word = { head_of };

    fn word(&self) -> &Word {
        &self.head
    }
}

impl Worded for ActionText {
    ghost use Rattle.pddl_task.specs.Faults.{action_word};

    ghost word = { action_word };

    fn word(&self) -> &Word {
        &self.name
    }
}
