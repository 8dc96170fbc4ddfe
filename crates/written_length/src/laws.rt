ghost use Rattle.std.specs.Prelude.{ℕ, ◌≤◌, List, All, length, Ok};
ghost use Rattle.bfgp_outside.specs.Shelf.{Files};
ghost use Rattle.program_model.specs.declared.machine.TheConstants.{MAX_POINTERS};
ghost use Rattle.refutation_tree.specs.declared.evidence.Answer.{Answer};
ghost use Rattle.refutation_tree.specs.Splits.{splits_of};
ghost use Rattle.pointer_machine.specs.Machine.{MachineParts};
ghost use Rattle.pointer_machine.specs.Texts.{operation_texts};
ghost use Rattle.synthesis.specs.Search.{Setting};
ghost use Rattle.synthesis.specs.Answers.{IsAnswer};
ghost use Rattle.command_words.specs.declared.job.Inputs.{Inputs};
ghost use Rattle.input_reading.specs.Inputs.{machine_due};
ghost use Rattle.document_length.specs.declared.lengths.TheConstants.{MAX_TEXT_LENGTH};

/// A law over all machines: the trees of an answer tell no more splits than the budget of the search.
pub fn searches_split_within_their_budget<C>()
    ensures { (setting : Setting C) (budget lines : ℕ) (answer : Answer) →
        IsAnswer setting budget lines answer → splits_of answer.trees ≤ budget }
{}

/// A law: the texts of the operations of a machine that is made of input files are not too long for a document.
pub fn operation_texts_are_short()
    ensures { (files : Files) (inputs : Inputs) (pointers : ℕ) (machine : MachineParts) →
        pointers ≤ MAX_POINTERS → machine_due files inputs pointers (Ok machine) →
        All (λ text. length text ≤ MAX_TEXT_LENGTH) (operation_texts machine.task machine.pointers) }
{}
