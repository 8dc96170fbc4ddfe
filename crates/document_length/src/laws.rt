ghost use Rattle.std.specs.Prelude.{◌≡◌, ℕ, ◌≤◌, List, All, length};
ghost use Rattle.program_text.specs.Names.{AreNames};
ghost use Rattle.refutation_tree.specs.declared.ranges.TheConstants.{MAX_SPLITS};
ghost use Rattle.refutation_tree.specs.declared.evidence.Answer.{Answer};
ghost use Rattle.refutation_tree.specs.Grammar.{IsGrammatical};
ghost use Rattle.refutation_tree.specs.Splits.{splits_of};
ghost use Rattle.answer_writer.specs.Document.{document};

use crate::{MAX_DOCUMENT_LENGTH, MAX_TEXT_LENGTH};

/// A law: the lengths, as numbers.
pub fn limits()
    ensures text { MAX_TEXT_LENGTH ≡ 16777216 }
    ensures document { MAX_DOCUMENT_LENGTH ≡ 4294967296 }
{}

/// A law: the document of an answer of the grammar is not longer than `MAX_DOCUMENT_LENGTH`, where its trees tell no more splits
/// than a search may make, and the texts of the operations are not too long.
pub fn documents_fit()
    ensures { (texts : List (List ℕ)) (answer : Answer) → AreNames texts → IsGrammatical (length texts) answer →
        splits_of answer.trees ≤ MAX_SPLITS → All (λ text. length text ≤ MAX_TEXT_LENGTH) texts →
        length (document texts answer) ≤ MAX_DOCUMENT_LENGTH }
{}
