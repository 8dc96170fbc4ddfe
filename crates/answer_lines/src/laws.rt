ghost use Rattle.std.specs.Prelude.{◌≡◌, ℕ, ◌<◌, ◌≤◌, ◌^◌, ◌++◌, List, IsTrue, All, codes, length};
ghost use Rattle.flag_rules.specs.Line.{then_number};
ghost use Rattle.program_text.specs.Names.{AreNames};
ghost use Rattle.refutation_tree.specs.declared.evidence.Mark.{Mark};
ghost use Rattle.refutation_tree.specs.declared.evidence.Outcome.{Outcome};
ghost use Rattle.refutation_tree.specs.declared.evidence.Answer.{Answer};
ghost use Rattle.refutation_tree.specs.Grammar.{IsGrammatical};
ghost use Rattle.answer_writer.specs.Document.{document_lines};
ghost use Rattle.answer_lines.specs.Cuts.{is_free_of};
ghost use Rattle.answer_lines.specs.Lines.{IsMarkOf, IsVerdictOf, IsLine, IsOperationLine};

use crate::MAX_PLAIN_LINE;

/// A law: a line is that of at most one mark.
pub fn one_mark()
    ensures { (instances : ℕ) (text : List ℕ) (one other : Mark) → instances < 2 ^ 8 →
        IsMarkOf instances text one → IsMarkOf instances text other → one ≡ other }
{}

/// A law: a line is the verdict of at most one outcome.
pub fn one_verdict()
    ensures { (lines instances : ℕ) (text : List ℕ) (one other : Outcome) → lines < 2 ^ 8 → instances < 2 ^ 8 →
        IsVerdictOf lines instances text one → IsVerdictOf lines instances text other → one ≡ other }
{}

/// A law: a line says at most one number after some words.
pub fn one_number()
    ensures { (words : List ℕ) (one other : ℕ) → one < 2 ^ 64 → other < 2 ^ 64 →
        words ++ then_number one ≡ words ++ then_number other → one ≡ other }
{}

/// A law: a line says after how many steps at most one run ends, on one instance.
pub fn one_ends()
    ensures { (t u one other : ℕ) → t < 2 ^ 64 → u < 2 ^ 64 → one < 2 ^ 64 → other < 2 ^ 64 →
        codes "ends" ++ then_number t ++ then_number one ≡ codes "ends" ++ then_number u ++ then_number other → (t ≡ u) × (one ≡ other) }
{}

/// A law: each line of a document is one that `IsLine` lists.
pub fn documents_are_of_lines()
    ensures { (texts : List (List ℕ)) (answer : Answer) → IsGrammatical (length texts) answer → All (IsLine texts) (document_lines texts answer) }
{}

/// A law: no line of a document has a line feed (10).
pub fn no_line_feed()
    ensures { (texts : List (List ℕ)) (text : List ℕ) → AreNames texts → IsLine texts text → IsTrue (is_free_of 10 text) }
{}

/// A law: a long line of a document is the text of an operation.
pub fn long_lines_are_operations()
    ensures { (texts : List (List ℕ)) (text : List ℕ) → IsLine texts text → MAX_PLAIN_LINE < length text → IsOperationLine texts text }
{}
