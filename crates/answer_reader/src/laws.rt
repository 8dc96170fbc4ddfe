ghost use Rattle.std.specs.Prelude.{◌≡◌, ◌≢◌, ℕ, List, length, Result, Ok, Err};
ghost use Rattle.program_text.specs.Names.{AreNames};
ghost use Rattle.refutation_tree.specs.declared.evidence.Answer.{Answer};
ghost use Rattle.refutation_tree.specs.Grammar.{IsGrammatical};
ghost use Rattle.answer_writer.specs.Document.{document};
ghost use Rattle.answer_reader.specs.declared.refusal.AnswerRefusal.{AnswerRefusal};
ghost use Rattle.answer_reader.specs.declared.refusal.AnswerRefusal.TheVariants.{OutOfMemory};
ghost use Rattle.answer_reader.specs.Reading.{Reads};

/// A law: an answer that is written is read back as it was, but for want of memory.
pub fn written_answers_read_back()
    ensures { (texts : List (List ℕ)) (answer : Answer) (result : Result Answer AnswerRefusal) →
        AreNames texts → IsGrammatical (length texts) answer →
        Reads texts (document texts answer) result → result ≢ Err OutOfMemory → result ≡ Ok answer }
{}

/// A law: bytes are the document of at most one answer, or go astray at one line, but for want of memory.
pub fn one_answer()
    ensures { (texts : List (List ℕ)) (bytes : List ℕ) (one other : Result Answer AnswerRefusal) →
        AreNames texts → Reads texts bytes one → Reads texts bytes other →
        one ≢ Err OutOfMemory → other ≢ Err OutOfMemory → one ≡ other }
{}
