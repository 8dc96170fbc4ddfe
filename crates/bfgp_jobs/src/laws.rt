ghost use Rattle.std.specs.Prelude.{◌≡◌, ℕ, List as Sequence};
ghost use Rattle.bfgp_outside.specs.Shelf.{Files};
ghost use Rattle.bfgp_jobs.specs.declared.check.TheConstants.{MAX_DOCUMENT_BYTES};
ghost use Rattle.bfgp_jobs.specs.declared.process.TheConstants.{NO_WORDS};
ghost use Rattle.bfgp_jobs.specs.Reply.{Reply};
ghost use Rattle.bfgp_jobs.specs.Due.{Due};

/// A law: for the words of a command and the files there is one reply at most that is due.
pub fn at_most_one_reply_is_due()
    ensures { (words : Sequence (Sequence ℕ)) (files : Files) (one other : Reply) →
        Due words files one → Due words files other → one ≡ other }
{}

/// A law: the limit on documents, and the exit status of a process that does not get its words as text, as numbers.
pub fn limits()
    ensures document_bytes { MAX_DOCUMENT_BYTES ≡ 4294967296 }
    ensures no_words { NO_WORDS ≡ 9 }
{}
