ghost use Rattle.std.specs.Prelude.{◌≡◌, ℕ, List as Sequence, Result as Answer};
ghost use Rattle.flag_rules.specs.declared.file.TheConstants.{MAX_FILE_BYTES};
ghost use Rattle.pddl_parser.specs.Replies.{IsDomainText, IsProblemText, HasDomainReply, HasProblemReply};
ghost use Rattle.pddl_parser.specs.Spelled.{IsDomainSpelled, IsProblemSpelled, IsDomainWithin, IsProblemWithin};
ghost use Rattle.pddl_parser.specs.declared.refusal.ParseRefusal.{ParseRefusal as Refusal};
ghost use Rattle.pddl_parser.specs.declared.texts.DomainText.{DomainText as Domain};
ghost use Rattle.pddl_parser.specs.declared.texts.ProblemText.{ProblemText as Problem};

/// A law: as a domain, bytes have exactly one answer: their text, or their refusal.
pub fn one_domain_reply()
    ensures some { (bytes : Sequence ℕ) → (reply : Answer Domain Refusal) × HasDomainReply bytes reply }
    ensures one { (bytes : Sequence ℕ) (one other : Answer Domain Refusal) → HasDomainReply bytes one → HasDomainReply bytes other → one ≡ other }
{}

/// A law: as a problem, bytes have exactly one answer: their text, or their refusal.
pub fn one_problem_reply()
    ensures some { (bytes : Sequence ℕ) → (reply : Answer Problem Refusal) × HasProblemReply bytes reply }
    ensures one { (bytes : Sequence ℕ) (one other : Answer Problem Refusal) → HasProblemReply bytes one → HasProblemReply bytes other → one ≡ other }
{}

/// A law: the words of a domain that was read are names in lower case, variables and keywords, and
/// its lists are no longer than a text.
pub fn domain_is_spelled()
    ensures spelled { (d : Domain) → IsDomainText d → IsDomainSpelled d }
    ensures within { (d : Domain) → IsDomainText d → IsDomainWithin MAX_FILE_BYTES d }
{}

/// A law: the words of a problem that was read are names in lower case and keywords, and its lists
/// are no longer than a text.
pub fn problem_is_spelled()
    ensures spelled { (p : Problem) → IsProblemText p → IsProblemSpelled p }
    ensures within { (p : Problem) → IsProblemText p → IsProblemWithin MAX_FILE_BYTES p }
{}
