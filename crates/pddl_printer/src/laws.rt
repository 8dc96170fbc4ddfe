ghost use Rattle.std.specs.Prelude.{◌≡◌, Result as Answer, MatchResult};
ghost use Rattle.pddl_parser.specs.declared.refusal.ParseRefusal.{ParseRefusal};
ghost use Rattle.pddl_parser.specs.declared.refusal.ParseRefusal.TheVariants.{OutOfMemory};
ghost use Rattle.pddl_parser.specs.declared.texts.DomainText.{DomainText};
ghost use Rattle.pddl_parser.specs.declared.texts.ProblemText.{ProblemText};
ghost use Rattle.pddl_parser.specs.Spelled.{IsDomainSpelled, IsProblemSpelled};
ghost use Rattle.pddl_parser.specs.Replies.{HasDomain, HasProblem, IsDomainReply, IsProblemReply};
ghost use Rattle.pddl_printer.specs.Alike.{AlikeDomain, AlikeProblem};
ghost use Rattle.pddl_printer.specs.Printing.{printed_domain, printed_problem};

/// A law: the bytes of a domain that is printed are those of a domain that says the same, and
/// where they are read, the answer is such a domain, or want of memory.
pub fn printed_domain_reads()
    ensures has { (domain : DomainText) → IsDomainSpelled domain →
        (read : DomainText) × AlikeDomain domain read × HasDomain (printed_domain domain) read }
    ensures read { (domain : DomainText) → IsDomainSpelled domain → (reply : Answer DomainText ParseRefusal) →
        IsDomainReply (printed_domain domain) reply → MatchResult reply (AlikeDomain domain) (λ refusal. refusal ≡ OutOfMemory) }
{}

/// A law: the bytes of a problem that is printed are those of a problem that says the same, and
/// where they are read, the answer is such a problem, or want of memory.
pub fn printed_problem_reads()
    ensures has { (problem : ProblemText) → IsProblemSpelled problem →
        (read : ProblemText) × AlikeProblem problem read × HasProblem (printed_problem problem) read }
    ensures read { (problem : ProblemText) → IsProblemSpelled problem → (reply : Answer ProblemText ParseRefusal) →
        IsProblemReply (printed_problem problem) reply → MatchResult reply (AlikeProblem problem) (λ refusal. refusal ≡ OutOfMemory) }
{}
