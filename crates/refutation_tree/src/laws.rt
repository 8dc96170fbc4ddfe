ghost use Rattle.std.specs.Prelude.{◌≡◌, ℕ, List};
ghost use Rattle.program_model.specs.Semantics.{Semantics};
ghost use Rattle.program_model.specs.Program.{Program, IsPartial, Completes};
ghost use Rattle.program_model.specs.Run.{SolvesAll};
ghost use Rattle.refutation_tree.specs.declared.evidence.Mark.{Mark};
ghost use Rattle.refutation_tree.specs.declared.evidence.Outcome.TheVariants as outcomes;
ghost use Rattle.refutation_tree.specs.declared.evidence.Answer.{Answer};
ghost use Rattle.refutation_tree.specs.Accepted.{IsAccepted, IsSpentAt, ShowsLeast, NoneShorter, NoneSolves};
ghost use Rattle.refutation_tree.specs.Covers.{Skips, nobody, IsCovered, IsFair};

use crate::{MAX_SPLITS, MAX_STEPS};

/// A law: the limits of what an answer tells, as numbers.
pub fn limits()
    ensures steps { MAX_STEPS ≡ 10000000 }
    ensures splits { MAX_SPLITS ≡ 100000 }
{}

/// A law over all machines: where marks cover a partial program, and passing over loses no solution, no program that
/// completes the partial program solves every instance.
pub fn covered_programs_do_not_solve<C>()
    ensures { (m : Semantics C) (skips : Skips) (part program : Program) (marks : List Mark) →
        IsFair m skips → IsPartial m.ops part → IsCovered m skips part marks →
        Completes m.ops program part → SolvesAll m program → ⊥ }
{}

/// A law over all machines: passing over nobody loses no solution.
pub fn passing_nobody_over_is_fair<C>()
    ensures { (m : Semantics C) → IsFair m nobody }
{}

/// A law over all machines: what an accepted answer says holds, where passing over loses no solution. Its program is least;
/// where it says that there is none, no program of at most so many lines solves every instance; and where it says that the
/// budget or the limit of a run was spent at a size, none of fewer lines does.
pub fn accepted_answers_hold<C>()
    ensures program { (m : Semantics C) (skips : Skips) (lines size : ℕ) (answer : Answer) →
        IsFair m skips → IsAccepted m skips lines answer → answer.outcome ≡ outcomes.Program size →
        ShowsLeast m size lines answer }
    ensures nothing { (m : Semantics C) (skips : Skips) (lines : ℕ) (answer : Answer) →
        IsFair m skips → IsAccepted m skips lines answer → answer.outcome ≡ outcomes.Nothing →
        NoneSolves m lines }
    ensures spent { (m : Semantics C) (skips : Skips) (lines size : ℕ) (answer : Answer) →
        IsFair m skips → IsAccepted m skips lines answer → IsSpentAt size answer.outcome →
        NoneShorter m size }
{}
