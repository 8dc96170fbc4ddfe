ghost use Rattle.std.specs.Prelude.{◌≡◌, ℕ, Some};
ghost use Rattle.program_model.specs.Semantics.{Semantics};
ghost use Rattle.program_model.specs.Program.{Program, IsPartial, Extends, Completes};
ghost use Rattle.program_model.specs.Run.{Config, at, Unmet, Loops, Solves};
ghost use Rattle.program_model.specs.declared.standing.Stand.{Stand};
ghost use Rattle.program_model.specs.declared.verdict.Verdict.{Verdict};
ghost use Rattle.program_model.specs.Standing.{IsNoticed, IsStanding};
ghost use Rattle.program_model.specs.Verdict.{IsVerdict};

use crate::{CONDITIONS, MAX_INSTANCES, MAX_LINES, MAX_OPS, MAX_POINTERS, MAX_RUN};

/// A law: the limits on programs, machines and runs, and how many conditions there are.
pub fn limits()
    ensures lines { MAX_LINES ≡ 16 }
    ensures operations { MAX_OPS ≡ 448 }
    ensures instances { MAX_INSTANCES ≡ 32 }
    ensures pointers { MAX_POINTERS ≡ 4 }
    ensures conditions { CONDITIONS ≡ 4 }
    ensures run { MAX_RUN ≡ 10000000 }
{}

/// A law over all machines: a run of a partial program is, as far as it goes, the run of each program that extends it, so
/// of each that completes it.
pub fn completions_run_alike<C>()
    ensures { (m : Semantics C) (part program : Program) (t j : ℕ) (config : Config C) →
        Extends program part → at m part t j ≡ Some config → at m program t j ≡ Some config }
{}

/// A law over all machines: where a run of a partial program ends with the goal unmet, or comes to one configuration
/// twice, no program that completes the partial program solves that instance.
pub fn refuted_completions_fail<C>()
    ensures unmet { (m : Semantics C) (part program : Program) (t j : ℕ) →
        Unmet m part t j → Completes m.ops program part → Solves m program t → ⊥ }
    ensures loops { (m : Semantics C) (part program : Program) (t i j : ℕ) →
        Loops m part t i j → Completes m.ops program part → Solves m program t → ⊥ }
{}

/// A law over all machines: a run of a partial program has at most one standing under a limit, at one step, and at most one
/// repetition that is noticed.
pub fn runs_stand_once<C>()
    ensures standing { (m : Semantics C) (ops : ℕ) (part : Program) (t limit s r : ℕ) (x y : Stand) →
        IsPartial ops part → IsStanding m part t limit s x → IsStanding m part t limit r y → (s ≡ r) × (x ≡ y) }
    ensures noticed { (m : Semantics C) (ops : ℕ) (part : Program) (t i j a b : ℕ) →
        IsPartial ops part → IsNoticed m part t i j → IsNoticed m part t a b → (i ≡ a) × (j ≡ b) }
{}

/// A law over all machines: there is at most one verdict on a partial program under a limit.
pub fn at_most_one_verdict<C>()
    ensures { (m : Semantics C) (ops : ℕ) (part : Program) (limit : ℕ) (verdict other : Verdict) →
        IsPartial ops part → IsVerdict m part limit verdict → IsVerdict m part limit other → verdict ≡ other }
{}
