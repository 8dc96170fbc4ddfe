ghost use Rattle.std.specs.Prelude.{◌≡◌, ℕ, ◌*◌, ◌≤◌};
ghost use Rattle.program_model.specs.Semantics.{Semantics};
ghost use Rattle.program_model.specs.Program.{Program, Extends};
ghost use Rattle.program_model.specs.Run.{Loops};
ghost use Rattle.program_model.specs.Standing.{IsNoticed, IsStanding};
ghost use Rattle.interpreter.specs.declared.run.Run.{Run};
ghost use Rattle.interpreter.specs.Runs.{StandsFor};

use program_model::Stand;

/// A law over all machines: two runs that stand for one step of a program on an instance hold the same. So a run that was
/// advanced in turns, whatever their quotas, is the run that was made from the start in one piece.
pub fn runs_are_alike<C: Drop>()
    ensures { (m : Semantics C) (program : Program) (t s : ℕ) (run other : Run C) →
        StandsFor m program t s run → StandsFor m program t s other → run ≡ other }
{}

/// A law over all machines: a run that stands for a step of a partial program, as one that waits does, stands for that step of
/// each program that extends it. So programs that extend a partial program may share its runs.
pub fn runs_are_shared<C: Drop>()
    ensures { (m : Semantics C) (part program : Program) (t s : ℕ) (run : Run C) →
        Extends program part → StandsFor m part t s run → StandsFor m program t s run }
{}

/// A law over all machines: where a run comes to a configuration again at step j, the repetition that is noticed is noticed by step
/// 3 * j. So a run that is at its limit comes to no configuration twice in the first third of its steps.
pub fn repetitions_are_noticed_in_time<C>()
    ensures noticed { (m : Semantics C) (program : Program) (t i j from to : ℕ) →
        Loops m program t i j → IsNoticed m program t from to → to ≤ 3 * j }
    ensures unlimited { (m : Semantics C) (program : Program) (t limit steps i j : ℕ) →
        IsStanding m program t limit steps Stand.AtLimit → 3 * j ≤ limit → Loops m program t i j → ⊥ }
{}
