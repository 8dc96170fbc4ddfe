ghost use Rattle.std.specs.Prelude.{◌≡◌, ◌↔◌, ℕ, ◌+◌, ◌*◌, ◌^◌, ◌<◌, ◌≤◌, Bool, Option, IsTrue};
ghost use Rattle.loop_witness.specs.Marks.{Counted};
ghost use Rattle.loop_witness.specs.Turns.{IsAnswer};
ghost use Rattle.loop_witness.specs.Repetitions.{IsRun, Repeats, IsFirst, IsNoticeableBy, IsNoticed, NoneNoticedBy, Watches, IsTold};
ghost use Rattle.loop_witness.specs.declared.turn.Turn.{Turn};

use crate::MAX_STEPS;

/// A law: the greatest number of steps, as a number.
pub fn limits()
    ensures { MAX_STEPS ≡ 2 ^ 40 }
{}

/// A law over all runs: where a configuration comes again at step j, a repetition can be noticed by step 3 * j, and the one
/// that is noticed is noticed by then. So where none is noticed up to a step, no configuration comes twice in the first third
/// of the steps; and marks that still watch the run have counted fewer steps than 3 * j.
pub fn noticed_in_time<C>()
    ensures noticeable { (step : C → Option C) (run : ℕ → Option C) (i j : ℕ) →
        IsRun step run → Repeats run i j → IsNoticeableBy run (3 * j) }
    ensures noticed { (step : C → Option C) (run : ℕ → Option C) (i j from to : ℕ) →
        IsRun step run → Repeats run i j → IsNoticed run from to → to ≤ 3 * j }
    ensures unnoticed { (step : C → Option C) (run : ℕ → Option C) (latest i j : ℕ) →
        IsRun step run → NoneNoticedBy run latest → 3 * j ≤ latest → Repeats run i j → ⊥ }
    ensures watched { (step : C → Option C) (run : ℕ → Option C) (i j : ℕ) (marks : Counted) →
        IsRun step run → Repeats run i j → Watches run marks → marks.steps < 3 * j }
{}

/// A law over all runs: marks that are told at each step whether the run is in the marked configuration once more watch the
/// run, until they answer the repetition that is noticed.
pub fn turns_notice<C>()
    ensures begin { (run : ℕ → Option C) → Watches run (record { steps = 0; mark = 0 }) }
    ensures turn { (run : ℕ → Option C) (same : Bool) (old new : Counted) (turn : Turn) →
        Watches run old → new.steps ≡ old.steps + 1 → IsAnswer same old new turn →
        (IsTrue same ↔ Repeats run old.mark new.steps) → IsTold run new turn }
{}

/// A law over all runs: where the first repetition is that of the steps 2 and 5, the one that is noticed is that of the steps
/// 3 and 6.
pub fn noticed_after_the_first<C>()
    ensures { (step : C → Option C) (run : ℕ → Option C) → IsRun step run → IsFirst run 2 5 → IsNoticed run 3 6 }
{}
