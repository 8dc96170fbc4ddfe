ghost use Rattle.std.specs.Prelude.{◌≡◌, ◌+◌, ◌<◌, false};
ghost use Rattle.loop_witness.specs.Marks.{IsLatest, IsMarkStep};
ghost use Rattle.loop_witness.specs.Turns.{IsAnswer};

use crate::Turn;
use std::marker::Model;

/// The greatest number of steps that are counted.
pub const MAX_STEPS: u64 = 1 << 40;

/// The steps of a run, as they are counted, and the one whose configuration is marked. Contracts see the two numbers.
#[derive(Clone, Copy, Debug, PartialEq, Eq, Drop)]
pub struct Marks {
    steps: u64,
    mark: u64,
}

impl Model for Marks {
    ghost use Rattle.std.specs.Prelude.{◌≤◌};
    ghost use Rattle.loop_witness.specs.Marks.{Counted, IsMarkStep};

    ghost Value = { Counted };

    ghost view = { λ marks. record { steps = marks.steps; mark = marks.mark } };

    ghost inverse = { λ marks. record { steps = marks.steps; mark = marks.mark } };

    ghost invariant = { λ marks. IsMarkStep marks.mark × (marks.mark ≤ marks.steps) };
}

impl Marks {
    /// No step is counted, and the first configuration is marked.
    pub fn begin() -> Marks
        ensures start { result ≡ record { steps = 0; mark = 0 } }
        ensures latest { IsLatest result }
    {
        Marks { steps: 0, mark: 0 }
    }

    /// How many steps were counted.
    pub fn steps(&self) -> u64
        ensures { result ≡ self.now.steps }
    {
        self.steps
    }

    /// The step whose configuration is marked.
    pub fn mark(&self) -> u64
        ensures mark { result ≡ self.now.mark }
        ensures is_mark_step { IsMarkStep result }
    {
        self.mark
    }

    /// Counts a step, after which the run is in the marked configuration or not, as it is told.
    pub fn turn(&mut self, same_as_mark: bool) -> Turn
        requires { self.old.steps < MAX_STEPS }
        ensures counted { self.new.steps ≡ self.old.steps + 1 }
        ensures answer { IsAnswer same_as_mark self.old self.new result }
        ensures latest { same_as_mark ≡ false → IsLatest self.old → IsLatest self.new }
    {
        self.steps += 1;
        if same_as_mark {
            Turn::Repeat {
                from: self.mark,
                to: self.steps,
            }
        } else if self.steps == 2 * self.mark + 1 {
            self.mark = self.steps;
            Turn::MarkHere
        } else {
            Turn::Go
        }
    }
}
