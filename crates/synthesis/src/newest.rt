ghost use Rattle.std.specs.Prelude.{◌≡◌, None, IfOk, OnOk};
ghost use Rattle.synthesis.specs.Search.{judged, or_else, limited_at};
ghost use Rattle.synthesis.specs.Inner.Nodes.{IsEndingOf};
ghost use Rattle.synthesis.specs.Inner.Judged.{verdict_of, found_in};

use flag_rules::OutOfMemory;
use judgement::{Ends, Judgement};
use program_model::Partial;

/// A partial program whose runs all end with the goal met, after so many steps.
#[derive(Debug, Drop)]
pub(crate) struct Found {
    pub program: Partial,
    pub ends: Ends,
}

impl Found {
    // A copy of the program, with the ends of its runs.
    fn of(program: &Partial, ends: &Ends) -> Result<Found, OutOfMemory>
        ensures { IfOk result (λ found. found ≡ record { program = program.now; ends = ends.now }) }
    {
        Ok(Found {
            program: program.copy(),
            ends: ends.clone()?,
        })
    }
}

/// How a size ends the search.
#[derive(Debug, Drop)]
pub(crate) enum Ending {
    /// A node is solved.
    Solved(Found),
    /// A run on this instance is at its limit.
    RunSpent { t: u8 },
    /// A node waits, and the budget of splits is spent.
    BudgetSpent,
}

/// What the nodes tell that were made last.
#[derive(Debug, Drop)]
pub(crate) struct Newest {
    /// The program of the first one that is solved.
    pub solved: Option<Found>,
    /// The instance of the first one that is at its limit.
    pub limited: Option<u8>,
}

impl Newest {
    /// No node was made.
    pub(crate) fn none() -> Newest
        ensures solved { result.solved ≡ None }
        ensures limited { result.limited ≡ None }
    {
        Newest {
            solved: None,
            limited: None,
        }
    }

    /// One more node was made, of this program and judged so.
    pub(crate) fn see(
        &mut self,
        program: &Partial,
        judgement: &Judgement,
    ) -> Result<(), OutOfMemory>
        ensures solved { OnOk result (self.new.solved ≡ or_else self.old.solved (found_in program.now judgement.now)) }
        ensures limited { OnOk result (self.new.limited ≡ or_else self.old.limited (limited_at (judged (verdict_of judgement.now)))) }
    {
        match judgement {
            Judgement::Solved { ends } if self.solved.is_none() => {
                self.solved = Some(Found::of(program, ends)?);
            }
            Judgement::AtLimit { t } => self.limited = self.limited.or(Some(*t)),
            _ => {}
        }
        Ok(())
    }

    /// How they end the search, if they do.
    pub(crate) fn ending(self) -> Option<Ending>
        ensures { IsEndingOf self result }
    {
        if let Some(found) = self.solved {
            return Some(Ending::Solved(found));
        }
        let t = self.limited?;
        Some(Ending::RunSpent { t })
    }
}
