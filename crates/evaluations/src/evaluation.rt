ghost use Rattle.std.specs.Prelude.{◌≡◌, ◌≢◌, ◌≤◌, All, IfNone, IfSome, length};
ghost use Rattle.evaluations.specs.Evaluations.{value};
ghost use Rattle.evaluations.specs.Orders.{name_of};

use crate::{Standing, values};
use program_model::{MAX_INSTANCES, MAX_RUN, Partial};

/// What a partial program that waits is looked at by. Each is a number, and a smaller one is better.
#[derive(Clone, Copy, Debug, Default, PartialEq, Eq, Drop)]
pub enum Evaluation {
    /// `e1`: how many jumps stand on its lines.
    Jumps,
    /// `e2`: how many of its lines are undefined.
    UndefinedLines,
    /// `e3`: how many more defined lines it has, the last one too, than different instructions on them.
    RepeatedInstructions,
    /// `e4`: how many lines stand behind the greatest line at which a run waits, or behind the first line, where no run waits.
    LinesBehind,
    /// `e5`: the goal atoms that are missing where the runs stand, over all instances.
    #[default]
    MissingAtoms,
    /// `e6`: the steps that the runs have made, over all instances.
    Steps,
}

impl Evaluation {
    /// The evaluation that has a name, if one has it.
    pub fn named(name: &[u8]) -> Option<Evaluation>
        ensures some { IfSome result (λ evaluation. name.now ≡ name_of evaluation) }
        ensures none { IfNone result ((evaluation : Evaluation) → name_of evaluation ≢ name.now) }
    {
        match name {
            b"e1" => Some(Evaluation::Jumps),
            b"e2" => Some(Evaluation::UndefinedLines),
            b"e3" => Some(Evaluation::RepeatedInstructions),
            b"e4" => Some(Evaluation::LinesBehind),
            b"e5" => Some(Evaluation::MissingAtoms),
            b"e6" => Some(Evaluation::Steps),
            _ => None,
        }
    }

    /// Its value at a partial program, where the runs of it stand so. It takes no memory.
    pub fn value(self, partial: &Partial, standings: &[Standing]) -> u64
        requires few { length standings.now ≤ MAX_INSTANCES }
        requires short { All (λ standing. standing.steps ≤ MAX_RUN) standings.now }
        ensures { result ≡ value self partial.now standings.now }
    {
        match self {
            Evaluation::Jumps => values::jumps(partial),
            Evaluation::UndefinedLines => values::undefined_lines(partial),
            Evaluation::RepeatedInstructions => values::repeated_instructions(partial),
            Evaluation::LinesBehind => values::lines_behind(partial, standings),
            Evaluation::MissingAtoms => values::missing_atoms(standings),
            Evaluation::Steps => values::steps(standings),
        }
    }
}
