ghost use Rattle.std.specs.Prelude.{◌≡◌, ℕ, ◌<◌};
ghost use Rattle.program_model.specs.Program.{Program};
ghost use Rattle.interpreter.specs.Runs.{IsRunOf};
ghost use Rattle.judgement.specs.Judging.{run_standing};

use arrayvec::ArrayVec;
use evaluations::Standing;
use interpreter::Run;
use program_model::{MAX_INSTANCES, Machine};

/// How many runs a partial program has at most: one on each instance.
pub const MAX_RUNS: usize = MAX_INSTANCES as usize;

/// Where the runs of a partial program stand, on the instances in order.
pub type Standings = ArrayVec<Standing, MAX_RUNS>;

/// Where a run stands that ended, or waits, in a program of so many lines.
pub fn standing<M: Machine>(machine: &M, lines: u8, run: &Run<M::Cfg>) -> Standing
    requires some { 0 < lines }
    requires run { (program : Program) × IsRunOf (M.semantics machine.now) (M.belongs machine.now) program run.now }
    ensures { result ≡ run_standing (M.semantics machine.now) lines run.now }
{
    let line = run.line();
    let waits = if line == lines - 1 { None } else { Some(line) };
    Standing {
        missing: machine.missing(run.instance(), run.cfg()),
        steps: run.steps(),
        waits,
    }
}
