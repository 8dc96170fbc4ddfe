//! Programs that wait, and their runs: a child has its parent's, but for those that are its own.

ghost use Rattle.std.specs.Prelude.{◌≡◌, ◌<◌, length, IfOk, IsSomeAnd};
ghost use Rattle.waiting_programs.specs.Programs.{kept_at};

use crate::counters::{Count, Counters, Tally, count_on};
use flag_rules::{Cond, OutOfMemory};
use interpreter::Run;
use program_model::Instr;
use std::alloc::Global;
use std::test::Fail;
use waiting_programs::{WaitingId, WaitingPrograms};

// The instructions of two children on the first line.
const COUNT: Instr = Instr::Op(0);

const SKIP: Instr = Instr::Goto {
    target: 2,
    cond: Cond::Nocarry,
};

// The first child has a run of its own on the second instance, where it counted on; all other runs are those of the root.
#[test]
fn children_share_their_parents_runs(rt: HostRuntime) -> Result<(), Fail> {
    let alloc = rt.alloc();
    let mut runs = Vec::new(alloc);
    runs.push(run_after(alloc, 0, 0)?)?;
    runs.push(run_after(alloc, 1, 0)?)?;
    let mut own = Vec::new(alloc);
    own.push(run_after(alloc, 1, 1)?)?;
    let (mut programs, root) = WaitingPrograms::new(alloc, 3, runs)?;
    programs.reserve(2, 1)?;
    let first = programs.child(alloc, root, 0, COUNT, own)?;
    let second = programs.child(alloc, root, 0, SKIP, Vec::new(alloc))?;
    assert_eq!(rt; told(&programs, root), (3, None, (3, 1)));
    assert_eq!(rt; told(&programs, first), (3, Some(COUNT), (3, 0)));
    assert_eq!(rt; told(&programs, second), (3, Some(SKIP), (3, 1)));
    programs.release(root);
    Ok(())
}

// The run on one of two counters after so many steps of the program that counts on.
fn run_after(alloc: Global, t: u8, steps: u64) -> Result<Run<Count>, OutOfMemory>
    requires { t < 2 }
    ensures { IfOk result (λ run. run.instance ≡ t) }
{
    let counters = Counters {
        first: 0,
        instances: 2,
    };
    let mut tally = Tally { acts: 0, copies: 0 };
    let mut run = Run::fresh(alloc, &counters, t)?;
    run.advance(&counters, &count_on(), steps, 100, &mut tally);
    Ok(run)
}

// A program that waits: how many lines it has, its first line, and the counts where its runs on two counters stand.
fn told(programs: &WaitingPrograms<Count>, id: WaitingId) -> (u8, Option<Instr>, (u32, u32))
    requires { IsSomeAnd (kept_at programs.now.kept id) (λ waiting. length waiting.runs ≡ 2) }
{
    let program = programs.program(id);
    let first = programs.run(id, 0).cfg().count;
    let second = programs.run(id, 1).cfg().count;
    (program.lines(), program.at(0), (first, second))
}
