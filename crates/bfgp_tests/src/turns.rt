//! The run of a program over an instance, which is suspended and goes on.

ghost use Rattle.program_model.specs.Program.{IsPartial};
ghost use Rattle.pointer_machine.specs.Machine.{meaning_of};

use crate::calls::{shelf_of, words_of};
use command_words::{Job, job_of};
use input_reading::{machine_for, program_of};
use interpreter::Run;
use pointer_machine::{Meter, PointerMachine};
use program_model::{Machine, Partial, Stand};
use std::alloc::Global;
use std::process::Abort;
use std::test::Fail;

// Lights one lamp after another.
const LIGHT_ALL: &[u8] = b"act light p0\ninc p0\ngoto 0 if nonzero\nend\n";

// A jump is no operation: three of four steps are counted, and six of nine.
#[test]
fn a_run_goes_on_where_its_quota_was_used(rt: HostRuntime) -> Result<(), Fail> {
    let words = words_of(
        rt.alloc(),
        "run --pointers 1 --program all lights two three",
    )?;
    let mut shelf = shelf_of(rt.alloc(), "")?;
    let Ok(Job::Run(job)) = job_of(rt.alloc(), &words) else {
        return Err(Fail::new("no run"));
    };
    let Ok(machine) = machine_for(rt.alloc(), &mut shelf, &job.inputs, job.pointers) else {
        return Err(Fail::new("no machine"));
    };
    let Ok(program) = program_of(rt.alloc(), &machine, b"all", LIGHT_ALL) else {
        return Err(Fail::new("no program"));
    };
    check_turns(&rt, rt.alloc(), &machine, &program)
}

// Makes the run on the second instance in two turns.
fn check_turns<R: Abort>(
    rt: &R,
    alloc: Global,
    machine: &PointerMachine,
    program: &Partial,
) -> Result<(), Fail>
    requires { IsPartial (meaning_of machine.now).ops program.now }
{
    if machine.instances() != 2 {
        return Err(Fail::new("not two instances"));
    }
    let mut meter = Meter::zero();
    let mut run = Run::fresh(alloc, machine, 1)?;
    let cut = run.advance(machine, program, 4, 100_000, &mut meter);
    check_turn(
        rt,
        (cut, run.steps(), PointerMachine::acts(&meter)),
        (Stand::QuotaUsed, 4, 3),
    )?;
    let whole = run.advance(machine, program, 64, 100_000, &mut meter);
    check_turn(
        rt,
        (whole, run.steps(), PointerMachine::acts(&meter)),
        (Stand::Ended, 9, 6),
    )
}

// Compares what is told of a turn, the steps made so far and the operations among them.
fn check_turn<R: Abort>(
    rt: &R,
    turn: (Stand, u64, u64),
    due: (Stand, u64, u64),
) -> Result<(), Fail> {
    assert_eq!(rt; turn, due);
    Ok(())
}
