ghost use Rattle.std.specs.Prelude.{◌<◌};
ghost use Rattle.program_model.specs.Program.{IsPartial};

use crate::counters::{Counters, Tally, count_on};
use flag_rules::OutOfMemory;
use interpreter::Run;
use program_model::{Machine, Partial, Stand};
use std::alloc::Global;
use std::process::Abort;
use std::test::Fail;

// A limit that the run on the last counter comes to.
const LIMIT: u64 = 20;

// More turns than a run under that limit takes.
const MOST_TURNS: u32 = 30;

#[test]
fn a_run_goes_on_after_its_quota_is_used(rt: HostRuntime) -> Result<(), Fail> {
    let counters = Counters {
        first: 0,
        instances: 1,
    };
    let program = count_on();
    let mut tally = Tally { acts: 0, copies: 0 };
    let mut run = Run::fresh(rt.alloc(), &counters, 0)?;
    let cut = run.advance(&counters, &program, 4, 100_000, &mut tally);
    check_turn(
        &rt,
        (cut, run.steps(), tally.acts),
        (Stand::QuotaUsed, 4, 2),
    )?;
    let whole = run.advance(&counters, &program, 64, 100_000, &mut tally);
    check_turn(&rt, (whole, run.steps(), tally.acts), (Stand::Ended, 6, 3))
}

// Compares what is told of a turn, the steps made so far and the operations among them.
fn check_turn<R: Abort>(
    rt: &R,
    turn: (Stand, u64, u64),
    due: (Stand, u64, u64),
) -> Result<(), Fail> {
    assert_eq!(rt; turn, due);
    Ok(())
}

// Where a program's run stands, after how many steps and on which line, where each of its turns has a quota.
fn in_turns<M: Machine>(
    alloc: Global,
    machine: &M,
    program: &Partial,
    t: u8,
    quota: u64,
    meter: &mut M::Meter,
) -> Result<(Stand, u64, u8), OutOfMemory>
    requires instance { t < (M.semantics machine.now).instances }
    requires program { IsPartial (M.semantics machine.now).ops program.now }
{
    let mut run = Run::fresh(alloc, machine, t)?;
    for _ in 0..MOST_TURNS {
        let stand = run.advance(machine, program, quota, LIMIT, meter);
        if stand != Stand::QuotaUsed {
            return Ok((stand, run.steps(), run.line()));
        }
    }
    Ok((Stand::QuotaUsed, run.steps(), run.line()))
}

// The same for the program that counts on.
fn counted_in_turns(
    alloc: Global,
    counters: &Counters,
    t: u8,
    quota: u64,
) -> Result<(Stand, u64, u8), OutOfMemory>
    requires { t < counters.now.instances }
{
    let mut tally = Tally { acts: 0, copies: 0 };
    in_turns(alloc, counters, &count_on(), t, quota, &mut tally)
}

// Compares a run in turns with the same run in one piece.
fn check_quota<R: Abort>(
    rt: &R,
    alloc: Global,
    counters: &Counters,
    t: u8,
    quota: u64,
) -> Result<(), Fail>
    requires { t < counters.now.instances }
{
    let whole = counted_in_turns(alloc, counters, t, LIMIT)?;
    let turns = counted_in_turns(alloc, counters, t, quota)?;
    assert_eq!(rt; turns, whole, "instance {t}, quota {quota}");
    Ok(())
}

#[test]
fn a_run_in_turns_is_that_in_one_piece(rt: HostRuntime) -> Result<(), Fail> {
    let counters = Counters {
        first: 0,
        instances: 4,
    };
    for t in 0..4 {
        for quota in 1..=12 {
            check_quota(&rt, rt.alloc(), &counters, t, quota)?;
        }
    }
    Ok(())
}

#[test]
fn a_run_without_a_quota_makes_no_step(rt: HostRuntime) -> Result<(), Fail> {
    let counters = Counters {
        first: 0,
        instances: 1,
    };
    let stand = counted_in_turns(rt.alloc(), &counters, 0, 0)?;
    assert_eq!(rt; stand, (Stand::QuotaUsed, 0, 0));
    Ok(())
}
