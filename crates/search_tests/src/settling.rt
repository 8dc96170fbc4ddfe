//! Verdicts that suspended runs come to in turns, from wherever they stand.

ghost use Rattle.program_model.specs.Program.{IsPartial};

use crate::counters::{Counters, Tally, count_on};
use flag_rules::OutOfMemory;
use interpreter::Run;
use program_model::{Cause, Machine, Partial, Verdict};
use run_turns::settle;
use std::alloc::Global;
use std::process::Abort;
use std::test::Fail;

#[test]
fn the_verdict_does_not_depend_on_the_turns(rt: HostRuntime) -> Result<(), Fail> {
    let solved = Counters {
        first: 0,
        instances: 1,
    };
    check_verdict(&rt, rt.alloc(), &solved, 6, Verdict::Solved)?;
    check_verdict(&rt, rt.alloc(), &solved, 5, Verdict::AtLimit { t: 0 })?;
    let unmet = Counters {
        first: 0,
        instances: 4,
    };
    let cause = Cause::Unmet { steps: 2 };
    check_verdict(
        &rt,
        rt.alloc(),
        &unmet,
        100,
        Verdict::Refused { t: 1, cause },
    )?;
    let loops = Counters {
        first: 2,
        instances: 2,
    };
    let cause = Cause::Loops { from: 3, to: 7 };
    check_verdict(
        &rt,
        rt.alloc(),
        &loops,
        100,
        Verdict::Refused { t: 0, cause },
    )?;
    check_verdict(&rt, rt.alloc(), &loops, 6, Verdict::AtLimit { t: 0 })
}

// The second of three runs refutes the program after three turns and more, and the third in its first turn.
#[test]
fn a_lesser_instance_may_refute_later(rt: HostRuntime) -> Result<(), Fail> {
    let machine = Counters {
        first: 3,
        instances: 3,
    };
    let late = Cause::Unmet { steps: 200 };
    check_verdict(
        &rt,
        rt.alloc(),
        &machine,
        200,
        Verdict::Refused { t: 1, cause: late },
    )?;
    let early = Cause::Unmet { steps: 2 };
    check_verdict(
        &rt,
        rt.alloc(),
        &machine,
        199,
        Verdict::Refused { t: 2, cause: early },
    )
}

#[test]
fn runs_wait_on_an_undefined_line(rt: HostRuntime) -> Result<(), Fail> {
    let machine = Counters {
        first: 0,
        instances: 4,
    };
    let mut tally = Tally { acts: 0, copies: 0 };
    let verdict = verdict_from(rt.alloc(), &machine, &Partial::empty(3), 1, 100, &mut tally)?;
    assert_eq!(rt; verdict, Verdict::Waiting { line: 0 });
    Ok(())
}

// Compares the verdict on the program that counts on, from several positions of its runs.
fn check_verdict<R: Abort>(
    rt: &R,
    alloc: Global,
    machine: &Counters,
    limit: u16,
    verdict: Verdict,
) -> Result<(), Fail> {
    let program = count_on();
    for stride in [0, 1, 2, 5, 64, 100] {
        let mut tally = Tally { acts: 0, copies: 0 };
        let found = verdict_from(alloc, machine, &program, stride, limit, &mut tally)?;
        assert_eq!(rt; found, verdict, "{stride}");
    }
    Ok(())
}

// The verdict that is come to where the run on each instance made so many steps as it has lesser instances, times a stride.
fn verdict_from<M: Machine>(
    alloc: Global,
    machine: &M,
    partial: &Partial,
    stride: u8,
    limit: u16,
    meter: &mut M::Meter,
) -> Result<Verdict, OutOfMemory>
    requires { IsPartial (M.semantics machine.now).ops partial.now }
{
    let limit = u64::from(limit);
    let mut runs = Vec::new(alloc);
    for t in 0..machine.instances() {
        let mut run = Run::fresh(alloc, machine, t)?;
        let quota = u64::from(t) * u64::from(stride);
        run.advance(machine, partial, quota, limit, meter);
        runs.push(run)?;
    }
    Ok(settle(machine, partial, runs.as_mut_slice(), limit, meter))
}
