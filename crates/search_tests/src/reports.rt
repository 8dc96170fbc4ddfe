use crate::counters::{Counters, Tally, count_on};
use instance_report::report;
use std::alloc::Global;
use std::process::Abort;
use std::test::Fail;

#[test]
fn each_standing_has_its_line(rt: HostRuntime) -> Result<(), Fail> {
    let machine = Counters {
        first: 0,
        instances: 4,
    };
    let lines =
        "instance 0 solved 6\ninstance 1 unmet 2 missing 2\ninstance 2 loops 3 7\ninstance 3 limit 100\nsolved 1 of 4\n";
    check_report(&rt, rt.alloc(), &machine, 100, lines, false, 58)
}

// A run may end at its limit; one step less is too few.
#[test]
fn the_limit_is_the_last_step(rt: HostRuntime) -> Result<(), Fail> {
    let machine = Counters {
        first: 0,
        instances: 1,
    };
    let ended = "instance 0 solved 6\nsolved 1 of 1\n";
    check_report(&rt, rt.alloc(), &machine, 6, ended, true, 3)?;
    let cut = "instance 0 limit 5\nsolved 0 of 1\n";
    check_report(&rt, rt.alloc(), &machine, 5, cut, false, 3)
}

// Compares the report on the program that counts on, under a limit of steps, and the operations that were counted.
fn check_report<R: Abort>(
    rt: &R,
    alloc: Global,
    machine: &Counters,
    limit: u8,
    lines: &str,
    all_solved: bool,
    acts: u64,
) -> Result<(), Fail> {
    let mut tally = Tally { acts: 0, copies: 0 };
    let report = report(alloc, machine, &count_on(), u64::from(limit), &mut tally)?;
    assert_eq!(rt; report.text.as_slice(), lines.as_bytes());
    assert_eq!(rt; report.all_solved, all_solved);
    assert_eq!(rt; tally.acts, acts);
    Ok(())
}
