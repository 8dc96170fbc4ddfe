//! How many splits, operations and copies a search makes, which goes on from where its runs wait and passes over twins.

use crate::calls::{shelf_of, words_of};
use crate::reports::RUN_FILES;
use bfgp_outside::MemoryShelf;
use command_words::{Job, job_of};
use input_reading::machine_for;
use pointer_machine::{Meter, PointerMachine};
use program_model::Machine;
use refutation_tree::{Mark, Tree};
use std::alloc::Global;
use std::process::Abort;
use std::test::Fail;
use synthesis::search;

// How many children are split, and how many are twins.
type Children = (usize, usize);

// Operations, and copies of values.
type Work = (u64, u64);

// The words of a search; the children that it splits and passes over; its fresh work, which another program reckoned from runs that it
// made from the start; and the work that is counted. That is less, since a run that refutes a program stops those on greater
// instances, and a mark does not move to the step at which a repetition is noticed.
type Row = (&'static str, Children, Work, Work);

// In the last search some runs ended, or wait at a lesser line than that which is split.
const OVER_ONE_POINTER: &[Row] = &[
    (
        "synth --pointers 1 --lines 5 lights two three",
        (14, 0),
        (200, 736),
        (120, 655),
    ),
    (
        "synth --pointers 1 --lines 5 --order e6 lights two three",
        (24, 0),
        (318, 1296),
        (222, 1179),
    ),
    (
        "synth --pointers 1 --lines 5 --budget 110 --order e6 predicates lit unlit",
        (110, 0),
        (1250, 7280),
        (1098, 6760),
    ),
];

#[test]
fn searches_make_no_more_than_the_fresh_work(rt: HostRuntime) -> Result<(), Fail> {
    check_rows(&rt, rt.alloc(), OVER_ONE_POINTER)
}

// A twin is not run, and adds nothing to the fresh work. If twins were run, these searches would split 18, 1788 and 236 children.
const OVER_SEVERAL_POINTERS: &[Row] = &[
    (
        "synth --pointers 2 --lines 3 lights two three",
        (11, 28),
        (282, 736),
        (147, 693),
    ),
    (
        "synth --pointers 2 --lines 5 corridor cells eight-cells",
        (1276, 320),
        (84_882, 191_368),
        (43_074, 176_890),
    ),
    (
        "synth --pointers 4 --lines 3 gripper two-balls four-balls",
        (30, 3981),
        (6082, 12_610),
        (3065, 12_468),
    ),
];

#[test]
fn twins_make_no_work(rt: HostRuntime) -> Result<(), Fail> {
    check_rows(&rt, rt.alloc(), OVER_SEVERAL_POINTERS)
}

fn check_rows<R: Abort>(rt: &R, alloc: Global, rows: &[Row]) -> Result<(), Fail> {
    let mut shelf = shelf_of(alloc, RUN_FILES)?;
    for (words, children, fresh, counted) in rows {
        let (got, work) = work_of(alloc, &mut shelf, words)?;
        assert_eq!(rt; (got, work), (*children, *counted), "{words}");
        assert!(rt; work.0 <= fresh.0 && work.1 <= fresh.1, "{words}");
    }
    Ok(())
}

// The children that a search splits and passes over, and what it counts at its meter.
fn work_of(alloc: Global, shelf: &mut MemoryShelf, words: &str) -> Result<(Children, Work), Fail> {
    let words = words_of(alloc, words)?;
    let Ok(Job::Synth(job)) = job_of(alloc, &words) else {
        return Err(Fail::new("no search"));
    };
    let Ok(machine) = machine_for(alloc, shelf, &job.inputs, job.pointers) else {
        return Err(Fail::new("no machine"));
    };
    let mut meter = Meter::zero();
    let answer = search(alloc, &machine, &job.bounds, &mut meter)?;
    let work = (PointerMachine::acts(&meter), PointerMachine::copies(&meter));
    Ok((children_of(answer.trees.as_slice()), work))
}

fn children_of(trees: &[Tree]) -> Children {
    let mut splits: usize = 0;
    let mut twins: usize = 0;
    for tree in trees {
        for mark in tree.marks.as_slice() {
            match mark {
                Mark::Split { .. } => splits = splits.saturating_add(1),
                Mark::Twin => twins = twins.saturating_add(1),
                _ => {}
            }
        }
    }
    (splits, twins)
}
