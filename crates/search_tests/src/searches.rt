use crate::counters::{Counters, Tally};
use crate::marks::text_of;
use evaluations::Order;
use refutation_tree::{Mark, Outcome};
use search_bounds::Bounds;
use std::alloc::{AllocError, Global};
use std::process::Abort;
use std::test::Fail;
use synthesis::search;

// A search in three lines with a budget of splits and a limit of steps: its outcome, the ends of its program, and its trees; ` / `
// parts trees, and commas marks.
struct Search {
    budget: u16,
    run: u16,
    outcome: Outcome,
    ends: &'static [u64],
    trees: &'static str,
}

// At the least bounds with which the program is found, and one below each.
const ONE_COUNTER: &[Search] = &[
    Search {
        budget: 3,
        run: 6,
        outcome: Outcome::Program { size: 3 },
        ends: &[6],
        trees: "f 0 0 / s 0 0, f 0 1 / s 0 1, s 1 2, f 0 2, f 0 2, g, g, f 0 2, o, f 0 1, o, f 0 1",
    },
    Search {
        budget: 2,
        run: 6,
        outcome: Outcome::SpentExpansions { size: 3 },
        ends: &[],
        trees: "f 0 0 / s 0 0, f 0 1 / s 0 1, o, o, f 0 1, o, f 0 1",
    },
    Search {
        budget: 3,
        run: 5,
        outcome: Outcome::SpentRun { size: 3, t: 0 },
        ends: &[],
        trees: "f 0 0 / s 0 0, f 0 1 / s 0 1, s 1 2, f 0 2, f 0 2, r 0, r 0, f 0 2, o, f 0 1, o, f 0 1",
    },
];

// At the least bounds with which all programs are refuted, and one below each.
const TWO_COUNTERS: &[Search] = &[
    Search {
        budget: 5,
        run: 3,
        outcome: Outcome::Nothing,
        ends: &[],
        trees: "f 0 0 / s 0 0, f 0 1 / s 0 1, s 1 2, f 0 2, f 0 2, f 1 2, f 1 2, f 0 2, s 1 3, f 0 2, f 0 2, l 0 1 3, f 0 2, l 0 1 3, f 0 1, s 1 4, f 0 2, f 0 2, l 0 1 3, f 0 2, l 0 1 3, f 0 1",
    },
    Search {
        budget: 4,
        run: 3,
        outcome: Outcome::SpentExpansions { size: 3 },
        ends: &[],
        trees: "f 0 0 / s 0 0, f 0 1 / s 0 1, s 1 2, f 0 2, f 0 2, f 1 2, f 1 2, f 0 2, s 1 3, f 0 2, f 0 2, l 0 1 3, f 0 2, l 0 1 3, f 0 1, o, f 0 1",
    },
    Search {
        budget: 5,
        run: 2,
        outcome: Outcome::SpentRun { size: 3, t: 0 },
        ends: &[],
        trees: "f 0 0 / s 0 0, f 0 1 / s 0 1, s 1 2, f 0 2, f 0 2, f 1 2, f 1 2, f 0 2, s 1 3, f 0 2, f 0 2, r 0, f 0 2, r 0, f 0 1, o, f 0 1",
    },
];

// The run that counts on and on reaches its limit; the first child of the split at which that happens names the instance.
const COUNTING_UP: &[Search] = &[Search {
    budget: 10_000,
    run: 10_000,
    outcome: Outcome::SpentRun { size: 3, t: 0 },
    ends: &[],
    trees: "f 0 0 / s 0 0, f 0 1 / s 0 1, s 1 2, f 0 2, f 0 2, r 0, r 0, f 0 2, o, f 0 1, o, f 0 1",
}];

#[test]
fn searches_in_three_lines(rt: HostRuntime) -> Result<(), Fail> {
    let one = Counters {
        first: 0,
        instances: 1,
    };
    let two = Counters {
        first: 0,
        instances: 2,
    };
    let up = Counters {
        first: 3,
        instances: 1,
    };
    check_searches(&rt, rt.alloc(), &one, ONE_COUNTER)?;
    check_searches(&rt, rt.alloc(), &two, TWO_COUNTERS)?;
    check_searches(&rt, rt.alloc(), &up, COUNTING_UP)
}

fn check_searches<R: Abort>(
    rt: &R,
    alloc: Global,
    machine: &Counters,
    searches: &[Search],
) -> Result<(), Fail> {
    for wanted in searches {
        let bounds = Bounds {
            lines: 3,
            budget: u32::from(wanted.budget),
            run: u64::from(wanted.run),
            order: Order::usual(),
        };
        let mut tally = Tally { acts: 0, copies: 0 };
        let answer = search(alloc, machine, &bounds, &mut tally)?;
        assert_eq!(rt; answer.outcome, wanted.outcome);
        assert_eq!(rt; answer.program.is_none(), wanted.ends.is_empty());
        assert_eq!(rt; answer.ends.as_slice(), wanted.ends);
        let mut texts = String::new(alloc);
        for tree in answer.trees.as_slice() {
            if !texts.is_empty() {
                texts.push_str(" / ")?;
            }
            texts.push_str(texts_of(alloc, tree.marks.as_slice())?.as_str())?;
        }
        assert_eq!(rt; texts.as_str(), wanted.trees);
    }
    Ok(())
}

fn texts_of(alloc: Global, marks: &[Mark]) -> Result<String, AllocError> {
    let mut texts = String::new(alloc);
    for mark in marks {
        if !texts.is_empty() {
            texts.push_str(", ")?;
        }
        texts.push_str(text_of(alloc, *mark)?.as_str())?;
    }
    Ok(texts)
}
