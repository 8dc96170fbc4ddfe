//! Answers of the search with one number of a mark changed, and whether they are accepted. A row of a table is the size of the tree,
//! the place of the mark in it from 0, the mark that stands there instead, as in a document, and the verdict.

use crate::counters::{Counters, Tally};
use crate::marks::read_mark;
use evaluations::Order;
use flag_rules::{List, OutOfMemory};
use refutation_check::accepts;
use refutation_tree::{Mark, Tree};
use search_bounds::Bounds;
use std::alloc::Global;
use std::process::Abort;
use std::test::Fail;
use synthesis::search;

// A program of three lines solves the first counter. Its tree of that size has to be of the grammar alone.
const CHANGES_OF_A_PROGRAM: &str = "\
1 0 f 0 0: accepted
1 0 f 1 0: rejected
1 0 f 0 1: rejected
2 0 s 1 0: rejected
2 0 s 0 1: accepted
2 1 f 1 1: rejected
2 1 f 0 2: rejected
2 1 f 0 0: rejected
3 0 s 1 1: rejected
3 0 s 0 2: accepted
3 0 s 0 0: accepted
3 1 s 2 2: rejected
3 1 s 0 2: rejected
3 1 s 1 3: accepted
3 1 s 1 1: accepted
3 2 f 1 2: rejected
3 2 f 0 3: accepted
3 2 f 0 1: accepted
3 3 f 1 2: rejected
3 3 f 0 3: accepted
3 3 f 0 1: accepted
3 6 f 1 2: rejected
3 6 f 0 3: accepted
3 6 f 0 1: accepted
3 8 f 1 1: rejected
3 8 f 0 2: accepted
3 8 f 0 0: accepted
3 10 f 1 1: rejected
3 10 f 0 2: accepted
3 10 f 0 0: accepted
";

// None of three lines solves two counters. The last rows change both steps of a loop.
const CHANGES_OF_NONE: &str = "\
1 0 f 0 0: accepted
1 0 f 1 0: accepted
1 0 f 0 1: rejected
2 0 s 1 0: rejected
2 0 s 0 1: accepted
2 1 f 1 1: accepted
2 1 f 0 2: rejected
2 1 f 0 0: rejected
3 0 s 1 1: rejected
3 0 s 0 2: accepted
3 0 s 0 0: accepted
3 1 s 2 2: rejected
3 1 s 0 2: rejected
3 1 s 1 3: accepted
3 1 s 1 1: accepted
3 2 f 1 2: accepted
3 2 f 0 3: rejected
3 2 f 0 1: rejected
3 3 f 1 2: rejected
3 3 f 0 3: rejected
3 3 f 0 1: rejected
3 4 f 2 2: rejected
3 4 f 0 2: rejected
3 4 f 1 3: rejected
3 4 f 1 1: rejected
3 5 f 2 2: rejected
3 5 f 0 2: rejected
3 5 f 1 3: rejected
3 5 f 1 1: rejected
3 6 f 1 2: rejected
3 6 f 0 3: rejected
3 6 f 0 1: rejected
3 7 s 2 3: rejected
3 7 s 0 3: rejected
3 7 s 1 4: accepted
3 7 s 1 2: accepted
3 8 f 1 2: accepted
3 8 f 0 3: rejected
3 8 f 0 1: rejected
3 9 f 1 2: accepted
3 9 f 0 3: rejected
3 9 f 0 1: rejected
3 10 l 1 1 3: accepted
3 10 l 0 2 3: rejected
3 10 l 0 0 3: rejected
3 10 l 0 1 4: rejected
3 10 l 0 1 2: rejected
3 11 f 1 2: accepted
3 11 f 0 3: rejected
3 11 f 0 1: rejected
3 12 l 1 1 3: accepted
3 12 l 0 2 3: rejected
3 12 l 0 0 3: rejected
3 12 l 0 1 4: rejected
3 12 l 0 1 2: rejected
3 13 f 1 1: accepted
3 13 f 0 2: rejected
3 13 f 0 0: rejected
3 14 s 2 4: rejected
3 14 s 0 4: rejected
3 14 s 1 5: accepted
3 14 s 1 3: accepted
3 15 f 1 2: accepted
3 15 f 0 3: rejected
3 15 f 0 1: rejected
3 16 f 1 2: accepted
3 16 f 0 3: rejected
3 16 f 0 1: rejected
3 17 l 1 1 3: accepted
3 17 l 0 2 3: rejected
3 17 l 0 0 3: rejected
3 17 l 0 1 4: rejected
3 17 l 0 1 2: rejected
3 18 f 1 2: accepted
3 18 f 0 3: rejected
3 18 f 0 1: rejected
3 19 l 1 1 3: accepted
3 19 l 0 2 3: rejected
3 19 l 0 0 3: rejected
3 19 l 0 1 4: rejected
3 19 l 0 1 2: rejected
3 20 f 1 1: accepted
3 20 f 0 2: rejected
3 20 f 0 0: rejected
3 10 l 0 2 4: accepted
3 10 l 0 0 2: accepted
3 12 l 0 2 4: accepted
3 12 l 0 0 2: accepted
3 17 l 0 2 4: accepted
3 17 l 0 0 2: accepted
3 19 l 0 2 4: accepted
3 19 l 0 0 2: accepted
";

#[test]
fn numbers_one_up_and_one_down(rt: HostRuntime) -> Result<(), Fail> {
    let one = Counters {
        first: 0,
        instances: 1,
    };
    let two = Counters {
        first: 0,
        instances: 2,
    };
    check_changes(&rt, rt.alloc(), &one, CHANGES_OF_A_PROGRAM)?;
    check_changes(&rt, rt.alloc(), &two, CHANGES_OF_NONE)
}

fn check_changes<R: Abort>(
    rt: &R,
    alloc: Global,
    machine: &Counters,
    changes: &str,
) -> Result<(), Fail> {
    for row in changes.lines() {
        let (change, verdict) = row.split_once(": ").unwrap_or((row, ""));
        let accepted = is_accepted(alloc, machine, change)?;
        assert_eq!(rt; accepted, Some(verdict == "accepted"), "{change}");
    }
    Ok(())
}

// Whether the answer of the search in three lines is accepted with a change; none where the text is no change.
fn is_accepted(
    alloc: Global,
    machine: &Counters,
    change: &str,
) -> Result<Option<bool>, OutOfMemory> {
    let Some((size, place, mark)) = read_change(change) else {
        return Ok(None);
    };
    let bounds = Bounds {
        lines: 3,
        budget: 10_000,
        run: 100_000,
        order: Order::usual(),
    };
    let mut tally = Tally { acts: 0, copies: 0 };
    let mut answer = search(alloc, machine, &bounds, &mut tally)?;
    answer.trees = with_mark(alloc, answer.trees.as_slice(), size, place, mark)?;
    Ok(Some(accepts(alloc, machine, 3, &answer, &mut tally)?))
}

// The trees with another mark at a place of the one of a size.
fn with_mark(
    alloc: Global,
    trees: &[Tree],
    size: u8,
    place: usize,
    mark: Mark,
) -> Result<List<Tree>, OutOfMemory> {
    let mut changed = List::new(alloc);
    for tree in trees {
        let mut marks = List::new(alloc);
        for (at, old) in tree.marks.as_slice().iter().enumerate() {
            marks.push(if tree.size == size && at == place {
                mark
            } else {
                *old
            })?;
        }
        changed.push(Tree {
            size: tree.size,
            marks,
        })?;
    }
    Ok(changed)
}

// The size, the place and the mark of a change.
fn read_change(change: &str) -> Option<(u8, usize, Mark)> {
    let (size, rest) = change.split_once(' ')?;
    let (place, mark) = rest.split_once(' ')?;
    Some((
        size.parse::<u8>().ok()?,
        place.parse::<usize>().ok()?,
        read_mark(mark)?,
    ))
}
