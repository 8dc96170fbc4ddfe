//! Searches at their budget of splits and at their limit of steps, and one below and above.

use crate::calls::{check_accepted, search, shelf_of};
use std::alloc::Global;
use std::process::Abort;
use std::test::Fail;

// The second of three lights is not lit.
const SECOND_UNLIT: &str = "\
second-unlit: (define (problem p) (:domain lights) (:objects a b c) (:init (lit a) (lit c)) (:goal (and (lit a) (lit b) (lit c))))
";

// The exit status, the splits that are made and the verdict, and the words. Two lights and three are lit in four lines after 14
// splits, with runs of nine steps; in three lines nothing is found after 9 splits, with runs of four: a program is refused by the
// second instance also where the first one's run is at its limit. A program that solves comes before a sibling at its limit. Then
// each option stands with its least and its greatest value.
const SEARCHES: &str = "\
0 14 program 4: synth --pointers 1 --lines 5 --budget 15 lights two three
0 14 program 4: synth --pointers 1 --lines 5 --budget 14 lights two three
4 13 spent expansions 4: synth --pointers 1 --lines 5 --budget 13 lights two three
1 9 none: synth --pointers 1 --lines 3 --budget 10 lights two three
1 9 none: synth --pointers 1 --lines 3 --budget 9 lights two three
4 8 spent expansions 3: synth --pointers 1 --lines 3 --budget 8 lights two three
4 2 spent expansions 3: synth --pointers 1 --lines 3 --budget 2 lights two three
1 9 none: synth --pointers 1 --lines 3 --run 4 lights two three
1 9 none: synth --pointers 1 --lines 3 --run 4 lights three two
0 5 program 3: synth --pointers 1 --lines 3 --budget 5 --run 4 lights second-unlit
0 14 program 4: synth --pointers 1 --lines 5 --run 10 lights two three
0 14 program 4: synth --pointers 1 --lines 5 --run 9 lights two three
5 14 spent run 4 1: synth --pointers 1 --lines 5 --run 8 lights two three
5 14 spent run 4 1: synth --pointers 1 --lines 5 --run 6 lights two three
5 12 spent run 4 0: synth --pointers 1 --lines 5 --run 5 lights two three
5 14 spent run 4 0: synth --pointers 1 --lines 5 --run 8 lights three two
5 12 spent run 4 0: synth --pointers 1 --lines 5 --budget 12 --run 4 lights two three
4 11 spent expansions 4: synth --pointers 1 --lines 5 --budget 11 --run 4 lights two three
0 14 program 4: synth --pointers 1 --lines 16 --budget 100000 --run 10000000 --order e5,e1 lights two three
0 1 program 2: synth --pointers 4 --lines 16 --budget 1 --run 4 --order e6,e5,e4,e3,e2,e1 lights unlit
0 0 program 1: synth --pointers 1 --lines 1 --budget 1 lights lit
0 0 program 1: synth --pointers 1 --lines 1 --run 4 --order e1 lights lit
0 0 program 1: synth --pointers 1 --lines 1 --budget 1 --order e6 lights lit
";

#[test]
fn searches_at_their_bounds(rt: HostRuntime) -> Result<(), Fail> {
    for row in SEARCHES.lines() {
        let (head, words) = row.split_once(": ").unwrap_or((row, ""));
        check_bounded(&rt, rt.alloc(), head, words)?;
    }
    Ok(())
}

// Compares the exit status, the splits and the verdict of a search, and checks that its document is accepted.
fn check_bounded<R: Abort>(rt: &R, alloc: Global, head: &str, words: &str) -> Result<(), Fail> {
    let mut shelf = shelf_of(alloc, SECOND_UNLIT)?;
    let answer = search(alloc, &mut shelf, words)?;
    let (splits, verdict) = (answer.splits(), answer.verdict());
    let got = format!(in alloc; "{} {splits} {verdict}", answer.status)?;
    assert_eq!(rt; got.as_str(), head, "{words}");
    check_accepted(rt, alloc, &mut shelf, words, answer.document.as_str())
}
