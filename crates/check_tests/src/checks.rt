//! Answers of `check`, of the command and of a checker that is given the document in pieces.

use crate::calls::document_of;
use crate::changes::check_changes;
use crate::single_changes::{MARKS_THAT_REFUTE_NOTHING, SINGLE_CHANGES};
use crate::verdicts::{check_verdict, has_verdict};
use std::alloc::Global;
use std::process::Abort;
use std::test::Fail;

// The words of a search for a program that lights a light, and of a check of the document that one does.
const SEARCH_ONE: &str = "synth --pointers 1 --lines 3 lights unlit";

const CHECK_ONE: &str = "check --pointers 1 --lines 3 --answer answer lights unlit";

// As it stands; without its last line, without a child, and without the last child; with another step or mark in the tree of a
// size that is refuted, and with a child there; in the tree of the size that is not, which has to be of the grammar alone;
// with another program, another end, and another verdict.
const CHANGES_OF_ONE_LIT: &str = "\
1 bfgp answer 1: accepted
19 : rejected
11 : rejected
14 : rejected
7 f 0 2: rejected
7 t: rejected
7 o: rejected
7 g: rejected
7 r 0: rejected
9 s 0 99999: accepted
9 s 0 100000: rejected
10 f 0 1: accepted
10 t: accepted
11 o: accepted
12 r 0: accepted
13 f 0 7: accepted
14 l 0 5 9: accepted
14 l 0 9 9: rejected
16 inc p0: rejected
16 act light p0 : rejected
16 ACT light p0: rejected
18 ends 0 2: rejected
18 ends 1 1: rejected
5 verdict none: rejected
5 verdict program 1: rejected
5 verdict spent expansions 2: rejected
4 instances 2: rejected
2 pointers 2: rejected
3 lines 16: rejected
1 bfgp answer 2: rejected
";

#[test]
fn changes_of_one_lit(rt: HostRuntime) -> Result<(), Fail> {
    check_changes(&rt, rt.alloc(), SEARCH_ONE, CHECK_ONE, CHANGES_OF_ONE_LIT)
}

// The words of a search for a program that lights two lights, and of a check of the document that none does.
const SEARCH_TWO: &str = "synth --pointers 1 --lines 3 lights two";

const CHECK_TWO: &str = "check --pointers 1 --lines 3 --answer answer lights two";

// Each number one up and one down, and each letter replaced by every other one.
#[test]
fn single_changes_of_two_not_lit(rt: HostRuntime) -> Result<(), Fail> {
    assert_eq!(rt; SINGLE_CHANGES.lines().count(), 824);
    check_changes(&rt, rt.alloc(), SEARCH_TWO, CHECK_TWO, SINGLE_CHANGES)
}

#[test]
fn marks_of_two_not_lit_that_refute_nothing(rt: HostRuntime) -> Result<(), Fail> {
    assert_eq!(rt; MARKS_THAT_REFUTE_NOTHING.lines().count(), 320);
    let changes = MARKS_THAT_REFUTE_NOTHING;
    check_changes(&rt, rt.alloc(), SEARCH_TWO, CHECK_TWO, changes)
}

// Other steps at which a run repeats, and what is so of the second instance.
const CHANGES_OF_TWO_AND_THREE_NOT_LIT: &str = "\
1 bfgp answer 1: accepted
24 l 0 2 4: accepted
24 l 0 1 4: rejected
24 l 0 1 5: accepted
24 l 0 3 5: accepted
24 l 0 0 2: rejected
24 l 1 1 3: accepted
24 l 1 2 4: accepted
24 l 2 1 3: rejected
24 f 1 2: rejected
7 f 1 0: accepted
18 f 1 2: accepted
44 f 1 4: rejected
44 f 1 6: accepted
44 l 0 1 3: rejected
16 s 0 99999: accepted
";

#[test]
fn changes_of_two_and_three_not_lit(rt: HostRuntime) -> Result<(), Fail> {
    check_changes(
        &rt,
        rt.alloc(),
        "synth --pointers 1 --lines 3 lights two three",
        "check --pointers 1 --lines 3 --answer answer lights two three",
        CHANGES_OF_TWO_AND_THREE_NOT_LIT,
    )
}

// What a search is over, the verdict, and what a check of its document is over: verdicts of each kind; and other pointers, lines,
// instances or operations than the document's.
const SEARCHES: &str = "\
--pointers 1 --lines 3 lights unlit: accepted: --pointers 1 --lines 3 --answer answer lights unlit
--pointers 1 --lines 3 lights unlit: rejected: --pointers 2 --lines 3 --answer answer lights unlit
--pointers 1 --lines 3 lights unlit: rejected: --pointers 1 --lines 2 --answer answer lights unlit
--pointers 1 --lines 3 lights unlit: rejected: --pointers 1 --lines 4 --answer answer lights unlit
--pointers 1 --lines 3 lights unlit: rejected: --pointers 1 --lines 16 --answer answer lights unlit
--pointers 1 --lines 16 lights unlit: accepted: --pointers 1 --lines 16 --answer answer lights unlit
--pointers 1 --lines 3 lights unlit: rejected: --pointers 1 --lines 3 --answer answer lights unlit unlit
--pointers 1 --lines 3 lights unlit: rejected: --pointers 1 --lines 3 --answer answer lights lit
--pointers 1 --lines 3 lights unlit: rejected: --pointers 1 --lines 3 --answer answer lights two
--pointers 1 --lines 3 lights unlit: rejected: --pointers 1 --lines 3 --answer answer predicates unlit
--pointers 1 --lines 3 lights unlit: rejected: --pointers 1 --lines 3 --answer answer dimmer unlit
--pointers 1 --lines 3 lights two: accepted: --pointers 1 --lines 3 --answer answer lights two
--pointers 1 --lines 3 lights two: rejected: --pointers 1 --lines 3 --answer answer lights three
--pointers 1 --lines 3 lights two: rejected: --pointers 1 --lines 3 --answer answer dimmer two
--pointers 1 --lines 3 --budget 1 lights two: accepted: --pointers 1 --lines 3 --answer answer lights two
--pointers 1 --lines 3 --budget 1 lights two: rejected: --pointers 1 --lines 3 --answer answer lights unlit
--pointers 1 --lines 5 --run 4 lights two three: accepted: --pointers 1 --lines 5 --answer answer lights two three
--pointers 1 --lines 5 --run 4 lights two three: rejected: --pointers 1 --lines 5 --answer answer lights unlit two
--pointers 1 --lines 5 dimmer never: accepted: --pointers 1 --lines 5 --answer answer dimmer never
--pointers 1 --lines 5 dimmer never: rejected: --pointers 2 --lines 5 --answer answer dimmer never
";

#[test]
fn documents_of_searches(rt: HostRuntime) -> Result<(), Fail> {
    for row in SEARCHES.lines() {
        let (search, check) = row.split_once(": ").unwrap_or((row, ""));
        assert!(rt; is_due(rt.alloc(), search, check)?, "{row}");
    }
    Ok(())
}

// Whether the document of a search gets a verdict, which stands before what the check is over.
fn is_due(alloc: Global, search: &str, check: &str) -> Result<bool, Fail> {
    let (verdict, check) = check.split_once(": ").unwrap_or((check, ""));
    let search = format!(in alloc; "synth {search}")?;
    let check = format!(in alloc; "check {check}")?;
    let document = document_of(alloc, search.as_str())?;
    has_verdict(alloc, check.as_str(), document.as_bytes(), verdict)
}

// The run of a program of two lines is told to be spent; in a tree of that size any marks may stand that are of the grammar.
const SPENT_IN_TWO_LINES: &str = "bfgp answer 1
pointers 1
lines 3
instances 1
verdict spent run 2 0
tree 1
f 0 0
tree 2
s 0 0
r 0
f 0 1
f 0 1
f 0 1
f 0 1
end of answer
";

#[test]
fn a_spent_run_of_two_lines(rt: HostRuntime) -> Result<(), Fail> {
    let document = SPENT_IN_TWO_LINES.as_bytes();
    check_verdict(&rt, rt.alloc(), CHECK_TWO, document, "accepted")?;
    check_verdict(&rt, rt.alloc(), CHECK_ONE, document, "accepted")
}

const NO_DOCUMENTS: &[&[u8]] = &[
    b"",
    b"\n",
    b"x",
    b"\xff\x00\n",
    b"(define (domain lights))\n",
    b"bfgp answer 1",
    b"bfgp answer 1\n",
];

#[test]
fn bytes_of_any_kind(rt: HostRuntime) -> Result<(), Fail> {
    for bytes in NO_DOCUMENTS {
        check_verdict(&rt, rt.alloc(), CHECK_ONE, bytes, "rejected")?;
    }
    Ok(())
}

// A byte after the last line, and the last line without its line feed.
#[test]
fn ends_of_documents(rt: HostRuntime) -> Result<(), Fail> {
    check_ends(&rt, rt.alloc(), SEARCH_ONE, CHECK_ONE)?;
    check_ends(&rt, rt.alloc(), SEARCH_TWO, CHECK_TWO)
}

fn check_ends<R: Abort>(rt: &R, alloc: Global, search: &str, check: &str) -> Result<(), Fail> {
    let document = document_of(alloc, search)?;
    let document = document.trim_end();
    for (end, verdict) in [
        ("\n", "accepted"),
        ("\nx", "rejected"),
        ("\n\n", "rejected"),
        ("", "rejected"),
        ("\r\n", "rejected"),
    ] {
        let bytes = format!(in alloc; "{document}{end}")?;
        check_verdict(rt, alloc, check, bytes.as_bytes(), verdict)?;
    }
    Ok(())
}
