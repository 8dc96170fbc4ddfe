//! Each operation at its edges, and the jump under each condition. A row is a program over two pointers and where its run
//! stands, on two lamps `a` and `b`: at the start `a` is lit, and one atom of the goal is missing.

use crate::calls::shelf_of;
use crate::reports::check_run;
use std::alloc::Global;
use std::process::Abort;
use std::test::Fail;

const LAMPS: &str = "\
d: (define (domain lamps) (:predicates (lit ?x) (next ?x ?y)) (:action light :parameters (?x) :effect (lit ?x)) (:action fade :parameters (?x) :precondition (lit ?x) :effect (not (lit ?x))) (:action spread :parameters (?x ?y) :precondition (and (lit ?x) (next ?x ?y)) :effect (lit ?y)))
i: (define (problem two) (:domain lamps) (:objects a b) (:init (lit a) (next a b)) (:goal (and (lit a) (lit b))))
";

// An action gives 1 where it is applicable, also where it changes nothing, and else 0.
const ACT: &str = "\
act fade p0 / end: unmet 1 missing 2
act fade p0 / goto 3 if carry / act light p0 / end: unmet 2 missing 2
act light p0 / goto 3 if carry / act fade p0 / end: unmet 2 missing 1
inc p0 / act fade p0 / end: unmet 2 missing 1
inc p0 / act fade p0 / goto 4 if zero / act light p0 / end: unmet 3 missing 1
inc p1 / act spread p0 p1 / end: solved 2
inc p1 / act spread p1 p0 / end: unmet 2 missing 1
act spread p0 p0 / end: unmet 1 missing 1
";

// An atom of the start, one that never is, and one that was deleted or added.
const TEST: &str = "\
test lit p0 / goto 3 if carry / act fade p0 / end: unmet 2 missing 1
inc p0 / test lit p0 / goto 4 if zero / act light p0 / end: unmet 3 missing 1
inc p0 / test lit p0 / act light p0 / end: solved 3
inc p1 / test next p0 p1 / goto 4 if carry / act light p1 / end: unmet 3 missing 1
inc p1 / test next p1 p0 / goto 4 if carry / act light p1 / end: solved 4
act fade p0 / test lit p0 / goto 4 if zero / act light p0 / end: unmet 3 missing 2
inc p0 / act light p0 / test lit p0 / goto 0 if zero / end: solved 4
";

// At the last object and at object 0 the pointer stays.
const INC_AND_DEC: &str = "\
inc p0 / act light p0 / end: solved 2
inc p0 / goto 3 if carry / act light p0 / end: unmet 2 missing 1
inc p0 / inc p0 / act light p0 / end: solved 3
inc p0 / inc p0 / goto 4 if zero / act light p0 / end: unmet 3 missing 1
inc p1 / act fade p0 / end: unmet 2 missing 2
dec p0 / act fade p0 / end: unmet 2 missing 2
dec p0 / goto 3 if zero / act fade p0 / end: unmet 2 missing 1
inc p0 / dec p0 / act fade p0 / end: unmet 3 missing 2
inc p0 / dec p0 / goto 4 if carry / act fade p0 / end: unmet 3 missing 1
";

// What gives 0, and what gives the number of an object.
const CLEAR_AND_SET: &str = "\
inc p0 / clear p0 / act fade p0 / end: unmet 3 missing 2
inc p0 / clear p0 / goto 4 if zero / act fade p0 / end: unmet 3 missing 1
clear p0 / goto 3 if zero / act fade p0 / end: unmet 2 missing 1
inc p1 / set p0 p1 / act light p0 / end: solved 3
inc p1 / set p0 p1 / act light p1 / end: solved 3
inc p1 / set p0 p1 / goto 4 if carry / act light p0 / end: unmet 3 missing 1
inc p0 / set p0 p1 / act fade p0 / end: unmet 3 missing 2
inc p0 / set p0 p1 / act fade p1 / end: unmet 3 missing 2
inc p0 / set p0 p1 / goto 4 if zero / act fade p0 / end: unmet 3 missing 1
";

#[test]
fn operations_at_their_edges(rt: HostRuntime) -> Result<(), Fail> {
    for rows in [ACT, TEST, INC_AND_DEC, CLEAR_AND_SET] {
        check_rows(&rt, rt.alloc(), rows)?;
    }
    Ok(())
}

// The sign is negative at the start, and it stays over a jump that is taken and over one that is not.
const GOTO: &str = "\
goto 2 if zero / act fade p0 / end: unmet 2 missing 2
goto 2 if nonzero / act fade p0 / end: unmet 1 missing 1
goto 2 if carry / act fade p0 / end: unmet 2 missing 2
goto 2 if nocarry / act fade p0 / end: unmet 1 missing 1
inc p0 / goto 3 if carry / act light p0 / goto 5 if carry / act light p0 / end: unmet 3 missing 1
inc p0 / goto 3 if zero / goto 4 if carry / act light p0 / end: unmet 3 missing 1
inc p0 / goto 0 if carry / act light p0 / end: solved 5
";

// The pointers stay. Each sign comes under each condition: the first object before the other, the same, and after it.
const CMP: &str = "\
inc p1 / cmp p0 p1 / act fade p0 / end: unmet 3 missing 2
inc p1 / cmp p0 p1 / act light p1 / end: solved 3
inc p1 / cmp p0 p1 / goto 4 if zero / act light p1 / end: solved 4
inc p1 / cmp p0 p1 / goto 4 if nonzero / act light p1 / end: unmet 3 missing 1
inc p1 / cmp p0 p1 / goto 4 if carry / act light p1 / end: solved 4
inc p1 / cmp p0 p1 / goto 4 if nocarry / act light p1 / end: unmet 3 missing 1
cmp p0 p1 / goto 3 if zero / act fade p0 / end: unmet 2 missing 1
cmp p0 p1 / goto 3 if nonzero / act fade p0 / end: unmet 3 missing 2
cmp p0 p1 / goto 3 if carry / act fade p0 / end: unmet 3 missing 2
cmp p0 p1 / goto 3 if nocarry / act fade p0 / end: unmet 2 missing 1
inc p0 / cmp p0 p1 / goto 4 if zero / act light p0 / end: solved 4
inc p0 / cmp p0 p1 / goto 4 if nonzero / act light p0 / end: unmet 3 missing 1
inc p0 / cmp p0 p1 / goto 4 if carry / act light p0 / end: unmet 3 missing 1
inc p0 / cmp p0 p1 / goto 4 if nocarry / act light p0 / end: solved 4
";

#[test]
fn jumps_under_each_condition(rt: HostRuntime) -> Result<(), Fail> {
    for rows in [GOTO, CMP] {
        check_rows(&rt, rt.alloc(), rows)?;
    }
    Ok(())
}

fn check_rows<R: Abort>(rt: &R, alloc: Global, rows: &str) -> Result<(), Fail> {
    let words = "run --pointers 2 --program p d i";
    let mut shelf = shelf_of(alloc, LAMPS)?;
    for row in rows.lines() {
        let (program, standing) = row.split_once(": ").unwrap_or((row, ""));
        check_run(rt, alloc, words, &mut shelf, program, standing)?;
    }
    Ok(())
}
