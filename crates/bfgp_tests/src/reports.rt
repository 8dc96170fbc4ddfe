use crate::calls::{check, check_calls, lines_of, shelf_of};
use bfgp_outside::MemoryShelf;
use std::alloc::Global;
use std::process::Abort;
use std::test::Fail;

/// Domains, instances of them, and a program by which each ball is carried by each hand. What is lit is renewed.
pub const RUN_FILES: &str = "\
corridor: (define (domain corridor) (:predicates (at ?c) (next ?x ?y)) (:action move :parameters (?x ?y) :precondition (and (at ?x) (next ?x ?y)) :effect (and (not (at ?x)) (at ?y))))
cells: (define (problem three) (:domain corridor) (:objects a b c) (:init (at a) (next a b) (next b c)) (:goal (at c)))
eight-cells: (define (problem eight) (:domain corridor) (:objects a b c d e f g h) (:init (at a) (next a b) (next b c) (next c d) (next d e) (next e f) (next f g) (next g h)) (:goal (at h)))
renew: (define (domain lights) (:predicates (lit ?x)) (:action renew :parameters (?x) :precondition (lit ?x) :effect (and (lit ?x) (not (lit ?x)))))
gripper: (define (domain gripper-strips) (:predicates (room ?r) (ball ?b) (gripper ?g) (at-robby ?r) (at ?b ?r) (free ?g) (carry ?o ?g)) (:action move :parameters (?from ?to) :precondition (and (room ?from) (room ?to) (at-robby ?from)) :effect (and (at-robby ?to) (not (at-robby ?from)))) (:action pick :parameters (?obj ?room ?gripper) :precondition (and (ball ?obj) (room ?room) (gripper ?gripper) (at ?obj ?room) (at-robby ?room) (free ?gripper)) :effect (and (carry ?obj ?gripper) (not (at ?obj ?room)) (not (free ?gripper)))) (:action drop :parameters (?obj ?room ?gripper) :precondition (and (ball ?obj) (room ?room) (gripper ?gripper) (carry ?obj ?gripper) (at-robby ?room)) :effect (and (at ?obj ?room) (free ?gripper) (not (carry ?obj ?gripper)))))
two-balls: (define (problem strips-gripper-2) (:domain gripper-strips) (:objects rooma roomb ball2 ball1 left right) (:init (room rooma) (room roomb) (ball ball2) (ball ball1) (at-robby rooma) (free left) (free right) (at ball2 rooma) (at ball1 rooma) (gripper left) (gripper right)) (:goal (and (at ball2 roomb) (at ball1 roomb))))
four-balls: (define (problem strips-gripper-4) (:domain gripper-strips) (:objects rooma roomb ball4 ball3 ball2 ball1 left right) (:init (room rooma) (room roomb) (ball ball4) (ball ball3) (ball ball2) (ball ball1) (at-robby rooma) (free left) (free right) (at ball4 rooma) (at ball3 rooma) (at ball2 rooma) (at ball1 rooma) (gripper left) (gripper right)) (:goal (and (at ball4 roomb) (at ball3 roomb) (at ball2 roomb) (at ball1 roomb))))
carry-all: inc p2 / inc p3 / test gripper p3 / goto 1 if zero / act pick p0 p1 p3 / act move p1 p2 / act drop p0 p2 p3 / act move p2 p1 / inc p0 / goto 4 if carry / end
light-all: act light p0 / inc p0 / goto 0 if carry / end
";

// The words of a run, its program, and where it stands.
const RUNS: &str = "\
run --pointers 1 --program p lights two: act light p0 / inc p0 / goto 0 if carry / end: solved 6
run --pointers 1 --program p lights two: act light p0 / end: unmet 1 missing 1
run --pointers 1 --program p lights unlit: inc p0 / goto 0 if zero / end: loops 1 3
run --pointers 1 --program p lights unlit: test lit p0 / goto 0 if zero / end: loops 1 3
run --pointers 1 --program p lights lit: test lit p0 / inc p0 / goto 1 if zero / end: loops 3 5
run --pointers 1 --program p lights lit: inc p0 / goto 0 if nonzero / end: solved 2
run --pointers 1 --program p lights unlit: goto 2 if nocarry / act light p0 / end: unmet 1 missing 1
run --pointers 1 --program p renew lit: act renew p0 / end: solved 1
run --pointers 1 --program p renew unlit: act renew p0 / end: unmet 1 missing 1
run --pointers 1 --program p renew unlit: act renew p0 / goto 0 if nonzero / end: unmet 2 missing 1
run --pointers 2 --program p corridor cells: inc p1 / act move p0 p1 / inc p0 / goto 0 if carry / end: solved 12
run --pointers 2 --program p corridor cells: inc p1 / act move p0 p1 / end: unmet 2 missing 1
";

#[test]
fn runs_on_an_instance(rt: HostRuntime) -> Result<(), Fail> {
    check_rows(&rt, rt.alloc(), RUNS)
}

// The same under limits, of which 4 is the least and 10,000,000 the greatest. A run may end, or be noticed to repeat, at the
// limit.
const LIMITED: &str = "\
run --pointers 1 --program p --run 6 lights two: act light p0 / inc p0 / goto 0 if carry / end: solved 6
run --pointers 1 --program p --run 5 lights two: act light p0 / inc p0 / goto 0 if carry / end: limit 5
run --pointers 1 --program p --run 4 lights two: act light p0 / inc p0 / goto 0 if carry / end: limit 4
run --pointers 1 --program p --run 4 lights three: act light p0 / inc p0 / goto 0 if nonzero / end: limit 4
run --pointers 1 --program p --run 8 lights three: act light p0 / inc p0 / goto 0 if nonzero / end: limit 8
run --pointers 1 --program p --run 9 lights three: act light p0 / inc p0 / goto 0 if nonzero / end: solved 9
run --pointers 1 --program p --run 10 lights three: act light p0 / inc p0 / goto 0 if nonzero / end: solved 9
run --pointers 1 --program p --run 10000000 lights unlit: act light p0 / end: solved 1
run --pointers 1 --program p --run 4 lights unlit: act light p0 / end: solved 1
run --pointers 1 --program p --run 4 lights unlit: inc p0 / inc p0 / inc p0 / act light p0 / end: solved 4
run --pointers 1 --program p --run 4 lights unlit: inc p0 / inc p0 / inc p0 / inc p0 / act light p0 / end: limit 4
run --pointers 1 --program p --run 4 lights unlit: inc p0 / inc p0 / inc p0 / inc p0 / end: unmet 4 missing 1
run --pointers 1 --program p --run 4 lights unlit: inc p0 / inc p0 / inc p0 / inc p0 / inc p0 / end: limit 4
run --pointers 1 --program p --run 5 lights lit: test lit p0 / inc p0 / goto 1 if zero / end: loops 3 5
run --pointers 1 --program p --run 4 lights lit: test lit p0 / inc p0 / goto 1 if zero / end: limit 4
";

#[test]
fn runs_at_their_limit(rt: HostRuntime) -> Result<(), Fail> {
    check_rows(&rt, rt.alloc(), LIMITED)
}

fn check_rows<R: Abort>(rt: &R, alloc: Global, rows: &str) -> Result<(), Fail> {
    let mut shelf = shelf_of(alloc, RUN_FILES)?;
    for row in rows.lines() {
        let (words, rest) = row.split_once(": ").unwrap_or((row, ""));
        let (program, standing) = rest.split_once(": ").unwrap_or((rest, ""));
        check_run(rt, alloc, words, &mut shelf, program, standing)?;
    }
    Ok(())
}

// Checks where the run of the program `p` on one instance stands.
pub fn check_run<R: Abort>(
    rt: &R,
    alloc: Global,
    words: &str,
    shelf: &mut MemoryShelf,
    program: &str,
    standing: &str,
) -> Result<(), Fail> {
    shelf.add(b"p", lines_of(alloc, program)?.as_bytes())?;
    let (status, solved) = if standing.starts_with("solved") {
        ("0", 1)
    } else {
        ("1", 0)
    };
    let report = format!(in alloc; "instance 0 {standing}\nsolved {solved} of 1")?;
    check(rt, alloc, shelf, status, words, report.as_str())
}

// Each instance has its line.
const REPORTS: &str = "\
1 run --pointers 1 --program light-one lights lit two lit
instance 0 solved 1
instance 1 unmet 1 missing 1
instance 2 solved 1
solved 2 of 3

0 run --pointers 1 --program light-all lights lit two
instance 0 solved 3
instance 1 solved 6
solved 2 of 2

0 run --pointers 4 --program carry-all gripper two-balls four-balls
instance 0 solved 49
instance 1 solved 67
solved 2 of 2";

#[test]
fn reports_on_several_instances(rt: HostRuntime) -> Result<(), Fail> {
    check_calls(&rt, rt.alloc(), RUN_FILES, REPORTS)
}

// Letters of either case, comments, empty lines, and a last line without its line feed.
#[test]
fn a_program_that_is_freely_written(rt: HostRuntime) -> Result<(), Fail> {
    let program = "; one light\r\n\r\n\tACT  light P0 ;on\r\nEnd";
    let mut shelf = shelf_of(rt.alloc(), "")?;
    shelf.add(b"p", program.as_bytes())?;
    let words = "run --pointers 1 --program p lights unlit";
    let report = "instance 0 solved 1\nsolved 1 of 1";
    check(&rt, rt.alloc(), &mut shelf, "0", words, report)
}
