use crate::calls::{check_accepted, check_call, shelf_of};
use crate::given::{at_the_limit_in_four_lines, lit_in_four_lines, not_in_three_lines};
use bfgp_outside::MemoryShelf;
use std::alloc::Global;
use std::process::Abort;
use std::test::Fail;

// Domains and instances of them. An atom that is deleted and added is true afterwards, and an action that is not applicable changes
// nothing; the goal of no atoms is met at once, in either form; an object may have a type under that of the parameter, or another
// one, as the constant `b`.
const SEARCH_FILES: &str = "\
renew: (define (domain lights) (:predicates (lit ?x) (on)) (:action renew :parameters (?x) :precondition (lit ?x) :effect (and (lit ?x) (not (lit ?x)) (on))))
on: (define (problem p) (:domain lights) (:objects a b) (:init (lit a)) (:goal (and (on) (lit a))))
none-and: (define (problem p) (:domain lights) (:objects a) (:init) (:goal (and)))
none: (define (problem p) (:domain lights) (:objects a) (:init) (:goal ()))
cells: (define (domain cells) (:types cell - place) (:predicates (seen ?x)) (:action look :parameters (?x - place) :effect (seen ?x)))
cell: (define (problem p) (:domain cells) (:objects a - cell) (:goal (seen a)))
places: (define (domain cells) (:types cell - place) (:constants b) (:predicates (seen ?x)) (:action look :parameters (?x - place) :effect (seen ?x)))
place: (define (problem p) (:domain cells) (:objects a - cell) (:goal (seen b)))
switch: (define (domain lights) (:predicates (on) (lit ?x ?x ?y ?z)))
four-atoms: (define (problem p) (:domain lights) (:objects a b) (:init (lit a b a b)) (:goal (on)))
";

// What names the second pointer alone is a twin of what names the first. One instance may be named twice.
const FOUND: &str = "\
0 synth --pointers 1 --lines 1 predicates lit
bfgp answer 1
pointers 1
lines 1
instances 1
verdict program 1
tree 1
g
program
end
ends 0 0
end of answer

0 synth --pointers 1 --lines 5 lights lit
bfgp answer 1
pointers 1
lines 5
instances 1
verdict program 1
tree 1
g
program
end
ends 0 0
end of answer

0 synth --pointers 1 --lines 5 lights unlit
bfgp answer 1
pointers 1
lines 5
instances 1
verdict program 2
tree 1
f 0 0
tree 2
s 0 0
g
f 0 1
f 0 1
f 0 1
f 0 1
program
act light p0
end
ends 0 1
end of answer

0 synth --pointers 2 --lines 2 lights unlit
bfgp answer 1
pointers 2
lines 2
instances 1
verdict program 2
tree 1
f 0 0
tree 2
s 0 0
g
t
f 0 1
t
f 0 1
t
f 0 1
t
f 0 1
t
f 0 1
t
f 0 1
t
program
act light p0
end
ends 0 1
end of answer

0 synth --pointers 1 --lines 2 renew on
bfgp answer 1
pointers 1
lines 2
instances 1
verdict program 2
tree 1
f 0 0
tree 2
s 0 0
g
f 0 1
f 0 1
f 0 1
f 0 1
f 0 1
program
act renew p0
end
ends 0 1
end of answer

0 synth --pointers 1 --lines 1 predicates none-and
bfgp answer 1
pointers 1
lines 1
instances 1
verdict program 1
tree 1
g
program
end
ends 0 0
end of answer

0 synth --pointers 1 --lines 1 predicates none
bfgp answer 1
pointers 1
lines 1
instances 1
verdict program 1
tree 1
g
program
end
ends 0 0
end of answer

0 synth --pointers 1 --lines 2 cells cell
bfgp answer 1
pointers 1
lines 2
instances 1
verdict program 2
tree 1
f 0 0
tree 2
s 0 0
g
f 0 1
f 0 1
f 0 1
f 0 1
program
act look p0
end
ends 0 1
end of answer

0 synth --pointers 1 --lines 5 lights unlit unlit
bfgp answer 1
pointers 1
lines 5
instances 2
verdict program 2
tree 1
f 0 0
tree 2
s 0 0
g
f 0 1
f 0 1
f 0 1
f 0 1
program
act light p0
end
ends 0 1
ends 1 1
end of answer";

#[test]
fn programs(rt: HostRuntime) -> Result<(), Fail> {
    check_searches(&rt, rt.alloc(), SEARCH_FILES, FOUND)
}

// Of several instances only the last may refute.
const REFUTATIONS: &str = "\
1 synth --pointers 1 --lines 1 predicates unlit
bfgp answer 1
pointers 1
lines 1
instances 1
verdict none
tree 1
f 0 0
end of answer

1 synth --pointers 1 --lines 1 lights unlit
bfgp answer 1
pointers 1
lines 1
instances 1
verdict none
tree 1
f 0 0
end of answer

1 synth --pointers 1 --lines 2 places place
bfgp answer 1
pointers 1
lines 2
instances 1
verdict none
tree 1
f 0 0
tree 2
s 0 0
f 0 1
f 0 1
f 0 1
f 0 1
f 0 1
end of answer

1 synth --pointers 1 --lines 1 switch four-atoms
bfgp answer 1
pointers 1
lines 1
instances 1
verdict none
tree 1
f 0 0
end of answer

1 synth --pointers 1 --lines 1 predicates lit unlit
bfgp answer 1
pointers 1
lines 1
instances 2
verdict none
tree 1
f 1 0
end of answer";

#[test]
fn refutations(rt: HostRuntime) -> Result<(), Fail> {
    check_searches(&rt, rt.alloc(), SEARCH_FILES, REFUTATIONS)
}

// The budget is spent before the first split of three lines, also where programs may have as many lines as there may be.
const SPENT: &str = "\
4 synth --pointers 1 --lines 5 --budget 1 lights two three
bfgp answer 1
pointers 1
lines 5
instances 2
verdict spent expansions 3
tree 1
f 0 0
tree 2
s 0 0
f 0 1
f 0 1
f 0 1
f 0 1
f 0 1
tree 3
o
end of answer

4 synth --pointers 1 --lines 16 --budget 1 lights two
bfgp answer 1
pointers 1
lines 16
instances 1
verdict spent expansions 3
tree 1
f 0 0
tree 2
s 0 0
f 0 1
f 0 1
f 0 1
f 0 1
f 0 1
tree 3
o
end of answer";

#[test]
fn spent_budgets(rt: HostRuntime) -> Result<(), Fail> {
    check_searches(&rt, rt.alloc(), SEARCH_FILES, SPENT)
}

// Letters of either case and comments; sections and parts in any order, conjunctions within others, and parts that are absent.
const FREE_FILES: &str = "\
capital: (DEFINE(DOMAIN Lights);( / (:Predicates(LIT ?X)))
commented: ; Größe / (DEFINE (DOMAIN LIGHTS) (:REQUIREMENTS :STRIPS) / (:PREDICATES (LIT ?X)) / (:ACTION LIGHT :PARAMETERS (?X) :PRECONDITION () :EFFECT (LIT ?X)))
any-order: (define (domain lights) (:action light :effect (and (and) (and (lit ?x)) ()) :parameters (?x)) (:predicates (lit ?x)))
within: (define (problem one) (:goal (and (and (lit a)) ())) (:objects a) (:domain lights))
";

const FREELY_WRITTEN: &str = "\
0 synth --pointers 1 --lines 1 capital lit
bfgp answer 1
pointers 1
lines 1
instances 1
verdict program 1
tree 1
g
program
end
ends 0 0
end of answer

0 synth --pointers 1 --lines 3 commented unlit
bfgp answer 1
pointers 1
lines 3
instances 1
verdict program 2
tree 1
f 0 0
tree 2
s 0 0
g
f 0 1
f 0 1
f 0 1
f 0 1
program
act light p0
end
ends 0 1
end of answer

0 synth --pointers 1 --lines 3 any-order within
bfgp answer 1
pointers 1
lines 3
instances 1
verdict program 2
tree 1
f 0 0
tree 2
s 0 0
g
f 0 1
f 0 1
f 0 1
f 0 1
program
act light p0
end
ends 0 1
end of answer";

#[test]
fn texts_that_are_freely_written(rt: HostRuntime) -> Result<(), Fail> {
    check_searches(&rt, rt.alloc(), FREE_FILES, FREELY_WRITTEN)
}

/// Makes each search, compares what it answers, and checks that what it wrote is accepted.
pub fn check_searches<R: Abort>(
    rt: &R,
    alloc: Global,
    files: &str,
    searches: &str,
) -> Result<(), Fail> {
    let mut shelf = shelf_of(alloc, files)?;
    for search in searches.split("\n\n") {
        check_search(rt, alloc, &mut shelf, search)?;
    }
    Ok(())
}

fn check_search<R: Abort>(
    rt: &R,
    alloc: Global,
    shelf: &mut MemoryShelf,
    search: &str,
) -> Result<(), Fail> {
    check_call(rt, alloc, shelf, search)?;
    let (head, document) = search.split_once('\n').unwrap_or((search, ""));
    let (_, words) = head.split_once(' ').unwrap_or((head, ""));
    let document = format!(in alloc; "{document}\n")?;
    check_accepted(rt, alloc, shelf, words, document.as_str())
}

// Two lights are not lit in three lines, alone and with three on a second instance; they are in four, but not where a run makes
// too few steps.
#[test]
fn two_lights_and_three(rt: HostRuntime) -> Result<(), Fail> {
    let alloc = rt.alloc();
    let alone = not_in_three_lines(alloc, 1)?;
    let both = not_in_three_lines(alloc, 2)?;
    let lit = lit_in_four_lines(alloc)?;
    let limited = at_the_limit_in_four_lines(alloc)?;
    for (call, document) in [
        ("1 synth --pointers 1 --lines 3 lights two", &alone),
        ("1 synth --pointers 1 --lines 3 lights two three", &both),
        ("0 synth --pointers 1 --lines 5 lights two three", &lit),
        (
            "5 synth --pointers 1 --lines 5 --run 4 lights two three",
            &limited,
        ),
    ] {
        let mut shelf = shelf_of(alloc, "")?;
        let search = format!(in alloc; "{call}\n{}", document.trim_end())?;
        check_search(&rt, alloc, &mut shelf, search.as_str())?;
    }
    Ok(())
}
