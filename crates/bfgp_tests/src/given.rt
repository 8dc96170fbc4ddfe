//! Files and documents that several tests are given.

use crate::calls::lines_of;
use std::alloc::{AllocError, Global};

/// Domains, instances of them, and programs.
pub const FILES: &str = "\
predicates: (define (domain lights) (:predicates (lit ?x)))
lights: (define (domain lights) (:predicates (lit ?x)) (:action light :parameters (?x) :precondition () :effect (lit ?x)))
lit: (define (problem one) (:domain lights) (:objects a) (:init (lit a)) (:goal (lit a)))
unlit: (define (problem one) (:domain lights) (:objects a) (:init) (:goal (lit a)))
two: (define (problem two) (:domain lights) (:objects a b) (:init) (:goal (and (lit a) (lit b))))
three: (define (problem three) (:domain lights) (:objects a b c) (:init) (:goal (and (lit a) (lit b) (lit c))))
light-one: act light p0 / end
";

/// What is written where words are no job.
pub const USAGE: &str =
    "usage: bfgp synth --pointers K --lines N [--budget B] [--run R] [--order E] DOMAIN INSTANCE..
       bfgp check --pointers K --lines N --answer FILE DOMAIN INSTANCE..
       bfgp run --pointers K --program FILE [--run R] DOMAIN INSTANCE..
       bfgp gen FAMILY NUMBER
";

/// A light is lit by one operation.
pub const LIT_IN_TWO_LINES: &str = "bfgp answer 1
pointers 1
lines 3
instances 1
verdict program 2
tree 1
f 0 0
tree 2
s 0 0
g
f 0 1
f 0 1
f 0 1
f 0 1
program
act light p0
end
ends 0 1
end of answer
";

// The trees that show that two lights are not lit by a program of up to three lines.
const TREES: &str = "\
tree 1
f 0 0
tree 2
s 0 0
f 0 1
f 0 1
f 0 1
f 0 1
f 0 1
tree 3
s 0 1
s 1 2
f 0 2
f 0 2
f 0 2
f 0 2
f 0 2
f 0 2
l 0 1 3
l 0 1 3
f 0 2
s 1 3
f 0 2
f 0 2
f 0 2
f 0 2
f 0 2
l 0 1 3
f 0 2
f 0 2
l 0 1 3
s 1 4
f 0 2
f 0 2
f 0 2
f 0 2
f 0 2
f 0 2
f 0 4
f 0 4
f 0 2
s 1 5
f 0 2
f 0 2
f 0 2
f 0 2
f 0 2
l 0 1 3
f 0 2
f 0 2
l 0 1 3
s 1 6
f 0 2
f 0 2
f 0 2
f 0 2
f 0 2
l 0 1 3
f 0 2
f 0 2
l 0 1 3
s 1 7
f 0 2
f 0 2
f 0 2
f 0 2
f 0 2
f 0 2
l 0 1 3
f 0 2
l 0 1 3
f 0 1
s 1 8
f 0 2
f 0 2
f 0 2
f 0 2
f 0 2
f 0 2
l 0 1 3
f 0 2
l 0 1 3
f 0 1
";

/// The document that says so of so many instances, of which the first has two lights.
pub fn not_in_three_lines(alloc: Global, instances: u8) -> Result<String, AllocError> {
    format!(in alloc;
        "bfgp answer 1\npointers 1\nlines 3\ninstances {instances}\nverdict none\n{TREES}end of answer\n"
    )
}

// Of four lines, the first and then the second are split with an operation on each; the jumps close a loop.
const TREE_OF_A_LOOP: &str = "\
s 0 9 / s 1 10 / s 2 11 / f 0 3 / f 0 3 / f 0 3 / f 0 3 / f 0 3 / f 0 3 / l 0 3 6 / l 0 3 6 / f 0 3 / f 0 3 / l 0 1 3 / l 0 1 3 / f 0 3 / \
s 2 12 / f 0 3 / f 0 3 / f 0 3 / f 0 3 / f 0 3 / f 0 3 / l 0 3 6 / l 0 3 6 / f 0 3 / f 0 3 / l 0 1 3 / l 0 1 3 / f 0 3 / \
s 2 13 / f 1 3 / f 0 3 / f 0 3 / f 0 3 / f 0 3 / f 0 3 / g / g / f 0 3 / f 0 3 / f 0 5 / f 0 5 / f 0 3 / o / o / o / l 0 1 3 / l 0 1 3 / o / o / f 0 2 / f 0 2 / o / o / o / o / o / o / o / o / o / o / f 0 1 / o / f 0 1";

/// The document of a search in five lines that two lights and three are lit by a program of four.
pub fn lit_in_four_lines(alloc: Global) -> Result<String, AllocError> {
    let tree = lines_of(alloc, TREE_OF_A_LOOP)?;
    format!(in alloc;
        "bfgp answer 1\npointers 1\nlines 5\ninstances 2\nverdict program 4\n{TREES}tree 4\n{tree}program\nact light p0\ninc p0\ngoto 0 if nonzero\nend\nends 0 6\nends 1 9\nend of answer\n"
    )
}

// Where runs make four steps at most, the jumps after two operations are too many.
const TREE_AT_THE_LIMIT: &str = "\
s 0 9 / s 1 10 / s 2 11 / f 0 3 / f 0 3 / f 0 3 / f 0 3 / f 0 3 / f 0 3 / r 0 / r 0 / f 0 3 / f 0 3 / l 0 1 3 / l 0 1 3 / f 0 3 / o / o / o / o / o / l 0 1 3 / l 0 1 3 / o / o / f 0 2 / f 0 2 / o / o / o / o / o / o / o / o / o / o / f 0 1 / o / f 0 1";

/// The document of the same search where a run makes four steps at most.
pub fn at_the_limit_in_four_lines(alloc: Global) -> Result<String, AllocError> {
    let tree = lines_of(alloc, TREE_AT_THE_LIMIT)?;
    format!(in alloc;
        "bfgp answer 1\npointers 1\nlines 5\ninstances 2\nverdict spent run 4 0\n{TREES}tree 4\n{tree}end of answer\n"
    )
}
