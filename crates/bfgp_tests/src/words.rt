//! Words in each of the forms that they may have, and words that are no job.

use crate::calls::{check, shelf_of};
use crate::given::{LIT_IN_TWO_LINES, USAGE};
use std::test::Fail;

// The files that the words name.
const NAMED: &str = "\
d: (define (domain lights) (:predicates (lit ?x)) (:action light :parameters (?x) :effect (lit ?x)))
i: (define (problem one) (:domain lights) (:objects a) (:goal (lit a)))
p: act light p0 / end
a: bfgp answer 1 / pointers 1 / lines 1 / instances 1 / verdict none / tree 1 / f 0 0 / end of answer
";

// The exit status and the words, and what is written. The words of a command are one job, however their options stand.
const ONE_JOB_EACH: &[(&[&str], &str)] = &[
    (
        &[
            "0 synth --pointers 1 --lines 3 d i",
            "0 synth --lines=3 --pointers 1 d i",
            "0 synth --order=e5,e1 --lines 3 --run=100000 --pointers=1 --budget 10000 d i",
        ],
        LIT_IN_TWO_LINES,
    ),
    (
        &[
            "0 check --pointers 1 --lines 1 --answer a d i",
            "0 check --answer=a --lines 1 --pointers=1 d i",
        ],
        "accepted\n",
    ),
    (
        &[
            "0 run --pointers 1 --program p --run 4 d i",
            "0 run --run=4 --program=p --pointers=1 d i",
        ],
        "instance 0 solved 1\nsolved 1 of 1\n",
    ),
];

#[test]
fn options_in_any_order_and_form(rt: HostRuntime) -> Result<(), Fail> {
    let mut shelf = shelf_of(rt.alloc(), NAMED)?;
    for (calls, written) in ONE_JOB_EACH {
        for call in *calls {
            let (status, words) = call.split_once(' ').unwrap_or((call, ""));
            check(&rt, rt.alloc(), &mut shelf, status, words, written)?;
        }
    }
    Ok(())
}

// The first line has no words. What words are no job is tested of their reading alone; these show that nothing else is done.
const NO_JOB: &str = "\n\
synth d i --pointers 1 --lines 5
synth --pointers 5 --lines 1 d i
synth --pointers 1 --lines 17 d i
synth --pointers 0 --lines 1 d i
synth --pointers 1 --lines 1 --order e5,e9 d i
synth --pointers 1 --lines 1 --order e1,e1 d i
synth --pointers 1 --lines 1 d i i i i i i i i i i i i i i i i i i i i i i i i i i i i i i i i i
check --pointers 1 --lines 1 d i --answer a
run --pointers 1 --program p --program p d i
gen lights 01
gen lights 100000000
--help
";

#[test]
fn words_that_are_no_job(rt: HostRuntime) -> Result<(), Fail> {
    let mut shelf = shelf_of(rt.alloc(), NAMED)?;
    for words in NO_JOB.lines() {
        check(&rt, rt.alloc(), &mut shelf, "2", words, USAGE)?;
    }
    Ok(())
}
