//! Words, and the jobs that they are.

use crate::told_jobs::job_told;
use std::alloc::Global;
use std::process::Abort;
use std::test::Fail;

// A job, and below it words that are this job; an empty line parts one job from the next.
const SEARCHES: &str = "\
synth 1 5 10000 100000 [MissingAtoms, Jumps] d i
synth --pointers 1 --lines 5 d i
synth --lines 5 --pointers 1 d i
synth --lines=5 --pointers 1 d i
synth --pointers=1 --lines=5 d i
synth --order e5,e1 --run 100000 --budget 10000 --lines 5 --pointers 1 d i
synth --run=100000 --pointers=1 --order=e5,e1 --lines=5 --budget=10000 d i
synth --budget 10000 --lines=5 --run=100000 --pointers 1 d i

synth 4 16 100000 10000000 [Steps, LinesBehind] d i j i
synth --pointers 4 --lines 16 --budget 100000 --run 10000000 --order e6,e4 d i j i
synth --order=e6,e4 --run=10000000 --budget=100000 --lines=16 --pointers=4 d i j i
synth --budget 100000 --order e6,e4 --pointers 4 --run 10000000 --lines 16 d i j i

synth 1 1 1 4 [RepeatedInstructions] d i
synth --pointers 1 --lines 1 --budget 1 --run 4 --order e3 d i
synth --lines=1 --budget 1 --order=e3 --pointers=1 --run 4 d i

synth 2 10 10000 100000 [MissingAtoms, Jumps] a=b c--d
synth --lines 10 --pointers 2 a=b c--d

synth 1 1 10000 100000 [MissingAtoms, Jumps] synth check
synth --pointers 1 --lines 1 synth check

synth 1 1 10000 100000 [MissingAtoms, Jumps] help version
synth --pointers 1 --lines 1 help version

synth 1 1 10000 100000 [MissingAtoms, Jumps] d i i i i i i i i i i i i i i i i i i i i i i i i i i i i i i i i
synth --pointers 1 --lines 1 d i i i i i i i i i i i i i i i i i i i i i i i i i i i i i i i i";

const CHECKS: &str = "\
check 1 5 a d i
check --pointers 1 --lines 5 --answer a d i
check --answer a --lines 5 --pointers 1 d i
check --answer=a --lines=5 --pointers=1 d i
check --lines 5 --answer=a --pointers 1 d i

check 3 16 x=y=z d i j
check --answer=x=y=z --pointers 3 --lines 16 d i j
check --answer x=y=z --lines=16 --pointers=3 d i j

check 4 1 ==a d i
check --pointers 4 --answer ==a --lines 1 d i
check --pointers=4 --answer===a --lines=1 d i";

const RUNS: &str = "\
run 1 100000 p d i
run --pointers 1 --program p d i
run --program p --pointers 1 d i
run --program=p --pointers=1 d i
run --run 100000 --program=p --pointers 1 d i

run 4 4 q.prog d i j
run --run 4 --program q.prog --pointers 4 d i j
run --program q.prog --run=4 --pointers=4 d i j

run 2 10000000 p d i
run --pointers=2 --run=10000000 --program=p d i";

const FAMILIES: &str = "\
gen Lights 0
gen lights 0

gen Lights 99999999
gen lights 99999999

gen Corridor 7
gen corridor 7";

// The first line has no words.
const NO_COMMAND: &str = "\n\
-h
-V
--help
--version
help
help synth
version
synth
check
run
gen
Synth --pointers 1 --lines 1 d i
SYNTH --pointers 1 --lines 1 d i
syn --pointers 1 --lines 1 d i
--pointers 1 --lines 1 synth d i
--pointers=1 synth --lines 1 d i
 synth --pointers 1 --lines 1 d i
plan --pointers 1 --program p d i";

const NO_FORM: &str = "\
synth --help
synth -h
synth help
synth --pointers 1 --lines 1 --help d i
synth --pointers 1 --lines 1 -h d i
synth d i --pointers 1 --lines 5
synth d --pointers 1 --lines 5 i
synth --pointers 1 d --lines 5 i
synth --pointers 1 d i --lines=5
synth --pointers 1 --lines 5 d i --budget=1
synth --pointers 1 --lines 5 d i --
synth --pointers 1 --lines 5 -- d i
synth -- --pointers 1 --lines 5 d i
synth --pointers 1 -- --lines 5 d i
synth --pointers 1 --lines 5 d -- i
synth --pointers 1 --pointers 1 --lines 5 d i
synth --pointers=1 --pointers 1 --lines 5 d i
synth --pointers 1 --lines 5 --lines=5 d i
synth --pointers 1 --lines 5 --lines=6 d i
synth --pointers 1 --lines 1 --budget 1 --run 4 --budget 1 d i
synth --pointers 1 --lines 1 --run 4 --run=4 d i
synth --order=e5 --pointers 1 --lines 1 --order=e5 d i
synth --pointers 1 --line 5 d i
synth --point 1 --lines 5 d i
synth --p 1 --lines 5 d i
synth -p 1 --lines 5 d i
synth -pointers 1 --lines 5 d i
synth ---pointers 1 --lines 5 d i
synth pointers 1 --lines 5 d i
synth --Pointers 1 --lines 5 d i
synth --pointers 1 --lines 5 --answer a d i
synth --pointers 1 --lines 5 --program p d i
synth --pointers 1 --lines 5 --form 1 d i
synth --pointers 1 d i
synth --lines 5 d i
synth --pointers
synth --pointers 1 --lines
synth --pointers 1 --lines 5
synth --pointers 1 --lines 5 d
synth --pointers 1 --lines 5 --budget d i
synth --pointers 1 --lines 5 --order d i
synth --pointers --lines 5 d i
synth --pointers -1 --lines 5 d i
synth --pointers= --lines 5 d i
synth --pointers  --lines 5 d i
synth --pointers=-1 --lines 5 d i
synth --pointers =1 --lines 5 d i
synth --pointers==1 --lines 5 d i
synth --pointers = 1 --lines 5 d i
synth --=1 --pointers 1 --lines 5 d i
synth --pointers 1 --lines 5 -d i
synth --pointers 1 --lines 5 d -i
synth --pointers 1 --lines 5 d i -i
synth --pointers 1 --lines 5 - i
synth --pointers 1 --lines 5 d -
synth --pointers 1 --lines 5  i
synth --pointers 1 --lines 5 d 
synth --pointers 1 --lines 5  
synth --pointers 1 --lines 1 d i i i i i i i i i i i i i i i i i i i i i i i i i i i i i i i i i";

const NO_VALUE: &str = "\
synth --pointers 5 --lines 1 d i
synth --pointers 17 --lines 1 d i
synth --pointers 0 --lines 1 d i
synth --pointers 1 --lines 17 d i
synth --pointers 1 --lines 0 d i
synth --pointers 1 --lines=0 d i
synth --pointers 1 --lines 05 d i
synth --pointers 1 --lines=05 d i
synth --pointers 01 --lines 5 d i
synth --pointers 1 --lines +5 d i
synth --pointers 1 --lines 5x d i
synth --pointers 1 --lines 5. d i
synth --pointers 1 --lines 0x5 d i
synth --pointers 1 --lines five d i
synth --pointers 257 --lines 5 d i
synth --pointers 1 --lines 261 d i
synth --pointers 4294967297 --lines 5 d i
synth --pointers 1 --lines 1 --budget 0 d i
synth --pointers 1 --lines 1 --budget 100001 d i
synth --pointers 1 --lines 1 --budget 4294967297 d i
synth --pointers 1 --lines 1 --budget=01 d i
synth --pointers 1 --lines 1 --budget 000000001 d i
synth --pointers 1 --lines 1 --run 3 d i
synth --pointers 1 --lines 1 --run 0 d i
synth --pointers 1 --lines 1 --run=10000001 d i
synth --pointers 1 --lines 1 --run 100000000 d i
synth --pointers 1 --lines 1 --run 99999999999999999999 d i
synth --pointers 1 --lines 1 --order e5,e9 d i
synth --pointers 1 --lines 1 --order=e1,e1 d i
synth --pointers 1 --lines 1 --order e1,,e2 d i
synth --pointers 1 --lines 1 --order ,e1 d i
synth --pointers 1 --lines 1 --order=e1, d i
synth --pointers 1 --lines 1 --order E1 d i
synth --pointers 1 --lines 1 --order= d i
synth --pointers 1 --lines 1 --order=e1=e2 d i
synth --pointers 1 --lines 1 --order  d i";

const NO_CHECK: &str = "\
check --pointers 1 --lines 1 d i
check --lines 1 --answer a d i
check --pointers 1 --answer a d i
check --pointers 1 --lines 1 --answer a d
check --pointers 1 --lines 1 --answer a
check --pointers 1 --lines 1 --answer d i
check --pointers 1 --lines 1 d i --answer a
check --pointers 1 --lines 0 --answer a d i
check --pointers 1 --lines 17 --answer=a d i
check --pointers 1 --lines 01 --answer a d i
check --pointers 5 --lines 1 --answer a d i
check --pointers 1 --lines 1 --answer -a d i
check --pointers 1 --lines 1 --answer=-a d i
check --pointers 1 --lines 1 --answer= d i
check --pointers 1 --lines 1 --answer  d i
check --pointers 1 --lines 1 --answer a --answer a d i
check --pointers 1 --lines 1 --answer a --run 4 d i
check --pointers 1 --lines 1 --answer a --budget 1 d i
check --pointers 1 --lines 1 --answer a --order e5 d i
check --pointers 1 --lines 1 --answer a d -i
check --pointers 1 --lines 1 --answer a  i
check --pointers 1 --lines 1 --answer a d i i i i i i i i i i i i i i i i i i i i i i i i i i i i i i i i i";

const NO_RUN: &str = "\
run --pointers 1 --program p d
run --pointers 1 --program p --run 4 d
run --pointers 1 d i
run --program p d i
run --pointers 1 --program p d i --run 4
run --pointers 1 --program p d i --run=4
run --pointers 5 --program p d i
run --pointers 1 --program -p d i
run --pointers 1 --program=-p d i
run --pointers 1 --program= d i
run --pointers 1 --program  d i
run --pointers 1 --program p --run
run --pointers 1 --program p --run d i
run --pointers 1 --program p --run  d i
run --pointers 1 --program p --run 3 d i
run --pointers 1 --program p --run=3 d i
run --pointers 1 --program p --run 10000001 d i
run --pointers 1 --program p --run 04 d i
run --pointers 1 --program p --run +4 d i
run --pointers 1 --program p --run 4 --run 4 d i
run --pointers 1 --program p --lines 5 d i
run --pointers 1 --program p --budget 1 d i
run --pointers 1 --program p --order e5 d i
run --pointers 1 --program p d i -i
run --pointers 1 --program p d i i i i i i i i i i i i i i i i i i i i i i i i i i i i i i i i i";

const NO_FAMILY: &str = "\
gen lights
gen 0
gen 0 lights
gen lights 01
gen lights 00
gen lights 100000000
gen lights 099999999
gen lights -1
gen lights +1
gen lights 1x
gen lights 
gen lights 0 0
gen lights 0 corridor 0
gen Lights 0
gen light 0
gen lamps 0
gen  0
gen --lights 0
gen lights --number 0
gen --number=0 lights
gen --pointers 1 lights 0
gen lights 0 --lines 5
gen -- lights 0
gen lights -- 0
gen --help
gen lights --help";

#[test]
fn words_that_are_a_search(rt: HostRuntime) -> Result<(), Fail> {
    check_jobs(&rt, rt.alloc(), SEARCHES)
}

#[test]
fn words_that_are_another_job(rt: HostRuntime) -> Result<(), Fail> {
    for jobs in [CHECKS, RUNS, FAMILIES] {
        check_jobs(&rt, rt.alloc(), jobs)?;
    }
    Ok(())
}

#[test]
fn words_that_are_no_job(rt: HostRuntime) -> Result<(), Fail> {
    for words in [NO_COMMAND, NO_FORM, NO_VALUE, NO_CHECK, NO_RUN, NO_FAMILY] {
        check_told(&rt, rt.alloc(), "usage", words)?;
    }
    Ok(())
}

// Checks that the words of each line below a job are that job.
fn check_jobs<R: Abort>(rt: &R, alloc: Global, jobs: &str) -> Result<(), Fail> {
    for job in jobs.split("\n\n") {
        let (told, words) = job.split_once('\n').unwrap_or((job, ""));
        check_told(rt, alloc, told, words)?;
    }
    Ok(())
}

// Checks that what the words of each line are is told so.
fn check_told<R: Abort>(rt: &R, alloc: Global, told: &str, words: &str) -> Result<(), Fail> {
    for line in words.lines() {
        assert_eq!(rt; job_told(alloc, line)?.as_str(), told, "{line}");
    }
    Ok(())
}
