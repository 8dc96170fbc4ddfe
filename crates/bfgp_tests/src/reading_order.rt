//! Which files a command reads, in which order, and which fault it tells where there are several.

use crate::asking_shelf::AskingShelf;
use crate::calls::{check, shelf_of, status_of};
use bfgp_outside::MemorySink;
use std::alloc::Global;
use std::process::Abort;
use std::test::Fail;

// A domain, two instances, a program and a document.
const NAMED: &str = "\
d: (define (domain lights) (:predicates (lit ?x)) (:action light :parameters (?x) :precondition () :effect (lit ?x)))
i: (define (problem one) (:domain lights) (:objects a) (:init (lit a)) (:goal (lit a)))
j: (define (problem one) (:domain lights) (:objects a) (:init) (:goal (lit a)))
p: act light p0 / end
a: bfgp answer 1 / pointers 1 / lines 2 / instances 1 / verdict program 1 / tree 1 / g / program / end / ends 0 0 / end of answer
";

// The words of a command, the file that has a fault if there is one, and the files that are read.
const ORDERS: &str = "\
synth --pointers 1 --lines 2 d i j:: d i j
synth --pointers 1 --lines 2 d j i i:: d j i i
synth --pointers 1 --lines 2 d i j:d: d
synth --pointers 1 --lines 2 d i j:i: d i
synth --pointers 1 --lines 2 d i j:j: d i j
run --pointers 1 --program p d i j:: d i j p
run --pointers 1 --program p d i j:d: d
run --pointers 1 --program p d i j:i: d i
run --pointers 1 --program p d i j:j: d i j
run --pointers 1 --program p d i j:p: d i j p
run --pointers 1 --program d d i i:: d i i d
check --pointers 1 --lines 2 d i::
check --pointers 1 --lines 2 --answer a d i j:: d i j a
check --pointers 1 --lines 2 --answer a d j i i:: d j i i a
check --pointers 1 --lines 2 --answer a d i j:d: d
check --pointers 1 --lines 2 --answer a d i j:i: d i
check --pointers 1 --lines 2 --answer a d i j:j: d i j
check --pointers 1 --lines 2 --answer a d i j:a: d i j a
check --pointers 1 --lines 2 --answer d d i i:: d i i d
check --pointers 1 --lines 2 --answer e d i:: d i e
";

#[test]
fn files_are_read_in_order(rt: HostRuntime) -> Result<(), Fail> {
    for row in ORDERS.lines() {
        let (words, rest) = row.split_once(':').unwrap_or((row, ""));
        let (faulty, asked) = rest.split_once(':').unwrap_or((rest, ""));
        check_order(&rt, rt.alloc(), words, faulty, asked)?;
    }
    Ok(())
}

// Checks which files are read, where the text of a file, if it is named, is a right parenthesis.
fn check_order<R: Abort>(
    rt: &R,
    alloc: Global,
    words: &str,
    faulty: &str,
    asked: &str,
) -> Result<(), Fail> {
    let mut shelf = shelf_of(alloc, NAMED)?;
    if !faulty.is_empty() {
        shelf.add(faulty.as_bytes(), b")")?;
    }
    let mut shelf = AskingShelf::new(alloc, shelf);
    let mut sink = MemorySink::new(alloc, 4096, 4096)?;
    status_of(alloc, &mut shelf, &mut sink, words)?;
    assert_eq!(rt; shelf.asked(), Some(asked.as_bytes()), "{words}");
    Ok(())
}

// The file that has a fault, the read that would fail after it, and the fault that is told.
#[test]
fn a_read_fault_comes_in_its_turn(rt: HostRuntime) -> Result<(), Fail> {
    for (faulty, read, told) in [
        ("d", 2, "input d unopened 0"),
        ("i", 4, "input i unopened 0"),
    ] {
        check_first_fault(&rt, rt.alloc(), faulty, read, told)?;
    }
    Ok(())
}

fn check_first_fault<R: Abort>(
    rt: &R,
    alloc: Global,
    faulty: &str,
    read: u64,
    told: &str,
) -> Result<(), Fail> {
    let mut shelf = shelf_of(alloc, NAMED)?;
    shelf.add(faulty.as_bytes(), b")")?;
    shelf.fail_at(read)?;
    let mut shelf = AskingShelf::new(alloc, shelf);
    let words = "run --pointers 1 --program p d i";
    check(rt, alloc, &mut shelf, "3", words, told)?;
    assert_eq!(rt; shelf.failed(), 0);
    Ok(())
}
