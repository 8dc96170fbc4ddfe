//! Canonical forms of operations: of the operations that differ in the numbers of unused pointers alone, one stands for all, and
//! the others are its twins.

use crate::calls::{shelf_of, words_of};
use command_words::{Job, job_of};
use flag_rules::{Cond, Text};
use input_reading::machine_for;
use pointer_machine::PointerMachine;
use pointer_symmetry::{canonical, is_twin};
use program_model::{Instr, Machine};
use std::alloc::{AllocError, Global};
use std::process::Abort;
use std::test::Fail;

// A domain with an action of two parameters and one of three, and an instance of it.
const CARRYING: &str = "\
carrying: (define (domain carrying) (:predicates (at ?x) (next ?x ?y)) (:action move :parameters (?x ?y) :effect (at ?y)) (:action carry :parameters (?x ?y ?z) :effect (at ?z)))
one: (define (problem one) (:domain carrying) (:objects a) (:goal (at a)))
corridor: (define (domain corridor) (:predicates (at ?c) (next ?x ?y)) (:action move :parameters (?x ?y) :precondition (and (at ?x) (next ?x ?y)) :effect (and (not (at ?x)) (at ?y))))
cell: (define (problem one) (:domain corridor) (:objects a) (:goal (at a)))
";

// How many pointers there are and which of them are used; then the pointers of those operations that are twins, each with the
// pointers of its canonical form. Each other operation of one pointer or two is its own. So where `p1` alone of three is used, the
// form of `act move p2 p0` is `act move p0 p2`, that of `act move p1 p2` is `act move p1 p0`, and `act move p1 p0` is its own.
const TWINS_OF_ONE_AND_TWO: &str = "\
1 -:
1 0:
2 -: 1=0 10=01 11=00
2 0:
2 1:
2 01:
3 -: 1=0 2=0 02=01 10=01 11=00 12=01 20=01 21=01 22=00
3 0: 2=1 02=01 20=10 21=12 22=11
3 1: 2=0 12=10 20=02 21=01 22=00
3 2: 1=0 10=01 11=00 12=02 21=20
3 01:
3 02:
3 12:
3 012:
4 -: 1=0 2=0 3=0 02=01 03=01 10=01 11=00 12=01 13=01 20=01 21=01 22=00 23=01 30=01 31=01 32=01 33=00
4 0: 2=1 3=1 02=01 03=01 13=12 20=10 21=12 22=11 23=12 30=10 31=12 32=12 33=11
4 1: 2=0 3=0 03=02 12=10 13=10 20=02 21=01 22=00 23=02 30=02 31=01 32=02 33=00
4 2: 1=0 3=0 03=01 10=01 11=00 12=02 13=01 21=20 23=20 30=01 31=01 32=02 33=00
4 3: 1=0 2=0 02=01 10=01 11=00 12=01 13=03 20=01 21=01 22=00 23=03 31=30 32=30
4 01: 3=2 03=02 13=12 30=20 31=21 32=23 33=22
4 02: 3=1 03=01 23=21 30=10 31=13 32=12 33=11
4 03: 2=1 02=01 20=10 21=12 22=11 23=13 32=31
4 12: 3=0 13=10 23=20 30=03 31=01 32=02 33=00
4 13: 2=0 12=10 20=02 21=01 22=00 23=03 32=30
4 23: 1=0 10=01 11=00 12=02 13=03 21=20 31=30
4 012:
4 013:
4 023:
4 123:
4 0123:
";

// The same of the operations of three pointers, too.
const TWINS_OF_THREE: &str = "\
1 -:
2 -: 1=0 10=01 11=00 100=011 101=010 110=001 111=000
2 0:
2 1:
3 1: 2=0 12=10 20=02 21=01 22=00 112=110 120=102 121=101 122=100 200=022 201=021 202=020 210=012 211=011 212=010 220=002 221=001 222=000
3 02:
";

#[test]
fn each_operation_under_each_set_of_used_pointers(rt: HostRuntime) -> Result<(), Fail> {
    for row in TWINS_OF_ONE_AND_TWO.lines() {
        check_forms(&rt, rt.alloc(), "corridor cell", row)?;
    }
    for row in TWINS_OF_THREE.lines() {
        check_forms(&rt, rt.alloc(), "carrying one", row)?;
    }
    Ok(())
}

// Checks the canonical form of each operation over a domain and an instance against a row, and which operations are twins.
fn check_forms<R: Abort>(rt: &R, alloc: Global, inputs: &str, row: &str) -> Result<(), Fail> {
    let (head, twins) = row.split_once(':').unwrap_or((row, ""));
    let (pointers, used) = head.split_once(' ').unwrap_or((head, ""));
    let machine = machine_of(alloc, pointers, inputs)?;
    check_operations(rt, alloc, &machine, set_of(used), twins)
}

// The same over a machine and a set of used pointers.
fn check_operations<R: Abort>(
    rt: &R,
    alloc: Global,
    machine: &PointerMachine,
    used: u8,
    twins: &str,
) -> Result<(), Fail> {
    let texts = machine.op_texts(alloc)?;
    for op in 0..machine.ops() {
        let form = canonical(machine, used, op);
        let is_marked = is_twin(machine, used, Instr::Op(op));
        let text = text_of(texts.as_slice(), op);
        let got = text_of(texts.as_slice(), form);
        check_form(rt, alloc, twins, text, (got, is_marked))?;
    }
    Ok(())
}

// Compares the text of the canonical form of an operation, and whether the operation is a twin.
fn check_form<R: Abort>(
    rt: &R,
    alloc: Global,
    twins: &str,
    text: &str,
    got: (&str, bool),
) -> Result<(), Fail> {
    let due = canonical_text(alloc, twins, text)?;
    assert_eq!(rt;
        got,
        (due.as_str(), due.as_str() != text),
        "{text}, {twins}"
    );
    Ok(())
}

// The machine over so many pointers, a domain and an instance.
fn machine_of(alloc: Global, pointers: &str, inputs: &str) -> Result<PointerMachine, Fail> {
    let mut shelf = shelf_of(alloc, CARRYING)?;
    let words = format!(in alloc; "synth --pointers {pointers} --lines 1 {inputs}")?;
    let words = words_of(alloc, words.as_str())?;
    let Ok(Job::Synth(job)) = job_of(alloc, &words) else {
        return Err(Fail::new("no search"));
    };
    let Ok(machine) = machine_for(alloc, &mut shelf, &job.inputs, job.pointers) else {
        return Err(Fail::new("no machine"));
    };
    Ok(machine)
}

// A set of pointers, given by their digits.
fn set_of(digits: &str) -> u8 {
    let mut set = 0;
    for digit in digits.bytes() {
        set |= match digit {
            b'0' => 1,
            b'1' => 2,
            b'2' => 4,
            b'3' => 8,
            _ => 0,
        };
    }
    set
}

// The text of an operation.
fn text_of(texts: &[Text], op: u32) -> &str {
    match texts.get(op as usize) {
        Some(text) => str::from_utf8(text.as_slice()).unwrap_or(""),
        None => "",
    }
}

// The text of the canonical form of an operation, by the twins of a row.
fn canonical_text(alloc: Global, twins: &str, text: &str) -> Result<String, AllocError> {
    let (kind, pointers) = text.split_once(" p").unwrap_or((text, ""));
    let digits = pointers.replace(alloc, " p", "")?;
    let digits = canonical_digits(twins, digits.as_str());
    let mut due = String::from_str(alloc, kind)?;
    for digit in digits.chars() {
        write!(due, " p{digit}")?;
    }
    Ok(due)
}

// The digits that a row gives for those of a twin; of all others their own.
fn canonical_digits<'a>(twins: &'a str, digits: &'a str) -> &'a str {
    for twin in twins.split(' ') {
        let (own, due) = twin.split_once('=').unwrap_or((twin, ""));
        if own == digits {
            return due;
        }
    }
    digits
}

// A jump and the end name no pointer.
#[test]
fn jumps_and_the_end_are_no_twins(rt: HostRuntime) -> Result<(), Fail> {
    let machine = machine_of(rt.alloc(), "2", "corridor cell")?;
    let jump = Instr::Goto {
        target: 0,
        cond: Cond::Zero,
    };
    assert!(rt; !is_twin(&machine, 0, jump) && !is_twin(&machine, 0, Instr::End));
    Ok(())
}
