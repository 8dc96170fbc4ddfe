use crate::checks::check_bytes;
use crate::texts::{domain_text, problem_text};
use flag_rules::{List, OutOfMemory, Text};
use pddl_parser::{DomainText, SharedWord, TypedWords, Word};
use pddl_printer::{print_domain, print_problem};
use std::alloc::Global;
use std::process::Abort;
use std::test::Fail;

/// The bytes of a domain, read and printed.
fn domain_reprinted(alloc: Global, bytes: &[u8]) -> Result<Vec<u8>, Fail> {
    let text = domain_text(alloc, bytes)?;
    Ok(print_domain(alloc, &text)?)
}

/// The bytes of a problem, read and printed.
fn problem_reprinted(alloc: Global, bytes: &[u8]) -> Result<Vec<u8>, Fail> {
    let text = problem_text(alloc, bytes)?;
    Ok(print_problem(alloc, &text)?)
}

const LIGHTS: &[u8] =
    b"(define (domain Lights) (:predicates (lit ?x))\n (:action light :effect (lit ?x) :parameters (?x)))";

const LIGHTS_PRINTED: &[u8] =
    b"( define ( domain lights ) ( :requirements ) ( :types ) ( :constants ) ( :predicates ( lit ?x ) ) ( :action light :parameters ( ?x ) :precondition ( and ) :effect ( and ( lit ?x ) ) ) )\n";

#[test]
fn prints_a_domain_with_every_section(rt: HostRuntime) -> Result<(), Fail> {
    let printed = domain_reprinted(rt.alloc(), LIGHTS)?;
    check_bytes(&rt, printed.as_slice(), LIGHTS_PRINTED);
    Ok(())
}

const TYPED_EVENING: &[u8] =
    b"(define (problem evening) (:requirements :typing) (:goal (lit lamp)) (:objects lamp desk - light hall) (:domain lights))";

const TYPED_EVENING_PRINTED: &[u8] =
    b"( define ( problem evening ) ( :domain lights ) ( :requirements :typing ) ( :objects lamp - light desk - light hall ) ( :init ) ( :goal ( and ( lit lamp ) ) ) )\n";

#[test]
fn prints_a_problem_with_every_section(rt: HostRuntime) -> Result<(), Fail> {
    let printed = problem_reprinted(rt.alloc(), TYPED_EVENING)?;
    check_bytes(&rt, printed.as_slice(), TYPED_EVENING_PRINTED);
    Ok(())
}

fn word(alloc: Global, text: &[u8]) -> Result<Word, OutOfMemory> {
    Ok(Word {
        text: Text::of(alloc, text)?,
        at: 0,
    })
}

fn shared_word(alloc: Global, text: &[u8]) -> Result<SharedWord, OutOfMemory> {
    SharedWord::new(alloc, word(alloc, text)?)
}

/// A list of one word.
fn one(alloc: Global, text: &[u8]) -> Result<List<Word>, OutOfMemory> {
    let mut words = List::new(alloc);
    words.push(word(alloc, text)?)?;
    Ok(words)
}

fn untyped(alloc: Global, before: TypedWords, name: &[u8]) -> Result<TypedWords, OutOfMemory> {
    before.with_group(one(alloc, name)?, &None)
}

fn typed(
    alloc: Global,
    before: TypedWords,
    name: &[u8],
    of: &[u8],
) -> Result<TypedWords, OutOfMemory> {
    let of = Some(shared_word(alloc, of)?);
    before.with_group(one(alloc, name)?, &of)
}

fn constants(alloc: Global) -> Result<TypedWords, OutOfMemory> {
    let door = untyped(alloc, TypedWords::new(alloc), b"door")?;
    let lamp = typed(alloc, door, b"lamp", b"light")?;
    untyped(alloc, lamp, b"hall")
}

/// A domain that has constants alone.
fn domain_with(alloc: Global, name: Word, constants: TypedWords) -> DomainText {
    DomainText {
        name,
        requirements: List::new(alloc),
        types: TypedWords::new(alloc),
        constants,
        predicates: List::new(alloc),
        actions: List::new(alloc),
    }
}

fn constants_printed(alloc: Global) -> Result<Vec<u8>, OutOfMemory> {
    let text = domain_with(alloc, word(alloc, b"lights")?, constants(alloc)?);
    print_domain(alloc, &text)
}

const CONSTANTS_PRINTED: &[u8] =
    b"( define ( domain lights ) ( :requirements ) ( :types ) ( :constants door - object lamp - light hall ) ( :predicates ) )\n";

#[test]
fn gives_a_word_the_type_object_before_a_typed_one(rt: HostRuntime) -> Result<(), OutOfMemory> {
    let printed = constants_printed(rt.alloc())?;
    check_bytes(&rt, printed.as_slice(), CONSTANTS_PRINTED);
    Ok(())
}

const CORRIDOR: &[u8] =
    b"; A walker stands at one of the cells in a row, and moves from a cell to the next.
(define (domain corridor)
  (:predicates (at ?c) (next ?x ?y))
  (:action move :parameters (?x ?y)
    :precondition (and (at ?x) (next ?x ?y))
    :effect (and (not (at ?x)) (at ?y))))";

const GRIPPER: &[u8] = b"; A robot with two grippers carries balls from one room to another.
(define (domain gripper-strips)
  (:predicates (room ?r) (ball ?b) (gripper ?g) (at-robby ?r)
               (at ?b ?r) (free ?g) (carry ?o ?g))
  (:action move :parameters (?from ?to)
    :precondition (and (room ?from) (room ?to) (at-robby ?from))
    :effect (and (at-robby ?to) (not (at-robby ?from))))
  (:action pick :parameters (?obj ?room ?gripper)
    :precondition (and (ball ?obj) (room ?room) (gripper ?gripper)
                       (at ?obj ?room) (at-robby ?room) (free ?gripper))
    :effect (and (carry ?obj ?gripper) (not (at ?obj ?room)) (not (free ?gripper))))
  (:action drop :parameters (?obj ?room ?gripper)
    :precondition (and (ball ?obj) (room ?room) (gripper ?gripper)
                       (carry ?obj ?gripper) (at-robby ?room))
    :effect (and (at ?obj ?room) (free ?gripper) (not (carry ?obj ?gripper)))))";

const EVENING: &[u8] =
    b"(define (problem evening) (:init (lit hall) (near hall desk)) (:requirements :typing :strips)
  (:goal (and (lit lamp) (and) (lit desk))) (:objects lamp desk - light hall) (:domain lights))";

const NIGHT: &[u8] = b"(define (problem night) (:domain lights) (:goal ()))";

fn check_domain<R: Abort>(rt: &R, alloc: Global, bytes: &[u8]) -> Result<(), Fail> {
    let once = domain_reprinted(alloc, bytes)?;
    let twice = domain_reprinted(alloc, &once)?;
    check_bytes(rt, twice.as_slice(), once.as_slice());
    Ok(())
}

fn check_problem<R: Abort>(rt: &R, alloc: Global, bytes: &[u8]) -> Result<(), Fail> {
    let once = problem_reprinted(alloc, bytes)?;
    let twice = problem_reprinted(alloc, &once)?;
    check_bytes(rt, twice.as_slice(), once.as_slice());
    Ok(())
}

#[test]
fn prints_what_was_printed_as_it_is(rt: HostRuntime) -> Result<(), Fail> {
    check_domain(&rt, rt.alloc(), CORRIDOR)?;
    check_domain(&rt, rt.alloc(), GRIPPER)?;
    check_problem(&rt, rt.alloc(), EVENING)?;
    check_problem(&rt, rt.alloc(), NIGHT)
}
