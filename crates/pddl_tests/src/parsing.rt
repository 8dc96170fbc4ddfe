//! Texts that are refused, and great texts that are read.

use crate::checks::check_reply;
use crate::texts::{DOMAIN, domain_text, repeated};
use flag_rules::MAX_FILE_BYTES;
use pddl_parser::{ParseRefusal, Typed, domain, problem};
use std::alloc::{AllocError, Global};
use std::test::Fail;

/// The refusal of a domain, if it has one and is not too long.
fn domain_refusal(alloc: Global, bytes: &[u8]) -> Option<ParseRefusal> {
    if bytes.len() > MAX_FILE_BYTES {
        return None;
    }
    domain(alloc, bytes).err()
}

/// The refusal of a problem, if it has one and is not too long.
fn problem_refusal(alloc: Global, bytes: &[u8]) -> Option<ParseRefusal> {
    if bytes.len() > MAX_FILE_BYTES {
        return None;
    }
    problem(alloc, bytes).err()
}

/// Bytes that are no text of a domain, and why.
const NO_DOMAINS: &[(&[u8], ParseRefusal)] = &[
    (
        b"(define (domain d) (:types a ! b))",
        ParseRefusal::Byte(29),
    ),
    (
        b"(define (domain d) (:types a b",
        ParseRefusal::Unclosed(19),
    ),
    (b"(define (domain d)))", ParseRefusal::Unopened(19)),
    (&[b'('; 65], ParseRefusal::TooDeep(64)),
    (b"; no text", ParseRefusal::Shape(9)),
    (b"(define (domain d)) d", ParseRefusal::Shape(20)),
    (b"(define (domain d) (:types - a))", ParseRefusal::Shape(27)),
    (
        b"(define (domain d) (:predicates) (:predicates))",
        ParseRefusal::Shape(34),
    ),
    (
        b"(define (domain d) (:functions (cost)))",
        ParseRefusal::Unsupported(20),
    ),
    (
        b"(define (domain d) (:action a :duration ()))",
        ParseRefusal::Unsupported(30),
    ),
    (
        b"(define (domain d) (:requirements :strips :adl))",
        ParseRefusal::Unsupported(42),
    ),
    (
        b"(define (domain d) (:action a :precondition (not (p))))",
        ParseRefusal::Unsupported(45),
    ),
    (
        b"(define (domain d) (:action a :precondition (= ?x ?y)))",
        ParseRefusal::Unsupported(45),
    ),
    (
        b"(define (domain d) (:constants a - (either b c)))",
        ParseRefusal::Unsupported(36),
    ),
];

/// The same of problems.
const NO_PROBLEMS: &[(&[u8], ParseRefusal)] = &[
    (b"(define (problem p) (:domain d))", ParseRefusal::Shape(31)),
    (
        b"(define (problem p) (:domain d) (:goal (p ?x)))",
        ParseRefusal::Shape(42),
    ),
    (
        b"(define (problem p) (:metric (p)))",
        ParseRefusal::Unsupported(21),
    ),
];

#[test]
fn tells_where_a_text_is_no_domain(rt: HostRuntime) {
    for (text, refusal) in NO_DOMAINS {
        check_reply(
            &rt,
            text,
            &domain_refusal(rt.alloc(), text),
            &Some(*refusal),
        );
    }
}

#[test]
fn tells_where_a_text_is_no_problem(rt: HostRuntime) {
    for (text, refusal) in NO_PROBLEMS {
        check_reply(
            &rt,
            text,
            &problem_refusal(rt.alloc(), text),
            &Some(*refusal),
        );
    }
}

const BEFORE_CONJUNCTIONS: &[u8] = b"(define (domain d) (:action a :precondition ";

/// The refusal of a domain whose lists are nested so deep: two, and then the conjunctions of a precondition.
fn nested_refusal(alloc: Global, depth: usize) -> Result<Option<ParseRefusal>, AllocError> {
    let conjunctions = depth.saturating_sub(2);
    let pieces: [(&[u8], usize); 3] = [
        (BEFORE_CONJUNCTIONS, 1),
        (b"(and ", conjunctions),
        (b")", depth),
    ];
    let bytes = repeated(alloc, &pieces)?;
    Ok(domain_refusal(alloc, &bytes))
}

#[test]
fn reads_64_nested_lists(rt: HostRuntime) -> Result<(), AllocError> {
    let place = BEFORE_CONJUNCTIONS.len() + 62 * b"(and ".len();
    let too_deep = Some(ParseRefusal::TooDeep(place as u32));
    assert_eq!(rt; nested_refusal(rt.alloc(), 64)?, None);
    assert_eq!(rt; nested_refusal(rt.alloc(), 65)?, too_deep);
    Ok(())
}

#[test]
fn reads_a_text_of_a_mebibyte(rt: HostRuntime) -> Result<(), Fail> {
    let mut bytes = Vec::from_slice(rt.alloc(), DOMAIN)?;
    bytes.resize(1_048_576, b' ')?;
    let text = domain_text(rt.alloc(), &bytes)?;
    assert_eq!(rt; text.constants.len(), 3);
    Ok(())
}

const NAMES: usize = 250_000;

const LETTERS: usize = 400_000;

/// A domain whose constants are all of one type, which has a very long name.
const OF_A_LONG_TYPE: &[(&[u8], usize)] = &[
    (b"(define (domain d) (:constants", 1),
    (b" a", NAMES),
    (b" - ", 1),
    (b"t", LETTERS),
    (b"))", 1),
];

/// How long the name of the type of a word is.
fn type_length(typed: &Typed) -> usize {
    match &typed.of {
        Some(of) => of.word().text.len(),
        None => 0,
    }
}

/// Whether words are all of a type with a name of such a length.
fn have_types(words: &[Typed], length: usize) -> bool {
    for typed in words {
        if type_length(typed) != length {
            return false;
        }
    }
    true
}

#[test]
fn words_share_a_very_long_type(rt: HostRuntime) -> Result<(), Fail> {
    let bytes = repeated(rt.alloc(), OF_A_LONG_TYPE)?;
    let text = domain_text(rt.alloc(), &bytes)?;
    assert_eq!(rt; text.constants.len(), NAMES);
    assert!(rt; have_types(text.constants.as_slice(), LETTERS));
    Ok(())
}
