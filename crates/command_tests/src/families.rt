//! The texts of families, and the sizes of their instances.

use family_gen::{Family, FamilyTexts, MAX_NUMBER, family};
use flag_rules::Text;
use pddl_parser::{domain, problem};
use pddl_printer::{print_domain, print_problem};
use std::alloc::Global;
use std::test::Fail;

const LIGHTS: &[u8] = b"(define (domain lights)
  (:predicates (lit ?x))
  (:action light :parameters (?x) :precondition () :effect (lit ?x)))
";

const CORRIDOR: &[u8] = b"(define (domain corridor)
  (:predicates (at ?c) (next ?x ?y))
  (:action move :parameters (?x ?y)
    :precondition (and (at ?x) (next ?x ?y))
    :effect (and (not (at ?x)) (at ?y))))
";

const LIGHTS_OF_2: &[u8] =
    b"(define (problem lights) (:domain lights) (:objects o0 o1) (:init) (:goal (and (lit o0) (lit o1))))";

const CORRIDOR_OF_3: &[u8] =
    b"(define (problem corridor) (:domain corridor) (:objects c0 c1 c2) (:init (at c0) (next c0 c1) (next c1 c2)) (:goal (at c2)))";

// Each family with a domain and its first instance at the number 0, as they are told.
const SOURCES: &[(Family, &[u8], &[u8])] = &[
    (Family::Lights, LIGHTS, LIGHTS_OF_2),
    (Family::Corridor, CORRIDOR, CORRIDOR_OF_3),
];

#[test]
fn texts_are_the_printed_forms_of_what_is_read(rt: HostRuntime) -> Result<(), Fail> {
    let alloc = rt.alloc();
    for (which, domain_source, problem_source) in SOURCES {
        let texts = family(alloc, *which, 0)?;
        let domain_text = print_domain(alloc, &domain(alloc, domain_source)?)?;
        let problem_text = print_problem(alloc, &problem(alloc, problem_source)?)?;
        assert_eq!(rt; texts.domain.as_slice(), domain_text.as_slice());
        assert_eq!(rt;
            texts.problems.as_slice().first().map(Text::as_slice),
            Some(problem_text.as_slice())
        );
    }
    Ok(())
}

// Numbers of families, and what is told of their texts: the sizes, the pointers, the lines, the budget and the limit of steps.
const NUMBERS: &[(Family, u32, &str)] = &[
    (
        Family::Lights,
        0,
        "[2, 39, 76, 113, 150, 187, 224, 6] 1 5 10000 100000",
    ),
    (
        Family::Lights,
        7,
        "[9, 46, 83, 120, 157, 194, 231, 13] 1 5 10000 100000",
    ),
    (
        Family::Lights,
        254,
        "[256, 38, 75, 112, 149, 186, 223, 5] 1 5 10000 100000",
    ),
    (
        Family::Lights,
        MAX_NUMBER,
        "[221, 3, 40, 77, 114, 151, 188, 225] 1 5 10000 100000",
    ),
    (Family::Corridor, 0, "[3, 8, 5] 2 5 100000 100000"),
    (Family::Corridor, 7, "[10, 7, 4] 2 5 100000 100000"),
    (Family::Corridor, MAX_NUMBER, "[10, 7, 4] 2 5 100000 100000"),
];

#[test]
fn sizes_and_bounds_of_families(rt: HostRuntime) -> Result<(), Fail> {
    for (which, number, told) in NUMBERS {
        let texts = family(rt.alloc(), *which, *number)?;
        assert_eq!(rt; told_of(rt.alloc(), &texts)?.as_str(), *told);
        assert_eq!(rt; texts.problems.len(), texts.sizes.len());
    }
    Ok(())
}

fn told_of(alloc: Global, texts: &FamilyTexts) -> Result<String, Fail> {
    let bounds = &texts.bounds;
    Ok(format!(in alloc;
        "{:?} {} {} {} {}",
        texts.sizes.as_slice(),
        texts.pointers,
        bounds.lines,
        bounds.budget,
        bounds.run
    )?)
}
