use crate::marked_texts::check_table;
use std::test::Fail;

const DOMAINS: &str = "\
type cycle: (define (domain d) (:types @object - x))
type cycle: (define (domain d) (:types x - object @object - x))
type cycle: (define (domain d) (:types a @object - b))
twice: (define (domain d) (:types object @object))
twice: (define (domain d) (:types object - object @object - x))
type cycle: (define (domain d) (:types @object object - x))
twice: (define (domain d) (:types a - object object - object @object - a))
type cycle: (define (domain d) (:types @object - x object))
type cycle: (define (domain d) (:types @a - b b - a))
type cycle: (define (domain d) (:types @c - a a - b b - a))
type cycle: (define (domain d) (:types @a - a))
type cycle: (define (domain d) (:types @x a - a a))
twice: (define (domain d) (:types a - object @a - a))
twice: (define (domain d) (:types a - object @a - b b - a))
unknown: (define (domain d) (:types t) (:constants c - @u))
unknown: (define (domain d) (:constants c - @c))
twice: (define (domain d) (:constants c - object c2 @c))
unknown: (define (domain d) (:predicates (p ?x - @t)))
twice: (define (domain d) (:predicates (p ?x) (@p ?x ?y)))
arity: (define (domain d) (:action a :parameters (?x ?y) :effect (@p ?x ?y)) (:predicates (p ?x) (p ?x ?y)))
unknown: (define (domain d) (:predicates (p ?x)) (:action a :effect (p @?x)))
twice: (define (domain d) (:predicates (p ?x)) (:action a :parameters (?x @?x) :effect (p ?x)))
unknown: (define (domain d) (:predicates (p ?x)) (:action a :effect (p @c)))
unknown: (define (domain d) (:action a :effect (@q)))
arity: (define (domain d) (:predicates (p ?x)) (:action a :effect (@p zz zz)))
twice: (define (domain d) (:action a) (:action @a))
";

#[test]
fn domains_with_a_fault(rt: HostRuntime) -> Result<(), Fail> {
    let words = "synth --pointers 1 --lines 1 marked lit";
    check_table(&rt, rt.alloc(), "", words, DOMAINS)
}

const PROBLEMS: &str = "\
unknown: (define (problem p) (:domain lights) (:objects a) (:init) (:goal (lit @c)))
other domain: (define (problem p) (:objects a) (:goal ()) (:domain @dark))
twice: (define (problem p) (:objects a @a) (:goal ()) (:domain dark))
";

// The same over a domain with a constant.
const PROBLEMS_OVER_A_CONSTANT: &str = "\
twice: (define (problem p) (:objects @k) (:goal ()) (:domain d))
unknown: (define (problem p) (:objects a b - @k c d - k) (:goal (p k)) (:domain d))
";

#[test]
fn problems_with_a_fault(rt: HostRuntime) -> Result<(), Fail> {
    let words = "synth --pointers 1 --lines 1 lights marked";
    check_table(&rt, rt.alloc(), "", words, PROBLEMS)
}

#[test]
fn problems_with_a_fault_over_a_constant(rt: HostRuntime) -> Result<(), Fail> {
    let domain = "d: (define (domain d) (:constants k) (:predicates (p ?x)))";
    let words = "synth --pointers 1 --lines 1 d marked";
    check_table(&rt, rt.alloc(), domain, words, PROBLEMS_OVER_A_CONSTANT)
}
