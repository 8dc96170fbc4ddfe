use crate::calls::shelf_of;
use crate::marked_texts::{check_marked, check_table};
use std::test::Fail;

const DOMAINS: &str = "\
unsupported: (define (domain d) (:requirements @:adl))
unclosed: @(define (domain d)
unopened: (define (domain d))@)
byte: (define (domain d) @% )
shape: (define (domain d) (:predicates (p)) (@:predicates (q)))
shape: @
unsupported: (define (domain d) (@:goal (p)))
unsupported: (define (domain d) (@:functions (p)))
shape: (define (domain d) (:requirements @x))
unsupported: (define (domain d) (:requirements @:types))
shape: (define (domain d) (:action a :parameters () :precondition () :effect () @:foo))
shape: (define (domain d) (:action a :parameters () :precondition () :effect () @:effect ()))
shape: (define (domain d) (:action a :effect () @:effect ()))
unsupported: (define (domain d) (:action a @:foo ()))
unsupported: (define (domain d) (:action a @:types ()))
shape: (define (domain d) (:action a :precondition @:effect ()))
shape: (define (domain d) (:action @))
unsupported: (define (domain d) (:types a - (@either b c)))
shape: (define (domain d) (:types a - (@x)))
shape: (define (domain d) (:types a - (@)))
shape: (define (domain d) (:types a - (@or)))
shape: (define (domain d) (:types a - (@= x)))
shape: (define (domain d) (:types @- a))
shape: (define (domain d) (:types a -@))
shape: (define (domain d) (:types a @(either b)))
shape: (define (domain d) (:types a @?x))
unsupported: (define (domain d) (:predicates (p ?x - (@either b c))))
unsupported: (define (domain d) (:predicates (@and ?x)))
unsupported: (define (domain d) (:predicates (@= ?x ?y)))
unsupported: (define (domain d) (:predicates (@either ?x)))
shape: (define (domain d) (:predicates (p @x)))
shape: (define (domain d) (:predicates @or))
shape: (define (domain d) (:predicates (@)))
shape: (define (domain d) (:action a :parameters (@either)))
unsupported: (define (domain d) (:action a :parameters (?x - (@either a))))
unsupported: (define (domain d) (:action a :precondition (@not (p))))
unsupported: (define (domain d) (:action a :precondition (@= a b)))
unsupported: (define (domain d) (:action a :precondition (and (@forall (?x)))))
shape: (define (domain d) (:action a :precondition (and @or)))
shape: (define (domain d) (:action a :precondition (p @= x)))
unsupported: (define (domain d) (:action a :effect (not (@not (p)))))
unsupported: (define (domain d) (:action a :effect (not (@and (p)))))
unsupported: (define (domain d) (:action a :effect (not (@= a b))))
shape: (define (domain d) (:action a :effect (not (@))))
shape: (define (domain d) (:action a :effect (not @p)))
unsupported: (define (domain d) (:action a :effect (@when (p) (q))))
unsupported: (define (domain d) (:action a :effect (@increase (c) 1)))
shape: (define (domain d) ) @x
shape: (define (domain d) ) @(p)
shape: (define (domain d @e))
shape: (define (@problem d))
shape: @define
shape: (@)
shape: (define (domain d) @:types)
";

#[test]
fn domains_of_another_form(rt: HostRuntime) -> Result<(), Fail> {
    let words = "synth --pointers 1 --lines 1 marked lit";
    check_table(&rt, rt.alloc(), "", words, DOMAINS)
}

// Its text is that of two lines.
#[test]
fn a_domain_of_comments_alone(rt: HostRuntime) -> Result<(), Fail> {
    let mut shelf = shelf_of(rt.alloc(), "")?;
    let words = "synth --pointers 1 --lines 1 marked lit";
    check_marked(&rt, rt.alloc(), &mut shelf, words, "shape", "; only\n;x@")
}

const PROBLEMS: &str = "\
shape: (define (problem p) (:domain d)@)
shape: (define (problem p) (:goal ())@)
shape: (define (problem p) @)
shape: (define (problem p) (:domain d) (:requirements) (:objects) (:init) (:goal ()) @(:foo))
unsupported: (define (problem p) (:domain d) (:requirements) (:objects) (:init) (@:foo))
shape: (define (problem p) (:domain d) (@:domain e))
unsupported: (define (problem p) (@:types a))
unsupported: (define (problem p) (@:metric a))
unsupported: (define (problem p) (:init (@not (p a))))
unsupported: (define (problem p) (:init (@and (p a))))
unsupported: (define (problem p) (:init (@= (f) 3)))
shape: (define (problem p) (:init (@)))
shape: (define (problem p) (:init (p @?x)))
unsupported: (define (problem p) (:goal (@not (p))))
shape: (define (problem p) (:goal@))
shape: (define (problem p) (:goal () @()))
shape: (define (problem p) (:goal (p @?x)))
unsupported: (define (problem p) (:objects a - (@either b)))
unsupported: (define (problem p) (:domain lights) (:objects a) (:init) (:goal (@= a a)))
shape: (define (@domain d))
";

#[test]
fn problems_of_another_form(rt: HostRuntime) -> Result<(), Fail> {
    let words = "synth --pointers 1 --lines 1 lights marked";
    check_table(&rt, rt.alloc(), "", words, PROBLEMS)
}
