//! Files that the tests are given. Their documents are written by searches.

/// Domains and instances of them, one a line: the name and the text. No operation of `dimmer` meets the goal of `never`.
pub const FILES: &str = "\
predicates: (define (domain lights) (:predicates (lit ?x)))
lights: (define (domain lights) (:predicates (lit ?x)) (:action light :parameters (?x) :precondition () :effect (lit ?x)))
dimmer: (define (domain lights) (:predicates (lit ?x) (dark ?x)) (:action light :parameters (?x) :precondition () :effect (lit ?x)))
lit: (define (problem one) (:domain lights) (:objects a) (:init (lit a)) (:goal (lit a)))
unlit: (define (problem one) (:domain lights) (:objects a) (:init) (:goal (lit a)))
two: (define (problem two) (:domain lights) (:objects a b) (:init) (:goal (and (lit a) (lit b))))
three: (define (problem three) (:domain lights) (:objects a b c) (:init) (:goal (and (lit a) (lit b) (lit c))))
never: (define (problem never) (:domain lights) (:objects a b) (:init) (:goal (dark a)))
";
