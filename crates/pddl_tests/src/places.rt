//! The texts that are read, told word by word with their places.

use crate::checks::check_text;
use crate::texts::{DOMAIN, domain_text, problem_text};
use flag_rules::List;
use pddl_parser::{
    ActionText, AtomText, DomainText, PredText, ProblemText, Typed, TypedWords, Word,
};
use std::alloc::{AllocError, Global};
use std::test::Fail;

/// Tells a word and its place.
fn tell_word(told: &mut String, word: &Word) -> Result<(), AllocError> {
    for byte in word.text.as_slice() {
        told.push(char::from(*byte))?;
    }
    write!(told, "@{} ", word.at)
}

fn tell_words(told: &mut String, words: &List<Word>) -> Result<(), AllocError> {
    for word in words.as_slice() {
        tell_word(told, word)?;
    }
    told.push_str("/ ")
}

/// Tells a word with its own type.
fn tell_typed(told: &mut String, typed: &Typed) -> Result<(), AllocError> {
    tell_word(told, &typed.word)?;
    match &typed.of {
        Some(of) => tell_type(told, of.word()),
        None => Ok(()),
    }
}

fn tell_type(told: &mut String, of: &Word) -> Result<(), AllocError> {
    told.push_str("- ")?;
    tell_word(told, of)
}

/// Tells the words of a typed list, each with its own type.
fn tell_typed_list(told: &mut String, words: &TypedWords) -> Result<(), AllocError> {
    for typed in words.as_slice() {
        tell_typed(told, typed)?;
    }
    told.push_str("/ ")
}

fn tell_atom(told: &mut String, atom: &AtomText) -> Result<(), AllocError> {
    tell_word(told, &atom.head)?;
    tell_words(told, &atom.args)
}

fn tell_atoms(told: &mut String, atoms: &List<AtomText>) -> Result<(), AllocError> {
    for atom in atoms.as_slice() {
        tell_atom(told, atom)?;
    }
    told.push_str("/ ")
}

fn tell_predicate(told: &mut String, predicate: &PredText) -> Result<(), AllocError> {
    tell_word(told, &predicate.head)?;
    tell_typed_list(told, &predicate.params)
}

fn tell_action(told: &mut String, action: &ActionText) -> Result<(), AllocError> {
    tell_word(told, &action.name)?;
    tell_typed_list(told, &action.params)?;
    tell_atoms(told, &action.pre)?;
    tell_atoms(told, &action.add)?;
    tell_atoms(told, &action.del)
}

/// Tells the name of a domain, its requirements, types and constants.
fn tell_names(told: &mut String, text: &DomainText) -> Result<(), AllocError> {
    tell_word(told, &text.name)?;
    tell_words(told, &text.requirements)?;
    tell_typed_list(told, &text.types)?;
    tell_typed_list(told, &text.constants)
}

fn tell_predicates(told: &mut String, predicates: &List<PredText>) -> Result<(), AllocError> {
    told.push_str("\n")?;
    for predicate in predicates.as_slice() {
        tell_predicate(told, predicate)?;
    }
    Ok(())
}

fn tell_actions(told: &mut String, actions: &List<ActionText>) -> Result<(), AllocError> {
    told.push_str("\n")?;
    for action in actions.as_slice() {
        tell_action(told, action)?;
    }
    Ok(())
}

/// Tells a domain: a line of its names, one of its predicates, and one of its actions.
fn tell_domain(told: &mut String, text: &DomainText) -> Result<(), AllocError> {
    tell_names(told, text)?;
    tell_predicates(told, &text.predicates)?;
    tell_actions(told, &text.actions)
}

fn domain_told(alloc: Global, bytes: &[u8]) -> Result<String, Fail> {
    let text = domain_text(alloc, bytes)?;
    let mut told = String::new(alloc);
    tell_domain(&mut told, &text)?;
    Ok(told)
}

/// Tells the names of a problem, its requirements and its objects.
fn tell_objects(told: &mut String, text: &ProblemText) -> Result<(), AllocError> {
    tell_word(told, &text.name)?;
    tell_word(told, &text.domain)?;
    tell_words(told, &text.requirements)?;
    tell_typed_list(told, &text.objects)
}

/// Tells a problem: a line of its names and objects, and one of its atoms.
fn tell_problem(told: &mut String, text: &ProblemText) -> Result<(), AllocError> {
    tell_objects(told, text)?;
    told.push_str("\n")?;
    tell_atoms(told, &text.init)?;
    tell_atoms(told, &text.goal)
}

fn problem_told(alloc: Global, bytes: &[u8]) -> Result<String, Fail> {
    let text = problem_text(alloc, bytes)?;
    let mut told = String::new(alloc);
    tell_problem(&mut told, &text)?;
    Ok(told)
}

const DOMAIN_TOLD: &str = "\
    lights@15 :strips@260 :typing@268 / lamp@221 - thing@233 bulb@226 - thing@233 thing@239 / a@200 - lamp@206 b@202 - lamp@206 c@211 / \n\
    dark@164 / lit@170 ?x@174 - lamp@179 ?y@184 / \n\
    on@42 ?l@94 - lamp@102 ?m@97 - lamp@102 ?n@107 / dark@128 / near@138 ?l@143 a@146 / / lit@56 ?l@60 / / dark@72 / / ";

#[test]
fn reads_a_domain_with_its_places(rt: HostRuntime) -> Result<(), Fail> {
    let told = domain_told(rt.alloc(), DOMAIN)?;
    check_text(&rt, told.as_str(), DOMAIN_TOLD);
    Ok(())
}

const PROBLEM: &[u8] =
    b"(define(problem One)(:goal(and(and(lit A))()(dark)));end\r(:init(dark)(near A b))(:objects b - LAMP c)(:domain Lights)(:requirements))";

const PROBLEM_TOLD: &str = "\
    one@16 lights@110 / b@90 - lamp@94 c@99 / \n\
    dark@64 / near@70 a@75 b@77 / / lit@35 a@39 / dark@45 / / ";

#[test]
fn reads_a_problem_with_its_places(rt: HostRuntime) -> Result<(), Fail> {
    let told = problem_told(rt.alloc(), PROBLEM)?;
    check_text(&rt, told.as_str(), PROBLEM_TOLD);
    Ok(())
}
