ghost use Rattle.pddl_parser.specs.Replies.{IsDomainText, IsProblemText};

use crate::checks::check_reply;
use crate::texts::{domain_text, problem_text};
use ground_state::{
    Fact, Instance, InstanceParts, Lifted, ObjectEntry, SchemaEntry, Task, Term, TypeEntry,
};
use pddl_parser::{DomainText, ProblemText};
use pddl_task::{TaskRefusal, Which, instance, task};
use std::alloc::Global;
use std::test::Fail;

const CELLS: &[u8] = b"(define (domain cells) (:types cell - place) (:constants home - place)
    (:predicates (lit ?x - place)) (:action light :parameters (?x - place)
    :precondition (lit home) :effect (and (lit ?x) (not (lit home)))))";

const LIT: &[u8] =
    b"(define (problem one) (:domain cells) (:objects a - cell) (:init (lit home)) (:goal (lit a)))";

/// The task of the text of a domain.
fn task_of(alloc: Global, bytes: &[u8]) -> Result<Task, Fail> {
    let text = domain_text(alloc, bytes)?;
    Ok(task(alloc, &text)?)
}

/// Why the text of a domain gives no task.
fn refused(alloc: Global, bytes: &[u8]) -> Result<Option<TaskRefusal>, Fail> {
    let text = domain_text(alloc, bytes)?;
    Ok(task(alloc, &text).err())
}

/// The instance of the text of a problem over that of a domain.
fn instance_of(
    alloc: Global,
    over: &DomainText,
    text: &ProblemText,
) -> Result<Instance, TaskRefusal>
    requires over { IsDomainText over.now }
    requires text { IsProblemText text.now }
{
    let task = task(alloc, over)?;
    instance(alloc, &task, over, text)
}

/// The instance of `LIT` over `CELLS`.
fn lit_cells(alloc: Global) -> Result<Instance, Fail> {
    let over = domain_text(alloc, CELLS)?;
    let text = problem_text(alloc, LIT)?;
    Ok(instance_of(alloc, &over, &text)?)
}

fn is_type(entry: &TypeEntry, name: &[u8], parent: u32) -> bool {
    entry.name.as_slice() == name && entry.parent == parent
}

/// Whether the types are those of `CELLS`.
fn are_cell_types(types: &[TypeEntry]) -> bool {
    match types {
        [first, second, third] => {
            is_type(first, b"object", 0)
                && is_type(second, b"cell", 2)
                && is_type(third, b"place", 0)
        }
        _ => false,
    }
}

fn is_object(entry: &ObjectEntry, name: &[u8], of: u32) -> bool {
    entry.name.as_slice() == name && entry.of == of
}

/// Whether the objects are the constant of `CELLS` and the object of `LIT`.
fn are_cell_objects(objects: &[ObjectEntry]) -> bool {
    match objects {
        [first, second] => is_object(first, b"home", 2) && is_object(second, b"a", 1),
        _ => false,
    }
}

/// Whether there is one atom, with this argument alone.
fn is_lifted(atoms: &[Lifted], term: Term) -> bool {
    match atoms {
        [atom] => atom.pred == 0 && atom.args.as_slice() == [term].as_slice(),
        _ => false,
    }
}

fn is_fact(atoms: &[Fact], object: u16) -> bool {
    match atoms {
        [atom] => atom.pred == 0 && atom.args.as_slice() == [object].as_slice(),
        _ => false,
    }
}

/// Whether the one action is that of `CELLS`, whose parameter is of type 2.
fn is_light(schemas: &[SchemaEntry]) -> bool {
    match schemas {
        [light] => {
            light.params.as_slice() == [2].as_slice()
                && is_lifted(light.pre.as_slice(), Term::Object(0))
                && is_lifted(light.add.as_slice(), Term::Param(0))
                && is_lifted(light.del.as_slice(), Term::Object(0))
        }
        _ => false,
    }
}

fn is_lit_cells(parts: &InstanceParts) -> bool {
    are_cell_objects(parts.objects.as_slice())
        && is_fact(parts.init.as_slice(), 0)
        && is_fact(parts.goal.as_slice(), 1)
}

#[test]
fn types_are_numbered_by_first_appearance(rt: HostRuntime) -> Result<(), Fail> {
    let made = task_of(rt.alloc(), CELLS)?;
    assert!(rt; are_cell_types(made.parts().types.as_slice()));
    Ok(())
}

#[test]
fn actions_speak_of_parameters_and_constants(rt: HostRuntime) -> Result<(), Fail> {
    let made = task_of(rt.alloc(), CELLS)?;
    assert!(rt; is_light(made.parts().schemas.as_slice()));
    Ok(())
}

#[test]
fn constants_stand_before_objects(rt: HostRuntime) -> Result<(), Fail> {
    let made = lit_cells(rt.alloc())?;
    assert!(rt; is_lit_cells(made.parts()));
    Ok(())
}

const REFUSALS: &[(&[u8], TaskRefusal)] = &[
    (
        b"(define (domain d) (:types a b - c c - b a) (:predicates (p ?a ?b ?c ?d ?e)))",
        TaskRefusal::TypeCycle(27),
    ),
    (
        b"(define (domain d) (:types a b - c) (:predicates (p ?a ?b ?c ?d ?e)))",
        TaskRefusal::Limit(Which::Arity, 5),
    ),
];

#[test]
fn a_fault_is_told_before_a_limit(rt: HostRuntime) -> Result<(), Fail> {
    for (text, refusal) in REFUSALS {
        check_reply(&rt, text, &refused(rt.alloc(), text)?, &Some(*refusal));
    }
    Ok(())
}
