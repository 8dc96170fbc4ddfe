use crate::calls::{check_calls, check_calls_over, shelf_of};
use bfgp_outside::MemoryShelf;
use flag_rules::OutOfMemory;
use std::alloc::{AllocError, Global};
use std::test::Fail;

// Domains past a limit, and instances without objects. Parameters come before arities, and a fault with a place comes before
// a limit.
const PAST_A_LIMIT: &str = "\
params: (define (domain d) (:predicates (p ?a ?b ?c ?d ?e)) (:action a) (:action b :parameters (?a ?b ?c ?d ?e ?f ?g)))
arity: (define (domain d) (:predicates (p) (q ?a ?b ?c ?d ?e ?f) (r ?a ?b ?c ?d ?e)))
twice: (define (domain d) (:predicates (q ?a ?b ?c ?d ?e) (q)))
none: (define (problem p) (:domain lights) (:objects) (:init) (:goal ()))
left-out: (define (problem p) (:domain lights) (:goal ()))
";

const REFUSED: &str = "\
3 synth --pointers 1 --lines 1 params lit
input params limit parameters 7

3 synth --pointers 1 --lines 1 arity lit
input arity limit arity 6

3 synth --pointers 1 --lines 1 twice lit
input twice twice 52

3 synth --pointers 1 --lines 1 lights none
input none no object

3 synth --pointers 1 --lines 1 lights left-out
input left-out no object";

#[test]
fn limits_of_domains_and_instances(rt: HostRuntime) -> Result<(), Fail> {
    check_calls(&rt, rt.alloc(), PAST_A_LIMIT, REFUSED)
}

// The domain `four` has no predicate, and two actions of four parameters: 548 operations over four pointers, and 183 over
// three.
const LINKS_AND_ACTIONS: &str = "\
links: (define (domain links) (:predicates (link ?x ?y)))
four: (define (domain d) (:action a :parameters (?a ?b ?c ?d) :effect ()) (:action b :parameters (?a ?b ?c ?d) :effect ()))
one: (define (problem p) (:domain d) (:objects a) (:goal ()))
";

// A file of so many bytes, lists within lists so deep, so many objects, or so many operations over four pointers: as many as
// there may be, and one more.
const AT_A_BOUND: &str = "\
3 synth --pointers 1 --lines 1 deep-64 lit
input deep-64 unclosed 63

3 synth --pointers 1 --lines 1 deep-65 lit
input deep-65 too deep 64

1 synth --pointers 1 --lines 1 predicates lights-256
bfgp answer 1
pointers 1
lines 1
instances 1
verdict none
tree 1
f 0 0
end of answer

3 synth --pointers 1 --lines 1 predicates lights-257
input lights-257 limit objects 257

1 synth --pointers 1 --lines 1 links links-128
bfgp answer 1
pointers 1
lines 1
instances 1
verdict none
tree 1
f 0 0
end of answer

3 synth --pointers 1 --lines 1 links links-129
input links-129 atoms 16641

0 synth --pointers 1 --lines 1 long-1048576 lit
bfgp answer 1
pointers 1
lines 1
instances 1
verdict program 1
tree 1
g
program
end
ends 0 0
end of answer

3 synth --pointers 1 --lines 1 long-1048577 lit
input long-1048577 too long

1 synth --pointers 4 --lines 1 actions-448 unlit
bfgp answer 1
pointers 4
lines 1
instances 1
verdict none
tree 1
f 0 0
end of answer

3 synth --pointers 4 --lines 1 actions-449 unlit
input actions-449 operations 449

3 synth --pointers 4 --lines 1 four one
input four operations 548

0 synth --pointers 3 --lines 1 four one
bfgp answer 1
pointers 3
lines 1
instances 1
verdict program 1
tree 1
g
program
end
ends 0 0
end of answer";

#[test]
fn at_a_bound_and_one_past(rt: HostRuntime) -> Result<(), Fail> {
    let mut shelf = large_files(rt.alloc(), LINKS_AND_ACTIONS)?;
    check_calls_over(&rt, rt.alloc(), &mut shelf, AT_A_BOUND)
}

// Which fault is told where there are several.
const FIRST_FAULTS: &str = "\
3 run --pointers 1 --program q lights lit
input q absent

3 run --pointers 1 --program q lights e
input e absent

3 run --pointers 1 --program q e lit
input e absent

3 run --pointers 1 --program long-1048577 lights lit
input long-1048577 too long

3 run --pointers 4 --program q actions-449 lit
input actions-449 operations 449

3 check --pointers 1 --lines 1 --answer q lights lit
input q absent

3 check --pointers 1 --lines 1 --answer q lights e
input e absent

3 check --pointers 1 --lines 1 --answer q e lit
input e absent

3 check --pointers 1 --lines 1 --answer q long-1048577 lit
input long-1048577 too long

3 check --pointers 1 --lines 1 --answer q lights lights-257
input lights-257 limit objects 257

3 check --pointers 1 --lines 1 --answer q links links-129
input links-129 atoms 16641

3 check --pointers 4 --lines 1 --answer q actions-449 lit
input actions-449 operations 449

1 check --pointers 1 --lines 1 --answer long-1048577 lights lit
rejected";

#[test]
fn the_first_fault_is_told(rt: HostRuntime) -> Result<(), Fail> {
    let mut shelf = large_files(rt.alloc(), LINKS_AND_ACTIONS)?;
    check_calls_over(&rt, rt.alloc(), &mut shelf, FIRST_FAULTS)
}

// A shelf that holds files at their bounds and one past, beside these and those of all tests.
fn large_files(alloc: Global, files: &str) -> Result<MemoryShelf, Fail> {
    let mut shelf = shelf_of(alloc, files)?;
    for past in 0..2 {
        add_large_files(alloc, &mut shelf, past)?;
    }
    Ok(shelf)
}

// The files at a bound, where `past` is 0, or one past it, where that is 1. The name of each tells its size.
fn add_large_files(alloc: Global, shelf: &mut MemoryShelf, past: u8) -> Result<(), OutOfMemory> {
    let past = usize::from(past);
    let long = long_domain(alloc, 1_048_576 + past)?;
    add(alloc, shelf, "long", 1_048_576 + past, &long)?;
    let deep = vec![in alloc; b'('; 64 + past]?;
    add(alloc, shelf, "deep", 64 + past, &deep)?;
    let lights = many_objects(alloc, "lights", 256 + past, "(lit o0)")?;
    add(alloc, shelf, "lights", 256 + past, lights.as_bytes())?;
    let links = many_objects(alloc, "links", 128 + past, "(link o0 o0)")?;
    add(alloc, shelf, "links", 128 + past, links.as_bytes())?;
    let actions = many_actions(alloc, past == 1)?;
    add(alloc, shelf, "actions", 448 + past, actions.as_bytes())
}

fn add(
    alloc: Global,
    shelf: &mut MemoryShelf,
    kind: &str,
    size: usize,
    bytes: &[u8],
) -> Result<(), OutOfMemory> {
    let name = format!(in alloc; "{kind}-{size}")?;
    shelf.add(name.as_bytes(), bytes)
}

// A domain of so many bytes.
fn long_domain(alloc: Global, bytes: usize) -> Result<Vec<u8>, AllocError> {
    let domain = "(define (domain lights) (:predicates (lit ?x)))";
    let mut domain = Vec::from_slice(alloc, domain.as_bytes())?;
    domain.resize(bytes, b' ')?;
    Ok(domain)
}

// An instance of so many objects, none of which is in an atom at the start.
fn many_objects(
    alloc: Global,
    domain: &str,
    objects: usize,
    goal: &str,
) -> Result<String, AllocError> {
    let mut instance = format!(in alloc; "(define (problem p) (:domain {domain}) (:objects")?;
    for number in 0..objects {
        write!(instance, " o{number}")?;
    }
    write!(instance, ") (:init) (:goal {goal}))")?;
    Ok(instance)
}

// A domain that has 448 operations over four pointers, as many as there may be, or one more.
fn many_actions(alloc: Global, one_more: bool) -> Result<String, AllocError> {
    let mut domain = String::from_str(alloc, "(define (domain lights) (:predicates (lit ?x))")?;
    for (number, params) in "?a ?b ?c ?d/?a ?b ?c/?a ?b ?c/?a ?b/?a/?a"
        .split('/')
        .enumerate()
    {
        write!(
            domain,
            " (:action a{number} :parameters ({params}) :precondition () :effect ())"
        )?;
    }
    if one_more {
        domain.push_str(" (:action last :parameters () :precondition () :effect ())")?;
    }
    domain.push_str(")")?;
    Ok(domain)
}
