ghost use Rattle.std.specs.Prelude.{◌≡◌, ℕ, List, ◌<◌, ◌≤◌, ◌^◌, ◌++◌, All, length, map, IfOk, OnOk};
ghost use Rattle.ground_state.specs.declared.parts.TheConstants.{MAX_OBJECTS, MAX_PARAMETERS, MAX_ARITY};
ghost use Rattle.pddl_forms.specs.declared.texts.Word.{Word};
ghost use Rattle.pddl_parser.specs.declared.texts.PredText.{PredText};
ghost use Rattle.pddl_task.specs.Names.{number_of};
ghost use Rattle.pddl_task.specs.Parts.{object_of, predicate_of, term_of, lifted_of, schema_of, fact_of};
ghost use Rattle.pddl_task.specs.Types.{names_of, type_number};
ghost use Rattle.pddl_task.specs.Inner.Actions.{IsSchemaText};

use crate::names::Names;
use crate::typing::numbers_of_types;
use flag_rules::{List, OutOfMemory, Text};
use ground_state::{Fact, Lifted, ObjectEntry, PredicateEntry, SchemaEntry, Term};
use pddl_parser::{ActionText, AtomText, PredText, TypedWords, Word};
use std::alloc::Global;

/// Adds objects or constants, where types have these names.
pub(crate) fn add_objects(
    alloc: Global,
    types: &Names,
    entries: &mut List<ObjectEntry>,
    list: &TypedWords,
) -> Result<(), OutOfMemory>
    requires { length types.now < 2 ^ 32 }
    ensures { OnOk result (entries.new ≡ entries.old ++ map (object_of types.now) list.now) }
{
    let known = numbers_of_types(alloc, types, list)?;
    let numbers = known.as_slice();
    let items = list.as_slice();
    for (place, typed) in items.iter().enumerate() {
        entries.push(ObjectEntry {
            name: Text::of(alloc, typed.word.text.as_slice())?,
            of: numbers[place],
        })?;
    }
    Ok(())
}

/// The entries of predicates.
pub(crate) fn predicates_of(
    alloc: Global,
    predicates: &[PredText],
) -> Result<List<PredicateEntry>, OutOfMemory>
    requires { All (λ (predicate : PredText). length predicate.params ≤ MAX_ARITY) predicates.now }
    ensures { IfOk result (λ entries. entries ≡ map predicate_of predicates.now) }
{
    let mut entries = List::new(alloc);
    for predicate in predicates {
        entries.push(PredicateEntry {
            name: Text::of(alloc, predicate.head.text.as_slice())?,
            arity: predicate.params.len() as u8,
        })?;
    }
    Ok(entries)
}

/// The names that stand in actions: those of types, predicates and constants.
#[derive(Drop)]
pub(crate) struct Scope {
    pub(crate) types: Names,
    pub(crate) heads: Names,
    pub(crate) constants: Names,
}

/// The entries of actions.
pub(crate) fn schemas_of(
    alloc: Global,
    scope: &Scope,
    actions: &[ActionText],
) -> Result<List<SchemaEntry>, OutOfMemory>
    requires types { length scope.now.types < 2 ^ 32 }
    requires heads { length scope.now.heads < 2 ^ 32 }
    requires constants { length scope.now.constants ≤ MAX_OBJECTS }
    requires fit { All IsSchemaText actions.now }
    ensures { IfOk result (λ entries. entries ≡
        map (schema_of scope.now.types scope.now.heads scope.now.constants) actions.now) }
{
    let mut entries = List::new(alloc);
    for action in actions {
        entries.push(schema_entry(alloc, scope, action)?)?;
    }
    Ok(entries)
}

/// The entry of an action.
fn schema_entry(
    alloc: Global,
    scope: &Scope,
    action: &ActionText,
) -> Result<SchemaEntry, OutOfMemory>
    requires types { length scope.now.types < 2 ^ 32 }
    requires heads { length scope.now.heads < 2 ^ 32 }
    requires constants { length scope.now.constants ≤ MAX_OBJECTS }
    requires fits { IsSchemaText action.now }
    ensures { IfOk result (λ entry. entry ≡
        schema_of scope.now.types scope.now.heads scope.now.constants action.now) }
{
    let params = Names::of(alloc, action.params.as_slice())?;
    schema_over(alloc, scope, &params, action)
}

/// The entry of an action whose parameters have these names.
fn schema_over(
    alloc: Global,
    scope: &Scope,
    params: &Names,
    action: &ActionText,
) -> Result<SchemaEntry, OutOfMemory>
    requires types { length scope.now.types < 2 ^ 32 }
    requires heads { length scope.now.heads < 2 ^ 32 }
    requires constants { length scope.now.constants ≤ MAX_OBJECTS }
    requires few { length params.now ≤ MAX_PARAMETERS }
    requires named { params.now ≡ names_of action.now.params }
    ensures { IfOk result (λ entry. entry ≡
        schema_of scope.now.types scope.now.heads scope.now.constants action.now) }
{
    let name = Text::of(alloc, action.name.text.as_slice())?;
    let types = numbers_of_types(alloc, &scope.types, &action.params)?;
    let pre = lifted_atoms(alloc, scope, params, action.pre.as_slice())?;
    let add = lifted_atoms(alloc, scope, params, action.add.as_slice())?;
    let del = lifted_atoms(alloc, scope, params, action.del.as_slice())?;
    Ok(SchemaEntry {
        name,
        params: types,
        pre,
        add,
        del,
    })
}

/// The atoms of an action whose parameters have these names.
fn lifted_atoms(
    alloc: Global,
    scope: &Scope,
    params: &Names,
    atoms: &[AtomText],
) -> Result<List<Lifted>, OutOfMemory>
    requires heads { length scope.now.heads < 2 ^ 32 }
    requires constants { length scope.now.constants ≤ MAX_OBJECTS }
    requires params { length params.now ≤ MAX_PARAMETERS }
    ensures { IfOk result (λ lifted. lifted ≡
        map (lifted_of scope.now.heads params.now scope.now.constants) atoms.now) }
{
    let mut lifted = List::new(alloc);
    for atom in atoms {
        lifted.push(lifted_at(alloc, scope, params, atom)?)?;
    }
    Ok(lifted)
}

/// An atom of an action whose parameters have these names.
fn lifted_at(
    alloc: Global,
    scope: &Scope,
    params: &Names,
    atom: &AtomText,
) -> Result<Lifted, OutOfMemory>
    requires heads { length scope.now.heads < 2 ^ 32 }
    requires constants { length scope.now.constants ≤ MAX_OBJECTS }
    requires params { length params.now ≤ MAX_PARAMETERS }
    ensures { IfOk result (λ lifted. lifted ≡
        lifted_of scope.now.heads params.now scope.now.constants atom.now) }
{
    Ok(Lifted {
        pred: scope.heads.small_number(atom.head.text.as_slice()),
        args: terms_of(alloc, params, &scope.constants, atom.args.as_slice())?,
    })
}

/// The arguments of an atom, where parameters and constants have these names.
fn terms_of(
    alloc: Global,
    params: &Names,
    constants: &Names,
    words: &[Word],
) -> Result<List<Term>, OutOfMemory>
    requires params { length params.now ≤ MAX_PARAMETERS }
    requires constants { length constants.now ≤ MAX_OBJECTS }
    ensures { IfOk result (λ terms. terms ≡ map (term_of params.now constants.now) words.now) }
{
    let mut terms = List::new(alloc);
    for word in words {
        terms.push(term_at(params, constants, word))?;
    }
    Ok(terms)
}

/// The parameter of a word, or else the constant.
fn term_at(params: &Names, constants: &Names, word: &Word) -> Term
    requires params { length params.now ≤ MAX_PARAMETERS }
    requires constants { length constants.now ≤ MAX_OBJECTS }
    ensures { result ≡ term_of params.now constants.now word.now }
{
    let text = word.text.as_slice();
    if params.holds(text) {
        Term::Param(params.number(text) as u8)
    } else {
        Term::Object(constants.number(text) as u16)
    }
}

/// The atoms of a problem, where predicates and objects have these names.
pub(crate) fn facts_of(
    alloc: Global,
    heads: &Names,
    objects: &Names,
    atoms: &[AtomText],
) -> Result<List<Fact>, OutOfMemory>
    requires heads { length heads.now < 2 ^ 32 }
    requires objects { length objects.now ≤ MAX_OBJECTS }
    ensures { IfOk result (λ facts. facts ≡ map (fact_of heads.now objects.now) atoms.now) }
{
    let mut facts = List::new(alloc);
    for atom in atoms {
        facts.push(fact_at(alloc, heads, objects, atom)?)?;
    }
    Ok(facts)
}

/// An atom of a problem, where predicates and objects have these names.
fn fact_at(
    alloc: Global,
    heads: &Names,
    objects: &Names,
    atom: &AtomText,
) -> Result<Fact, OutOfMemory>
    requires heads { length heads.now < 2 ^ 32 }
    requires objects { length objects.now ≤ MAX_OBJECTS }
    ensures { IfOk result (λ fact. fact ≡ fact_of heads.now objects.now atom.now) }
{
    Ok(Fact {
        pred: heads.small_number(atom.head.text.as_slice()),
        args: numbers_of(alloc, objects, atom.args.as_slice())?,
    })
}

/// The numbers of objects, where all have these names.
fn numbers_of(alloc: Global, objects: &Names, words: &[Word]) -> Result<List<u16>, OutOfMemory>
    requires { length objects.now ≤ MAX_OBJECTS }
    ensures { IfOk result (λ numbers. numbers ≡
        map (λ (word : Word). number_of objects.now word.text) words.now) }
{
    let mut numbers = List::new(alloc);
    for word in words {
        numbers.push(objects.number(word.text.as_slice()) as u16)?;
    }
    Ok(numbers)
}
