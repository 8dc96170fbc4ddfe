ghost use Rattle.std.specs.Prelude.{◌≡◌, map, IfOk};
ghost use Rattle.family_gen.specs.Domains.{word, untyped, atom, predicate, action, domain};
ghost use Rattle.family_gen.specs.Families.{family_name};
ghost use Rattle.family_gen.specs.Problems.{problem};

use crate::kinds::Family;
use flag_rules::{List, OutOfMemory, Text};
use pddl_parser::{ActionText, AtomText, DomainText, PredText, ProblemText, TypedWords, Word};
use std::alloc::Global;

/// A list of these items.
pub(crate) fn list<T: Drop, const N: usize>(
    alloc: Global,
    items: [T; N],
) -> Result<List<T>, OutOfMemory>
    ensures { IfOk result (λ list. list ≡ items) }
{
    Ok(List::from_vec(Vec::from_array(alloc, items)?))
}

/// Copies of some names.
fn texts(alloc: Global, names: &[&[u8]]) -> Result<List<Text>, OutOfMemory>
    ensures { IfOk result (λ texts. texts ≡ map (λ name. name.now) names.now) }
{
    let mut texts = List::new(alloc);
    for name in names {
        texts.push(Text::of(alloc, name)?)?;
    }
    Ok(texts)
}

/// A word that is made, not read, and so stands at no place of its own.
fn word(text: Text) -> Word
    ensures { result ≡ word text }
{
    Word { text, at: 0 }
}

/// Words that are made.
fn words(alloc: Global, texts: List<Text>) -> Result<List<Word>, OutOfMemory>
    ensures { IfOk result (λ words. words ≡ map word texts) }
{
    let mut words = List::new(alloc);
    for text in texts.into_vec() {
        words.push(word(text))?;
    }
    Ok(words)
}

/// A typed list that gives no types.
fn untyped(alloc: Global, texts: List<Text>) -> Result<TypedWords, OutOfMemory>
    ensures { IfOk result (λ list. list ≡ map untyped texts) }
{
    TypedWords::new(alloc).with_group(words(alloc, texts)?, &None)
}

/// An atom: its predicate, and the names or variables that it is of.
pub(crate) fn atom(alloc: Global, head: &[u8], args: &[&[u8]]) -> Result<AtomText, OutOfMemory>
    ensures { IfOk result (λ made. made ≡ atom head.now (map (λ arg. arg.now) args.now)) }
{
    Ok(AtomText {
        head: word(Text::of(alloc, head)?),
        args: words(alloc, texts(alloc, args)?)?,
    })
}

/// A predicate with its variables.
pub(crate) fn predicate(
    alloc: Global,
    head: &[u8],
    params: &[&[u8]],
) -> Result<PredText, OutOfMemory>
    ensures { IfOk result (λ made. made ≡ predicate head.now (map (λ param. param.now) params.now)) }
{
    Ok(PredText {
        head: word(Text::of(alloc, head)?),
        params: untyped(alloc, texts(alloc, params)?)?,
    })
}

/// An action: its name, its variables, its precondition, and the atoms that it adds and deletes.
pub(crate) fn action(
    alloc: Global,
    name: &[u8],
    params: &[&[u8]],
    pre: List<AtomText>,
    added: List<AtomText>,
    deleted: List<AtomText>,
) -> Result<ActionText, OutOfMemory>
    ensures { IfOk result (λ made. made ≡ action name.now (map (λ param. param.now) params.now) pre added deleted) }
{
    Ok(ActionText {
        name: word(Text::of(alloc, name)?),
        params: untyped(alloc, texts(alloc, params)?)?,
        pre,
        add: added,
        del: deleted,
    })
}

/// The word of a family's name.
fn named(alloc: Global, which: Family) -> Result<Word, OutOfMemory>
    ensures { IfOk result (λ made. made ≡ word (family_name which)) }
{
    Ok(word(Text::of(alloc, which.name().as_bytes())?))
}

/// A family's domain, without requirements, types and constants.
pub(crate) fn domain(
    alloc: Global,
    which: Family,
    predicates: List<PredText>,
    actions: List<ActionText>,
) -> Result<DomainText, OutOfMemory>
    ensures { IfOk result (λ made. made ≡ domain (family_name which) predicates actions) }
{
    Ok(DomainText {
        name: named(alloc, which)?,
        requirements: List::new(alloc),
        types: TypedWords::new(alloc),
        constants: TypedWords::new(alloc),
        predicates,
        actions,
    })
}

/// An instance of a family, without requirements, over objects that are given no type.
pub(crate) fn problem(
    alloc: Global,
    which: Family,
    objects: List<Text>,
    init: List<AtomText>,
    goal: List<AtomText>,
) -> Result<ProblemText, OutOfMemory>
    ensures { IfOk result (λ made. made ≡ problem (family_name which) objects init goal) }
{
    Ok(ProblemText {
        name: named(alloc, which)?,
        domain: named(alloc, which)?,
        requirements: List::new(alloc),
        objects: untyped(alloc, objects)?,
        init,
        goal,
    })
}
