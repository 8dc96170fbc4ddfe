ghost use Rattle.std.specs.Prelude.{◌≡◌, ℕ, ◌<◌, ◌+◌, ◌^◌, Any, List, [], ◌∷◌, ◌++◌, flat_map, map, take, length, IfOk, OnOk};
ghost use Rattle.pddl_task.specs.Names.{number_of, with_names};
ghost use Rattle.pddl_task.specs.Types.{root, mentioned, type_of, type_names, type_number, types_of, given_parent, parent_of};
ghost use Rattle.pddl_task.specs.Faults.{IsFirst, IsUnknownType, IsUnknownName};

use crate::check::Check;
use crate::fault::{Fault, FaultKind, earlier};
use crate::names::Names;
use flag_rules::{List, OutOfMemory, Text};
use ground_state::TypeEntry;
use pddl_parser::{PredText, Typed, TypedWords, Word};
use std::alloc::Global;

/// The name of the root of all types, whose number is 0.
pub(crate) const ROOT: &[u8; 6] = b"object";

/// The type that a typed list gives to a word.
pub(crate) fn given_type(typed: &Typed) -> &[u8]
    ensures { result.now ≡ type_of typed.now }
{
    match &typed.of {
        Some(of) => of.word().text.as_slice(),
        None => ROOT,
    }
}

/// The names of the types of a domain, by their numbers.
pub(crate) fn names_of_types(alloc: Global, types: &TypedWords) -> Result<Names, OutOfMemory>
    ensures { IfOk result (λ names. names ≡ type_names types.now) }
{
    let mut names = Names::new(alloc);
    names.add(alloc, ROOT)?;
    for place in 0..types.len() {
        add_mentioned(alloc, &mut names, types, place)?;
    }
    Ok(names)
}

/// Adds the names that a word of `:types` mentions to those that the words before it do. The type that it shares with the word
/// before it is there.
fn add_mentioned(
    alloc: Global,
    names: &mut Names,
    types: &TypedWords,
    place: usize,
) -> Result<(), OutOfMemory>
    requires place { place < length types.now }
    requires before { names.old ≡ with_names (root ∷ []) (flat_map mentioned (take place types.now)) }
    ensures { OnOk result (names.new ≡ with_names (root ∷ []) (flat_map mentioned (take (place + 1) types.now))) }
{
    let items = types.as_slice();
    let typed = &items[place];
    names.add(alloc, typed.word.text.as_slice())?;
    if types.repeats_type(place) {
        return Ok(());
    }
    names.add(alloc, given_type(typed))?;
    Ok(())
}

/// The number of the type that a typed list gives to a word.
fn number_of_type(names: &Names, typed: &Typed) -> u32
    requires { length names.now < 2 ^ 32 }
    ensures { result ≡ type_number names.now typed.now }
{
    names.small_number(given_type(typed))
}

/// The numbers of the types that a typed list gives to its words.
pub(crate) fn numbers_of_types(
    alloc: Global,
    names: &Names,
    list: &TypedWords,
) -> Result<List<u32>, OutOfMemory>
    requires { length names.now < 2 ^ 32 }
    ensures { IfOk result (λ numbers. numbers ≡ map (type_number names.now) list.now) }
{
    let mut numbers = List::new(alloc);
    for place in 0..list.len() {
        let number = next_number(names, list, numbers.as_slice(), place);
        numbers.push(number)?;
    }
    Ok(numbers)
}

/// The number of the type of a word, behind those of the words before it. The type that it shares with the word before it is
/// not looked up again.
fn next_number(names: &Names, list: &TypedWords, before: &[u32], place: usize) -> u32
    requires few { length names.now < 2 ^ 32 }
    requires place { place < length list.now }
    requires before { before.now ≡ map (type_number names.now) (take place list.now) }
    ensures { before.now ++ result ∷ [] ≡ map (type_number names.now) (take (place + 1) list.now) }
{
    let items = list.as_slice();
    let typed = &items[place];
    if list.repeats_type(place) {
        let last = place - 1;
        return before[last];
    }
    number_of_type(names, typed)
}

/// The types of a domain with their parents.
pub(crate) fn type_entries(
    alloc: Global,
    names: &Names,
    types: &TypedWords,
) -> Result<List<TypeEntry>, OutOfMemory>
    requires all { names.now ≡ type_names types.now }
    requires few { length names.now < 2 ^ 32 }
    ensures { IfOk result (λ entries. entries ≡ types_of types.now) }
{
    let parents = parent_numbers(alloc, names, types)?;
    let mut entries = List::new(alloc);
    for number in 0..names.len() {
        entries.push(TypeEntry {
            name: Text::of(alloc, names.name(number))?,
            parent: parents[number],
        })?;
    }
    Ok(entries)
}

/// For each type the number of its parent, which for `object` is that of `object` itself.
fn parent_numbers(alloc: Global, names: &Names, types: &TypedWords) -> Result<Vec<u32>, OutOfMemory>
    requires all { names.now ≡ type_names types.now }
    requires few { length names.now < 2 ^ 32 }
    ensures { IfOk result (λ parents. parents.items ≡
        map (λ (name : List ℕ). number_of names.now (parent_of types.now name)) names.now) }
{
    let given = numbers_of_types(alloc, names, types)?;
    let mut parents = given_parents(alloc, names, types.as_slice(), given.as_slice())?;
    parents[0] = 0;
    Ok(parents)
}

/// For each type the number of the parent that the first word with its name is given, where these are the numbers of the parents
/// that the words are given.
fn given_parents(
    alloc: Global,
    names: &Names,
    types: &[Typed],
    given: &[u32],
) -> Result<Vec<u32>, OutOfMemory>
    requires all { names.now ≡ type_names types.now }
    requires given { given.now ≡ map (type_number names.now) types.now }
    ensures { IfOk result (λ parents. parents.items ≡
        map (λ (name : List ℕ). number_of names.now (given_parent types.now name)) names.now) }
{
    let mut parents = vec![in alloc; 0u32; names.len()]?;
    for place in (0..types.len()).rev() {
        let typed = &types[place];
        parents[names.number(typed.word.text.as_slice())] = given[place];
    }
    Ok(parents)
}

/// The check of the types of parameters, where types have these names.
#[derive(Clone, Copy)]
pub(crate) struct TypeCheck<'a> {
    pub(crate) types: &'a Names,
}

impl Check<PredText> for TypeCheck<'_> {
    ghost use Rattle.pddl_task.specs.Faults.{IsUnknownParameter};

    ghost IsFault = { λ check. IsUnknownParameter check.types.now };

    fn first_fault(&self, predicate: &PredText) -> Result<Option<Fault>, OutOfMemory> {
        Ok(first_unknown_type(self.types, &predicate.params))
    }
}

/// The first fault of the words of a typed list whose types are none.
pub(crate) fn first_unknown_type(types: &Names, list: &TypedWords) -> Option<Fault>
    ensures { IsFirst (λ fault. Any (IsUnknownType types.now fault) list.now) result }
{
    let mut first = None;
    for place in 0..list.len() {
        first = earlier_unknown_type(types, list, place, first);
    }
    first
}

/// The first fault of the words up to a place, by that of the words before it. A type that is shared with the word before is not
/// looked up again.
fn earlier_unknown_type(
    types: &Names,
    list: &TypedWords,
    place: usize,
    before: Option<Fault>,
) -> Option<Fault>
    requires place { place < length list.now }
    requires before { IsFirst (λ fault. Any (IsUnknownType types.now fault) (take place list.now)) before }
    ensures { IsFirst (λ fault. Any (IsUnknownType types.now fault) (take (place + 1) list.now)) result }
{
    let items = list.as_slice();
    let typed = &items[place];
    if list.repeats_type(place) {
        return before;
    }
    earlier(before, unknown_type(types, typed))
}

/// The fault of a typed word whose type is none.
fn unknown_type(types: &Names, typed: &Typed) -> Option<Fault>
    ensures { IsFirst (λ fault. IsUnknownType types.now fault typed.now) result }
{
    match &typed.of {
        Some(of) => unknown_name(types, of.word()),
        None => None,
    }
}

/// The fault of a word that is the name of no type.
fn unknown_name(types: &Names, word: &Word) -> Option<Fault>
    ensures { IsFirst (λ fault. IsUnknownName types.now fault word.now) result }
{
    if types.holds(word.text.as_slice()) {
        return None;
    }
    Some(Fault::of(FaultKind::Unknown, word))
}
