ghost use Rattle.std.specs.Prelude.{◌≡◌, ℕ, nat_lt, drop, [], ◌∷◌, ◌++◌, codes, length, OnOk};
ghost use Rattle.std.specs.List.{list_any};
ghost use Rattle.pddl_printer.specs.Printing.{spaced, texts_of, has_type, type_words, typed_words};

use flag_rules::{List, OutOfMemory, Text};
use pddl_parser::{Typed, TypedWords, Word};

/// Adds a word.
pub(crate) fn word(out: &mut Text, word: &[u8]) -> Result<(), OutOfMemory>
    ensures { OnOk result (out.new ≡ out.old ++ spaced (word.now ∷ [])) }
{
    out.push(b' ')?;
    out.append(word)
}

/// Adds a left parenthesis and the word after it.
pub(crate) fn open(out: &mut Text, first: &[u8]) -> Result<(), OutOfMemory>
    ensures { OnOk result (out.new ≡ out.old ++ spaced (codes "(" ∷ first.now ∷ [])) }
{
    word(out, b"(")?;
    word(out, first)
}

/// Adds a right parenthesis.
pub(crate) fn close(out: &mut Text) -> Result<(), OutOfMemory>
    ensures { OnOk result (out.new ≡ out.old ++ spaced (codes ")" ∷ [])) }
{
    word(out, b")")
}

/// Adds some words.
pub(crate) fn words(out: &mut Text, words: &List<Word>) -> Result<(), OutOfMemory>
    ensures { OnOk result (out.new ≡ out.old ++ spaced (texts_of words.now)) }
{
    for each in words.as_slice() {
        word(out, each.text.as_slice())?;
    }
    Ok(())
}

/// How many words there are up to the last one that has a type.
fn typed_count(names: &[Typed]) -> usize
    ensures { (i : ℕ) → list_any has_type (drop i names.now) ≡ nat_lt i result }
{
    let mut count = 0;
    for (index, name) in names.iter().enumerate() {
        if name.of.is_some() {
            count = index + 1;
        }
    }
    count
}

/// Adds a dash and a type.
fn type_word(out: &mut Text, name: &[u8]) -> Result<(), OutOfMemory>
    ensures { OnOk result (out.new ≡ out.old ++ spaced (codes "-" ∷ name.now ∷ [])) }
{
    word(out, b"-")?;
    word(out, name)
}

/// Adds a word of a typed list, with its type where one is to be printed.
fn typed_word(out: &mut Text, name: &Typed, is_typed_later: bool) -> Result<(), OutOfMemory>
    ensures { OnOk result (out.new ≡ out.old ++ spaced (name.now.word.text ∷ type_words name.now.of is_typed_later)) }
{
    word(out, name.word.text.as_slice())?;
    match &name.of {
        Some(of) => type_word(out, of.word().text.as_slice()),
        None if is_typed_later => type_word(out, b"object"),
        None => Ok(()),
    }
}

/// Adds a typed list.
pub(crate) fn typed_list(out: &mut Text, names: &TypedWords) -> Result<(), OutOfMemory>
    ensures { OnOk result (out.new ≡ out.old ++ spaced (typed_words names.now)) }
{
    let names = names.as_slice();
    let count = typed_count(names);
    for (index, name) in names.iter().enumerate() {
        typed_word(out, name, index + 1 < count)?;
    }
    Ok(())
}
