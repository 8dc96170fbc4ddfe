ghost use Rattle.std.specs.Prelude.{◌<◌, IfOk, IfSome, IfNone, length, map, string_bytes};
ghost use Rattle.command_words.specs.Inner.Scanning.{use_of, BeginsWith, BeginsWithNoUse, AreCutInto};

use flag_rules::{List, OutOfMemory};
use std::alloc::Global;

/// An option as words use it: its name, without the dashes before it, and its value.
#[derive(Clone, Copy, Drop)]
pub(crate) struct OptionUse<'a> {
    pub name: &'a str,
    pub value: &'a str,
}

/// The uses of options that words begin with, and the names after them.
#[derive(Drop)]
pub(crate) struct CutWords<'a> {
    pub uses: List<OptionUse<'a>>,
    pub names: &'a [String],
}

/// Cuts words into the uses of options that they begin with, whether or not there are such options, and the names after them.
pub(crate) fn cut_words(alloc: Global, words: &[String]) -> Result<CutWords<'_>, OutOfMemory>
    ensures { IfOk result (λ cut. AreCutInto (map use_of cut.uses) (map string_bytes cut.names.now) (map string_bytes words.now)) }
{
    let mut uses = List::new(alloc);
    let mut names = words;
    while let Some((first, others)) = first_use(names) {
        uses.push(first)?;
        names = others;
    }
    Ok(CutWords { uses, names })
}

// The use of an option that words begin with, and the words after it.
fn first_use(words: &[String]) -> Option<(OptionUse<'_>, &[String])>
    ensures some { IfSome result (λ found. BeginsWith (use_of found.0) (map string_bytes found.1.now) (map string_bytes words.now)) }
    ensures fewer { IfSome result (λ found. length found.1.now < length words.now) }
    ensures none { IfNone result (BeginsWithNoUse (map string_bytes words.now)) }
{
    let [word, others @ ..] = words else {
        return None;
    };
    let option = word.as_str().strip_prefix("--")?;
    if let Some((name, value)) = option.split_once('=') {
        return Some((OptionUse { name, value }, others));
    }
    let [value, others @ ..] = others else {
        return None;
    };
    Some((
        OptionUse {
            name: option,
            value: value.as_str(),
        },
        others,
    ))
}
