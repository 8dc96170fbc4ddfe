ghost use Rattle.std.specs.Prelude.{◌≡◌, not, ◌&&◌, if◌then◌else◌};
ghost use Rattle.pddl_lexer.specs.declared.lexer.Kind.TheVariants.{Keyword};
ghost use Rattle.pddl_forms.specs.Lexemes.{lower};
ghost use Rattle.pddl_parser.specs.Grammar.{or_empty};
ghost use Rattle.pddl_forms.specs.Inner.Reading.{comes, comes_as};
ghost use Rattle.pddl_parser.specs.Inner.SectionReading.{is_none};
ghost use Rattle.pddl_forms.specs.declared.stop.Why.TheVariants.{Shape, Unsupported};

use flag_rules::List;
use pddl_forms::{Cursor, TypedWords, Why};
use pddl_lexer::Kind;
use std::alloc::Global;

/// Whether this keyword comes first, and what it brings does not stand yet.
pub(crate) fn is_due<T>(cursor: &Cursor<'_>, key: &[u8], seen: &Option<T>) -> bool
    requires { lower key.now ≡ key.now }
    ensures { result ≡ (comes_as Keyword key.now cursor.now && is_none seen.now) }
{
    cursor.is_at_word(Kind::Keyword, key) && seen.is_none()
}

/// Why what comes first may not stand here: by whether it is a keyword of this place, and by whether
/// one of these may still come.
pub(crate) fn why_no_key(cursor: &Cursor<'_>, is_key: bool, may: bool) -> Why
    ensures { result ≡ (if comes Keyword cursor.now && (not is_key && may) then Unsupported else Shape) }
{
    if cursor.is_at(Kind::Keyword) && !is_key && may {
        return Why::Unsupported;
    }
    Why::Shape
}

/// The items, or none where they are absent.
pub(crate) fn or_empty<T: Drop>(alloc: Global, items: Option<List<T>>) -> List<T>
    ensures { result ≡ or_empty items }
{
    items.unwrap_or_else(|| List::new(alloc))
}

/// The words of a typed list, or none where it is absent.
pub(crate) fn or_no_words(alloc: Global, words: Option<TypedWords>) -> TypedWords
    ensures { result ≡ or_empty words }
{
    words.unwrap_or_else(|| TypedWords::new(alloc))
}
