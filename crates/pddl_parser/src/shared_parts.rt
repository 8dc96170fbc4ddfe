ghost use Rattle.std.specs.Prelude.{◌≡◌};
ghost use Rattle.pddl_forms.specs.Lexemes.{lower};
ghost use Rattle.pddl_forms.specs.Inner.Reading.{Reads, many};
ghost use Rattle.pddl_parser.specs.Inner.SectionReading.{opening};
ghost use Rattle.pddl_parser.specs.Inner.Choosing.{requirement};

use flag_rules::List;
use pddl_forms::{Cursor, ItemReader, Stop, Why, Word, items};
use pddl_lexer::Kind;
use std::alloc::Global;

/// `( define ( KIND NAME )`
#[tactic(auto, unfolding(pddl_forms::specs::Inner::Reading::and_then, crate::specs::Inner::SectionReading::opening))]
pub(crate) fn opening(alloc: Global, cursor: &mut Cursor<'_>, kind: &[u8]) -> Result<Word, Stop>
    requires { lower kind.now ≡ kind.now }
    ensures { Reads (opening kind.now cursor.old) result cursor.new }
{
    cursor.mark(Kind::LeftParen)?;
    cursor.literal(Kind::Name, b"define")?;
    cursor.mark(Kind::LeftParen)?;
    cursor.literal(Kind::Name, kind)?;
    let name = cursor.any_word(alloc, Kind::Name)?;
    cursor.mark(Kind::RightParen)?;
    Ok(name)
}

/// Reads one word of `:requirements`: `:strips` or `:typing`.
#[derive(Drop)]
struct Requirement;

impl ItemReader for Requirement {
    type Item = Word;

    ghost reading = { λ _. requirement };

    fn read(&self, alloc: Global, cursor: &mut Cursor<'_>) -> Result<Word, Stop> {
        if cursor.is_at_word(Kind::Keyword, b":strips")
            || cursor.is_at_word(Kind::Keyword, b":typing")
        {
            return cursor.any_word(alloc, Kind::Keyword);
        }
        if cursor.is_at(Kind::Keyword) {
            return Err(Stop::Refused(Why::Unsupported));
        }
        Err(Stop::Refused(Why::Shape))
    }
}

/// Words of `:requirements`, up to the right parenthesis.
pub(crate) fn requirements(alloc: Global, cursor: &mut Cursor<'_>) -> Result<List<Word>, Stop>
    ensures { Reads (many requirement cursor.old) result cursor.new }
{
    items(alloc, cursor, &Requirement)
}
