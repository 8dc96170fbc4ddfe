ghost use Rattle.std.specs.Prelude.{◌≡◌, ◌<◌, true, length, IfOk};
ghost use Rattle.pddl_forms.specs.Inner.Reading.{Reads, is_word};
ghost use Rattle.pddl_forms.specs.Inner.TypedReading.{typed_list};
ghost use Rattle.pddl_forms.specs.Inner.GroupReading.{ReadsType, ReadsGroupType};

use crate::cursor::Cursor;
use crate::shared_word::SharedWord;
use crate::stop::{Stop, Why};
use crate::texts::Word;
use crate::typed_words::TypedWords;
use flag_rules::List;
use pddl_lexer::Kind;
use std::alloc::Global;

/// The type that stands after a dash.
fn type_name(alloc: Global, cursor: &mut Cursor<'_>) -> Result<Word, Stop>
    ensures goes_on { ReadsType cursor.old result cursor.new }
    ensures shorter { IfOk result (λ _. length cursor.new < length cursor.old) }
{
    if cursor.is_at(Kind::LeftParen) {
        cursor.pass();
        return Err(Stop::Refused(cursor.why_no_type()));
    }
    cursor.any_word(alloc, Kind::Name)
}

/// The type of the words that wait for one: `- NAME`.
fn group_type(alloc: Global, cursor: &mut Cursor<'_>, waiting: &List<Word>) -> Result<Word, Stop>
    ensures goes_on { ReadsGroupType waiting.now cursor.old result cursor.new }
    ensures shorter { IfOk result (λ _. length cursor.new < length cursor.old) }
{
    if waiting.is_empty() {
        return Err(Stop::Refused(Why::Shape));
    }
    cursor.mark(Kind::Dash)?;
    type_name(alloc, cursor)
}

/// Words of a kind, up to the right parenthesis, each with the type that the list gives it.
pub fn typed_list(alloc: Global, cursor: &mut Cursor<'_>, kind: Kind) -> Result<TypedWords, Stop>
    requires { is_word kind ≡ true }
    ensures { Reads (typed_list kind cursor.old) result cursor.new }
{
    let mut done = TypedWords::new(alloc);
    let mut waiting = List::new(alloc);
    while !cursor.is_at(Kind::RightParen) {
        if cursor.is_at(kind) {
            waiting.push(cursor.any_word(alloc, kind)?)?;
        } else {
            let of = group_type(alloc, cursor, &waiting)?;
            done = done.with_group(waiting, &Some(SharedWord::new(alloc, of)?))?;
            waiting = List::new(alloc);
        }
    }
    cursor.pass();
    Ok(done.with_group(waiting, &None)?)
}
