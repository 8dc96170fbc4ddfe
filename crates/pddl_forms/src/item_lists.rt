ghost use Rattle.std.specs.Prelude.{◌≡◌, ◌<◌, length};
ghost use Rattle.pddl_forms.specs.Inner.Reading.{Reads, many, conjuncts, conjunction};
ghost use Rattle.pddl_forms.specs.Inner.Leaving.{Shrinks, Stays};

use crate::cursor::{Cursor, Start};
use crate::stop::Stop;
use flag_rules::List;
use pddl_lexer::Kind;
use std::alloc::Global;

/// Reads the items of a list or of a conjunction.
pub trait ItemReader {
    ghost use Rattle.std.specs.Prelude.{List as Sequence};
    ghost use Rattle.pddl_forms.specs.Lexemes.{Lexeme};
    ghost use Rattle.pddl_forms.specs.Inner.Reading.{Read};

    /// What is read.
    type Item: Drop;

    ghost reading: { Self → Sequence Lexeme → Read Self.Item };

    /// Reads one item.
    fn read(&self, alloc: Global, cursor: &mut Cursor<'_>) -> Result<Self::Item, Stop>
        ensures { Reads (reading self.now cursor.old) result cursor.new };
}

/// Items, up to the right parenthesis.
pub fn items<R: ItemReader>(
    alloc: Global,
    cursor: &mut Cursor<'_>,
    reader: &R,
) -> Result<List<R::Item>, Stop>
    requires { Shrinks (R.reading reader.now) }
    ensures { Reads (many (R.reading reader.now) cursor.old) result cursor.new }
{
    let mut items = List::new(alloc);
    while !cursor.is_at(Kind::RightParen) {
        items.push(reader.read(alloc, cursor)?)?;
    }
    cursor.pass();
    Ok(items)
}

/// The items of an open conjunction and of those within it, up to its right parenthesis.
fn open_items<R: ItemReader>(
    alloc: Global,
    cursor: &mut Cursor<'_>,
    reader: &R,
) -> Result<List<R::Item>, Stop>
    requires few { length cursor.old < usize.MAX }
    requires stays { Stays (R.reading reader.now) }
    ensures { Reads (conjuncts (R.reading reader.now) 1 cursor.old) result cursor.new }
{
    let mut items = List::new(alloc);
    let mut open: usize = 1;
    while open > 0 {
        if cursor.is_at(Kind::RightParen) {
            cursor.pass();
            open -= 1;
        } else {
            match cursor.start()? {
                Start::Nothing => {}
                Start::And => open += 1,
                Start::Other => items.push(reader.read(alloc, cursor)?)?,
            }
        }
    }
    Ok(items)
}

/// `( )` or `( and conjunction* )` or an item, of which the reader reads what stands after its left
/// parenthesis.
#[tactic(auto, unfolding(crate::specs::Inner::Reading::and_then, crate::specs::Inner::Reading::conjunction, crate::specs::Inner::Reading::conjuncts))]
pub fn conjunction<R: ItemReader>(
    alloc: Global,
    cursor: &mut Cursor<'_>,
    reader: &R,
) -> Result<List<R::Item>, Stop>
    requires { Stays (R.reading reader.now) }
    ensures { Reads (conjunction (R.reading reader.now) cursor.old) result cursor.new }
{
    match cursor.start()? {
        Start::Nothing => Ok(List::new(alloc)),
        Start::And => open_items(alloc, cursor, reader),
        Start::Other => {
            let mut items = List::new(alloc);
            items.push(reader.read(alloc, cursor)?)?;
            Ok(items)
        }
    }
}
