ghost use Rattle.std.specs.Prelude.{◌≡◌, IfOk};
ghost use Rattle.pddl_forms.specs.Forms.{added, deleted};
ghost use Rattle.pddl_forms.specs.Inner.Reading.{Reads, term, many, atom_body, atom, change_body, closed_item, conjunction};
ghost use Rattle.pddl_forms.specs.declared.formulas.Terms.TheVariants.{NamesAndVariables};

use crate::cursor::Cursor;
use crate::item_lists::{ItemReader, conjunction, items};
use crate::stop::Stop;
use crate::texts::{AtomChange, AtomText, Word};
use flag_rules::{List, OutOfMemory};
use pddl_lexer::Kind;
use std::alloc::Global;

/// What may stand as an argument of an atom.
#[derive(Clone, Copy, Debug)]
pub enum Terms {
    Names,
    NamesAndVariables,
}

/// Reads one argument of an atom.
#[derive(Drop)]
struct Argument(Terms);

impl ItemReader for Argument {
    type Item = Word;

    ghost reading = { λ reader. term reader.0 };

    fn read(&self, alloc: Global, cursor: &mut Cursor<'_>) -> Result<Word, Stop> {
        match self.0 {
            Terms::NamesAndVariables if cursor.is_at(Kind::Variable) => {
                cursor.any_word(alloc, Kind::Variable)
            }
            _ => cursor.any_word(alloc, Kind::Name),
        }
    }
}

/// Arguments of an atom, up to the right parenthesis.
fn arguments(alloc: Global, cursor: &mut Cursor<'_>, terms: Terms) -> Result<List<Word>, Stop>
    ensures { Reads (many (term terms) cursor.old) result cursor.new }
{
    items(alloc, cursor, &Argument(terms))
}

/// `HEAD term* )`
#[tactic(auto, unfolding(crate::specs::Inner::Reading::and_then, crate::specs::Inner::Reading::atom_body))]
fn atom_body(alloc: Global, cursor: &mut Cursor<'_>, terms: Terms) -> Result<AtomText, Stop>
    ensures { Reads (atom_body terms cursor.old) result cursor.new }
{
    let head = cursor.head(alloc)?;
    let args = arguments(alloc, cursor, terms)?;
    Ok(AtomText { head, args })
}

/// `( HEAD term* )`
#[tactic(auto, unfolding(crate::specs::Inner::Reading::and_then))]
pub fn atom(alloc: Global, cursor: &mut Cursor<'_>, terms: Terms) -> Result<AtomText, Stop>
    ensures { Reads (atom terms cursor.old) result cursor.new }
{
    cursor.mark(Kind::LeftParen)?;
    atom_body(alloc, cursor, terms)
}

/// `atom )`
#[tactic(auto, unfolding(crate::specs::Inner::Reading::and_then))]
fn closed_atom(alloc: Global, cursor: &mut Cursor<'_>) -> Result<AtomText, Stop>
    ensures { Reads (closed_item (atom NamesAndVariables) cursor.old) result cursor.new }
{
    let atom = atom(alloc, cursor, Terms::NamesAndVariables)?;
    cursor.mark(Kind::RightParen)?;
    Ok(atom)
}

/// Reads an atom after its left parenthesis.
#[derive(Drop)]
struct AtomBody(Terms);

impl ItemReader for AtomBody {
    type Item = AtomText;

    ghost reading = { λ reader. atom_body reader.0 };

    fn read(&self, alloc: Global, cursor: &mut Cursor<'_>) -> Result<AtomText, Stop> {
        atom_body(alloc, cursor, self.0)
    }
}

/// Reads a change after its left parenthesis: `not atom )` or `HEAD term* )`.
#[derive(Drop)]
struct ChangeBody;

impl ItemReader for ChangeBody {
    type Item = AtomChange;

    ghost reading = { λ _. change_body };

    #[tactic(auto, unfolding(crate::specs::Inner::Reading::and_then, crate::specs::Inner::Reading::change_body))]
    fn read(&self, alloc: Global, cursor: &mut Cursor<'_>) -> Result<AtomChange, Stop> {
        if cursor.is_at_word(Kind::Name, b"not") {
            cursor.pass();
            return Ok(AtomChange::Deleted(closed_atom(alloc, cursor)?));
        }
        Ok(AtomChange::Added(atom_body(alloc, cursor, Terms::NamesAndVariables)?))
    }
}

/// `( )` or `( and formula* )` or `atom`
pub fn formula(alloc: Global, cursor: &mut Cursor<'_>, terms: Terms) -> Result<List<AtomText>, Stop>
    ensures { Reads (conjunction (atom_body terms) cursor.old) result cursor.new }
{
    conjunction(alloc, cursor, &AtomBody(terms))
}

/// `( )` or `( and effect* )` or `atom` or `( not atom )`
pub fn effect(alloc: Global, cursor: &mut Cursor<'_>) -> Result<List<AtomChange>, Stop>
    ensures { Reads (conjunction change_body cursor.old) result cursor.new }
{
    conjunction(alloc, cursor, &ChangeBody)
}

/// The atoms that changes add, and those that they delete, each in order.
pub fn split_changes(
    alloc: Global,
    changes: List<AtomChange>,
) -> Result<(List<AtomText>, List<AtomText>), OutOfMemory>
    ensures { IfOk result (λ lists. (lists.0 ≡ added changes) × (lists.1 ≡ deleted changes)) }
{
    let mut add = List::new(alloc);
    let mut del = List::new(alloc);
    for change in changes.into_vec() {
        match change {
            AtomChange::Added(atom) => add.push(atom)?,
            AtomChange::Deleted(atom) => del.push(atom)?,
        }
    }
    Ok((add, del))
}
