ghost use Rattle.pddl_forms.specs.Inner.Reading.{Reads, many, atom};
ghost use Rattle.pddl_parser.specs.Inner.SectionReading.{predicate};
ghost use Rattle.pddl_forms.specs.declared.formulas.Terms.TheVariants.{Names};

use crate::texts::PredText;
use flag_rules::List;
use pddl_forms::{AtomText, Cursor, ItemReader, Stop, Terms, atom, items, typed_list};
use pddl_lexer::Kind;
use std::alloc::Global;

/// Reads one predicate: `( HEAD vars )`.
#[derive(Drop)]
struct Predicate;

impl ItemReader for Predicate {
    type Item = PredText;

    ghost reading = { λ _. predicate };

    #[tactic(auto, unfolding(pddl_forms::specs::Inner::Reading::and_then, crate::specs::Inner::SectionReading::predicate))]
    fn read(&self, alloc: Global, cursor: &mut Cursor<'_>) -> Result<PredText, Stop> {
        cursor.mark(Kind::LeftParen)?;
        let head = cursor.head(alloc)?;
        let params = typed_list(alloc, cursor, Kind::Variable)?;
        Ok(PredText { head, params })
    }
}

/// Reads one atom of names.
#[derive(Drop)]
struct GroundAtom;

impl ItemReader for GroundAtom {
    type Item = AtomText;

    ghost reading = { λ _. atom Names };

    fn read(&self, alloc: Global, cursor: &mut Cursor<'_>) -> Result<AtomText, Stop> {
        atom(alloc, cursor, Terms::Names)
    }
}

/// Predicates, up to the right parenthesis.
pub(crate) fn predicates(alloc: Global, cursor: &mut Cursor<'_>) -> Result<List<PredText>, Stop>
    ensures { Reads (many predicate cursor.old) result cursor.new }
{
    items(alloc, cursor, &Predicate)
}

/// Atoms of names, up to the right parenthesis.
pub(crate) fn ground_atoms(alloc: Global, cursor: &mut Cursor<'_>) -> Result<List<AtomText>, Stop>
    ensures { Reads (many (atom Names) cursor.old) result cursor.new }
{
    items(alloc, cursor, &GroundAtom)
}
