ghost use Rattle.std.specs.Prelude.{◌≡◌, ◌++◌};
ghost use Rattle.pddl_task.specs.Inner.Arities.{arity_in};
ghost use Rattle.pddl_task.specs.Names.{is_among};
ghost use Rattle.pddl_task.specs.Faults.{IsFirst, IsHeadFault, IsUnknownName};

use crate::arities::Arities;
use crate::check::{Check, first_of};
use crate::fault::{Fault, FaultKind, earlier};
use crate::names::Names;
use flag_rules::OutOfMemory;
use pddl_parser::{AtomText, Word};

/// The check of atoms, whose names may be of two kinds.
#[derive(Clone, Copy)]
pub(crate) struct AtomCheck<'a> {
    pub(crate) arities: &'a Arities,
    pub(crate) one: &'a Names,
    pub(crate) other: &'a Names,
}

impl Check<AtomText> for AtomCheck<'_> {
    ghost use Rattle.pddl_task.specs.Faults.{IsAtomFault};

    ghost IsFault = { λ check. IsAtomFault (arity_in check.arities.now) (check.one.now ++ check.other.now) };

    fn first_fault(&self, atom: &AtomText) -> Result<Option<Fault>, OutOfMemory> {
        let of_head = head_fault(self.arities, atom);
        let of_names = first_of(self, atom.args.as_slice())?;
        Ok(earlier(of_head, of_names))
    }
}

impl Check<Word> for AtomCheck<'_> {
    ghost IsFault = { λ check. IsUnknownName (check.one.now ++ check.other.now) };

    fn first_fault(&self, word: &Word) -> Result<Option<Fault>, OutOfMemory> {
        Ok(unknown_name(self.one, self.other, word))
    }
}

/// The fault of the head of an atom.
fn head_fault(arities: &Arities, atom: &AtomText) -> Option<Fault>
    ensures { IsFirst (λ fault. IsHeadFault (arity_in arities.now atom.now.head.text) fault atom.now) result }
{
    match arities.count(atom.head.text.as_slice()) {
        None => Some(Fault::of(FaultKind::Unknown, &atom.head)),
        Some(count) if count != atom.args.len() => Some(Fault::of(FaultKind::Arity, &atom.head)),
        Some(_) => None,
    }
}

/// The fault of a word that is a name of neither kind.
fn unknown_name(one: &Names, other: &Names, word: &Word) -> Option<Fault>
    ensures { IsFirst (λ fault. IsUnknownName (one.now ++ other.now) fault word.now) result }
{
    if is_known(one, other, word.text.as_slice()) {
        return None;
    }
    Some(Fault::of(FaultKind::Unknown, word))
}

/// Whether a name is of one of two kinds.
fn is_known(one: &Names, other: &Names, name: &[u8]) -> bool
    ensures { result ≡ is_among name.now (one.now ++ other.now) }
{
    one.holds(name) || other.holds(name)
}
