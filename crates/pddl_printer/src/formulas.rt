ghost use Rattle.std.specs.Prelude.{◌≡◌, ◌++◌, OnOk};
ghost use Rattle.std.specs.List.{flat_map};
ghost use Rattle.pddl_printer.specs.Printing.{spaced, predicate_words, atom_words, deleted_words, formula_words, effect_words};

use crate::words::{close, open, typed_list, words};
use flag_rules::{List, OutOfMemory, Text};
use pddl_parser::{AtomText, PredText};

/// Adds a predicate.
#[tactic(auto, using(crate::proofs::Spaced::spacing), unfolding(crate::specs::Printing::predicate_words))]
pub(crate) fn predicate(out: &mut Text, predicate: &PredText) -> Result<(), OutOfMemory>
    ensures { OnOk result (out.new ≡ out.old ++ spaced (predicate_words predicate.now)) }
{
    open(out, predicate.head.text.as_slice())?;
    typed_list(out, &predicate.params)?;
    close(out)
}

/// Adds an atom.
#[tactic(auto, using(crate::proofs::Spaced::spacing), unfolding(crate::specs::Printing::atom_words))]
fn atom(out: &mut Text, atom: &AtomText) -> Result<(), OutOfMemory>
    ensures { OnOk result (out.new ≡ out.old ++ spaced (atom_words atom.now)) }
{
    open(out, atom.head.text.as_slice())?;
    words(out, &atom.args)?;
    close(out)
}

/// Adds an atom that is deleted.
#[tactic(auto, using(crate::proofs::Spaced::spacing), unfolding(crate::specs::Printing::deleted_words))]
fn deleted_atom(out: &mut Text, deleted: &AtomText) -> Result<(), OutOfMemory>
    ensures { OnOk result (out.new ≡ out.old ++ spaced (deleted_words deleted.now)) }
{
    open(out, b"not")?;
    atom(out, deleted)?;
    close(out)
}

/// Adds some atoms.
pub(crate) fn atoms(out: &mut Text, atoms: &List<AtomText>) -> Result<(), OutOfMemory>
    ensures { OnOk result (out.new ≡ out.old ++ spaced (flat_map atom_words atoms.now)) }
{
    for each in atoms.as_slice() {
        atom(out, each)?;
    }
    Ok(())
}

/// Adds some atoms that are deleted.
fn deleted_atoms(out: &mut Text, atoms: &List<AtomText>) -> Result<(), OutOfMemory>
    ensures { OnOk result (out.new ≡ out.old ++ spaced (flat_map deleted_words atoms.now)) }
{
    for each in atoms.as_slice() {
        deleted_atom(out, each)?;
    }
    Ok(())
}

/// Adds a conjunction of atoms.
#[tactic(auto, using(crate::proofs::Spaced::spacing), unfolding(crate::specs::Printing::formula_words))]
pub(crate) fn formula(out: &mut Text, conjuncts: &List<AtomText>) -> Result<(), OutOfMemory>
    ensures { OnOk result (out.new ≡ out.old ++ spaced (formula_words conjuncts.now)) }
{
    open(out, b"and")?;
    atoms(out, conjuncts)?;
    close(out)
}

/// Adds an effect.
#[tactic(auto, using(crate::proofs::Spaced::spacing), unfolding(crate::specs::Printing::effect_words))]
pub(crate) fn effect(
    out: &mut Text,
    added: &List<AtomText>,
    deleted: &List<AtomText>,
) -> Result<(), OutOfMemory>
    ensures { OnOk result (out.new ≡ out.old ++ spaced (effect_words added.now deleted.now)) }
{
    open(out, b"and")?;
    atoms(out, added)?;
    deleted_atoms(out, deleted)?;
    close(out)
}
