ghost use Rattle.std.specs.Prelude.{◌≡◌, ◌<◌, ◌≤◌, ◌^◌, length, map, All, IfOk, IfErr};
ghost use Rattle.bfgp_outside.specs.Causes.{RoseIf};
ghost use Rattle.bfgp_outside.specs.Shelf.{Knowing, GoesOn};
ghost use Rattle.pddl_parser.specs.Replies.{IsProblemReply, IsProblemText};
ghost use Rattle.ground_state.specs.Instance.{IsInstance};
ghost use Rattle.ground_state.specs.Action.{IsTableOf};
ghost use Rattle.flag_rules.specs.declared.file.TheConstants.{MAX_FILE_BYTES};
ghost use Rattle.pddl_task.specs.Replies.{IsInstanceReply};
ghost use Rattle.input_reading.specs.Grounding.{IsGroundReply};
ghost use Rattle.input_reading.specs.Faults.{parsing_fault, task_fault, ground_fault};
ghost use Rattle.input_reading.specs.Steps.{or_tell, Gives};
ghost use Rattle.input_reading.specs.Asked.{AsksInTurn};
ghost use Rattle.input_reading.specs.Inputs.{table_due, tables_due, tables_of_texts_due};
ghost use Rattle.input_reading.specs.Causes.{HaltCause, is_read_fault};
ghost use Rattle.input_reading.specs.Inner.Causes.{TellsOther};
ghost use Rattle.input_reading.specs.Inner.Domains.{IsReadDomain};

use crate::domain_reading::Domain;
use crate::fault::Fault;
use crate::file_reading::read_input;
use crate::halt::Halt;
use crate::telling::refuse;
use bfgp_outside::Shelf;
use flag_rules::{List, MAX_FILE_BYTES, Text};
use ground_state::{AtomTable, Instance};
use pddl_parser::ProblemText;
use pddl_task::instance;
use std::alloc::Global;

/// Reads the instance files over a domain, in order, and gives the tables of their ground atoms.
pub(crate) fn tables_of<S: Shelf>(
    alloc: Global,
    shelf: &mut S,
    domain: &Domain,
    names: &[Text],
) -> Result<List<AtomTable>, Halt>
    requires { IsReadDomain domain.now }
    ensures due { Knowing (S.files shelf.old) (λ files.
        Gives (tables_due files domain.now names.now) result) }
    ensures fit { IfOk result (λ tables. All (IsTableOf domain.now.task) tables) }
    ensures count { IfOk result (λ tables. length tables ≡ length names.now) }
    ensures cause { IfErr result (HaltCause (S.absences shelf.old) (S.absences shelf.new)) }
    ensures reads { RoseIf (is_read_fault result) (S.faults shelf.old) (S.faults shelf.new) }
    ensures goes_on { GoesOn S.files S.faults S.absences shelf.old shelf.new }
    ensures asks { AsksInTurn (S.asked shelf.old) (S.asked shelf.new) names.now }
{
    let mut tables = List::new(alloc);
    for name in names {
        let bytes = read_input(alloc, shelf, name.as_slice(), MAX_FILE_BYTES as u64)?;
        tables.push(table_of(alloc, name.as_slice(), domain, bytes.as_slice())?)?;
    }
    Ok(tables)
}

/// Reads the texts of instances over a domain, in order, and gives the tables of their ground atoms. Where one is refused, the
/// line tells a fault of a file with this name.
pub(crate) fn tables_of_texts(
    alloc: Global,
    name: &[u8],
    domain: &Domain,
    texts: &[Text],
) -> Result<List<AtomTable>, Halt>
    requires short { All (λ text. length text ≤ MAX_FILE_BYTES) texts.now }
    requires domain { IsReadDomain domain.now }
    ensures due { Gives (tables_of_texts_due name.now domain.now texts.now) result }
    ensures fit { IfOk result (λ tables. All (IsTableOf domain.now.task) tables) }
    ensures count { IfOk result (λ tables. length tables ≡ length texts.now) }
    ensures cause { IfErr result TellsOther }
{
    let mut tables = List::new(alloc);
    for text in texts {
        tables.push(table_of(alloc, name, domain, text.as_slice())?)?;
    }
    Ok(tables)
}

/// Reads the bytes of an instance file over a domain, and gives the table of its ground atoms.
fn table_of(alloc: Global, name: &[u8], domain: &Domain, bytes: &[u8]) -> Result<AtomTable, Halt>
    requires short { length bytes.now ≤ MAX_FILE_BYTES }
    requires domain { IsReadDomain domain.now }
    ensures due { Gives (table_due name.now domain.now bytes.now) result }
    ensures fits { IfOk result (IsTableOf domain.now.task) }
    ensures cause { IfErr result TellsOther }
{
    let text = problem_text(alloc, name, bytes)?;
    let instance = instance_of(alloc, name, domain, &text)?;
    ground_atoms_of(alloc, name, domain, &instance)
}

fn problem_text(alloc: Global, name: &[u8], bytes: &[u8]) -> Result<ProblemText, Halt>
    requires { length bytes.now ≤ MAX_FILE_BYTES }
    ensures due { Gives (or_tell name.now parsing_fault (IsProblemReply bytes.now)) result }
    ensures read { IfOk result IsProblemText }
    ensures cause { IfErr result TellsOther }
{
    match pddl_parser::problem(alloc, bytes) {
        Ok(text) => Ok(text),
        Err(refusal) => Err(refuse(alloc, name, Fault::of_text(refusal))),
    }
}

fn instance_of(
    alloc: Global,
    name: &[u8],
    domain: &Domain,
    text: &ProblemText,
) -> Result<Instance, Halt>
    requires domain { IsReadDomain domain.now }
    requires text { IsProblemText text.now }
    ensures due { Gives (or_tell name.now task_fault (IsInstanceReply domain.now.text text.now)) result }
    ensures fits { IfOk result (IsInstance domain.now.task) }
    ensures cause { IfErr result TellsOther }
{
    match instance(alloc, &domain.task, &domain.text, text) {
        Ok(instance) => Ok(instance),
        Err(refusal) => Err(refuse(alloc, name, Fault::of_task(refusal))),
    }
}

fn ground_atoms_of(
    alloc: Global,
    name: &[u8],
    domain: &Domain,
    instance: &Instance,
) -> Result<AtomTable, Halt>
    requires { IsInstance domain.now.task instance.now }
    ensures due { Gives (or_tell name.now ground_fault (IsGroundReply domain.now.task instance.now)) result }
    ensures fits { IfOk result (IsTableOf domain.now.task) }
    ensures cause { IfErr result TellsOther }
{
    match AtomTable::of(alloc, &domain.task, instance) {
        Ok(table) => Ok(table),
        Err(refusal) => Err(refuse(alloc, name, Fault::of_grounding(refusal))),
    }
}
