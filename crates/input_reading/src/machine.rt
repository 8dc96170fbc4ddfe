ghost use Rattle.std.specs.Prelude.{◌≡◌, ◌<◌, ◌≤◌, length, All, Ok, Err, IfOk, IfErr};
ghost use Rattle.bfgp_outside.specs.Causes.{RoseIf};
ghost use Rattle.bfgp_outside.specs.Shelf.{Knowing, GoesOn};
ghost use Rattle.ground_state.specs.Action.{IsTableOf};
ghost use Rattle.flag_rules.specs.declared.file.TheConstants.{MAX_FILE_BYTES};
ghost use Rattle.program_model.specs.declared.alphabet.TheConstants.{MAX_OPS};
ghost use Rattle.program_model.specs.declared.machine.TheConstants.{MAX_INSTANCES, MAX_POINTERS};
ghost use Rattle.pointer_machine.specs.Operations.{operation_count};
ghost use Rattle.pointer_machine.specs.Texts.{operation_texts};
ghost use Rattle.program_text.specs.Names.{AreNames};
ghost use Rattle.input_reading.specs.Faults.{machine_fault};
ghost use Rattle.input_reading.specs.Grounding.{IsCountReply};
ghost use Rattle.command_words.specs.Words.{AreInputs, names_of};
ghost use Rattle.input_reading.specs.Steps.{or_tell, Gives};
ghost use Rattle.input_reading.specs.Asked.{AsksInTurn};
ghost use Rattle.input_reading.specs.Inputs.{machine_due, machine_of_texts_due};
ghost use Rattle.input_reading.specs.Causes.{HaltCause, is_read_fault};
ghost use Rattle.input_reading.specs.Inner.Causes.{TellsOther};

use crate::domain_reading::domain_of;
use crate::fault::Fault;
use crate::file_reading::read_input;
use crate::halt::Halt;
use crate::instance_reading::{tables_of, tables_of_texts};
use crate::telling::refuse;
use bfgp_outside::Shelf;
use command_words::Inputs;
use flag_rules::{List, MAX_FILE_BYTES, Text};
use ground_state::{AtomTable, Task};
use pointer_machine::PointerMachine;
use std::alloc::Global;

/// Reads the inputs of a job, and gives the machine over them and so many pointers.
pub fn machine_for<S: Shelf>(
    alloc: Global,
    shelf: &mut S,
    inputs: &Inputs,
    pointers: u8,
) -> Result<PointerMachine, Halt>
    requires inputs { AreInputs inputs.now }
    requires some_pointers { 0 < pointers }
    requires few_pointers { pointers ≤ MAX_POINTERS }
    ensures due { Knowing (S.files shelf.old) (λ files. Gives (machine_due files inputs.now pointers) result) }
    ensures names { IfOk result (λ machine. AreNames (operation_texts machine.task machine.pointers)) }
    ensures pointers { IfOk result (λ machine. machine.pointers ≡ pointers) }
    ensures instances { IfOk result (λ machine.
        (0 < length machine.tables) × (length machine.tables ≤ MAX_INSTANCES)) }
    ensures cause { IfErr result (HaltCause (S.absences shelf.old) (S.absences shelf.new)) }
    ensures reads { RoseIf (is_read_fault result) (S.faults shelf.old) (S.faults shelf.new) }
    ensures goes_on { GoesOn S.files S.faults S.absences shelf.old shelf.new }
    ensures asks { AsksInTurn (S.asked shelf.old) (S.asked shelf.new) (names_of inputs.now) }
{
    let domain_name = inputs.domain.as_slice();
    let bytes = read_input(alloc, shelf, domain_name, MAX_FILE_BYTES as u64)?;
    let domain = domain_of(alloc, domain_name, bytes.as_slice())?;
    let tables = tables_of(alloc, shelf, &domain, inputs.instances.as_slice())?;
    machine_over(alloc, domain_name, domain.task, tables, pointers)
}

/// Gives the machine over so many pointers and the texts of a domain and of instances, which are held in memory. Where they are
/// refused, the line tells a fault of a file with this name. It never answers a failed read.
pub fn machine_of_texts(
    alloc: Global,
    name: &[u8],
    domain: &[u8],
    problems: &[Text],
    pointers: u8,
) -> Result<PointerMachine, Halt>
    requires short_domain { length domain.now ≤ MAX_FILE_BYTES }
    requires short_problems { All (λ text. length text ≤ MAX_FILE_BYTES) problems.now }
    requires some_problems { 0 < length problems.now }
    requires few_problems { length problems.now ≤ MAX_INSTANCES }
    requires some_pointers { 0 < pointers }
    requires few_pointers { pointers ≤ MAX_POINTERS }
    ensures due { Gives (machine_of_texts_due name.now domain.now problems.now pointers) result }
    ensures names { IfOk result (λ machine. AreNames (operation_texts machine.task machine.pointers)) }
    ensures pointers { IfOk result (λ machine. machine.pointers ≡ pointers) }
    ensures instances { IfOk result (λ machine.
        (0 < length machine.tables) × (length machine.tables ≤ MAX_INSTANCES)) }
    ensures cause { IfErr result TellsOther }
{
    let domain = domain_of(alloc, name, domain)?;
    let tables = tables_of_texts(alloc, name, &domain, problems)?;
    machine_over(alloc, name, domain.task, tables, pointers)
}

// The machine over the instances of a task, unless it has too many operations.
fn machine_over(
    alloc: Global,
    domain_name: &[u8],
    task: Task,
    tables: List<AtomTable>,
    pointers: u8,
) -> Result<PointerMachine, Halt>
    requires tables { All (IsTableOf task) tables }
    requires some_tables { 0 < length tables }
    requires few_tables { length tables ≤ MAX_INSTANCES }
    requires some_pointers { 0 < pointers }
    requires few_pointers { pointers ≤ MAX_POINTERS }
    ensures few { IfOk result (λ _. operation_count task pointers ≤ MAX_OPS) }
    ensures told { IfErr result (λ halt.
        Gives (or_tell domain_name.now machine_fault (IsCountReply task pointers)) (Err halt)) }
    ensures machine { IfOk result (λ machine. machine ≡ record { task = task; tables = tables; pointers = pointers }) }
    ensures cause { IfErr result TellsOther }
{
    match PointerMachine::new(alloc, task, tables.into_vec(), pointers) {
        Ok(machine) => Ok(machine),
        Err(refusal) => Err(refuse(alloc, domain_name, Fault::of_machine(refusal))),
    }
}
