ghost use Rattle.std.specs.Prelude.{◌≡◌, ◌≤◌, [], ◌∷◌, ◌++◌, length, Ok, IfOk, IfErr};
ghost use Rattle.bfgp_outside.specs.Causes.{RoseIf};
ghost use Rattle.bfgp_outside.specs.Shelf.{Knowing, GoesOn};
ghost use Rattle.program_model.specs.declared.standing.TheConstants.{MAX_RUN};
ghost use Rattle.program_model.specs.Program.{IsProgram};
ghost use Rattle.program_text.specs.Names.{AreNames};
ghost use Rattle.pointer_machine.specs.Machine.{meaning_of};
ghost use Rattle.pointer_machine.specs.Texts.{operation_texts};
ghost use Rattle.flag_rules.specs.declared.file.TheConstants.{MAX_FILE_BYTES};
ghost use Rattle.command_words.specs.Words.{IsRunJob, names_of};
ghost use Rattle.input_reading.specs.Asked.{AsksInTurn};
ghost use Rattle.input_reading.specs.Steps.{Gives};
ghost use Rattle.input_reading.specs.Inputs.{program_due};
ghost use Rattle.bfgp_jobs.specs.Due.{run_due, report_due, report_status};
ghost use Rattle.input_reading.specs.Causes.{HaltCause, is_read_fault};
ghost use Rattle.bfgp_jobs.specs.Answers.{IsAnswerStatus, IsSpent};

use crate::reply::Reply;
use crate::status::Status;
use bfgp_outside::Shelf;
use command_words::RunJob;
use flag_rules::{MAX_FILE_BYTES, OutOfMemory};
use input_reading::{Halt, machine_for, program_of, read_input};
use instance_report::report;
use pointer_machine::{Meter, PointerMachine};
use program_model::Partial;
use std::alloc::Global;

/// Runs the program of a job on its instances.
pub(crate) fn run<S: Shelf>(alloc: Global, shelf: &mut S, job: &RunJob) -> Result<Reply, Halt>
    requires { IsRunJob job.now }
    ensures due { Knowing (S.files shelf.old) (λ files. Gives (run_due files job.now) result) }
    ensures verdict { IfOk result (λ reply. IsAnswerStatus reply.status) }
    ensures unspent { IfOk result (λ reply. IsSpent reply.status → ⊥) }
    ensures cause { IfErr result (HaltCause (S.absences shelf.old) (S.absences shelf.new)) }
    ensures reads { RoseIf (is_read_fault result) (S.faults shelf.old) (S.faults shelf.new) }
    ensures goes_on { GoesOn S.files S.faults S.absences shelf.old shelf.new }
    ensures asks { AsksInTurn (S.asked shelf.old) (S.asked shelf.new)
        (names_of job.now.inputs ++ job.now.program ∷ []) }
{
    let machine = machine_for(alloc, shelf, &job.inputs, job.pointers)?;
    let program_name = job.program.as_slice();
    let bytes = read_input(alloc, shelf, program_name, MAX_FILE_BYTES as u64)?;
    let program = program_of(alloc, &machine, program_name, bytes.as_slice())?;
    Ok(outcome(alloc, &machine, job.run, &program)?)
}

// The reply with the report of a program's runs.
fn outcome(
    alloc: Global,
    machine: &PointerMachine,
    limit: u64,
    program: &Partial,
) -> Result<Reply, OutOfMemory>
    requires limit { limit ≤ MAX_RUN }
    requires program { IsProgram (meaning_of machine.now).ops program.now }
    ensures due { IfOk result (λ reply. report_due machine.now limit program.now (Ok reply)) }
    ensures verdict { IfOk result (λ reply. IsAnswerStatus reply.status) }
    ensures unspent { IfOk result (λ reply. IsSpent reply.status → ⊥) }
{
    let report = report(alloc, machine, program, limit, &mut Meter::zero())?;
    Ok(Reply::of_text(status_of(report.all_solved), report.text))
}

fn status_of(all_solved: bool) -> Status
    ensures { result ≡ report_status all_solved }
{
    if all_solved { Status::Done } else { Status::No }
}
