ghost use Rattle.std.specs.Prelude.{length, Ok, IfOk, IfErr};
ghost use Rattle.bfgp_outside.specs.Causes.{RoseIf};
ghost use Rattle.bfgp_outside.specs.Shelf.{Knowing, GoesOn};
ghost use Rattle.program_model.specs.declared.machine.TheConstants.{MAX_INSTANCES, MAX_POINTERS};
ghost use Rattle.program_text.specs.Names.{AreNames};
ghost use Rattle.pointer_machine.specs.Texts.{operation_texts};
ghost use Rattle.refutation_tree.specs.Grammar.{IsFromOneTo};
ghost use Rattle.search_bounds.specs.Limits.{AreWithinLimits};
ghost use Rattle.command_words.specs.Words.{IsSynthJob, names_of};
ghost use Rattle.input_reading.specs.Asked.{AsksInTurn};
ghost use Rattle.input_reading.specs.Steps.{Gives};
ghost use Rattle.bfgp_jobs.specs.Due.{synth_due, answer_due};
ghost use Rattle.input_reading.specs.Causes.{HaltCause, is_read_fault};
ghost use Rattle.bfgp_jobs.specs.Answers.{IsAnswerStatus};

use crate::reply::Reply;
use crate::searching::search_over;
use bfgp_outside::Shelf;
use command_words::SynthJob;
use flag_rules::OutOfMemory;
use input_reading::{Halt, machine_for};
use pointer_machine::PointerMachine;
use search_bounds::Bounds;
use std::alloc::Global;

/// Searches within the bounds of a job for a smallest program that solves its instances.
pub(crate) fn synth<S: Shelf>(alloc: Global, shelf: &mut S, job: &SynthJob) -> Result<Reply, Halt>
    requires { IsSynthJob job.now }
    ensures due { Knowing (S.files shelf.old) (λ files. Gives (synth_due files job.now) result) }
    ensures verdict { IfOk result (λ reply. IsAnswerStatus reply.status) }
    ensures cause { IfErr result (HaltCause (S.absences shelf.old) (S.absences shelf.new)) }
    ensures reads { RoseIf (is_read_fault result) (S.faults shelf.old) (S.faults shelf.new) }
    ensures goes_on { GoesOn S.files S.faults S.absences shelf.old shelf.new }
    ensures asks { AsksInTurn (S.asked shelf.old) (S.asked shelf.new) (names_of job.now.inputs) }
{
    let machine = machine_for(alloc, shelf, &job.inputs, job.pointers)?;
    Ok(answer(alloc, &machine, &job.bounds)?)
}

// The reply with the document of the search's answer.
fn answer(alloc: Global, machine: &PointerMachine, bounds: &Bounds) -> Result<Reply, OutOfMemory>
    requires names { AreNames (operation_texts machine.now.task machine.now.pointers) }
    requires pointers { IsFromOneTo MAX_POINTERS machine.now.pointers }
    requires instances { IsFromOneTo MAX_INSTANCES (length machine.now.tables) }
    requires bounds { AreWithinLimits bounds.now }
    ensures due { IfOk result (λ reply. answer_due machine.now bounds.now (Ok reply)) }
    ensures verdict { IfOk result (λ reply. IsAnswerStatus reply.status) }
{
    Ok(Reply::of_document(search_over(alloc, machine, bounds)?))
}
