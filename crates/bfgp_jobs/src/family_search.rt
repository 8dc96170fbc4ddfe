ghost use Rattle.std.specs.Prelude.{◌≡◌, length, Ok, IfOk, IfErr};
ghost use Rattle.program_model.specs.declared.machine.TheConstants.{MAX_INSTANCES, MAX_POINTERS};
ghost use Rattle.program_text.specs.Names.{AreNames};
ghost use Rattle.pointer_machine.specs.Texts.{operation_texts};
ghost use Rattle.refutation_tree.specs.Grammar.{IsFromOneTo};
ghost use Rattle.family_gen.specs.Families.{bounds_of, sizes_of};
ghost use Rattle.command_words.specs.Words.{IsGenJob};
ghost use Rattle.input_reading.specs.declared.halt.Halt.TheVariants as halts;
ghost use Rattle.input_reading.specs.Steps.{Gives};
ghost use Rattle.bfgp_jobs.specs.Due.{gen_due, summary_due};
ghost use Rattle.bfgp_jobs.specs.Answers.{IsAnswerStatus};

use crate::reply::Reply;
use crate::searching::search_over;
use command_words::GenJob;
use family_gen::family;
use flag_rules::OutOfMemory;
use input_reading::{Halt, machine_of_texts};
use pointer_machine::PointerMachine;
use search_bounds::Bounds;
use std::alloc::Global;
use summary_writer::Sample;

/// Searches over a family of instances, within the family's bounds. An error is want of memory alone.
pub(crate) fn search_family(alloc: Global, job: &GenJob) -> Result<Reply, Halt>
    requires { IsGenJob job.now }
    ensures due { Gives (gen_due job.now) result }
    ensures verdict { IfOk result (λ reply. IsAnswerStatus reply.status) }
    ensures cause { IfErr result (λ halt. halt ≡ halts.OutOfMemory) }
{
    let texts = family(alloc, job.family, job.number)?;
    let machine = machine_of_texts(
        alloc,
        job.family.name().as_bytes(),
        texts.domain.as_slice(),
        texts.problems.as_slice(),
        texts.pointers,
    )?;
    let sample = Sample {
        family: job.family,
        number: job.number,
        sizes: texts.sizes,
    };
    Ok(summary(alloc, &machine, &texts.bounds, sample)?)
}

// The reply with the summary of the search's answer.
fn summary(
    alloc: Global,
    machine: &PointerMachine,
    bounds: &Bounds,
    sample: Sample,
) -> Result<Reply, OutOfMemory>
    requires names { AreNames (operation_texts machine.now.task machine.now.pointers) }
    requires pointers { IsFromOneTo MAX_POINTERS machine.now.pointers }
    requires instances { IsFromOneTo MAX_INSTANCES (length machine.now.tables) }
    requires bounds { bounds.now ≡ bounds_of sample.family }
    requires sizes { sample.sizes ≡ sizes_of sample.family sample.number }
    ensures due { IfOk result (λ reply.
        summary_due (record { family = sample.family; number = sample.number }) machine.now (Ok reply)) }
    ensures verdict { IfOk result (λ reply. IsAnswerStatus reply.status) }
{
    Ok(Reply::of_summary(sample, search_over(alloc, machine, bounds)?))
}
