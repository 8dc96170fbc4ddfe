ghost use Rattle.std.specs.Prelude.{◌≡◌, length, IfOk};
ghost use Rattle.program_model.specs.declared.machine.TheConstants.{MAX_INSTANCES, MAX_POINTERS};
ghost use Rattle.program_text.specs.Names.{AreNames};
ghost use Rattle.pointer_machine.specs.Machine.{meaning_of};
ghost use Rattle.pointer_machine.specs.Texts.{operation_texts};
ghost use Rattle.refutation_tree.specs.Grammar.{IsFromOneTo, IsGrammatical};
ghost use Rattle.search_bounds.specs.Limits.{AreWithinLimits};
ghost use Rattle.synthesis.specs.BestFirst.{IsBestFirstAnswer};
ghost use Rattle.bfgp_jobs.specs.Due.{status_of};

use crate::status::Status;
use flag_rules::OutOfMemory;
use pointer_machine::{Meter, PointerMachine};
use program_text::Names;
use refutation_tree::{Answer, Outcome};
use search_bounds::Bounds;
use std::alloc::Global;
use synthesis::search;

/// What a search found.
#[derive(Drop)]
pub(crate) struct Found {
    pub(crate) answer: Answer,
    /// The names of the operations that programs are over.
    pub(crate) names: Names,
}

impl Found {
    /// The status to end with.
    pub(crate) fn status(&self) -> Status
        ensures { result ≡ status_of self.now.answer.outcome }
    {
        match self.answer.outcome {
            Outcome::Program { .. } => Status::Done,
            Outcome::Nothing => Status::No,
            Outcome::SpentExpansions { .. } => Status::SpentExpansions,
            Outcome::SpentRun { .. } => Status::SpentRun,
        }
    }
}

/// Searches over a machine, within bounds, for a smallest program that solves its instances.
pub(crate) fn search_over(
    alloc: Global,
    machine: &PointerMachine,
    bounds: &Bounds,
) -> Result<Found, OutOfMemory>
    requires names { AreNames (operation_texts machine.now.task machine.now.pointers) }
    requires pointers { IsFromOneTo MAX_POINTERS machine.now.pointers }
    requires instances { IsFromOneTo MAX_INSTANCES (length machine.now.tables) }
    requires bounds { AreWithinLimits bounds.now }
    ensures answer { IfOk result (λ found. IsBestFirstAnswer (meaning_of machine.now) bounds.now found.answer) }
    ensures names { IfOk result (λ found. found.names ≡ operation_texts machine.now.task machine.now.pointers) }
    ensures grammar { IfOk result (λ found. IsGrammatical (length found.names) found.answer) }
{
    let answer = search(alloc, machine, bounds, &mut Meter::zero())?;
    let texts = machine.op_texts(alloc)?;
    let names = Names::build(alloc, texts)?;
    Ok(Found { answer, names })
}
