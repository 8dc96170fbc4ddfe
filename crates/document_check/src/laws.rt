ghost use Rattle.std.specs.Prelude.{◌≡◌, ℕ, List};
ghost use Rattle.program_model.specs.Semantics.{Semantics};
ghost use Rattle.refutation_tree.specs.declared.evidence.Outcome.TheVariants as outcomes;
ghost use Rattle.refutation_tree.specs.Accepted.{IsSpentAt, NoneShorter, NoneSolves, ShowsLeast};
ghost use Rattle.document_check.specs.Documents.{IsAcceptedDocument};

use pointer_symmetry::passing_twins_over_is_fair;
use program_model::Machine;

/// A law over all machines: what an accepted document says holds. Its program is least; where it says that there is none, no program
/// of at most so many lines solves every instance; and where it says that the budget or the limit of a run was spent at a size,
/// none of fewer lines does. The call does nothing.
pub fn accepted_documents_hold<M: Machine>(machine: &M)
    ensures program { let m = M.semantics machine.now in (texts : List (List ℕ)) (lines size : ℕ) (bytes : List ℕ) →
        (is : IsAcceptedDocument m texts lines bytes) → is.answer.outcome ≡ outcomes.Program size →
        ShowsLeast m size lines is.answer }
    ensures nothing { let m = M.semantics machine.now in (texts : List (List ℕ)) (lines : ℕ) (bytes : List ℕ) →
        (is : IsAcceptedDocument m texts lines bytes) → is.answer.outcome ≡ outcomes.Nothing → NoneSolves m lines }
    ensures spent { let m = M.semantics machine.now in (texts : List (List ℕ)) (lines size : ℕ) (bytes : List ℕ) →
        (is : IsAcceptedDocument m texts lines bytes) → IsSpentAt size is.answer.outcome → NoneShorter m size }
{
    passing_twins_over_is_fair(machine);
}
