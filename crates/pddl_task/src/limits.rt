ghost use Rattle.std.specs.Prelude.{◌≡◌};
ghost use Rattle.pddl_task.specs.Faults.{domain_limit, actions_limit, predicates_limit, count_limit, objects_limit};

use crate::refusal::{TaskRefusal, Which};
use ground_state::{MAX_ARITY, MAX_OBJECTS, MAX_PARAMETERS};
use pddl_parser::{ActionText, DomainText, PredText};

/// The first limit that a domain exceeds.
pub(crate) fn limit_of_domain(domain: &DomainText) -> Option<TaskRefusal>
    ensures { result ≡ domain_limit domain.now }
{
    limit_of_actions(domain.actions.as_slice())
        .or(limit_of_predicates(domain.predicates.as_slice()))
        .or(limit_of_constants(domain.constants.len() as u64))
}

/// The limit that the first action with too many parameters exceeds.
fn limit_of_actions(actions: &[ActionText]) -> Option<TaskRefusal>
    ensures { result ≡ actions_limit actions.now }
{
    for action in actions {
        let count = action.params.len();
        if count > MAX_PARAMETERS {
            return Some(TaskRefusal::Limit(Which::Parameters, count as u64));
        }
    }
    None
}

/// The limit that the first predicate with too many parameters exceeds.
fn limit_of_predicates(predicates: &[PredText]) -> Option<TaskRefusal>
    ensures { result ≡ predicates_limit predicates.now }
{
    for predicate in predicates {
        let count = predicate.params.len();
        if count > usize::from(MAX_ARITY) {
            return Some(TaskRefusal::Limit(Which::Arity, count as u64));
        }
    }
    None
}

/// The limit that so many constants exceed.
fn limit_of_constants(count: u64) -> Option<TaskRefusal>
    ensures { result ≡ count_limit count }
{
    if count > MAX_OBJECTS as u64 {
        return Some(TaskRefusal::Limit(Which::Objects, count));
    }
    None
}

/// The limit that so many objects and constants exceed, or that there are none.
pub(crate) fn limit_of_objects(count: u64) -> Option<TaskRefusal>
    ensures { result ≡ objects_limit count }
{
    if count == 0 {
        return Some(TaskRefusal::NoObject);
    }
    limit_of_constants(count)
}
