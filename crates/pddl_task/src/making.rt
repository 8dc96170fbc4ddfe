ghost use Rattle.std.specs.Prelude.{◌≡◌, ◌<◌, ◌^◌, ◌++◌, None, length, map, IfOk};
ghost use Rattle.pddl_task.specs.Types.{names_of, type_names, types_of};
ghost use Rattle.pddl_task.specs.Faults.{IsFirst, IsDomainFault, IsProblemFault, domain_limit, problem_limit};
ghost use Rattle.pddl_task.specs.Parts.{TaskOf, task_of, instance_of, heads_of, object_of};
ghost use Rattle.pddl_parser.specs.Replies.{IsDomainText, IsProblemText};
ghost use Rattle.ground_state.specs.Instance.{IsInstance};
ghost use Rattle.pddl_task.specs.Replies.{IsTaskReply, IsInstanceReply};
ghost use Rattle.pddl_task.specs.Inner.Names.{different};

use crate::checks::{domain_fault, problem_fault};
use crate::entries::{Scope, add_objects, facts_of, predicates_of, schemas_of};
use crate::limits::{limit_of_domain, limit_of_objects};
use crate::names::Names;
use crate::refusal::TaskRefusal;
use crate::typing::{names_of_types, type_entries};
use flag_rules::{List, OutOfMemory};
use ground_state::{Instance, InstanceParts, ObjectEntry, Task, TaskParts, TypeEntry};
use pddl_parser::{DomainText, ProblemText};
use std::alloc::Global;

/// The task of a domain.
///
/// Of all faults with a place the one at the least place is told; where there is none, the first limit that is exceeded.
pub fn task(alloc: Global, text: &DomainText) -> Result<Task, TaskRefusal>
    requires { IsDomainText text.now }
    ensures { IsTaskReply text.now result }
{
    let types = names_of_types(alloc, &text.types)?;
    let entries = type_entries(alloc, &types, &text.types)?;
    if let Some(fault) = domain_fault(alloc, &types, entries.as_slice(), text)? {
        return Err(fault.into());
    }
    if let Some(limit) = limit_of_domain(text) {
        return Err(limit);
    }
    Ok(Task::new(task_parts(alloc, types, entries, text)?))
}

/// The parts of a domain that has no fault and exceeds no limit.
fn task_parts(
    alloc: Global,
    types: Names,
    entries: List<TypeEntry>,
    domain: &DomainText,
) -> Result<TaskParts, OutOfMemory>
    requires read { IsDomainText domain.now }
    requires types { types ≡ type_names domain.now.types }
    requires entries { entries ≡ types_of domain.now.types }
    requires faultless { IsFirst (IsDomainFault domain.now) None }
    requires within { domain_limit domain.now ≡ None }
    ensures { IfOk result (λ parts. parts ≡ task_of domain.now) }
{
    let scope = scope_of(alloc, types, domain)?;
    let constants = constants_of(alloc, &scope.types, domain)?;
    let predicates = predicates_of(alloc, domain.predicates.as_slice())?;
    let schemas = schemas_of(alloc, &scope, domain.actions.as_slice())?;
    Ok(TaskParts {
        types: entries,
        constants,
        predicates,
        schemas,
    })
}

/// The names that stand in the actions of a domain.
fn scope_of(alloc: Global, types: Names, domain: &DomainText) -> Result<Scope, OutOfMemory>
    ensures types { IfOk result (λ scope. scope.types ≡ types) }
    ensures heads { IfOk result (λ scope. scope.heads ≡ different (heads_of domain.now.predicates)) }
    ensures constants { IfOk result (λ scope. scope.constants ≡ different (names_of domain.now.constants)) }
{
    let heads = Names::of(alloc, domain.predicates.as_slice())?;
    let constants = Names::of(alloc, domain.constants.as_slice())?;
    Ok(Scope {
        types,
        heads,
        constants,
    })
}

/// The constants of a domain, where types have these names.
fn constants_of(
    alloc: Global,
    types: &Names,
    domain: &DomainText,
) -> Result<List<ObjectEntry>, OutOfMemory>
    requires { length types.now < 2 ^ 32 }
    ensures { IfOk result (λ constants. constants ≡ map (object_of types.now) domain.now.constants) }
{
    let mut constants = List::new(alloc);
    add_objects(alloc, types, &mut constants, &domain.constants)?;
    Ok(constants)
}

/// The instance of a problem, over the task of a domain.
///
/// Of all faults with a place the one at the least place is told; where there is none, `NoObject` or the limit that is
/// exceeded.
pub fn instance(
    alloc: Global,
    task: &Task,
    domain: &DomainText,
    text: &ProblemText,
) -> Result<Instance, TaskRefusal>
    requires task { TaskOf domain.now task.now }
    requires domain { IsDomainText domain.now }
    requires text { IsProblemText text.now }
    ensures reply { IsInstanceReply domain.now text.now result }
    ensures fits { IfOk result (IsInstance task.now) }
{
    let types = names_of_types(alloc, &domain.types)?;
    if let Some(fault) = problem_fault(alloc, &types, domain, text)? {
        return Err(fault.into());
    }
    if let Some(limit) = limit_of_problem(domain, text) {
        return Err(limit);
    }
    let parts = instance_parts(alloc, &types, domain, text)?;
    Ok(Instance::new(task, parts))
}

/// The limit that the constants of a domain and the objects of a problem exceed.
fn limit_of_problem(domain: &DomainText, problem: &ProblemText) -> Option<TaskRefusal>
    requires domain { IsDomainText domain.now }
    requires problem { IsProblemText problem.now }
    ensures { result ≡ problem_limit domain.now problem.now }
{
    let count = domain.constants.len() + problem.objects.len();
    limit_of_objects(count as u64)
}

/// The parts of a problem that has no fault and exceeds no limit.
fn instance_parts(
    alloc: Global,
    types: &Names,
    domain: &DomainText,
    problem: &ProblemText,
) -> Result<InstanceParts, OutOfMemory>
    requires read { IsDomainText domain.now }
    requires types { types.now ≡ type_names domain.now.types }
    requires domain_faultless { IsFirst (IsDomainFault domain.now) None }
    requires faultless { IsFirst (IsProblemFault domain.now problem.now) None }
    requires within { problem_limit domain.now problem.now ≡ None }
    ensures { IfOk result (λ parts. parts ≡ instance_of domain.now problem.now) }
{
    let objects = objects_of(alloc, types, domain, problem)?;
    let heads = Names::of(alloc, domain.predicates.as_slice())?;
    let names = names_over(alloc, domain, problem)?;
    let init = facts_of(alloc, &heads, &names, problem.init.as_slice())?;
    let goal = facts_of(alloc, &heads, &names, problem.goal.as_slice())?;
    Ok(InstanceParts {
        objects,
        init,
        goal,
    })
}

/// The constants of a domain, and then the objects of a problem, where types have these names.
fn objects_of(
    alloc: Global,
    types: &Names,
    domain: &DomainText,
    problem: &ProblemText,
) -> Result<List<ObjectEntry>, OutOfMemory>
    requires { length types.now < 2 ^ 32 }
    ensures { IfOk result (λ objects. objects ≡
        map (object_of types.now) (domain.now.constants ++ problem.now.objects)) }
{
    let mut objects = constants_of(alloc, types, domain)?;
    add_objects(alloc, types, &mut objects, &problem.objects)?;
    Ok(objects)
}

/// The names of the constants of a domain and of the objects of a problem.
fn names_over(
    alloc: Global,
    domain: &DomainText,
    problem: &ProblemText,
) -> Result<Names, OutOfMemory>
    ensures { IfOk result (λ names. names ≡
        different (names_of (domain.now.constants ++ problem.now.objects))) }
{
    let mut names = Names::of(alloc, domain.constants.as_slice())?;
    names.add_all(alloc, problem.objects.as_slice())?;
    Ok(names)
}
