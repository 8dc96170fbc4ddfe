ghost use Rattle.std.specs.Prelude.{◌≡◌, ◌≢◌, ◌<◌, ◌^◌, length, IfOk};
ghost use Rattle.pddl_task.specs.declared.fault.FaultKind.TheVariants.{OtherDomain};
ghost use Rattle.pddl_task.specs.Inner.Arities.{arity_in};
ghost use Rattle.pddl_task.specs.Types.{type_names, types_of};
ghost use Rattle.pddl_task.specs.Faults.{IsFirst, fault_at, IsDomainFault, IsProblemFault};

use crate::arities::Arities;
use crate::atom_checks::AtomCheck;
use crate::check::{Check, first_of};
use crate::cycles::first_cycle;
use crate::fault::{Fault, FaultKind, earlier};
use crate::names::Names;
use crate::twice::first_twice;
use crate::typing::{TypeCheck, first_unknown_type};
use flag_rules::OutOfMemory;
use ground_state::TypeEntry;
use pddl_parser::{ActionText, DomainText, ProblemText};
use std::alloc::Global;

/// The first fault of a domain, with its types and their names.
pub(crate) fn domain_fault(
    alloc: Global,
    types: &Names,
    entries: &[TypeEntry],
    domain: &DomainText,
) -> Result<Option<Fault>, OutOfMemory>
    requires names { types.now ≡ type_names domain.now.types }
    requires entries { entries.now ≡ types_of domain.now.types }
    requires few { length types.now < 2 ^ 32 }
    ensures { IfOk result (IsFirst (IsDomainFault domain.now)) }
{
    let constants = domain.constants.as_slice();
    let predicates = domain.predicates.as_slice();
    let actions = domain.actions.as_slice();
    let type_again = first_twice(alloc, Names::new(alloc), domain.types.as_slice())?;
    let constant_again = first_twice(alloc, Names::new(alloc), constants)?;
    let head_again = first_twice(alloc, Names::new(alloc), predicates)?;
    let action_again = first_twice(alloc, Names::new(alloc), actions)?;
    let cycle = first_cycle(alloc, types, entries, domain.types.as_slice())?;
    let of_constants = first_unknown_type(types, &domain.constants);
    let of_predicates = first_of(&TypeCheck { types }, predicates)?;
    let arities = Arities::of(alloc, predicates)?;
    let names = Names::of(alloc, constants)?;
    let check = ActionCheck {
        alloc,
        types,
        arities: &arities,
        constants: &names,
    };
    let of_actions = first_of(&check, actions)?;
    let of_types = earlier(of_constants, earlier(of_predicates, of_actions));
    let twice = earlier(head_again, earlier(action_again, earlier(cycle, of_types)));
    Ok(earlier(type_again, earlier(constant_again, twice)))
}

/// The check of actions, where types, predicates and constants have these names.
#[derive(Clone, Copy)]
struct ActionCheck<'a> {
    alloc: Global,
    types: &'a Names,
    arities: &'a Arities,
    constants: &'a Names,
}

impl Check<ActionText> for ActionCheck<'_> {
    ghost use Rattle.pddl_task.specs.Faults.{IsActionFault};

    ghost IsFault = { λ check. IsActionFault check.types.now (arity_in check.arities.now) check.constants.now };

    fn first_fault(&self, action: &ActionText) -> Result<Option<Fault>, OutOfMemory> {
        let params = action.params.as_slice();
        let again = first_twice(self.alloc, Names::new(self.alloc), params)?;
        let of_types = first_unknown_type(self.types, &action.params);
        let names = Names::of(self.alloc, params)?;
        let atoms = AtomCheck {
            arities: self.arities,
            one: &names,
            other: self.constants,
        };
        let of_pre = first_of(&atoms, action.pre.as_slice())?;
        let of_add = first_of(&atoms, action.add.as_slice())?;
        let of_del = first_of(&atoms, action.del.as_slice())?;
        let of_atoms = earlier(of_pre, earlier(of_add, of_del));
        Ok(earlier(again, earlier(of_types, of_atoms)))
    }
}

/// The first fault of a problem over a domain, with the names of the domain's types.
pub(crate) fn problem_fault(
    alloc: Global,
    types: &Names,
    domain: &DomainText,
    problem: &ProblemText,
) -> Result<Option<Fault>, OutOfMemory>
    requires { types.now ≡ type_names domain.now.types }
    ensures { IfOk result (IsFirst (IsProblemFault domain.now problem.now)) }
{
    let objects = problem.objects.as_slice();
    let seen = Names::of(alloc, domain.constants.as_slice())?;
    let again = first_twice(alloc, seen, objects)?;
    let of_types = first_unknown_type(types, &problem.objects);
    let arities = Arities::of(alloc, domain.predicates.as_slice())?;
    let constants = Names::of(alloc, domain.constants.as_slice())?;
    let names = Names::of(alloc, objects)?;
    let atoms = AtomCheck {
        arities: &arities,
        one: &constants,
        other: &names,
    };
    let of_init = first_of(&atoms, problem.init.as_slice())?;
    let of_goal = first_of(&atoms, problem.goal.as_slice())?;
    let of_atoms = earlier(of_init, of_goal);
    let elsewhere = other_domain(domain, problem);
    Ok(earlier(again, earlier(of_types, earlier(of_atoms, elsewhere))))
}

/// The fault of a problem that is of another domain.
fn other_domain(domain: &DomainText, problem: &ProblemText) -> Option<Fault>
    ensures { IsFirst (λ fault. (problem.now.domain.text ≢ domain.now.name.text)
        × (fault ≡ fault_at OtherDomain problem.now.domain)) result }
{
    if problem.domain.text.as_slice() == domain.name.text.as_slice() {
        return None;
    }
    Some(Fault::of(FaultKind::OtherDomain, &problem.domain))
}
