ghost use Rattle.std.specs.Prelude.{◌≡◌, IfOk};
ghost use Rattle.family_gen.specs.Domains.{lights_domain, corridor_domain, domain_of};

use crate::kinds::Family;
use crate::pieces::{action, atom, domain, list, predicate};
use flag_rules::{List, OutOfMemory};
use pddl_parser::DomainText;
use std::alloc::Global;

/// Of a lamp that is lit.
pub(crate) const LIT: &[u8] = b"lit";

/// Of the cell at which somebody is.
pub(crate) const AT: &[u8] = b"at";

/// Of a cell and one that is next to it.
pub(crate) const NEXT: &[u8] = b"next";

const C: &[u8] = b"?c";

const X: &[u8] = b"?x";

const Y: &[u8] = b"?y";

/// The domain of a family.
pub(crate) fn domain_of(alloc: Global, which: Family) -> Result<DomainText, OutOfMemory>
    ensures { IfOk result (λ domain. domain ≡ domain_of which) }
{
    match which {
        Family::Lights => lights(alloc),
        Family::Corridor => corridor(alloc),
    }
}

/// Lamps, each of which can be lit.
fn lights(alloc: Global) -> Result<DomainText, OutOfMemory>
    ensures { IfOk result (λ domain. domain ≡ lights_domain) }
{
    let predicates = list(alloc, [predicate(alloc, LIT, &[X])?])?;
    let added = list(alloc, [atom(alloc, LIT, &[X])?])?;
    let light = action(
        alloc,
        b"light",
        &[X],
        List::new(alloc),
        added,
        List::new(alloc),
    )?;
    domain(alloc, Family::Lights, predicates, list(alloc, [light])?)
}

/// Cells, of which some are next to others; somebody who is at a cell can move to one that is next to it.
fn corridor(alloc: Global) -> Result<DomainText, OutOfMemory>
    ensures { IfOk result (λ domain. domain ≡ corridor_domain) }
{
    let at = predicate(alloc, AT, &[C])?;
    let next = predicate(alloc, NEXT, &[X, Y])?;
    let pre = list(alloc, [atom(alloc, AT, &[X])?, atom(alloc, NEXT, &[X, Y])?])?;
    let added = list(alloc, [atom(alloc, AT, &[Y])?])?;
    let deleted = list(alloc, [atom(alloc, AT, &[X])?])?;
    let step = action(alloc, b"move", &[X, Y], pre, added, deleted)?;
    domain(
        alloc,
        Family::Corridor,
        list(alloc, [at, next])?,
        list(alloc, [step])?,
    )
}
