ghost use Rattle.std.specs.Prelude.{◌≡◌, ◌<◌, ◌≤◌, map, All, IfOk};
ghost use Rattle.pddl_printer.specs.Printing.{printed_domain, printed_problem};
ghost use Rattle.family_gen.specs.Domains.{domain_of};
ghost use Rattle.family_gen.specs.Problems.{problem_of};
ghost use Rattle.family_gen.specs.Families.{family_texts};

use crate::domains::domain_of;
use crate::kinds::{Family, MAX_NUMBER};
use crate::problems::problem_of;
use crate::sizes::sizes;
use crate::texts::FamilyTexts;
use flag_rules::{List, OutOfMemory, Text};
use pddl_printer::{print_domain, print_problem};
use std::alloc::Global;

/// The texts of a family at a number, which is at most `MAX_NUMBER`.
pub fn family(alloc: Global, which: Family, number: u32) -> Result<FamilyTexts, OutOfMemory>
    requires { number ≤ MAX_NUMBER }
    ensures { IfOk result (λ texts. texts ≡ family_texts which number) }
{
    let sizes = sizes(alloc, which, number)?;
    Ok(FamilyTexts {
        domain: domain_text(alloc, which)?,
        problems: problem_texts(alloc, which, sizes.as_slice())?,
        sizes,
        pointers: which.pointers(),
        bounds: which.bounds(),
    })
}

/// The text of a family's domain.
fn domain_text(alloc: Global, which: Family) -> Result<Text, OutOfMemory>
    ensures { IfOk result (λ text. text ≡ printed_domain (domain_of which)) }
{
    let domain = domain_of(alloc, which)?;
    Ok(Text::from_vec(print_domain(alloc, &domain)?))
}

/// The texts of a family's instances that have these sizes.
fn problem_texts(alloc: Global, which: Family, sizes: &[u16]) -> Result<List<Text>, OutOfMemory>
    requires { All (λ size. 0 < size) sizes.now }
    ensures { IfOk result (λ texts. texts ≡ map (λ size. printed_problem (problem_of which size)) sizes.now) }
{
    let mut texts = List::new(alloc);
    for size in sizes {
        let problem = problem_of(alloc, which, *size)?;
        texts.push(Text::from_vec(print_problem(alloc, &problem)?))?;
    }
    Ok(texts)
}
