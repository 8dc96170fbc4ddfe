ghost use Rattle.std.specs.Prelude.{◌≡◌, IfOk};
ghost use Rattle.pddl_printer.specs.Printing.{printed_domain, printed_problem};

use crate::sections::{domain_sections, problem_sections, word_section};
use crate::words::{close, word};
use flag_rules::{OutOfMemory, Text};
use pddl_parser::{DomainText, ProblemText};
use std::alloc::Global;

/// A domain as a line of words of PDDL 1.2, in a form of our own: every section is printed, also where it is empty.
pub fn print_domain(alloc: Global, text: &DomainText) -> Result<Vec<u8>, OutOfMemory>
    ensures printed { IfOk result (λ bytes. bytes.items ≡ printed_domain text.now) }
{
    let mut out = Text::of(alloc, b"(")?;
    word(&mut out, b"define")?;
    word_section(&mut out, b"domain", &text.name)?;
    domain_sections(&mut out, text)?;
    close(&mut out)?;
    out.push(b'\n')?;
    Ok(out.into_vec())
}

/// A problem as a line of words of PDDL 1.2, in a form of our own: every section is printed, also where it is empty.
pub fn print_problem(alloc: Global, text: &ProblemText) -> Result<Vec<u8>, OutOfMemory>
    ensures printed { IfOk result (λ bytes. bytes.items ≡ printed_problem text.now) }
{
    let mut out = Text::of(alloc, b"(")?;
    word(&mut out, b"define")?;
    word_section(&mut out, b"problem", &text.name)?;
    problem_sections(&mut out, text)?;
    close(&mut out)?;
    out.push(b'\n')?;
    Ok(out.into_vec())
}
