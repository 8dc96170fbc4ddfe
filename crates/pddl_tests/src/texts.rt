//! The texts of bytes, which a test's bytes are not too long for.

ghost use Rattle.std.specs.Prelude.{IfOk};
ghost use Rattle.pddl_parser.specs.Replies.{IsDomainText, IsProblemText};

use flag_rules::MAX_FILE_BYTES;
use pddl_parser::{DomainText, ProblemText, domain, problem};
use std::alloc::{AllocError, Global};
use std::test::Fail;

/// A domain with all that the grammar has, but nothing in its usual order.
pub const DOMAIN: &[u8] =
    b"(DEFINE(domain Lights);any order\n(:action ON:effect(and(lit ?L)(and(not(dark))())):parameters(?l ?m - Lamp ?n):precondition(and(dark)(and(near ?l A))))(:predicates(dark)(lit ?x - lamp ?y))(:CONSTANTS A B - lamp C)(:types lamp bulb - thing thing)(:requirements :strips :TYPING))";

/// The text of the bytes of a domain.
pub fn domain_text(alloc: Global, bytes: &[u8]) -> Result<DomainText, Fail>
    ensures { IfOk result IsDomainText }
{
    if bytes.len() > MAX_FILE_BYTES {
        return Err(Fail::new("too long"));
    }
    Ok(domain(alloc, bytes)?)
}

/// The text of the bytes of a problem.
pub fn problem_text(alloc: Global, bytes: &[u8]) -> Result<ProblemText, Fail>
    ensures { IfOk result IsProblemText }
{
    if bytes.len() > MAX_FILE_BYTES {
        return Err(Fail::new("too long"));
    }
    Ok(problem(alloc, bytes)?)
}

/// The bytes of some pieces, each of which stands so many times.
pub fn repeated(alloc: Global, pieces: &[(&[u8], usize)]) -> Result<Vec<u8>, AllocError> {
    let mut bytes = Vec::new(alloc);
    for &(piece, times) in pieces {
        add_repeated(&mut bytes, piece, times)?;
    }
    Ok(bytes)
}

fn add_repeated(bytes: &mut Vec<u8>, piece: &[u8], times: usize) -> Result<(), AllocError> {
    for _ in 0..times {
        bytes.extend_from_slice(piece)?;
    }
    Ok(())
}
