//! What verdict a document gets: of the command, and of a checker that is given it in pieces.

use crate::calls::{answer_of, asked, shelf_of};
use bfgp_jobs::Status;
use document_check::Checker;
use pointer_machine::{Meter, PointerMachine};
use program_text::Names;
use std::alloc::Global;
use std::process::Abort;
use std::test::Fail;

/// How many bytes the pieces have in which each document comes.
const LENGTHS: [usize; 5] = [1, 2, 3, 7, 65_536];

/// Checks that a document gets this verdict by the words of a check of the file `answer`: of the command, and in pieces of each
/// length.
pub fn check_verdict<R: Abort>(
    rt: &R,
    alloc: Global,
    words: &str,
    document: &[u8],
    verdict: &str,
) -> Result<(), Fail> {
    assert!(rt;
        has_verdict(alloc, words, document, verdict)?,
        "{verdict}: {document:?}"
    );
    Ok(())
}

/// Whether a document gets this verdict by the words of a check of the file `answer`: of the command, and in pieces of each length.
pub fn has_verdict(
    alloc: Global,
    words: &str,
    document: &[u8],
    verdict: &str,
) -> Result<bool, Fail> {
    let due = if verdict == "accepted" {
        LENGTHS.len()
    } else {
        0
    };
    Ok(
        is_answered(alloc, words, document, verdict)?
            && count_accepted(alloc, words, document)? == due,
    )
}

// Whether the command writes this verdict, and no other line, and ends as is due.
fn is_answered(alloc: Global, words: &str, document: &[u8], verdict: &str) -> Result<bool, Fail> {
    let mut shelf = shelf_of(alloc)?;
    shelf.add(b"answer", document)?;
    let answer = answer_of(alloc, &mut shelf, words)?;
    let status = if verdict == "accepted" {
        Status::Done
    } else {
        Status::No
    };
    Ok(answer.status == status && answer.text.strip_suffix("\n") == Some(verdict))
}

// In how many of the lengths of pieces a document is accepted.
fn count_accepted(alloc: Global, words: &str, document: &[u8]) -> Result<usize, Fail> {
    let (job, machine) = asked(alloc, words)?;
    let names = Names::build(alloc, machine.op_texts(alloc)?)?;
    let mut count: usize = 0;
    for length in LENGTHS {
        let mut checker = Checker::start(alloc, &machine, &names, job.lines)?;
        take_all(&mut checker, document, length);
        count = count.saturating_add(usize::from(checker.finish()));
    }
    Ok(count)
}

// Gives a document in pieces of so many bytes, and an empty one after each.
fn take_all(checker: &mut Checker<PointerMachine>, document: &[u8], length: usize) {
    let mut rest = document;
    while !rest.is_empty() {
        let (piece, after) = rest.split_at(length.max(1).min(rest.len()));
        checker.take(piece, &mut Meter::zero());
        checker.take(b"", &mut Meter::zero());
        rest = after;
    }
}

/// How often a document is told to be accepted, if that is asked before its first byte and after each.
pub fn times_accepted(alloc: Global, words: &str, document: &[u8]) -> Result<usize, Fail> {
    let (job, machine) = asked(alloc, words)?;
    let names = Names::build(alloc, machine.op_texts(alloc)?)?;
    let mut checker = Checker::start(alloc, &machine, &names, job.lines)?;
    let mut times = usize::from(checker.finish());
    for byte in document {
        checker.take(&[*byte], &mut Meter::zero());
        times = times.saturating_add(usize::from(checker.finish()));
    }
    Ok(times)
}
