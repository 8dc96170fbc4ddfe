//! Files of documents: what is answered of them, and what where a read of them fails.

use crate::calls::{answer_of, asked, document_of, shelf_of};
use bfgp_jobs::{MAX_DOCUMENT_BYTES, Status};
use bfgp_outside::{MemoryShelf, Shelf};
use document_check::{Checker, DocumentRefusal, check_file};
use pointer_machine::Meter;
use program_text::Names;
use std::alloc::Global;
use std::process::Abort;
use std::test::Fail;

// What is answered of the file of a name, by the words of a check.
fn answer_of_file<S: Shelf>(
    alloc: Global,
    words: &str,
    shelf: &mut S,
    name: &str,
    limit: u64,
) -> Result<Result<bool, DocumentRefusal>, Fail> {
    let (job, machine) = asked(alloc, words)?;
    let names = Names::build(alloc, machine.op_texts(alloc)?)?;
    let checker = Checker::start(alloc, &machine, &names, job.lines)?;
    Ok(check_file(checker, shelf, name.as_bytes(), limit, &mut Meter::zero()))
}

const CHECK_A_LOOP: &str = "check --pointers 1 --lines 5 --answer answer lights two three";

#[test]
fn files_of_a_document(rt: HostRuntime) -> Result<(), Fail> {
    let document = document_of(rt.alloc(), "synth --pointers 1 --lines 5 lights two three")?;
    let length = document.len() as u64;
    let mut shelf = MemoryShelf::new(rt.alloc());
    shelf.add(b"answer", document.as_bytes())?;
    for (name, limit, answer) in [
        ("answer", MAX_DOCUMENT_BYTES, Ok(true)),
        ("answer", length, Ok(true)),
        (
            "answer",
            length.saturating_sub(1),
            Err(DocumentRefusal::TooLong),
        ),
        ("answer", 100, Err(DocumentRefusal::TooLong)),
        ("none", 100, Err(DocumentRefusal::Absent)),
    ] {
        let answered = answer_of_file(rt.alloc(), CHECK_A_LOOP, &mut shelf, name, limit)?;
        assert_eq!(rt; answered, answer, "{name} {limit}");
    }
    Ok(())
}

// Checks what is answered of bytes where each of so many reads fails, and where the one after them would.
fn check_reads<R: Abort>(
    rt: &R,
    alloc: Global,
    words: &str,
    bytes: &[u8],
    reads: u64,
    accepted: bool,
) -> Result<(), Fail> {
    for read in 0..reads {
        let answered = answer_where_a_read_fails(alloc, words, bytes, read)?;
        assert_eq!(rt; answered, Err(DocumentRefusal::Failed), "{read}");
    }
    let answered = answer_where_a_read_fails(alloc, words, bytes, reads)?;
    assert_eq!(rt; answered, Ok(accepted));
    Ok(())
}

// What is answered of bytes where one read of them fails.
fn answer_where_a_read_fails(
    alloc: Global,
    words: &str,
    bytes: &[u8],
    read: u64,
) -> Result<Result<bool, DocumentRefusal>, Fail> {
    let mut shelf = MemoryShelf::new(alloc);
    shelf.add(b"answer", bytes)?;
    shelf.fail_at(read)?;
    answer_of_file(alloc, words, &mut shelf, "answer", MAX_DOCUMENT_BYTES)
}

// A document of one read and one that tells its end; one of several reads; and a file that its first byte rejects, which is read to
// its end even so.
#[test]
fn reads_that_fail(rt: HostRuntime) -> Result<(), Fail> {
    let short = document_of(rt.alloc(), "synth --pointers 1 --lines 5 lights two three")?;
    check_reads(&rt, rt.alloc(), CHECK_A_LOOP, short.as_bytes(), 2, true)?;
    let long = document_of(rt.alloc(), "synth --pointers 1 --lines 5 dimmer never")?;
    assert!(rt; long.len() > 4 * 65_536);
    let words = "check --pointers 1 --lines 5 --answer answer dimmer never";
    check_reads(&rt, rt.alloc(), words, long.as_bytes(), 6, true)?;
    let rejected = vec![in rt.alloc(); b'\n'; 200_000]?;
    check_reads(&rt, rt.alloc(), CHECK_A_LOOP, rejected.as_slice(), 5, false)
}

#[test]
fn a_file_of_one_long_line(rt: HostRuntime) -> Result<(), Fail> {
    let mut shelf = shelf_of(rt.alloc())?;
    let bytes = vec![in rt.alloc(); b'x'; 67_108_865]?;
    shelf.add(b"answer", bytes.as_slice())?;
    let answer = answer_of(rt.alloc(), &mut shelf, CHECK_A_LOOP)?;
    assert_eq!(rt; answer.status, Status::No);
    assert_eq!(rt; answer.text.as_str(), "rejected\n");
    Ok(())
}
