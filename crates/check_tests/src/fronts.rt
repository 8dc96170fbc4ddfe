//! Documents that come byte by byte, that are cut, and that lack a byte or have a line twice: nothing but the whole is accepted.

use crate::calls::document_of;
use crate::verdicts::{check_verdict, has_verdict, times_accepted};
use std::alloc::{AllocError, Global};
use std::test::Fail;

// The words of a search, and those of a check of what it writes: a light is lit by one operation; a loop lights two, and three;
// no program of three lines does that; and none of five darkens a light, of which the document is longer than one read of a file.
const LIT: (&str, &str) = (
    "synth --pointers 1 --lines 5 lights unlit",
    "check --pointers 1 --lines 5 --answer answer lights unlit",
);

const LIT_BY_A_LOOP: (&str, &str) = (
    "synth --pointers 1 --lines 5 lights two three",
    "check --pointers 1 --lines 5 --answer answer lights two three",
);

const NOT_LIT: (&str, &str) = (
    "synth --pointers 1 --lines 3 lights two three",
    "check --pointers 1 --lines 3 --answer answer lights two three",
);

const NOT_DARKENED: (&str, &str) = (
    "synth --pointers 1 --lines 5 dimmer never",
    "check --pointers 1 --lines 5 --answer answer dimmer never",
);

#[test]
fn documents_are_accepted_after_their_last_byte_alone(rt: HostRuntime) -> Result<(), Fail> {
    for (search, check) in [LIT, LIT_BY_A_LOOP, NOT_LIT, NOT_DARKENED] {
        let document = document_of(rt.alloc(), search)?;
        let bytes = document.as_bytes();
        check_verdict(&rt, rt.alloc(), check, bytes, "accepted")?;
        assert_eq!(rt; times_accepted(rt.alloc(), check, bytes)?, 1, "{search}");
    }
    Ok(())
}

// How many bytes the document has of a light that is lit by one operation.
const LIT_BYTES: usize = 163;

#[test]
fn documents_without_a_byte_are_rejected(rt: HostRuntime) -> Result<(), Fail> {
    let (search, check) = LIT;
    let document = document_of(rt.alloc(), search)?;
    assert_eq!(rt; document.len(), LIT_BYTES);
    for place in 0..LIT_BYTES {
        let shorter = without_byte(rt.alloc(), document.as_bytes(), place)?;
        check_verdict(&rt, rt.alloc(), check, shorter.as_slice(), "rejected")?;
    }
    Ok(())
}

// The bytes without the one at a place.
fn without_byte(alloc: Global, bytes: &[u8], place: usize) -> Result<Vec<u8>, AllocError> {
    let mut shorter = Vec::new(alloc);
    for (before, byte) in bytes.iter().enumerate() {
        if before != place {
            shorter.push(*byte)?;
        }
    }
    Ok(shorter)
}

#[test]
fn documents_cut_after_a_line_or_with_one_twice_are_rejected(rt: HostRuntime) -> Result<(), Fail> {
    for (search, check) in [LIT_BY_A_LOOP, NOT_LIT] {
        let document = document_of(rt.alloc(), search)?;
        let document = document.as_str();
        for line in 0..document.lines().count() {
            assert!(rt;
                is_rejected_cut_or_doubled(rt.alloc(), check, document, line)?,
                "{search}: {line}"
            );
        }
    }
    Ok(())
}

// Whether a document is rejected that is cut after so many lines, and where the next line stands twice.
fn is_rejected_cut_or_doubled(
    alloc: Global,
    check: &str,
    document: &str,
    line: usize,
) -> Result<bool, Fail> {
    let cut = lines_joined(alloc, document, line, usize::MAX)?;
    let doubled = lines_joined(alloc, document, line.saturating_add(1), line)?;
    Ok(
        has_verdict(alloc, check, cut.as_bytes(), "rejected")?
            && has_verdict(alloc, check, doubled.as_bytes(), "rejected")?,
    )
}

// The lines of a text before one, and then those from another on.
fn lines_joined(alloc: Global, text: &str, to: usize, from: usize) -> Result<String, AllocError> {
    let mut changed = String::new(alloc);
    for line in text.lines().take(to).chain(text.lines().skip(from)) {
        changed.push_str(line)?;
        changed.push_str("\n")?;
    }
    Ok(changed)
}
