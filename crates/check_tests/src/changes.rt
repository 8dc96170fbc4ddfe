//! Documents of which one line is changed, and whether they are accepted. A row of a table is the number of the line, from 1, what
//! stands there instead, and the verdict; nothing stands there where the line is left out.

use crate::calls::document_of;
use crate::verdicts::has_verdict;
use std::alloc::{AllocError, Global};
use std::process::Abort;
use std::test::Fail;

/// Checks each change of the document that a search writes, by the words of a check of the file `answer`.
pub fn check_changes<R: Abort>(
    rt: &R,
    alloc: Global,
    search: &str,
    check: &str,
    changes: &str,
) -> Result<(), Fail> {
    let document = document_of(alloc, search)?;
    check_rows(rt, alloc, check, document.as_str(), changes)
}

// Checks each row of a table of changes of a document.
fn check_rows<R: Abort>(
    rt: &R,
    alloc: Global,
    words: &str,
    document: &str,
    changes: &str,
) -> Result<(), Fail> {
    for row in changes.lines() {
        let (change, verdict) = row.split_once(": ").unwrap_or((row, ""));
        let changed = changed(alloc, document, change)?;
        assert!(rt;
            has_verdict(alloc, words, changed.as_bytes(), verdict)?,
            "{row}"
        );
    }
    Ok(())
}

// The document with a change: the number of a line and, after a space, what stands there.
fn changed(alloc: Global, document: &str, change: &str) -> Result<String, AllocError> {
    let (number, instead) = change.split_once(' ').unwrap_or((change, ""));
    with_line(
        alloc,
        document,
        number.parse::<usize>().unwrap_or(0),
        instead,
    )
}

/// The document with another line in place of one, by its number from 1, or without it where nothing is given.
pub fn with_line(
    alloc: Global,
    document: &str,
    number: usize,
    instead: &str,
) -> Result<String, AllocError> {
    let mut changed = String::new(alloc);
    for (above, line) in document.lines().enumerate() {
        let line = if above + 1 == number { instead } else { line };
        if !line.is_empty() {
            changed.push_str(line)?;
            changed.push_str("\n")?;
        }
    }
    Ok(changed)
}
