//! Tables of texts with a fault. A row is the kind of the fault and the text, in which `@` stands before the byte at which
//! it has the fault.

use crate::calls::{check, shelf_of};
use bfgp_outside::MemoryShelf;
use std::alloc::Global;
use std::process::Abort;
use std::test::Fail;

/// Checks that each text of a table is refused, as the file `marked` that the words name beside these files.
pub fn check_table<R: Abort>(
    rt: &R,
    alloc: Global,
    files: &str,
    words: &str,
    table: &str,
) -> Result<(), Fail> {
    let mut shelf = shelf_of(alloc, files)?;
    for row in table.lines() {
        let (kind, marked) = row.split_once(": ").unwrap_or((row, ""));
        check_marked(rt, alloc, &mut shelf, words, kind, marked)?;
    }
    Ok(())
}

/// Checks that a text is refused, as the file `marked` that the words name.
pub fn check_marked<R: Abort>(
    rt: &R,
    alloc: Global,
    shelf: &mut MemoryShelf,
    words: &str,
    kind: &str,
    marked: &str,
) -> Result<(), Fail> {
    let (front, rest) = marked.split_once('@').unwrap_or((marked, ""));
    shelf.add(b"marked", format!(in alloc; "{front}{rest}")?.as_bytes())?;
    let fault = format!(in alloc; "input marked {kind} {}", front.len())?;
    check(rt, alloc, shelf, "3", words, fault.as_str())
}
