//! How commands are run over files in memory, and what is compared.
//!
//! Files are given as a text, one a line: its name and its text. Calls are given as a text: the exit status and the words on a
//! line, and on the lines below it what is written; an empty line parts one call from the next. Where a text of several lines
//! stands in one, ` / ` parts its lines.

use crate::given::FILES;
use bfgp_jobs::bfgp;
use bfgp_outside::{MemoryShelf, MemorySink, Shelf};
use std::alloc::{AllocError, Global};
use std::process::Abort;
use std::test::Fail;

/// A shelf that holds the files of all tests, and these.
pub fn shelf_of(alloc: Global, files: &str) -> Result<MemoryShelf, Fail> {
    let mut shelf = MemoryShelf::new(alloc);
    for file in FILES.lines().chain(files.lines()) {
        let (name, text) = file.split_once(": ").unwrap_or((file, ""));
        shelf.add(name.as_bytes(), lines_of(alloc, text)?.as_bytes())?;
    }
    Ok(shelf)
}

/// The lines that ` / ` parts, each with its line feed; none of a text that is empty.
pub fn lines_of(alloc: Global, text: &str) -> Result<String, AllocError> {
    let mut lines = String::new(alloc);
    if text.is_empty() {
        return Ok(lines);
    }
    for line in text.split(" / ") {
        lines.push_str(line)?;
        lines.push_str("\n")?;
    }
    Ok(lines)
}

/// Makes each of the calls over the files of all tests and these, and compares its status and what it writes.
pub fn check_calls<R: Abort>(rt: &R, alloc: Global, files: &str, calls: &str) -> Result<(), Fail> {
    let mut shelf = shelf_of(alloc, files)?;
    check_calls_over(rt, alloc, &mut shelf, calls)
}

/// The same over a shelf.
pub fn check_calls_over<R: Abort>(
    rt: &R,
    alloc: Global,
    shelf: &mut MemoryShelf,
    calls: &str,
) -> Result<(), Fail> {
    for call in calls.split("\n\n") {
        check_call(rt, alloc, shelf, call)?;
    }
    Ok(())
}

/// Makes one call, and compares its status and what it writes.
pub fn check_call<R: Abort>(
    rt: &R,
    alloc: Global,
    shelf: &mut MemoryShelf,
    call: &str,
) -> Result<(), Fail> {
    let (head, written) = call.split_once('\n').unwrap_or((call, ""));
    let (status, words) = head.split_once(' ').unwrap_or((head, ""));
    check(rt, alloc, shelf, status, words, written)
}

/// Runs the words over a shelf, and compares the status and the lines that are written.
pub fn check<R: Abort, S: Shelf>(
    rt: &R,
    alloc: Global,
    shelf: &mut S,
    status: &str,
    words: &str,
    written: &str,
) -> Result<(), Fail> {
    let mut sink = MemorySink::new(alloc, 4096, 16)?;
    let got = status_of(alloc, shelf, &mut sink, words)?;
    let mut lines = String::new(alloc);
    for line in written.lines() {
        lines.push_str(line)?;
        lines.push_str("\n")?;
    }
    assert_eq!(rt; got.as_str(), status, "{words}");
    assert_eq!(rt; sink.written(), lines.as_bytes(), "{words}");
    Ok(())
}

/// Runs the words over a shelf and a sink, and gives the number of the status.
pub fn status_of<S: Shelf>(
    alloc: Global,
    shelf: &mut S,
    sink: &mut MemorySink,
    words: &str,
) -> Result<String, AllocError> {
    let words = words_of(alloc, words)?;
    let status = bfgp(alloc, &words, shelf, sink);
    format!(in alloc; "{}", status as u8)
}

/// The words of a line, parted by single spaces; the empty line has none.
pub fn words_of(alloc: Global, line: &str) -> Result<Vec<String>, AllocError> {
    let mut words = Vec::new(alloc);
    if line.is_empty() {
        return Ok(words);
    }
    for word in line.split(' ') {
        words.push(String::from_str(alloc, word)?)?;
    }
    Ok(words)
}

/// What a search ends with.
#[derive(Drop)]
pub struct Searched {
    /// The number of the exit status.
    pub status: String,
    /// What is written.
    pub document: String,
}

impl Searched {
    /// The verdict in the document; empty where it has none.
    pub fn verdict(&self) -> &str {
        self.document
            .lines()
            .find_map(|line| line.strip_prefix("verdict "))
            .unwrap_or("")
    }

    /// How many splits the document has.
    pub fn splits(&self) -> usize {
        self.document
            .lines()
            .filter(|line| line.starts_with("s "))
            .count()
    }
}

/// Runs the words of a search over a shelf.
pub fn search<S: Shelf>(alloc: Global, shelf: &mut S, words: &str) -> Result<Searched, Fail> {
    let mut sink = MemorySink::new(alloc, 4096, 16)?;
    let status = status_of(alloc, shelf, &mut sink, words)?;
    let document = String::from_str(alloc, str::from_utf8(sink.written()).unwrap_or(""))?;
    Ok(Searched { status, document })
}

/// Checks that the document of a search is accepted for the same pointers, lines and inputs.
pub fn check_accepted<R: Abort>(
    rt: &R,
    alloc: Global,
    shelf: &mut MemoryShelf,
    search: &str,
    document: &str,
) -> Result<(), Fail> {
    shelf.add(b"answer", document.as_bytes())?;
    let words = words_of_check(alloc, search)?;
    check(rt, alloc, shelf, "0", words.as_str(), "accepted")
}

// The words of a check of the file `answer`, with the pointers, the lines and the inputs of a search.
fn words_of_check(alloc: Global, search: &str) -> Result<String, AllocError> {
    let mut words = String::from_str(alloc, "check")?;
    let mut inputs = String::new(alloc);
    let mut is_value = false;
    let mut is_kept = false;
    for word in search.split(' ').skip(1) {
        if word.starts_with("--") {
            is_value = true;
            is_kept = word == "--pointers" || word == "--lines";
            if is_kept {
                write!(words, " {word}")?;
            }
        } else if !is_value {
            write!(inputs, " {word}")?;
        } else {
            is_value = false;
            if is_kept {
                write!(words, " {word}")?;
            }
        }
    }
    write!(words, " --answer answer{inputs}")?;
    Ok(words)
}
