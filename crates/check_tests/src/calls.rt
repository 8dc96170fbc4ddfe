//! How commands are run over files in memory, and what the words of a check ask for.

ghost use Rattle.std.specs.Prelude.{IfOk};
ghost use Rattle.program_text.specs.Names.{AreNames};
ghost use Rattle.pointer_machine.specs.Texts.{operation_texts};

use crate::given::FILES;
use bfgp_jobs::{Status, bfgp};
use bfgp_outside::{MemoryShelf, MemorySink};
use command_words::{CheckJob, Job, job_of};
use input_reading::machine_for;
use pointer_machine::PointerMachine;
use std::alloc::{AllocError, Global};
use std::test::Fail;

/// A shelf that holds the files of all tests.
pub fn shelf_of(alloc: Global) -> Result<MemoryShelf, Fail> {
    let mut shelf = MemoryShelf::new(alloc);
    for file in FILES.lines() {
        let (name, text) = file.split_once(": ").unwrap_or((file, ""));
        shelf.add(name.as_bytes(), text.as_bytes())?;
    }
    Ok(shelf)
}

// The words of a line, parted by single spaces.
fn words_of(alloc: Global, line: &str) -> Result<Vec<String>, AllocError> {
    let mut words = Vec::new(alloc);
    for word in line.split(' ') {
        words.push(String::from_str(alloc, word)?)?;
    }
    Ok(words)
}

/// What a command ends with, and what it writes.
#[derive(Drop)]
pub struct Answer {
    /// How it ended.
    pub status: Status,
    /// What is written.
    pub text: String,
}

/// How many bytes a command may write.
const ROOM: usize = 1_048_576;

/// Runs the words over a shelf.
pub fn answer_of(alloc: Global, shelf: &mut MemoryShelf, words: &str) -> Result<Answer, Fail> {
    let words = words_of(alloc, words)?;
    let mut sink = MemorySink::new(alloc, ROOM, 4096)?;
    let status = bfgp(alloc, &words, shelf, &mut sink);
    let text = String::from_str(alloc, str::from_utf8(sink.written()).unwrap_or(""))?;
    Ok(Answer { status, text })
}

/// The document that a search writes.
pub fn document_of(alloc: Global, search: &str) -> Result<String, Fail> {
    let mut shelf = shelf_of(alloc)?;
    Ok(answer_of(alloc, &mut shelf, search)?.text)
}

/// The check that words ask for, and the machine over its inputs.
pub fn asked(alloc: Global, words: &str) -> Result<(CheckJob, PointerMachine), Fail>
    ensures { IfOk result (λ asked. AreNames (operation_texts asked.1.task asked.1.pointers)) }
{
    let words = words_of(alloc, words)?;
    let mut shelf = shelf_of(alloc)?;
    let Ok(Job::Check(job)) = job_of(alloc, &words) else {
        return Err(Fail::new("no check"));
    };
    let Ok(machine) = machine_for(alloc, &mut shelf, &job.inputs, job.pointers) else {
        return Err(Fail::new("no machine"));
    };
    Ok((job, machine))
}
