ghost use Rattle.std.specs.Prelude.{◌≡◌, map, string_bytes, IfOk, IfErr};
ghost use Rattle.std.specs.Process.{exit_status};
ghost use Rattle.bfgp_outside.specs.Shelf.{Knowing, GoesOn};
ghost use Rattle.bfgp_outside.specs.Sink.{Keeps};
ghost use Rattle.bfgp_jobs.specs.Due.{Due};
ghost use Rattle.bfgp_jobs.specs.Answers.{Answers, AreOfFamily, UsageIsExact};
ghost use Rattle.bfgp_jobs.specs.Headline.{Headline, StandsWithoutFiles};
ghost use Rattle.bfgp_jobs.specs.Acceptance.{CheckAccepts};
ghost use Rattle.bfgp_jobs.specs.Process.{EndsWith, number_without_words};

use crate::status::Status;
use crate::top::bfgp;
use bfgp_outside::{Shelf, Sink};
use std::alloc::Global;
use std::io;
use std::process::ExitCode;

/// The exit status where a process does not get its words as text. No job ends with it.
pub const NO_WORDS: u8 = 9;

/// Runs the planner on the words that a process got, without the program's own name, if it got them as text; and gives what
/// the process is to end with: the number of the planner's status.
pub fn run_process<S: Shelf, K: Sink>(
    alloc: Global,
    words: io::Result<Vec<String>>,
    shelf: &mut S,
    out: &mut K,
) -> ExitCode
    ensures headline { IfOk words (λ words. EndsWith result (λ status. Knowing (S.files shelf.old) (λ files.
        Headline (map string_bytes words.items) files status (K.written out.old) (K.written out.new)))) }
    ensures check_accepts { IfOk words (λ words. EndsWith result (λ status. Knowing (S.files shelf.old) (λ files.
        CheckAccepts (map string_bytes words.items) files status (K.written out.old) (K.written out.new)))) }
    ensures due { IfOk words (λ words. EndsWith result (λ status. Knowing (S.files shelf.old) (λ files.
        Answers (Due (map string_bytes words.items) files) status (K.written out.old) (K.written out.new)))) }
    ensures family { IfOk words (λ words. AreOfFamily (map string_bytes words.items) → EndsWith result (λ status.
        StandsWithoutFiles (map string_bytes words.items) status (K.written out.old) (K.written out.new))) }
    ensures usage { IfOk words (λ words. EndsWith result (λ status.
        UsageIsExact (map string_bytes words.items) status (K.written out.old) (K.written out.new))) }
    ensures no_words { IfErr words (λ error. exit_status result ≡ number_without_words error) }
    ensures silent { IfErr words (λ error. Keeps (K.written out.old) (K.written out.new)) }
{
    match words {
        Ok(words) => bfgp(alloc, &words, shelf, out).exit_code(),
        Err(error) => exit_without_words(&error),
    }
}

// What a process ends with that did not get its words.
fn exit_without_words(error: &io::Error) -> ExitCode
    ensures { exit_status result ≡ number_without_words error.now }
{
    match error.kind() {
        io::ErrorKind::OutOfMemory => Status::OutOfMemory.exit_code(),
        _ => ExitCode::from(NO_WORDS),
    }
}
