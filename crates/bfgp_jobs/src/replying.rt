ghost use Rattle.std.specs.Prelude.{◌≡◌, map, string_bytes, IfOk, IfErr};
ghost use Rattle.bfgp_outside.specs.Causes.{RoseIf};
ghost use Rattle.bfgp_outside.specs.Shelf.{Knowing, GoesOn};
ghost use Rattle.command_words.specs.Words.{IsJob};
ghost use Rattle.input_reading.specs.Asked.{AsksInTurn};
ghost use Rattle.input_reading.specs.Causes.{TellsFault, HaltCause, is_read_fault};
ghost use Rattle.input_reading.specs.Steps.{Gives};
ghost use Rattle.bfgp_jobs.specs.Due.{Due, job_due, usage_reply};
ghost use Rattle.bfgp_jobs.specs.Answers.{AreOfFamily, AreSearch, AsksForNamed, IsAnswerStatus, IsSearch, IsSpent, files_of};
ghost use Rattle.bfgp_jobs.specs.Inner.Replying.{told, lacks_file, ComesWithoutFiles, IsReplyStatus, RepliesUsage, RepliesWithoutFiles};

use crate::check::check;
use crate::family_search::search_family;
use crate::reply::Reply;
use crate::run::run;
use crate::status::Status;
use crate::synth::synth;
use bfgp_outside::Shelf;
use command_words::{Job, JobRefusal, job_of, usage_text};
use flag_rules::OutOfMemory;
use input_reading::Halt;
use std::alloc::Global;

/// Why there is nothing to write.
#[derive(Drop)]
pub(crate) enum NoReply {
    /// A file could not be read.
    ReadFault,
    /// Memory could not be had.
    OutOfMemory,
}

impl From<OutOfMemory> for NoReply {
    ghost use Rattle.std.specs.Prelude.{◌≡◌};
    ghost use Rattle.bfgp_jobs.specs.declared.replying.NoReply.TheVariants.{OutOfMemory as Memory};

    ghost from_gives = { λ _ none. none ≡ Memory };

    fn from(_: OutOfMemory) -> Self {
        NoReply::OutOfMemory
    }
}

/// The reply to the words of a command: all that can fail for input or memory. It is then written without either.
pub(crate) fn reply_to_words<S: Shelf>(
    alloc: Global,
    words: &[String],
    shelf: &mut S,
) -> Result<Reply, NoReply>
    ensures due { Knowing (S.files shelf.old)
        (λ files. IfOk result (Due (map string_bytes words.now) files)) }
    ensures usage { RepliesUsage (map string_bytes words.now) result }
    ensures input { IfOk result (λ reply. reply.status ≡ Status.Input →
        TellsFault (S.absences shelf.old) (S.absences shelf.new) reply.text) }
    ensures status { IfOk result (λ reply. IsReplyStatus reply.status) }
    ensures spent { IfOk result (λ reply. IsSpent reply.status → AreSearch (map string_bytes words.now)) }
    ensures reads { RoseIf (lacks_file result) (S.faults shelf.old) (S.faults shelf.new) }
    ensures goes_on { GoesOn S.files S.faults S.absences shelf.old shelf.new }
    ensures asks { AsksForNamed (map string_bytes words.now) (S.asked shelf.old) (S.asked shelf.new) }
    ensures family { AreOfFamily (map string_bytes words.now) →
        RepliesWithoutFiles (map string_bytes words.now) result }
{
    match job_of(alloc, words) {
        Ok(job) => tell(job_outcome(alloc, shelf, &job)),
        Err(JobRefusal::Usage) => Ok(usage(alloc)?),
        Err(JobRefusal::OutOfMemory) => Err(NoReply::OutOfMemory),
    }
}

// What a job comes to, as a reply.
fn tell(outcome: Result<Reply, Halt>) -> Result<Reply, NoReply>
    ensures { result ≡ told outcome }
{
    match outcome {
        Ok(reply) => Ok(reply),
        Err(Halt::Refused(line)) => Ok(Reply::of_text(Status::Input, line)),
        Err(Halt::ReadFault) => Err(NoReply::ReadFault),
        Err(Halt::OutOfMemory) => Err(NoReply::OutOfMemory),
    }
}

fn job_outcome<S: Shelf>(alloc: Global, shelf: &mut S, job: &Job) -> Result<Reply, Halt>
    requires { IsJob job.now }
    ensures due { Knowing (S.files shelf.old) (λ files. Gives (job_due files job.now) result) }
    ensures verdict { IfOk result (λ reply. IsAnswerStatus reply.status) }
    ensures spent { IfOk result (λ reply. IsSpent reply.status → IsSearch job.now) }
    ensures cause { IfErr result (HaltCause (S.absences shelf.old) (S.absences shelf.new)) }
    ensures reads { RoseIf (is_read_fault result) (S.faults shelf.old) (S.faults shelf.new) }
    ensures goes_on { GoesOn S.files S.faults S.absences shelf.old shelf.new }
    ensures asks { AsksInTurn (S.asked shelf.old) (S.asked shelf.new) (files_of job.now) }
    ensures family { ComesWithoutFiles job.now result }
{
    match job {
        Job::Synth(job) => synth(alloc, shelf, job),
        Job::Check(job) => check(alloc, shelf, job),
        Job::Run(job) => run(alloc, shelf, job),
        Job::Gen(job) => search_family(alloc, job),
    }
}

// The reply to words that are no job.
fn usage(alloc: Global) -> Result<Reply, OutOfMemory>
    ensures { IfOk result (λ reply. reply ≡ usage_reply) }
{
    Ok(Reply::of_text(Status::Usage, usage_text(alloc)?))
}
